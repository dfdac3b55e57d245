// An IV in two words, as Kreyvium takes it and as a number.
ghost use Rattle.std.specs.Prelude.{◌≡◌, ◌+◌, ◌≤◌, length, nat_lt};
ghost use Rattle.port.specs.Bytes.{unpacked, BitList};
ghost use Rattle.sequence.specs.Files.{frame_size, start, iv_number};
ghost use Rattle.frames.specs.Inner.{iv_bits, iv_two};

use crate::bytes::bit_word;
use sequence::{FRAME_SIZE, iv_above, word};

// Its first bit is the highest of the first word.
#[derive(Clone, Copy)]
pub(crate) struct Iv {
    pub(crate) high: u64,
    pub(crate) low: u64,
}

impl Iv {
    // The IV that 128 bits are.
    pub(crate) fn of_bits(iv: &[u8]) -> Iv
        requires { BitList 128 iv.now }
        ensures { iv_bits result ≡ iv.now }
    {
        Iv {
            high: bit_word(iv, 0),
            low: bit_word(iv, 64),
        }
    }

    // The IV of frame k.
    pub(crate) fn in_frame(s: &[u8], k: usize) -> Iv
        requires { start k + frame_size ≤ length s.now }
        ensures bits { iv_bits result ≡ unpacked s.now (start k + 2) 128 }
        ensures number { iv_two result ≡ iv_number s.now k }
    {
        let at = FRAME_SIZE * k;
        Iv {
            high: word(s, at + 2),
            low: word(s, at + 10),
        }
    }

    // Whether it is above the one before.
    pub(crate) fn above(self, before: Iv) -> bool
        ensures { result ≡ nat_lt (iv_two before) (iv_two self) }
    {
        iv_above(before.high, before.low, self.high, self.low)
    }
}
