// Frames written and read. Kreyvium's keystream comes as a word of 64 bits, its first bit the highest, as a record's
// eight bytes have theirs.
ghost use Rattle.std.specs.Prelude.{◌≡◌, ◌++◌, ◌+◌, ◌*◌, ◌≤◌, length};
ghost use Rattle.answer.specs.Bits.{added};
ghost use Rattle.answer.specs.Fronts.{over};
ghost use Rattle.instance.specs.Keys.{Keyed, key_in};
ghost use Rattle.kreyvium.specs.Words.{tops};
ghost use Rattle.kreyvium.specs.Kreyvium.{stream_of};
ghost use Rattle.port.specs.Bytes.{packed, BitList};
ghost use Rattle.sequence.specs.Files.{frame_size, frames_in};
ghost use Rattle.frames.specs.Frames.{frame_of, records_in};
ghost use Rattle.frames.specs.Inner.{iv_bits, key_two, mark_bytes, Whole};

use crate::bytes::{bit_word, put_bits, put_word, reversed};
use crate::iv::Iv;
use port::RECORD_BITS;
use sequence::{FRAME_SIZE, word};

// The key as Kreyvium takes it, its first bit lowest.
#[derive(Clone, Copy)]
pub(crate) struct Key {
    first: u64,
    second: u64,
}

impl Key {
    // No other function here knows how a key is lent.
    pub(crate) fn lent(key: &[u8]) -> Key
        requires { Keyed 6 key.now }
        ensures { key_two result ≡ key_in 6 key.now }
    {
        Key {
            first: reversed(bit_word(key, 0)),
            second: reversed(bit_word(key, 64)),
        }
    }

    // A record's word and the keystream under key and IV, added; the same takes the keystream off again.
    fn crossed(self, iv: Iv, x: u64) -> u64
        ensures { tops 64 result ≡ added (tops 64 x) (stream_of (key_two self) (iv_bits iv) 64) }
    {
        x ^ kreyvium::stream64(self.first, self.second, reversed(iv.high), reversed(iv.low))
    }
}

// The mark "PT".
fn put_mark(out: &mut [u8])
    requires { 2 ≤ length out.old }
    ensures { out.new ≡ over mark_bytes out.old }
{
    out[..2].copy_from_slice(b"PT");
}

// The mark, the IV and the word of the enciphered record.
fn put_parts(iv: Iv, x: u64, out: &mut [u8])
    requires { frame_size ≤ length out.old }
    ensures { out.new ≡ over (mark_bytes ++ packed 16 (iv_bits iv) ++ packed 8 (tops 64 x)) out.old }
{
    put_mark(out);
    put_word(iv.high, &mut out[2..]);
    put_word(iv.low, &mut out[10..]);
    put_word(x, &mut out[18..]);
}

// A new frame.
pub(crate) fn put_frame(key: Key, record: &[u8], iv: Iv, frame: &mut [u8])
    requires record_bits { BitList 64 «record».now }
    requires room { frame_size ≤ length frame.old }
    ensures { frame.new ≡ over (frame_of (key_two key) «record».now (iv_bits iv)) frame.old }
{
    let x = key.crossed(iv, bit_word(record, 0));
    put_parts(iv, x, frame);
}

// The records of a file of whole frames.
pub(crate) fn put_records(key: Key, file: &[u8], records: &mut [u8])
    requires whole { Whole (frames_in file.now) file.now }
    requires room { 64 * frames_in file.now ≤ length records.old }
    ensures { records.new ≡ over (records_in (key_two key) file.now (frames_in file.now)) records.old }
{
    for i in 0..file.len() / FRAME_SIZE {
        let v = Iv::in_frame(file, i);
        let x = key.crossed(v, word(file, FRAME_SIZE * i + 18));
        put_bits(x, &mut records[RECORD_BITS * i..]);
    }
}
