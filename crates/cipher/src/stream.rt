// Instance 6: Kreyvium's keystream over a key and an IV.
ghost use Rattle.std.specs.Prelude.{◌≡◌, ℕ, ◌+◌, ◌*◌, ◌-◌, ◌/◌, ◌%◌, ◌^◌, ◌<◌, ◌≤◌, length, get_or, take, drop};
ghost use Rattle.answer.specs.Fronts.{over};
ghost use Rattle.kreyvium.specs.Words.{packed, tops};
ghost use Rattle.kreyvium.specs.Kreyvium.{stream_of};
ghost use Rattle.instance.specs.Keys.{Keyed, key_in};
ghost use Rattle.cipher.specs.Inner.{apart};

use crate::bytes::spread;

// A list of bits, of which words are made.
#[derive(Clone, Copy)]
pub(crate) struct Bits<'a> {
    pub(crate) list: &'a [u8],
    ghost small: { (i : ℕ) → get_or list.now i 0 ≤ 1 },
}

impl Bits<'_> {
    // Four bits from a place on, eight places apart: as the bytes stand, so that they are read at once.
    fn four(&self, at: usize) -> u64
        requires { at + 4 ≤ length self.now.list.now }
        ensures { (result ≡ apart self.now.list.now at) × (result ≤ 16843009) }
    {
        let s = self.list;
        u64::from(u32::from_le_bytes([s[at], s[at + 1], s[at + 2], s[at + 3]]))
    }

    // Eight bits from a place on, the first lowest. Bits k and k + 4 stand side by side in byte k; the factor has a one
    // at places 0, 7, 14 and 21, and takes byte k to place 21 + k. No two bits meet.
    fn eight(&self, at: usize) -> u64
        requires { at + 8 ≤ length self.now.list.now }
        ensures { result ≡ packed (take 8 (drop at self.now.list.now)) }
    {
        let y = self.four(at) + self.four(at + 4) * 16;
        ((y * 2113665) >> 21) % 256
    }

    // 64 bits, eight at a time.
    pub(crate) fn word(&self, from: usize) -> u64
        requires { from + 64 ≤ length self.now.list.now }
        ensures { result ≡ packed (take 64 (drop from self.now.list.now)) }
    {
        let mut w = 0;
        for e in (0..8).rev() {
            w = w * 256 + self.eight(from + 8 * e);
        }
        w
    }
}

// 64 bits of the key, the first lowest. No other function here knows how a key is lent.
pub(crate) fn key_word(key: &[u8], from: usize) -> u64
    requires { Keyed 6 key.now × (from ≤ 64) }
    ensures { result ≡ packed (take 64 (drop from (key_in 6 key.now))) }
{
    Bits { list: key }.word(from)
}

// The first bits of a block, eight at a time: the bit at place 63, at 62, and so on down. How many there are. That out
// has no more places than a block has bits is asked by each function here: out is lent, and in no struct.
fn put_eights(z: u64, out: &mut [u8]) -> usize
    requires { length out.old ≤ 64 }
    ensures { (out.new ≡ over (tops result z) out.old) × (result ≤ length out.old) }
{
    let eights = out.len() / 8;
    for e in 0..eights {
        let i = 8 * e;
        out[i..i + 8].copy_from_slice(&spread(((z >> (56 - i)) % 256) as u8));
    }
    8 * eights
}

// The others, where so many stand there.
fn put_rest(z: u64, from: usize, out: &mut [u8])
    requires { (length out.old ≤ 64) × (from ≤ length out.old) × (out.old ≡ over (tops from z) out.old) }
    ensures { out.new ≡ tops (length out.old) z }
{
    for i in from..out.len() {
        out[i] = ((z >> (63 - i)) % 2) as u8;
    }
}

fn put_block(z: u64, out: &mut [u8])
    requires { length out.old ≤ 64 }
    ensures { out.new ≡ tops (length out.old) z }
{
    let i = put_eights(z, out);
    put_rest(z, i, out);
}

// The same. A whole block is lent on by its length, a constant, so that the compiler writes no loop for it.
pub(crate) fn put_front(z: u64, out: &mut [u8])
    requires { length out.old ≤ 64 }
    ensures { out.new ≡ tops (length out.old) z }
{
    if out.len() == 64 {
        put_block(z, &mut out[..64]);
    } else {
        put_block(z, out);
    }
}

// The keystream's first bits, one for each place of out.
pub(crate) fn put(key: &[u8], iv: &[u8], out: &mut [u8])
    requires { (length out.old ≤ 64) × Keyed 6 key.now × (length iv.now ≡ 128) × ((i : ℕ) → get_or iv.now i 0 ≤ 1) }
    ensures { out.new ≡ stream_of (key_in 6 key.now) iv.now (length out.old) }
{
    let k0 = key_word(key, 0);
    let k1 = key_word(key, 64);
    let iv = Bits { list: iv };
    let v0 = iv.word(0);
    let v1 = iv.word(64);
    put_front(kreyvium::stream64(k0, k1, v0, v1), out);
}
