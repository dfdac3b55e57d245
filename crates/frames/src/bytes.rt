// Words of 64 bits in bytes and in bits, the high one first.
ghost use Rattle.std.specs.Prelude.{◌≡◌, ℕ, ◌+◌, ◌*◌, ◌-◌, ◌/◌, ◌%◌, ◌^◌, ◌<◌, ◌≤◌, length, get_or, take, drop};
ghost use Rattle.answer.specs.Fronts.{over};
ghost use Rattle.kreyvium.specs.Words.{bits, tops};
ghost use Rattle.port.specs.Bytes.{value_at, packed};
ghost use Rattle.frames.specs.Inner.{exchanged_by};

use cipher::bytes::spread;

// A word as eight bytes, at the front of a list.
pub(crate) fn put_word(x: u64, out: &mut [u8])
    requires { 8 ≤ length out.old }
    ensures { out.new ≡ over (packed 8 (tops 64 x)) out.old }
{
    out[..8].copy_from_slice(&x.to_be_bytes());
}

// Eight bits from a place on, the first highest. The factor has a one at places 0, 9, 18, .. 63 and takes the bit of byte
// k to place 63 - k. No two bits meet, and those that would come above place 63 are lost.
fn eight(s: &[u8], at: usize) -> u64
    requires { (at + 8 ≤ length s.now) × ((i : ℕ) → get_or s.now i 0 ≤ 1) }
    ensures { (result ≡ value_at 2 s.now at 8) × (result < 256) }
{
    let y = u64::from_le_bytes(s[at..at + 8].try_into().unwrap());
    y.wrapping_mul(9241421688590303745) >> 56
}

// The word that 64 bits from a place on make, eight at a time.
pub(crate) fn bit_word(s: &[u8], at: usize) -> u64
    requires { (at + 64 ≤ length s.now) × ((i : ℕ) → get_or s.now i 0 ≤ 1) }
    ensures { (result ≡ value_at 2 s.now at 64) × (tops 64 result ≡ take 64 (drop at s.now)) }
{
    let mut x: u64 = 0;
    for i in 0..8 {
        x = x * 256 + eight(s, at + 8 * i);
    }
    x
}

// A word as 64 bits, eight at a time, at the front of a list.
pub(crate) fn put_bits(x: u64, out: &mut [u8])
    requires { 64 ≤ length out.old }
    ensures { out.new ≡ over (tops 64 x) out.old }
{
    for i in 0..8 {
        let bits = spread(((x >> (56 - 8 * i)) % 256) as u8);
        out[8 * i..8 * i + 8].copy_from_slice(&bits);
    }
}

// Each group of k bits under the mask exchanged with the k bits above it.
fn exchanged(x: u64, k: u64, mask: u64) -> u64
    requires { k < 64 }
    ensures { result ≡ exchanged_by k mask x }
{
    ((x >> k) & mask) ^ ((x & mask) << k)
}

// The bits of a word in the other order: Kreyvium's words have the first bit lowest. Halves of 1, 2, 4, .. 32 bits are
// exchanged, which the compiler knows for a reversal; the library's `reverse_bits` takes them one by one.
pub(crate) fn reversed(x: u64) -> u64
    ensures { bits 64 result ≡ tops 64 x }
{
    let a = exchanged(x, 1, 6148914691236517205);
    let b = exchanged(a, 2, 3689348814741910323);
    let c = exchanged(b, 4, 1085102592571150095);
    let d = exchanged(c, 8, 71777214294589695);
    let e = exchanged(d, 16, 281470681808895);
    exchanged(e, 32, 4294967295)
}
