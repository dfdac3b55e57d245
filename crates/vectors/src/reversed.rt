// Kreyvium with key and IV loaded into the registers in reverse. A library in circulation loads them so,
// and public vectors come from it. The rules load them as they are; this is for its vectors alone, and
// everything after the loading is the product's.
ghost use Rattle.std.specs.Prelude.{◌≡◌, ◌++◌, reverse, ℕ, ◌≤◌};
ghost use Rattle.kreyvium.specs.Kreyvium.{rounds, stream};
ghost use Rattle.kreyvium.specs.Words.{bits, tops, state_of};
ghost use Rattle.vectors.specs.Reversed.{loaded_in_reverse};

use kreyvium::State;

// The 64 bits of a word in reverse.
pub(crate) fn turned(x: u64) -> u64
    ensures { bits 64 result ≡ reverse (bits 64 x) }
{
    x.reverse_bits()
}

// s1 = K127 .. s93 = K35, s94 = IV127 .. s221 = IV0; K* and IV* as the rules load them.
fn load(k0: u64, k1: u64, v0: u64, v1: u64) -> State
    ensures { state_of result ≡ loaded_in_reverse (bits 64 k0 ++ bits 64 k1) (bits 64 v0 ++ bits 64 v1) }
{
    let s = State::load(turned(k1), turned(k0), turned(v1), turned(v0));
    s.with_stars(k0, k1, v0, v1)
}

// The first 64 keystream bits, the first at place 63, as `kreyvium::stream64` gives them.
pub(crate) fn stream64(k0: u64, k1: u64, v0: u64, v1: u64) -> u64
    ensures { (n : ℕ) → n ≤ 64 → tops n result ≡ stream n (rounds 1152 (loaded_in_reverse (bits 64 k0 ++ bits 64 k1) (bits 64 v0 ++ bits 64 v1))) }
{
    load(k0, k1, v0, v1).warmed().outputs64()
}
