// Kreyvium's keystream by the single round of the product, one after the other. The keystream that the product gives
// out is made 64 rounds at a time, and both must be the same.
ghost use Rattle.std.specs.Prelude.{◌≡◌, ◌++◌, ℕ, ◌≤◌};
ghost use Rattle.kreyvium.specs.Kreyvium.{rounds, stream, stream_of};
ghost use Rattle.kreyvium.specs.Words.{bits, tops, state_of};

use kreyvium::State;

// The 1,152 rounds before the first output bit.
fn warmed(s: State) -> State
    ensures { state_of result ≡ rounds 1152 (state_of s) }
{
    let mut t = s;
    for i in 0..1152u32 {
        t = t.round();
    }
    t
}

// 64 rounds with their output bits, the first at place 63.
fn outputs(s: State) -> u64
    ensures { (n : ℕ) → n ≤ 64 → tops n result ≡ stream n (state_of s) }
{
    let mut t = s;
    let mut z: u64 = 0;
    for i in 0..64u32 {
        z = z * 2 + u64::from(t.output());
        t = t.round();
    }
    z
}

// The first 64 keystream bits, as `kreyvium::stream64` gives them.
pub(crate) fn stream64(k0: u64, k1: u64, v0: u64, v1: u64) -> u64
    ensures { (n : ℕ) → n ≤ 64 → tops n result ≡ stream_of (bits 64 k0 ++ bits 64 k1) (bits 64 v0 ++ bits 64 v1) n }
{
    outputs(warmed(State::load(k0, k1, v0, v1)))
}
