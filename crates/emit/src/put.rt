// Words stored into the result: gates, outputs. Room is the caller's to see to: register has put_gate too, since a
// public function asks nothing, and a test of the room at each gate would cost time.
ghost use Rattle.std.specs.Prelude.{◌≡◌, ◌+◌, ◌*◌, ◌≤◌, ◌<◌, length};
ghost use Rattle.std.proofs.lemmas.List.Edits.{sets};
ghost use Rattle.netlist.specs.Gates.{gate_words};
ghost use Rattle.netlist.specs.Glue.{up_from};

use netlist::gate::Gate;

// Where the next gate goes: its first word in the result, and its wire. It does not hold the result: each writer promises what
// the result is after it, and would say that of a field at the same length; headers and outputs are stored without a Next.
#[derive(Clone, Copy)]
pub(crate) struct Next {
    pub(crate) at: usize,
    pub(crate) wire: u32,
}

impl Next {
    // Behind so many gates.
    pub(crate) fn past(self, gates: usize) -> Next
        requires { (self.at + 4 * gates < 18446744073709551616) × (self.wire + gates < 4294967296) }
        ensures at_is { result.at ≡ self.at + 4 * gates }
        ensures wire_is { result.wire ≡ self.wire + gates }
    {
        Next {
            at: self.at + 4 * gates,
            wire: self.wire + (gates as u32),
        }
    }
}

// One gate's four words, from word at on.
pub(crate) fn put_gate(out: &mut [u32], at: usize, gate: Gate)
    requires { at + 4 ≤ length out.old }
    ensures { out.new ≡ sets out.old at (gate_words gate) }
{
    let [kind, a, b, c] = <[u32; 4]>::from(gate);
    out[at] = kind;
    out[at + 1] = a;
    out[at + 2] = b;
    out[at + 3] = c;
}

// Words copied from word at on; path and glue have their own, for the reason above.
pub(crate) fn put_words(out: &mut [u32], at: usize, words: &[u32])
    requires { at + length words.now ≤ length out.old }
    ensures { out.new ≡ sets out.old at words.now }
{
    out[at..at + words.len()].copy_from_slice(words);
}

// n wires in order from wire `from` on, stored from word at on.
pub(crate) fn put_wires(out: &mut [u32], at: usize, from: u32, n: u32)
    requires { (at + n ≤ length out.old) × (from + n < 4294967296) }
    ensures { out.new ≡ sets out.old at (up_from from n) }
{
    for k in 0..n {
        out[at + (k as usize)] = from + k;
    }
}
