// A gate's words stored into the result. Room is the caller's to see to: emit has this function too, since a public one
// asks nothing, and a test of the room at each gate would cost time.
ghost use Rattle.std.specs.Prelude.{◌≡◌, ◌+◌, ◌≤◌, length};
ghost use Rattle.std.proofs.lemmas.List.Edits.{sets};
ghost use Rattle.netlist.specs.Gates.{gate_words};

use netlist::gate::Gate;

// One gate's four words, from word at on.
pub(crate) fn put_gate(out: &mut [u32], at: usize, gate: Gate)
    requires { at + 4 ≤ length out.old }
    ensures { out.new ≡ sets out.old at (gate_words gate) }
{
    let [kind, a, b, c] = <[u32; 4]>::from(gate);
    out[at] = kind;
    out[at + 1] = a;
    out[at + 2] = b;
    out[at + 3] = c;
}
