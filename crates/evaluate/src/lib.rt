// Evaluation of a netlist on bits in the clear: docs/RULES.md, "Netlists". A value for every wire, then the
// outputs. Judged 9, 3, 4, 8; the lists are the netlist, the inputs, the values and the outputs.
#![tactic(auto)]

ghost use Rattle.std.specs.Prelude.{◌≡◌, ◌<◌, ◌≤◌, ℕ, map, length, get_or};
ghost use Rattle.answer.specs.Fronts.{over};
ghost use Rattle.netlist.specs.Net.{at, val_alg};
ghost use Rattle.evaluate.specs.Evaluate.{evaluate_answer, Evaluated};
ghost use Rattle.evaluate.specs.Inner.{truth_of, truth_at, gates_put, GatesFit};

use answer::Answer;
use netlist::counts::counts_of;
use netlist::gate::Gate;
use netlist::{GATE_STRIDE, HEADER_WORDS};

// A gate's values as one number: bit x + 2y + 4z of it is the value where a, b and c carry x, y and z. Read
// so and not by a branch, since kinds come in no order.
fn truth(gate: Gate) -> u8
    ensures { result ≡ truth_of gate }
{
    match gate {
        Gate::Zero => 0,
        Gate::One => 255,
        Gate::Not(_) => 85,
        Gate::Xor(_, _) => 102,
        Gate::And(_, _) => 136,
        Gate::Mux(_, _, _) => 228,
    }
}

// What a gate makes of x, y and z on its operand words; those that it does not use do not count.
#[tactic(auto, unfolding(crate::specs::Inner::truth_at))]
fn value(gate: Gate, x: u8, y: u8, z: u8) -> u8
    ensures { result ≡ truth_at gate x y z }
{
    (truth(gate) >> (x % 2 + 2 * (y % 2) + 4 * (z % 2))) % 2
}

// The inputs' values, at the front. It asks for room, which a public function may not: glue has its own, for words.
fn put_inputs(inputs: &[u8], values: &mut [u8])
    requires { length inputs.now ≤ length values.old }
    ensures { values.new ≡ over inputs.now values.old }
{
    for (i, &input) in inputs.iter().enumerate() {
        values[i] = input;
    }
}

// The gates' values, after those of the inputs, which stand. In an accepted netlist every kind is known: the
// walk does not end at one that is not. inputs and gates are two of its counts, as places of lists, and read once.
#[tactic(auto, using(crate::proofs::Walks::first_low, crate::proofs::Walks::second_low, crate::proofs::Walks::third_low))]
fn put_gates(net: &[u32], values: &mut [u8], inputs: usize, gates: usize)
    requires { GatesFit net.now inputs gates values.old }
    ensures { values.new ≡ gates_put net.now inputs gates values.old }
{
    for g in 0..gates {
        let at = HEADER_WORDS + GATE_STRIDE * g;
        let a = net[at + 1];
        let b = net[at + 2];
        let c = net[at + 3];
        let Some(gate) = netlist::gate::take_apart(net[at], a, b, c) else {
            return;
        };
        let i = a as usize;
        let j = b as usize;
        let k = c as usize;
        let v = value(gate, values[i], values[j], values[k]);
        let wire = inputs + g;
        values[wire] = v;
    }
}

// The values of some output wires, where every wire's value stands.
fn put_outputs(wires: &[u32], values: &[u8], outputs: &mut [u8])
    requires { (length wires.now ≤ length outputs.old) × ((k : ℕ) → k < length wires.now → get_or wires.now k 0 < length values.now) }
    ensures { outputs.new ≡ over (map (at val_alg values.now) wires.now) outputs.old }
{
    for (o, &wire) in wires.iter().enumerate() {
        outputs[o] = values[wire as usize];
    }
}

// 9, 3, 4, then 8 of the values and of the outputs.
#[tactic(auto, using(answer::proofs::Rows::stop, answer::proofs::Rows::go), unfolding(crate::specs::Evaluate::evaluate_answer))]
fn judge(net: &[u32], inputs: &[u8], value_room: usize, output_room: usize) -> Answer
    ensures { result ≡ evaluate_answer net.now inputs.now value_room output_room }
{
    netlist::check::check_as(net, 1)?;
    let c = counts_of(net);
    let i = c.inputs as usize;
    let g = c.gates as usize;
    answer::exact(inputs.len(), i, 2)?;
    answer::bits(inputs, 2)?;
    answer::room(value_room, i + g, 3)?;
    answer::room(output_room, c.outputs as usize, 4)
}

// A value for every wire, then the outputs.
pub fn evaluate(net: &[u32], inputs: &[u8], values: &mut [u8], outputs: &mut [u8]) -> Answer
    ensures { Evaluated net.now inputs.now values.old outputs.old result values.new outputs.new }
{
    judge(net, inputs, values.len(), outputs.len())?;
    let c = counts_of(net);
    let i = c.inputs as usize;
    let g = c.gates as usize;
    put_inputs(inputs, values);
    put_gates(net, values, i, g);
    put_outputs(&net[HEADER_WORDS + GATE_STRIDE * g..], values, outputs);
    Ok(())
}
