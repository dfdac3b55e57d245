// The rules' cases of thresholds and one-hot netlists, by evaluating the netlists that are emitted; and
// emitted netlists that the rules describe, gate by gate. Each list has just the words that its netlist takes.
use crate::text::{say, say_bits, say_number, say_words};
use netlist::counts::{Counts, counts_of};
use netlist::gate::{Gate, take_apart};
use netlist::{GATE_STRIDE, HEADER_WORDS};

// No call emits this one, over five inputs: 5 XOR 0 1; 2 of 3 over wires 2, 3 and 4, with 6 NOT 2, 7 MUX 3 2 6,
// 8 AND 2 3, 9 AND 7 4, 10 XOR 9 8; 11 XOR 5 10.
const XOR_AND_THRESHOLD: [Gate; 7] = [
    Gate::Xor(0, 1),
    Gate::Not(2),
    Gate::Mux(3, 2, 6),
    Gate::And(2, 3),
    Gate::And(7, 4),
    Gate::Xor(9, 8),
    Gate::Xor(5, 10),
];

// Its words: header, gates, and wire 11 for an output.
fn xor_and_threshold() -> [u32; 32] {
    let mut net = [0u32; 32];
    let counts = Counts {
        inputs: 5,
        gates: 7,
        outputs: 1,
    };
    netlist::counts::put_header(&mut net, counts);
    for (g, &gate) in XOR_AND_THRESHOLD.iter().enumerate() {
        let at = HEADER_WORDS + GATE_STRIDE * g;
        net[at..at + GATE_STRIDE].copy_from_slice(&<[u32; 4]>::from(gate));
    }
    net[31] = 11;
    net
}

// What a netlist gives, printed: as many bits as its outputs.
fn say_outputs(net: &[u32], inputs: &[u8]) {
    let mut values = [0u8; 12];
    let mut outputs = [0u8; 3];
    let Ok(()) = evaluate::evaluate(net, inputs, &mut values, &mut outputs) else {
        say(b"refused");
        return;
    };
    let count = (counts_of(net).outputs as usize).min(outputs.len());
    say_bits(&outputs[..count]);
}

fn line(source: &[u8], net: &[u32], inputs: &[u8]) {
    say(source);
    say(b" on ");
    say_bits(inputs);
    say(b": ");
    say_outputs(net, inputs);
    say(b"\n");
}

fn threshold(source: &[u8], d: u32, n: u32, net: &mut [u32], inputs: &[u8]) {
    let Ok(()) = emit::emit_threshold(d, n, net) else {
        say(b"refused\n");
        return;
    };
    line(source, net, inputs);
}

fn one_hot(n: u32, net: &mut [u32], inputs: &[u8]) {
    let Ok(()) = emit::emit_one_hot(n, net) else {
        say(b"refused\n");
        return;
    };
    line(b"rules, Cases, one-hot", net, inputs);
}

fn print_thresholds() {
    let mut two = [0u32; 24];
    threshold(
        b"rules, Cases, threshold 2 of 3",
        2,
        3,
        &mut two,
        &[0, 1, 1],
    );
    threshold(
        b"rules, Cases, threshold 2 of 3",
        2,
        3,
        &mut two,
        &[1, 0, 0],
    );
}

fn print_edges() {
    let mut three = [0u32; 12];
    threshold(
        b"rules, Cases, threshold 3 of 3",
        3,
        3,
        &mut three,
        &[1, 1, 1],
    );
    let mut one = [0u32; 4];
    threshold(b"rules, Cases, threshold 1 of 1", 1, 1, &mut one, &[1]);
    let mut four = [0u32; 8];
    threshold(
        b"rules, Cases, threshold 4 of 3",
        4,
        3,
        &mut four,
        &[1, 1, 1],
    );
}

fn print_one_hots() {
    let mut pair = [0u32; 26];
    one_hot(2, &mut pair, &[1, 0]);
    let mut none = [0u32; 8];
    one_hot(0, &mut none, &[]);
}

fn say_operation(name: &[u8], wires: &[u32]) {
    say(name);
    say_words(wires);
}

// A gate's wire, kind and used operands.
fn say_gate(net: &[u32], g: u32) {
    let start = HEADER_WORDS + GATE_STRIDE * (g as usize);
    let word = |i: usize| answer::get_or(net, start + i, 0);
    say(b" ");
    say_number(counts_of(net).inputs as usize + g as usize);
    say(b" ");
    match take_apart(word(0), word(1), word(2), word(3)) {
        None => say(b"no kind"),
        Some(Gate::Zero) => say_operation(b"ZERO", &[]),
        Some(Gate::One) => say_operation(b"ONE", &[]),
        Some(Gate::Not(a)) => say_operation(b"NOT", &[a]),
        Some(Gate::Xor(a, b)) => say_operation(b"XOR", &[a, b]),
        Some(Gate::And(a, b)) => say_operation(b"AND", &[a, b]),
        Some(Gate::Mux(a, b, c)) => say_operation(b"MUX", &[a, b, c]),
    }
    say(b";");
}

// Gates from one on, up to another.
fn say_gates(net: &[u32], from: u32, to: u32) {
    for g in from..to {
        say_gate(net, g);
    }
}

fn print_two_of_three() {
    let mut net = [0u32; 24];
    let Ok(()) = emit::emit_threshold(2, 3, &mut net) else {
        say(b"refused\n");
        return;
    };
    say(b"rules, The printing program, threshold 2 of 3:");
    say_gates(&net, 0, 5);
    say(b" out ");
    say_number(answer::get_or(&net, 23, 0) as usize);
    say(b"\n");
}

// ZERO, ONE and the first round; the last round, which gives the bit.
fn say_kreyvium(net: &[u32]) {
    say(b"rules, What is emitted, Kreyvium of 1 bit, IV all zero: ");
    say_number(counts_of(net).gates as usize);
    say(b" gates, from");
    say_gates(net, 0, 16);
    say(b" to");
    say_gates(net, 16130, 16147);
    say(b" out ");
    say_number(answer::get_or(net, 64591, 0) as usize);
    say(b"\n");
}

fn print_kreyvium() {
    let mut net = [0u32; 64592];
    let r = emit::emit_decipher(6, 1, &[], &[0; 128], &mut net);
    let Ok(()) = r else {
        say(b"refused\n");
        return;
    };
    say_kreyvium(&net);
}

pub(crate) fn print() {
    print_thresholds();
    print_edges();
    line(
        b"rules, Cases, XOR of 2 with 2 of 3",
        &xor_and_threshold(),
        &[1, 0, 0, 1, 1],
    );
    print_one_hots();
    print_two_of_three();
    print_kreyvium();
}
