// Gluing two netlists: docs/RULES.md, "Gluing". Inputs of the first; its gates; then the gates of the second,
// written from where the first's end; outputs of the second. Judged 9, 9, 8, 10, 11; the lists are the
// first, the second and the result.
#![tactic(auto)]

ghost use Rattle.std.specs.Prelude.{◌≡◌, [], ◌∷◌, map, ◌+◌, ◌<◌, ◌≤◌, length, ltb};
ghost use Rattle.std.proofs.lemmas.List.Edits.{sets};
ghost use Rattle.answer.specs.Choose.{choose};
ghost use Rattle.answer.specs.Fronts.{over};
ghost use Rattle.netlist.specs.Words.{header_words, gate_stride, gates_of, gates_words, gates_at};
ghost use Rattle.netlist.specs.Glue.{thru, ren};
ghost use Rattle.netlist.specs.Check.{output_limit};
ghost use Rattle.netlist.specs.Sound.{Limits};
ghost use Rattle.glue.specs.Glue.{glued_counts, fit_answer, glue_answer, glued_words, GluedAs, Fit};
ghost use Rattle.glue.specs.Inner.{SmallAll, second_words, Second};

use answer::{Answer, Reason};
use netlist::counts::{Counts, counts_of, put_header, word_count};
use netlist::{GATE_STRIDE, HEADER_WORDS};

// A gate's four words. They are not a Gate: the kind is the second's own, and each operand is reckoned alone.
fn put_gate(out: &mut [u32], at: usize, kind: u32, a: u32, b: u32, c: u32)
    requires { at + gate_stride ≤ length out.old }
    ensures { out.new ≡ sets out.old at (kind ∷ a ∷ b ∷ c ∷ []) }
{
    out[at] = kind;
    out[at + 1] = a;
    out[at + 2] = b;
    out[at + 3] = c;
}

// The seam of two glued netlists: the outputs of the first, which the inputs of the second become, and the number
// of the first's wires, after which the second's gates come.
#[derive(Clone, Copy)]
struct Seam<'a> {
    outs: &'a [u32],
    base: u32,
}

impl Seam<'_> {
    // Where wire i of the second netlist stands, if used is 1. If it is 0, 0: reckoned with and not branched on,
    // since kinds come in no order.
    fn wire(self, used: u32, i: u32) -> u32
        requires { (used ≤ 1) × (length self.outs.now ≤ output_limit) × (self.base + i < 4294967296) }
        ensures { result ≡ choose (ltb 0 used) (thru self.entry.outs.now self.entry.base i) 0 }
    {
        let inputs = used * (self.outs.len() as u32);
        if i < inputs {
            let k = i as usize;
            let output = self.outs[k];
            return output;
        }
        used * (self.base + i) - inputs
    }

    // The second netlist's gates. In an accepted netlist every kind is known: the walk does not end at one that
    // is not.
    fn put_gates(self, second: &[u32], gates: usize, out: &mut [u32])
        requires { (Second second.now self.outs.now self.base (length out.old)) × (gates ≡ gates_of second.now) }
        ensures { out.new ≡ over (gates_words (map (ren (thru self.entry.outs.now self.entry.base)) (gates_at second.now header_words gates))) out.old }
    {
        for g in 0..gates {
            let at = HEADER_WORDS + GATE_STRIDE * g;
            let kind = second[at];
            let i = second[at + 1];
            let j = second[at + 2];
            let k = second[at + 3];
            let Some(gate) = netlist::gate::take_apart(kind, i, j, k) else {
                return;
            };
            let used = netlist::gate::used(gate);
            let a = self.wire(used % 2, i);
            let b = self.wire(used / 2 % 2, j);
            let c = self.wire(used / 4, k);
            put_gate(out, GATE_STRIDE * g, kind, a, b, c);
        }
    }

    // The second netlist's outputs, which are the given words of it.
    fn put_outputs(self, wires: &[u32], out: &mut [u32])
        requires { (length wires.now ≤ length out.old) × SmallAll self.base wires.now × (length self.outs.now ≤ output_limit) }
        ensures { out.new ≡ over (map (thru self.entry.outs.now self.entry.base) wires.now) out.old }
    {
        for (o, &i) in wires.iter().enumerate() {
            out[o] = self.wire(1, i);
        }
    }

    // The second netlist's gates and outputs, from the front of what is lent.
    fn put_second(self, second: &[u32], out: &mut [u32])
        requires { Second second.now self.outs.now self.base (length out.old) }
        ensures { out.new ≡ over (second_words second.now self.entry.outs.now self.entry.base) out.old }
    {
        let gates = counts_of(second).gates as usize;
        let start = HEADER_WORDS + GATE_STRIDE * gates;
        let end = GATE_STRIDE * gates;
        self.put_gates(second, gates, out);
        self.put_outputs(&second[start..], &mut out[end..]);
    }
}

// A list's words, at the front. It asks for room, which a public function may not: evaluate has its own, for bytes.
fn copy(from: &[u32], out: &mut [u32])
    requires { length from.now ≤ length out.old }
    ensures { out.new ≡ over from.now out.old }
{
    for (i, &word) in from.iter().enumerate() {
        out[i] = word;
    }
}

// The glued netlist's counts.
fn glued(a: Counts, b: Counts) -> Counts
    requires { Limits a × Limits b }
    ensures { result ≡ glued_counts a b }
{
    Counts {
        inputs: a.inputs,
        gates: a.gates + b.gates,
        outputs: b.outputs,
    }
}

// The glued netlist's words. The part after the first's gates is lent to the writer of the second.
fn write(first: &[u32], second: &[u32], out: &mut [u32])
    requires { Fit first.now second.now (length out.old) }
    ensures { out.new ≡ over (glued_words first.now second.now) out.old }
{
    let counts = counts_of(first);
    let inputs = counts.inputs;
    let gates = counts.gates;
    let at = HEADER_WORDS + GATE_STRIDE * (gates as usize);
    put_header(out, glued(counts, counts_of(second)));
    copy(&first[HEADER_WORDS..at], &mut out[HEADER_WORDS..]);
    let seam = Seam {
        outs: &first[at..],
        base: inputs + gates,
    };
    seam.put_second(second, &mut out[at..]);
}

// Whether the two fit, and have not too many gates.
#[tactic(auto, using(answer::proofs::Rows::stop, answer::proofs::Rows::pass), unfolding(answer::specs::Answers::refuse))]
fn fitting(a: Counts, b: Counts) -> Answer
    requires { Limits a × Limits b }
    ensures { result ≡ fit_answer a b }
{
    if a.outputs != b.inputs {
        return answer::refused(Reason::Fit, 0, 0);
    }
    let whole = glued(a, b);
    if netlist::GATE_LIMIT < whole.gates {
        return answer::refused(Reason::Gates, 0, 0);
    }
    Ok(())
}

#[tactic(auto, using(answer::proofs::Rows::stop, answer::proofs::Rows::go, netlist::proofs::Accepted::done_sound), unfolding(crate::specs::Glue::glue_answer))]
fn judge(first: &[u32], second: &[u32], room: usize) -> Answer
    ensures { result ≡ glue_answer first.now second.now room }
{
    netlist::check::check_as(first, 1)?;
    netlist::check::check_as(second, 2)?;
    let a = counts_of(first);
    let b = counts_of(second);
    answer::room(room, word_count(glued(a, b)), 3)?;
    fitting(a, b)
}

// The first netlist glued to the second.
#[tactic(auto, using(answer::proofs::Over::kept, answer::proofs::Over::made, crate::proofs::Accepted::done_fit))]
pub fn glue(first: &[u32], second: &[u32], out: &mut [u32]) -> Answer
    ensures { GluedAs first.now second.now out.old result out.new }
{
    judge(first, second, out.len())?;
    write(first, second, out);
    Ok(())
}
