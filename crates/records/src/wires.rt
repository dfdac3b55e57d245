// The words of a file whose records are whole, judged where they stand: 9, at the word's place in the netlist.
ghost use Rattle.std.specs.Prelude.{◌≡◌, ◌+◌, ◌*◌, ◌≤◌, length, ltb};
ghost use Rattle.answer.specs.Answers.{each};
ghost use Rattle.answer.specs.Choose.{choose};
ghost use Rattle.netlist.specs.Check.{wires_answer};
ghost use Rattle.netlist.specs.Sound.{Limits};
ghost use Rattle.records.specs.Bytes.{word_at};
ghost use Rattle.records.specs.File.{out_size, counts_in, gates_in, size_at, start_of, words_in};
ghost use Rattle.records.specs.Inner.{gate_wire, out_wire, GatesThere, Framed};
ghost use Rattle.records.specs.Whole.{quad_in};

use crate::Quad;
use crate::bytes::word_there;
use crate::form::{Form, HEAD_SIZE, OUT_SIZE};
use answer::{Answer, Reason};
use netlist::counts::Counts;
use netlist::{GATE_STRIDE, HEADER_WORDS};

// Operand j of the gate record at p, which has n.
#[tactic(auto, unfolding(answer::specs::Choose::choose))]
fn operand(s: &[u8], p: usize, j: usize, n: usize) -> u32
    requires { p + 3 + 4 * n ≤ length s.now }
    ensures { result ≡ choose (ltb j n) (word_at s.now (p + 3 + 4 * j)) 0 }
{
    if j < n {
        word_there(s, p + 3 + 4 * j)
    } else {
        0
    }
}

// The gate record at p, whose bytes are all there.
#[tactic(auto, using(crate::proofs::Judged::operand_from, crate::proofs::Judged::quad_is, crate::proofs::Judged::size_is, crate::proofs::Judged::size_least))]
pub(crate) fn quad_there(s: &[u8], form: Form, p: usize) -> Quad
    requires { p + size_at form s.now p ≤ length s.now }
    ensures { result ≡ quad_in form s.now p }
{
    let kind = u32::from(s[p + 2]);
    let n = crate::form::width(form, kind);
    Quad {
        kind,
        a: operand(s, p, 0, n),
        b: operand(s, p, 1, n),
        c: operand(s, p, 2, n),
        size: 3 + 4 * n,
    }
}

#[tactic(auto, using(answer::proofs::Rows::each_stop, answer::proofs::Rows::each_more, answer::proofs::Rows::each_all, answer::proofs::Rows::each_none, crate::proofs::Judged::start_next, crate::proofs::Judged::start_zero, crate::proofs::Judged::there_at, crate::proofs::Judged::wire_at, crate::proofs::Judged::quad_size))]
fn gate_wires(s: &[u8], form: Form, counts: Counts) -> Answer
    requires { Limits counts × GatesThere form s.now counts.gates }
    ensures { result ≡ each counts.gates (gate_wire form s.now counts.inputs) }
{
    let mut at: usize = HEAD_SIZE;
    for g in 0..counts.gates {
        let q = quad_there(s, form, at);
        let place = (HEADER_WORDS as u32) + (GATE_STRIDE as u32) * g;
        netlist::check::words(q.kind, q.a, q.b, q.c, counts.inputs + g, 1, place)?;
        at += q.size;
    }
    Ok(())
}

#[tactic(auto, using(answer::proofs::Rows::each_stop, answer::proofs::Rows::each_more, answer::proofs::Rows::each_all, answer::proofs::Rows::each_none), unfolding(crate::specs::Inner::out_wire, answer::specs::Answers::refuse))]
fn out_wires(s: &[u8], from: usize, counts: Counts) -> Answer
    requires { Limits counts × (from + out_size * counts.outputs ≤ length s.now) }
    ensures { result ≡ each counts.outputs (out_wire s.now from counts.inputs counts.gates) }
{
    let wires = counts.inputs + counts.gates;
    let base = HEADER_WORDS + GATE_STRIDE * (counts.gates as usize);
    for o in 0..counts.outputs {
        let i = o as usize;
        let x = word_there(s, from + OUT_SIZE * i + 2);
        if wires <= x {
            return answer::refused(Reason::Netlist, 1, base + i);
        }
    }
    Ok(())
}

// The words after the counts, in order; from is where the outputs' records begin.
#[tactic(auto, using(crate::proofs::Found::out_ends, crate::proofs::Judged::gates_there, crate::proofs::Judged::counted_limits, crate::proofs::Judged::whole_counts_lem, crate::proofs::Judged::wires_go, crate::proofs::Judged::wires_stop))]
pub(crate) fn wires(s: &[u8], form: Form, from: usize) -> Answer
    requires { (from ≡ start_of form s.now (gates_in s.now)) × Framed form s.now }
    ensures { result ≡ wires_answer 1 (words_in form s.now) (counts_in s.now) }
{
    let counts = crate::counts_in(s);
    gate_wires(s, form, counts)?;
    out_wires(s, from, counts)
}
