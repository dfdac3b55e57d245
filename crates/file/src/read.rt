// The words of a file that was judged, stored as a netlist.
ghost use Rattle.std.specs.Prelude.{◌≡◌, ◌+◌, ◌*◌, ◌≤◌, length};
ghost use Rattle.std.proofs.lemmas.List.Edits.{sets};
ghost use Rattle.answer.specs.Fronts.{over};
ghost use Rattle.netlist.specs.Words.{header_words, gate_place, word_count};
ghost use Rattle.netlist.specs.Check.{gate_limit};
ghost use Rattle.records.specs.Bytes.{joined};
ghost use Rattle.records.specs.File.{out_size, counts_in, start_of, four_in, out_word, words_in};
ghost use Rattle.records.specs.Inner.{GatesThere, Framed};
ghost use Rattle.file.specs.File.{ReadAs};

use crate::bytes::put;
use answer::Answer;
use netlist::{GATE_STRIDE, HEADER_WORDS};
use records::form::{Form, HEAD_SIZE, OUT_SIZE};

// The gates' words, and where the outputs' records begin.
#[tactic(auto, using(crate::proofs::Put::joined_none, records::proofs::Judged::quad_size, records::proofs::Judged::start_zero, records::proofs::Judged::there_at, records::proofs::Judged::whole_quad_lem))]
fn read_gates(s: &[u8], form: Form, gates: u32, out: &mut [u32]) -> usize
    requires { (gates ≤ gate_limit) × GatesThere form s.now gates × (gate_place gates ≤ length out.old) }
    ensures { (out.new ≡ sets out.old header_words (joined gates (four_in form s.now))) × (result ≡ start_of form s.now gates) }
{
    let mut at: usize = HEAD_SIZE;
    for g in 0..gates {
        let q = records::quad_at(s, form, at);
        let i = HEADER_WORDS + GATE_STRIDE * (g as usize);
        put(out, i, [q.kind, q.a, q.b, q.c]);
        at += q.size;
    }
    at
}

#[tactic(auto, using(crate::proofs::Put::joined_none, crate::proofs::Put::outs_put, records::proofs::Judged::whole_word_lem))]
fn read_outs(s: &[u8], from: usize, outputs: u32, out: &mut [u32], base: usize)
    requires { (from + out_size * outputs ≤ length s.now) × (base + outputs ≤ length out.old) }
    ensures { out.new ≡ sets out.old base (joined outputs (out_word s.now from)) }
{
    for o in 0..outputs {
        let i = o as usize;
        out[base + i] = records::word_at(s, from + OUT_SIZE * i + 2);
    }
}

#[tactic(auto, using(crate::proofs::Put::words_put, records::proofs::Found::out_ends, records::proofs::Judged::gates_there, records::proofs::Judged::whole_counts_lem))]
fn read_words(s: &[u8], form: Form, out: &mut [u32])
    requires { Framed form s.now × (word_count (counts_in s.now) ≤ length out.old) }
    ensures { out.new ≡ over (words_in form s.now) out.old }
{
    let counts = records::counts_in(s);
    let gates = counts.gates;
    netlist::counts::put_header(out, counts);
    let from = read_gates(s, form, gates, out);
    let base = HEADER_WORDS + GATE_STRIDE * (gates as usize);
    read_outs(s, from, counts.outputs, out, base);
}

#[tactic(auto, using(answer::proofs::Over::kept, answer::proofs::Over::made, crate::proofs::Put::read_framed, crate::proofs::Put::read_room))]
pub(crate) fn read_form(source: &[u8], form: Form, res: &mut [u32]) -> Answer
    ensures { ReadAs form source.now res.old result res.new }
{
    records::judge(source, form, res.len())?;
    read_words(source, form, res);
    Ok(())
}
