// A netlist written as a file.
ghost use Rattle.std.specs.Prelude.{◌≡◌, ◌+◌, ◌*◌, ◌<◌, ◌≤◌, length, get_or};
ghost use Rattle.std.proofs.lemmas.List.Edits.{sets};
ghost use Rattle.answer.specs.Fronts.{over};
ghost use Rattle.netlist.specs.Words.{gate_stride, gate_place, counts_of, word_count};
ghost use Rattle.netlist.specs.Check.{gate_limit};
ghost use Rattle.netlist.specs.Sound.{Limits, Sound};
ghost use Rattle.records.specs.Bytes.{joined};
ghost use Rattle.records.specs.File.{head_size, out_size};
ghost use Rattle.file.specs.File.{gate_bytes, out_bytes, file_of, WrittenAs};
ghost use Rattle.file.specs.Inner.{Room};

use crate::bytes::{put, put_words};
use answer::Answer;
use netlist::counts::{Counts, counts_of};
use netlist::{GATE_STRIDE, HEADER_WORDS};
use records::form::{BYTE_G, BYTE_N, BYTE_O, Form, HEAD_SIZE, OUT_SIZE};

// The record of gate g, and its size. Netlist and form are two parameters, as bytes and form are in records: a struct of
// both would hold a reference, and each clause on it would have to name a moment.
#[tactic(auto, using(crate::proofs::Put::gate_size))]
fn put_gate(net: &[u32], form: Form, g: u32, out: &mut [u8], at: usize) -> usize
    requires { (g < gate_limit) × (gate_place g + gate_stride ≤ length net.now) × (get_or net.now (gate_place g) 0 < 256) × (at + length (gate_bytes form net.now g) ≤ length out.old) }
    ensures { (out.new ≡ sets out.old at (gate_bytes form net.now g)) × (result ≡ length (gate_bytes form net.now g)) }
{
    let i = HEADER_WORDS + GATE_STRIDE * (g as usize);
    let kind = net[i];
    let n = records::form::width(form, kind);
    put(out, at, [BYTE_N, BYTE_G, kind as u8]);
    put_words(&net[i + 1..i + 1 + n], out, at + 3);
    3 + 4 * n
}

// The gates' records, and where they end.
#[tactic(auto, using(crate::proofs::Put::joined_next, crate::proofs::Put::put_next), unfolding(records::specs::Bytes::joined))]
fn put_gates(net: &[u32], form: Form, gates: u32, out: &mut [u8]) -> usize
    requires { Room form net.now gates (length out.old) }
    ensures { (out.new ≡ sets out.old head_size (joined gates (gate_bytes form net.now))) × (result ≡ head_size + length (joined gates (gate_bytes form net.now))) }
{
    let mut at: usize = HEAD_SIZE;
    for g in 0..gates {
        at += put_gate(net, form, g, out, at);
    }
    at
}

#[tactic(auto, using(crate::proofs::Put::joined_none))]
fn put_outs(net: &[u32], counts: Counts, out: &mut [u8], from: usize)
    requires { (counts ≡ counts_of net.now) × Limits counts × (word_count counts ≤ length net.now) × (from + out_size * counts.outputs ≤ length out.old) }
    ensures { out.new ≡ sets out.old from (joined counts.outputs (out_bytes net.now)) }
{
    let gates = counts.gates;
    let base = HEADER_WORDS + GATE_STRIDE * (gates as usize);
    for o in 0..counts.outputs {
        let i = o as usize;
        let at = from + OUT_SIZE * i;
        put(out, at, [BYTE_N, BYTE_O]);
        put(out, at + 2, net[base + i].to_le_bytes());
    }
}

// The size of a netlist's file.
#[tactic(auto, using(crate::proofs::Put::joined_next, crate::proofs::Put::gate_size, crate::proofs::Written::file_length), unfolding(records::specs::Bytes::joined))]
fn file_size(net: &[u32], form: Form, counts: Counts) -> usize
    requires { (counts ≡ counts_of net.now) × Limits counts × (word_count counts ≤ length net.now) }
    ensures { result ≡ length (file_of form net.now) }
{
    let mut size: usize = HEAD_SIZE;
    for g in 0..counts.gates {
        let i = HEADER_WORDS + GATE_STRIDE * (g as usize);
        size += 3 + 4 * records::form::width(form, net[i]);
    }
    size + OUT_SIZE * (counts.outputs as usize)
}

#[tactic(auto, using(crate::proofs::Put::room_for, crate::proofs::Written::file_length))]
fn put_file(net: &[u32], form: Form, out: &mut [u8])
    requires { Sound net.now × (length (file_of form net.now) ≤ length out.old) }
    ensures { out.new ≡ over (file_of form net.now) out.old }
{
    let counts = counts_of(net);
    put(out, 0, [BYTE_N, records::form::mark_of(form)]);
    put_words(&net[..HEADER_WORDS], out, 2);
    let at = put_gates(net, form, counts.gates, out);
    put_outs(net, counts, out, at);
}

#[tactic(auto, using(answer::proofs::Over::kept, answer::proofs::Over::made, answer::proofs::Rows::stop, answer::proofs::Rows::go, answer::proofs::Judges::room_done, netlist::proofs::Accepted::done_sound), unfolding(crate::specs::File::write_answer))]
pub(crate) fn write_form(net: &[u32], form: Form, res: &mut [u8]) -> Answer
    ensures { WrittenAs form net.now res.old result res.new }
{
    netlist::check::check(net)?;
    let size = file_size(net, form, counts_of(net));
    answer::room(res.len(), size, 2)?;
    put_file(net, form, res);
    Ok(())
}
