// The records of a file: marks, sizes and the rest, refused with 12 at the start of the record or of the rest.
ghost use Rattle.std.specs.Prelude.{◌≡◌, ◌≤◌, length};
ghost use Rattle.answer.specs.Answers.{each, giving};
ghost use Rattle.records.specs.File.{mark_of, head_size, gates_in, size_at, start_of, record_answer, gate_record, outs_answer, records_answer};

use crate::form::{BYTE_G, BYTE_N, BYTE_O, Form, HEAD_SIZE, OUT_SIZE};
use answer::{Answer, Reason, Refusal};

// At p begins a record with N and this letter, whose bytes are all there.
#[tactic(auto, unfolding(crate::specs::File::record_answer, crate::specs::File::record_begins, answer::specs::Answers::refuse))]
fn record(s: &[u8], p: usize, letter: u8, size: usize) -> Answer
    requires { (p ≤ length s.now) × (2 ≤ size) }
    ensures { result ≡ record_answer s.now p letter size }
{
    if size <= s.len() - p && s[p] == BYTE_N && s[p + 1] == letter {
        return Ok(());
    }
    answer::refused(Reason::File, 1, p)
}

// The header's record.
pub(crate) fn header(s: &[u8], form: Form) -> Answer
    ensures { result ≡ record_answer s.now 0 (mark_of form) head_size }
{
    record(s, 0, crate::form::mark_of(form), HEAD_SIZE)
}

// How many bytes the gate record at p takes; its kind may be cut off.
#[tactic(auto, unfolding(crate::specs::File::size_at))]
pub(crate) fn size_at(s: &[u8], form: Form, p: usize) -> usize
    requires { p ≤ length s.now }
    ensures { (result ≡ size_at form s.now p) × (3 ≤ result) × (result ≤ 15) }
{
    let kind = u32::from(answer::get_or(s, p + 2, 0));
    3 + 4 * crate::form::width(form, kind)
}

// The gates' records, and where they end.
#[tactic(auto, using(answer::proofs::Rows::each_more, answer::proofs::Rows::each_none, crate::proofs::Judged::gate_record_at, crate::proofs::Judged::record_ends, crate::proofs::Judged::start_next, crate::proofs::Judged::start_zero, crate::proofs::Judged::walk_end, crate::proofs::Judged::walk_stop))]
fn gate_records(s: &[u8], form: Form, gates: u32) -> Result<usize, Refusal>
    requires { head_size ≤ length s.now }
    ensures { result ≡ giving (each gates (gate_record form s.now)) (start_of form s.now gates) }
{
    let mut at: usize = HEAD_SIZE;
    for g in 0..gates {
        let size = size_at(s, form, at);
        record(s, at, BYTE_G, size)?;
        at += size;
    }
    Ok(at)
}

// The outputs' records, and that nothing is left over. The place is counted on, as over the gates' records: so it never
// passes the end of the file.
#[tactic(auto, using(answer::proofs::Rows::each_stop, answer::proofs::Rows::each_more, answer::proofs::Rows::each_none, answer::proofs::Rows::stop, crate::proofs::Judged::out_record_at, crate::proofs::Judged::outs_end, crate::proofs::Judged::outs_left, crate::proofs::Judged::record_ends), unfolding(crate::specs::File::outs_answer))]
fn out_records(s: &[u8], from: usize, outputs: u32) -> Answer
    requires { from ≤ length s.now }
    ensures { result ≡ outs_answer s.now from outputs }
{
    let mut at: usize = from;
    for o in 0..outputs {
        record(s, at, BYTE_O, OUT_SIZE)?;
        at += OUT_SIZE;
    }
    if at < s.len() {
        return answer::refused(Reason::File, 1, at);
    }
    Ok(())
}

// Records and rest, and where the outputs' records begin.
#[tactic(auto, using(crate::proofs::Judged::from_fits, crate::proofs::Judged::outs_stop, crate::proofs::Judged::records_go, crate::proofs::Judged::records_stop, crate::proofs::Judged::whole_counts_lem))]
pub(crate) fn records(s: &[u8], form: Form) -> Result<usize, Refusal>
    requires { head_size ≤ length s.now }
    ensures { result ≡ giving (records_answer form s.now) (start_of form s.now (gates_in s.now)) }
{
    let counts = crate::counts_in(s);
    let from = gate_records(s, form, counts.gates)?;
    out_records(s, from, counts.outputs)?;
    Ok(from)
}
