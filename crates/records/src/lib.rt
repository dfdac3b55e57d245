// The netlist file judged: docs/RULES.md, "Netlist file". Header (12), counts (9), room (8), records and rest
// (12), wires (9); a check has no room. Who reads a judged file takes counts, gate records and words out of it here.
// Bytes, form and a record's place come one by one, as the public calls take them: no fact holds of them wherever they
// meet, so a struct of them would say nothing more, and would be made anew at each record.
#![tactic(auto)]

mod bytes;
pub mod form;
mod marks;
mod wires;

ghost use Rattle.std.specs.Prelude.{◌≡◌};
ghost use Rattle.records.specs.Bytes.{whole_word};
ghost use Rattle.records.specs.File.{head_answer, body_answer, read_answer, check_answer};
ghost use Rattle.records.specs.Whole.{whole_counts, gate_there, whole_quad};
ghost use Rattle.records.specs.Inner.{Headed};

use crate::bytes::word_there;
use crate::form::{Form, HEAD_SIZE};
use answer::Answer;
use netlist::counts::{Counts, word_count};

// A gate's four words, and the bytes that its record takes. Words and no Gate: a file may hold what is none.
#[derive(Clone, Copy, Debug, Default, PartialEq, Eq)]
pub struct Quad {
    pub kind: u32,
    pub a: u32,
    pub b: u32,
    pub c: u32,
    pub size: usize,
}

// The counts in the header's record; all 0 where not all of its bytes are there.
#[tactic(auto, unfolding(crate::specs::Whole::whole_counts))]
pub fn counts_in(s: &[u8]) -> Counts
    ensures { result ≡ whole_counts s.now }
{
    if s.len() < HEAD_SIZE {
        return Counts {
            inputs: 0,
            gates: 0,
            outputs: 0,
        };
    }
    Counts {
        inputs: word_there(s, 2),
        gates: word_there(s, 6),
        outputs: word_there(s, 10),
    }
}

// The header's record, then the counts in it.
#[tactic(auto, using(answer::proofs::Rows::stop, crate::proofs::Judged::head_go), unfolding(crate::specs::File::head_answer))]
fn head(s: &[u8], form: Form) -> Answer
    ensures { result ≡ head_answer form s.now }
{
    marks::header(s, form)?;
    netlist::check::counts(counts_in(s), 1)
}

// Records and rest, then wires.
#[tactic(auto, using(crate::proofs::Judged::body_stop, crate::proofs::Judged::body_from, crate::proofs::Judged::body_framed, crate::proofs::Judged::body_go))]
fn body(s: &[u8], form: Form) -> Answer
    requires { Headed form s.now }
    ensures { result ≡ body_answer form s.now }
{
    let from = marks::records(s, form)?;
    wires::wires(s, form, from)
}

// A file judged for a check.
#[tactic(auto, using(answer::proofs::Rows::stop, answer::proofs::Rows::go, crate::proofs::Found::headed), unfolding(crate::specs::File::check_answer))]
pub fn check(s: &[u8], form: Form) -> Answer
    ensures { result ≡ check_answer form s.now }
{
    head(s, form)?;
    body(s, form)
}

// A file judged for reading into a result with this room.
#[tactic(auto, using(answer::proofs::Rows::stop, crate::proofs::Found::headed, crate::proofs::Judged::room_stop, crate::proofs::Judged::room_go), unfolding(crate::specs::File::read_answer))]
pub fn judge(s: &[u8], form: Form, room: usize) -> Answer
    ensures { result ≡ read_answer form s.now room }
{
    let counts = counts_in(s);
    head(s, form)?;
    answer::room(room, word_count(counts), 2)?;
    body(s, form)
}

// The word at p; 0 where not all four bytes are there. The first test is the same for every p.
#[tactic(auto, unfolding(crate::specs::Bytes::whole_word))]
pub fn word_at(s: &[u8], p: usize) -> u32
    ensures { result ≡ whole_word s.now p }
{
    if s.len() < 4 || s.len() - 4 < p {
        return 0;
    }
    word_there(s, p)
}

// Whether the bytes of the gate record at p are all there.
#[tactic(auto, unfolding(crate::specs::Whole::gate_there))]
fn gate_there(s: &[u8], form: Form, p: usize) -> bool
    ensures { result ≡ gate_there form s.now p }
{
    p <= s.len() && marks::size_at(s, form, p) <= s.len() - p
}

// The gate record at p; all 0 where not all of its bytes are there.
#[tactic(auto, using(crate::proofs::Judged::gate_fits), unfolding(crate::specs::Whole::whole_quad))]
pub fn quad_at(s: &[u8], form: Form, p: usize) -> Quad
    ensures { result ≡ whole_quad form s.now p }
{
    if gate_there(s, form, p) {
        return wires::quad_there(s, form, p);
    }
    Quad::default()
}
