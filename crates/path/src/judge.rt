// What score is lent, judged before anything is written: 1 to 7 as enciphering judges them, 9 of the scoring netlist, 8 on
// each result, 10 and 11.
#![tactic(auto, using(answer::proofs::Rows::stop, answer::proofs::Rows::go))]

ghost use Rattle.std.specs.Prelude.{◌≡◌, not, List, ℕ, ◌≤◌, length, ltb, eqb};
ghost use Rattle.answer.specs.declared.Reason.{Reason};
ghost use Rattle.answer.specs.Answers.{◌▹◌, refuse};
ghost use Rattle.answer.specs.Bits.{bits_answer};
ghost use Rattle.netlist.specs.Words.{gates_of};
ghost use Rattle.netlist.specs.Check.{gate_limit};
ghost use Rattle.answer.specs.Judges.{room_answer};
ghost use Rattle.instance.specs.Keys.{key_bits_answer};
ghost use Rattle.emit.specs.Emit.{wiring_answer, decipher_net, sized_by};
ghost use Rattle.path.specs.Path.{results_answer, score_answer};
ghost use Rattle.path.specs.Inner.{renamed, renamed_to, sizes_answer};

use crate::{Call, Rooms};
use answer::{Answer, Reason, Refusal};
use emit::Size;
use netlist::{GATE_LIMIT, GATE_STRIDE, HEADER_WORDS};

// A refusal of a call, in which the list that it counts as `from` is counted as `to` here.
fn renamed(e: Refusal, from: u32, to: u32) -> Refusal
    ensures { result ≡ renamed from to e }
{
    Refusal {
        list: if e.list == from { to } else { e.list },
        ..e
    }
}

// 1, 2, and 3 on the lengths of the four lists that enciphering takes.
#[tactic(auto, using(answer::proofs::Rows::stop, answer::proofs::Rows::go), unfolding(crate::specs::Inner::sizes_answer))]
fn sizes(call: Call) -> Answer
    ensures { result ≡ sizes_answer call.entry.instance call.entry.m (length call.entry.key.now) (length call.entry.«record».now) (length call.entry.indices.now) (length call.entry.whitening.now) }
{
    instance::numbers(call.instance, call.m)?;
    instance::key_length(call.instance, call.key.len(), 1)?;
    answer::exact(call.record.len(), call.m as usize, 2)?;
    instance::wiring_lengths(
        call.instance,
        call.m,
        call.indices.len(),
        call.whitening.len(),
        3,
    )
}

// 4 on the key and the record.
fn bits(call: Call) -> Answer
    ensures { result ≡ key_bits_answer 1 call.entry.instance call.entry.key.now ▹ bits_answer 2 call.entry.«record».now }
{
    instance::key_bits(call.instance, call.key, 1)?;
    answer::bits(call.record, 2)
}

// 8 on each result.
fn room(lent: Rooms, needed: Rooms) -> Answer
    ensures { result ≡ room_answer 6 lent.enciphered needed.enciphered ▹ room_answer 7 lent.deciphering needed.deciphering ▹ room_answer 8 lent.glued needed.glued ▹ room_answer 9 lent.inputs needed.inputs ▹ room_answer 10 lent.wires needed.wires ▹ room_answer 11 lent.scores needed.scores }
{
    answer::room(lent.enciphered, needed.enciphered, 6)?;
    answer::room(lent.deciphering, needed.deciphering, 7)?;
    answer::room(lent.glued, needed.glued, 8)?;
    answer::room(lent.inputs, needed.inputs, 9)?;
    answer::room(lent.wires, needed.wires, 10)?;
    answer::room(lent.scores, needed.scores, 11)
}

// 10 and 11: the scoring netlist has so many inputs, both netlists together so many gates.
#[tactic(auto, using(answer::proofs::Rows::stop, answer::proofs::Rows::go), unfolding(answer::specs::Answers::refuse))]
fn fit(m: u32, inputs: u32, gates: usize) -> Answer
    ensures { result ≡ refuse Reason.Fit 0 0 (not (eqb m inputs)) ▹ refuse Reason.Gates 0 0 (ltb gate_limit gates) }
{
    if m != inputs {
        return answer::refused(Reason::Fit, 0, 0);
    }
    if (GATE_LIMIT as usize) < gates {
        return answer::refused(Reason::Gates, 0, 0);
    }
    Ok(())
}

// 9, 8, 10 and 11, where the deciphering netlist has this size. What a broken scoring netlist would need does not matter: 9
// comes first.
fn results(call: Call, size: Size, lent: Rooms) -> Answer
    requires { size.gates ≤ gate_limit }
    ensures { (a : List ℕ) → size.gates ≡ gates_of a → size.words ≡ length a → result ≡ results_answer call.entry.instance call.entry.m a call.entry.scoring.now lent }
{
    let counts = netlist::counts::counts_of(call.scoring);
    let sizes = instance::sizes_of(call.instance);
    let inputs = sizes.key + call.m as usize;
    let both = size.gates + counts.gates as usize;
    let outputs = counts.outputs as usize;
    let needed = Rooms {
        enciphered: call.m as usize,
        deciphering: size.words,
        glued: HEADER_WORDS + GATE_STRIDE * both + outputs,
        inputs,
        wires: inputs + both,
        scores: outputs,
    };
    let nine = netlist::check::check_as(call.scoring, 5);
    let eight = room(lent, needed);
    let last = fit(call.m, counts.inputs, both);
    nine.and(eight.and(last))
}

// 4 to 7 on the wiring, which emit::decipher_size judges: its lists 1 and 2 are 3 and 4 here.
#[tactic(auto, unfolding(crate::specs::Inner::renamed_to, emit::specs::Emit::sized_by, answer::specs::Answers::giving))]
fn decipher_size(call: Call) -> Result<Size, Refusal>
    ensures { result ≡ sized_by (renamed_to 2 4 (renamed_to 1 3 (wiring_answer call.entry.instance call.entry.m call.entry.indices.now call.entry.whitening.now))) (decipher_net call.entry.instance call.entry.m call.entry.indices.now call.entry.whitening.now) }
{
    emit::decipher_size(call.instance, call.m, call.indices, call.whitening).map_err(|e| renamed(
        renamed(e, 1, 3),
        2,
        4,
    ))
}

// All of it.
pub(crate) fn score(call: Call, lent: Rooms) -> Answer
    ensures { result ≡ score_answer call.entry.instance call.entry.m call.entry.key.now call.entry.«record».now call.entry.indices.now call.entry.whitening.now call.entry.scoring.now lent }
{
    sizes(call)?;
    bits(call)?;
    let size = decipher_size(call)?;
    results(call, size, lent)
}
