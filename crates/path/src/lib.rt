// The whole path of a record: the request's last sentence as one call. The record is enciphered, the netlist that
// deciphers it is emitted, a scoring netlist is glued behind that, and the glued netlist is evaluated on the key and the
// enciphered record: the scores are the scoring netlist's outputs on the plain record.
#![tactic(auto)]

mod judge;
mod write;

ghost use Rattle.path.specs.Path.{Scored};

use answer::Answer;

// What a call is lent to read.
#[derive(Clone, Copy)]
struct Call<'a> {
    instance: u32,
    m: u32,
    key: &'a [u8],
    record: &'a [u8],
    indices: &'a [u32],
    whitening: &'a [u8],
    scoring: &'a [u32],
}

// How many places the results have, in their order: as lent, or as needed.
#[derive(Clone, Copy)]
struct Rooms {
    enciphered: usize,
    deciphering: usize,
    glued: usize,
    inputs: usize,
    wires: usize,
    scores: usize,
}

// Scores a record of m bits by way of its enciphered form. Lists: key 1, record 2, indices 3, whitening or IV 4, scoring
// netlist 5; then the results: enciphered record 6, deciphering netlist 7, glued netlist 8, its inputs 9, its wires 10 and
// the scores 11. All is judged before any result is written: a refusal changes nothing. The lists stay parameters:
// `probe_score` lends them to C.
pub fn score(
    instance: u32,
    m: u32,
    key: &[u8],
    record: &[u8],
    indices: &[u32],
    whitening: &[u8],
    scoring: &[u32],
    enciphered: &mut [u8],
    deciphering: &mut [u32],
    glued: &mut [u32],
    inputs: &mut [u8],
    wires: &mut [u8],
    scores: &mut [u8],
) -> Answer
    ensures { Scored instance m key.now «record».now indices.now whitening.now scoring.now enciphered.old deciphering.old glued.old inputs.old wires.old scores.old result enciphered.new deciphering.new glued.new inputs.new wires.new scores.new }
{
    let lent = Rooms {
        enciphered: enciphered.len(),
        deciphering: deciphering.len(),
        glued: glued.len(),
        inputs: inputs.len(),
        wires: wires.len(),
        scores: scores.len(),
    };
    let call = Call {
        instance,
        m,
        key,
        record,
        indices,
        whitening,
        scoring,
    };
    judge::score(call, lent)?;
    write::results(call, enciphered, deciphering, glued, inputs, wires, scores);
    Ok(())
}
