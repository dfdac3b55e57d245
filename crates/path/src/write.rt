// What score writes once all is judged. None of the calls made here can refuse: their answers are not looked at.
ghost use Rattle.std.specs.Prelude.{◌≡◌, Ok, ◌++◌, ◌+◌, ◌≤◌, length, take};
ghost use Rattle.std.proofs.lemmas.List.Edits.{sets};
ghost use Rattle.answer.specs.Fronts.{over};
ghost use Rattle.netlist.specs.Net.{values, eval};
ghost use Rattle.netlist.specs.Words.{net_of};
ghost use Rattle.instance.specs.Table.{key_bits};
ghost use Rattle.instance.specs.Keys.{Keyed, key_in};
ghost use Rattle.evaluate.specs.Ready.{Ready};
ghost use Rattle.glue.specs.Glue.{glued_words, Fit};
ghost use Rattle.path.specs.Path.{score_answer, rooms_of, Scored};
ghost use Rattle.path.specs.Inner.{front_size, front};

use crate::Call;

// How many words the netlist at the front of a list has.
fn front_size(net: &[u32]) -> usize
    ensures { result ≡ front_size net.now }
{
    netlist::counts::word_count(netlist::counts::counts_of(net))
}

// Glues the scoring netlist behind the netlist that stands at the front of deciphering.
fn glue_behind(deciphering: &[u32], scoring: &[u32], glued: &mut [u32])
    requires { (front_size deciphering.now ≤ length deciphering.now) × Fit (front deciphering.now) scoring.now (length glued.old) }
    ensures { glued.new ≡ over (glued_words (front deciphering.now) scoring.now) glued.old }
{
    let end = front_size(deciphering);
    let _ = glue::glue(&deciphering[..end], scoring, glued);
}

// Bytes copied from place at on. It asks for room, which a public function may not: glue has its own, for words.
fn put_bytes(out: &mut [u8], at: usize, from: &[u8])
    requires { at + length from.now ≤ length out.old }
    ensures { out.new ≡ sets out.old at from.now }
{
    for (i, &byte) in from.iter().enumerate() {
        out[at + i] = byte;
    }
}

// The bits of a key, at the front.
fn put_key(instance: u32, key: &[u8], inputs: &mut [u8])
    requires { Keyed instance key.now × (key_bits instance ≤ length inputs.old) }
    ensures { inputs.new ≡ over (key_in instance key.now) inputs.old }
{
    put_bytes(inputs, 0, key);
}

// The glued netlist's inputs: the key's bits, of which there are so many, then the enciphered record.
fn join_inputs(instance: u32, bits: usize, key: &[u8], enciphered: &[u8], inputs: &mut [u8])
    requires { Keyed instance key.now × (bits ≡ key_bits instance) × (bits + length enciphered.now ≤ length inputs.old) }
    ensures { inputs.new ≡ over (key_in instance key.now ++ enciphered.now) inputs.old }
{
    put_key(instance, key, inputs);
    put_bytes(inputs, bits, enciphered);
}

// Evaluates the netlist at the front of glued.
fn evaluate_front(glued: &[u32], inputs: &[u8], wires: &mut [u8], scores: &mut [u8])
    requires { (front_size glued.now ≤ length glued.now) × Ready (front glued.now) inputs.now (length wires.old) (length scores.old) }
    ensures wires_after { wires.new ≡ over (values (net_of (front glued.now)) inputs.now) wires.old }
    ensures scores_after { scores.new ≡ over (eval (net_of (front glued.now)) inputs.now) scores.old }
{
    let end = front_size(glued);
    let _ = evaluate::evaluate(&glued[..end], inputs, wires, scores);
}

// Every result of an accepted call. The results are no struct: its clauses would name lists by number once it is let go.
pub(crate) fn results(
    call: Call,
    enciphered: &mut [u8],
    deciphering: &mut [u32],
    glued: &mut [u32],
    inputs: &mut [u8],
    wires: &mut [u8],
    scores: &mut [u8],
)
    requires { score_answer call.instance call.m call.key.now call.«record».now call.indices.now call.whitening.now call.scoring.now (rooms_of enciphered.old deciphering.old glued.old inputs.old wires.old scores.old) ≡ Ok tt }
    ensures { Scored call.entry.instance call.entry.m call.entry.key.now call.entry.«record».now call.entry.indices.now call.entry.whitening.now call.entry.scoring.now enciphered.old deciphering.old glued.old inputs.old wires.old scores.old (Ok tt) enciphered.new deciphering.new glued.new inputs.new wires.new scores.new }
{
    let Call {
        instance,
        m,
        key,
        record,
        indices,
        whitening,
        scoring,
    } = call;
    let _ = cipher::encipher(instance, m, key, record, indices, whitening, enciphered);
    let _ = emit::emit_decipher(instance, m, indices, whitening, deciphering);
    glue_behind(deciphering, scoring, glued);
    let sizes = instance::sizes_of(instance);
    let bits = m as usize;
    join_inputs(instance, sizes.key, key, &enciphered[..bits], inputs);
    evaluate_front(glued, &inputs[..sizes.key + bits], wires, scores);
}
