// What a cipher call is lent, judged in the rules' order.
#![tactic(auto, using(answer::proofs::Rows::stop, answer::proofs::Rows::go), unfolding(crate::specs::Judging::keystream_answer, crate::specs::Judging::encipher_answer, crate::specs::Inner::record_lengths, crate::specs::Inner::result_answer))]

ghost use Rattle.std.specs.Prelude.{◌≡◌};
ghost use Rattle.answer.specs.Answers.{◌▹◌};
ghost use Rattle.answer.specs.Bits.{bits_answer};
ghost use Rattle.instance.specs.Judging.{wiring_lengths};
ghost use Rattle.instance.specs.Keys.{key_length_answer, key_bits_answer};
ghost use Rattle.judging.specs.Judging.{keystream_answer, encipher_answer};
ghost use Rattle.judging.specs.Inner.{record_lengths, result_answer};

use answer::Answer;

// What keystream is lent; room places for the result.
pub fn keystream(
    instance: u32,
    m: u32,
    key: &[u8],
    indices: &[u32],
    whitening: &[u8],
    room: usize,
) -> Answer
    ensures { result ≡ keystream_answer instance m key.now indices.now whitening.now room }
{
    instance::numbers(instance, m)?;
    key_lengths(instance, m, key.len(), indices.len(), whitening.len())?;
    key_bits(instance, key, whitening)?;
    instance::wiring_rows(instance, indices, whitening, 2)?;
    answer::room(room, m as usize, 4)
}

// 3 on it.
fn key_lengths(instance: u32, m: u32, key: usize, indices: usize, whitening: usize) -> Answer
    ensures { result ≡ key_length_answer 1 instance key ▹ wiring_lengths 2 instance m indices whitening }
{
    instance::key_length(instance, key, 1)?;
    instance::wiring_lengths(instance, m, indices, whitening, 2)
}

// 4 on it.
fn key_bits(instance: u32, key: &[u8], whitening: &[u8]) -> Answer
    ensures { result ≡ key_bits_answer 1 instance key.now ▹ bits_answer 3 whitening.now }
{
    instance::key_bits(instance, key, 1)?;
    answer::bits(whitening, 3)
}

// What encipher and decipher are lent.
pub fn encipher(
    instance: u32,
    m: u32,
    key: &[u8],
    record: &[u8],
    indices: &[u32],
    whitening: &[u8],
    room: usize,
) -> Answer
    ensures { result ≡ encipher_answer instance m key.now «record».now indices.now whitening.now room }
{
    instance::numbers(instance, m)?;
    record_lengths(
        instance,
        m,
        key.len(),
        record.len(),
        indices.len(),
        whitening.len(),
    )?;
    record_bits(instance, key, record, whitening)?;
    instance::wiring_rows(instance, indices, whitening, 3)?;
    result(m, room)
}

// The same for instance 6. Its index list is empty and its IV is no whitening: there is no 5, 6 or 7.
pub fn kreyvium(
    m: u32,
    key: &[u8],
    record: &[u8],
    indices: &[u32],
    iv: &[u8],
    room: usize,
) -> Answer
    ensures { result ≡ encipher_answer 6 m key.now «record».now indices.now iv.now room }
{
    instance::numbers(6, m)?;
    record_lengths(6, m, key.len(), record.len(), indices.len(), iv.len())?;
    record_bits(6, key, record, iv)?;
    result(m, room)
}

// 8 on the result of both, for which room places are lent.
fn result(m: u32, room: usize) -> Answer
    ensures { result ≡ result_answer m room }
{
    answer::room(room, m as usize, 5)
}

// 3 on what both are lent.
fn record_lengths(
    instance: u32,
    m: u32,
    key: usize,
    record: usize,
    indices: usize,
    whitening: usize,
) -> Answer
    ensures { result ≡ record_lengths instance m key «record» indices whitening }
{
    instance::key_length(instance, key, 1)?;
    answer::exact(record, m as usize, 2)?;
    instance::wiring_lengths(instance, m, indices, whitening, 3)
}

// 4 on it.
fn record_bits(instance: u32, key: &[u8], record: &[u8], whitening: &[u8]) -> Answer
    ensures { result ≡ key_bits_answer 1 instance key.now ▹ bits_answer 2 «record».now ▹ bits_answer 4 whitening.now }
{
    instance::key_bits(instance, key, 1)?;
    answer::bits(record, 2)?;
    answer::bits(whitening, 4)
}
