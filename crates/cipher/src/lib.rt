// Keystream, enciphering and deciphering with the six instances: docs/RULES.md, "Six instances" and "Rows".
// After judging, no branch and no index depends on a bit of the key or of the record.
#![tactic(auto)]

pub mod bytes;
mod rows;
mod stream;

ghost use Rattle.std.specs.Prelude.{◌≡◌, ◌≤◌, length, take};
ghost use Rattle.answer.specs.Bits.{added};
ghost use Rattle.answer.specs.Fronts.{over};
ghost use Rattle.instance.specs.Wired.{Wired};
ghost use Rattle.instance.specs.Keys.{Keyed, key_in};
ghost use Rattle.cipher.specs.Cipher.{keystream_of, Streamed, Ciphered};

use answer::Answer;

// The keystream of an accepted wiring, one bit for each place of out.
fn put_stream(instance: u32, key: &[u8], indices: &[u32], whitening: &[u8], out: &mut [u8])
    requires { Wired instance (length out.old) indices.now whitening.now × Keyed instance key.now }
    ensures { out.new ≡ keystream_of instance (length out.old) (key_in instance key.now) indices.now whitening.now }
{
    if instance == 6 {
        stream::put(key, whitening, out);
    } else {
        let lent = rows::Rows {
            instance,
            key,
            indices,
            whitening,
        };
        lent.put_all(out);
    }
}

// Adds a record to the keystream that stands at the front of out.
fn add(record: &[u8], out: &mut [u8])
    requires { length «record».now ≤ length out.old }
    ensures { out.new ≡ over (added «record».now (take (length «record».now) out.old)) out.old }
{
    for (i, &r) in record.iter().enumerate() {
        out[i] = (r % 2 + out[i] % 2) % 2;
    }
}

// The first m keystream bits. whitening is the IV for Kreyvium. A public call takes the lists that docs/RULES.md, "The
// calls", gives it, each a parameter; `with_filter` and `with_kreyvium` take them over before they are judged.
pub fn keystream(
    instance: u32,
    m: u32,
    key: &[u8],
    indices: &[u32],
    whitening: &[u8],
    res: &mut [u8],
) -> Answer
    ensures { Streamed instance m key.now indices.now whitening.now res.old result res.new }
{
    judging::keystream(instance, m, key, indices, whitening, res.len())?;
    let n = m as usize;
    put_stream(instance, key, indices, whitening, &mut res[..n]);
    Ok(())
}

// A record enciphered with a filter: each bit is added to the keystream bit at its place.
fn with_filter(
    instance: u32,
    m: u32,
    key: &[u8],
    record: &[u8],
    indices: &[u32],
    whitening: &[u8],
    res: &mut [u8],
) -> Answer
    ensures { Ciphered instance m key.now «record».now indices.now whitening.now res.old result res.new }
{
    judging::encipher(instance, m, key, record, indices, whitening, res.len())?;
    let n = m as usize;
    put_stream(instance, key, indices, whitening, &mut res[..n]);
    add(record, res);
    Ok(())
}

// The same with Kreyvium, so fast that going through the code for rows would be felt. Key and IV are packed here, as
// in `stream::put`: to lend them on would be felt too.
fn with_kreyvium(
    m: u32,
    key: &[u8],
    record: &[u8],
    indices: &[u32],
    iv: &[u8],
    res: &mut [u8],
) -> Answer
    ensures { Ciphered 6 m key.now «record».now indices.now iv.now res.old result res.new }
{
    judging::kreyvium(m, key, record, indices, iv, res.len())?;
    let k0 = stream::key_word(key, 0);
    let k1 = stream::key_word(key, 64);
    let iv = stream::Bits { list: iv };
    let v0 = iv.word(0);
    let v1 = iv.word(64);
    let n = m as usize;
    stream::put_front(kreyvium::stream64(k0, k1, v0, v1), &mut res[..n]);
    add(record, res);
    Ok(())
}

// A record of m bits, each added to the keystream bit at its place.
pub fn encipher(
    instance: u32,
    m: u32,
    key: &[u8],
    record: &[u8],
    indices: &[u32],
    whitening: &[u8],
    res: &mut [u8],
) -> Answer
    ensures { Ciphered instance m key.now «record».now indices.now whitening.now res.old result res.new }
{
    if instance == 6 {
        return with_kreyvium(m, key, record, indices, whitening, res);
    }
    with_filter(instance, m, key, record, indices, whitening, res)
}

// Adding the same keystream again takes it off.
pub fn decipher(
    instance: u32,
    m: u32,
    key: &[u8],
    record: &[u8],
    indices: &[u32],
    whitening: &[u8],
    res: &mut [u8],
) -> Answer
    ensures { Ciphered instance m key.now «record».now indices.now whitening.now res.old result res.new }
{
    encipher(instance, m, key, record, indices, whitening, res)
}
