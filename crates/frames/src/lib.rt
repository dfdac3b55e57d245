// Frames for port records: docs/RULES.md, "Frames". One file that a switch can append to: frames end to end, each the mark
// "PT", 16 bytes of IV and 8 bytes of record enciphered with Kreyvium, the IVs rising strictly. A layer above the
// ciphers, which leans on what they promise alone. A file is judged by `sequence`; a record's fields are in `port`.
#![tactic(auto)]

mod bytes;
mod iv;
mod judge;
mod seal;

ghost use Rattle.std.specs.Prelude.{◌≡◌};
ghost use Rattle.sequence.specs.Files.{file_answer};
ghost use Rattle.frames.specs.Frames.{Appended, AppendedAfter, FramesRead};

use crate::iv::Iv;
use crate::seal::Key;
use answer::Answer;

// Judges key, record, IV and the file so far, and writes the new frame, which the caller puts at the file's end.
pub fn append(key: &[u8], record: &[u8], iv: &[u8], file: &[u8], frame: &mut [u8]) -> Answer
    ensures { Appended key.now «record».now iv.now file.now frame.old result frame.new }
{
    judge::append(key, record, iv, file, frame.len())?;
    seal::put_frame(Key::lent(key), record, Iv::of_bits(iv), frame);
    Ok(())
}

// The same for a caller who has judged the file, with `check` or `read`, and lends its last frame in place of it, or
// nothing where the file is empty: the time does not grow with the file. A file that nobody judged may be no file at all
// or hold this IV already; what this call answers says nothing of it.
pub fn append_after(key: &[u8], record: &[u8], iv: &[u8], last: &[u8], frame: &mut [u8]) -> Answer
    ensures { AppendedAfter key.now «record».now iv.now last.now frame.old result frame.new }
{
    judge::append_after(key, record, iv, last, frame.len())?;
    seal::put_frame(Key::lent(key), record, Iv::of_bits(iv), frame);
    Ok(())
}

// Every record of a file, 64 bits a frame, end to end. The whole file is judged before any record is given out.
pub fn read(key: &[u8], file: &[u8], records: &mut [u8]) -> Answer
    ensures { FramesRead key.now file.now records.old result records.new }
{
    judge::read(key, file, records.len())?;
    seal::put_records(Key::lent(key), file, records);
    Ok(())
}

// Whether a file is one: 15 and 16 alone, for those who hold no key.
pub fn check(file: &[u8]) -> Answer
    ensures { result ≡ file_answer 1 file.now }
{
    sequence::file(file, 1)
}
