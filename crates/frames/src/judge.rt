// What the calls are lent, judged in the rules' order: 3, 4, then the file, 15 and 16 of each frame, then 16 of a new
// frame, then 8. Key, record and IV come one by one, as the calls take them: nothing is known of them before they are
// judged here, so a struct of the three would say nothing more. What is judged, `Key` and `Iv` hold.
ghost use Rattle.std.specs.Prelude.{◌≡◌, ◌+◌, ◌*◌, ◌/◌, ◌%◌};
ghost use Rattle.answer.specs.Judges.{room_answer};
ghost use Rattle.sequence.specs.Files.{frame_size, frames_in};
ghost use Rattle.frames.specs.Frames.{new_answer, lengths_answer, three_bits_answer, end_answer, append_answer, last_answer, append_after_answer, frames_read_answer};
ghost use Rattle.frames.specs.Inner.{iv_bits, Whole};

use crate::iv::Iv;
use answer::{Answer, Reason};
use port::RECORD_BITS;
use sequence::FRAME_SIZE;

// 16 of a new frame behind a file of whole frames.
#[tactic(auto, using(crate::proofs::Judged::new_first, crate::proofs::Judged::new_above, crate::proofs::Judged::new_below))]
fn new_frame(s: &[u8], iv: Iv) -> Answer
    requires { Whole (frames_in s.now) s.now }
    ensures { result ≡ new_answer 4 s.now (iv_bits iv) }
{
    let len = s.len();
    if len == 0 {
        return Ok(());
    }
    let before = Iv::in_frame(s, len / FRAME_SIZE - 1);
    if iv.above(before) {
        return Ok(());
    }
    answer::refused(Reason::Order, 4, len)
}

// 15 and 16 of the file and of a new frame behind it, and 8 on the room for that.
#[tactic(auto, using(answer::proofs::Rows::stop, answer::proofs::Rows::stop_by, answer::proofs::Rows::go, crate::proofs::Judged::whole_if), unfolding(crate::specs::Frames::end_answer))]
fn end(s: &[u8], iv: Iv, room: usize) -> Answer
    ensures { result ≡ end_answer s.now (iv_bits iv) room }
{
    sequence::file(s, 4)?;
    new_frame(s, iv)?;
    answer::room(room, FRAME_SIZE, 5)
}

// 3 on key, record and IV.
#[tactic(auto, using(answer::proofs::Rows::stop, answer::proofs::Rows::stop_by, answer::proofs::Rows::go), unfolding(crate::specs::Frames::lengths_answer))]
fn lengths(key: &[u8], record: &[u8], iv: &[u8]) -> Answer
    ensures { result ≡ lengths_answer key.now «record».now iv.now }
{
    instance::key_length(6, key.len(), 1)?;
    answer::exact(record.len(), RECORD_BITS, 2)?;
    answer::exact(iv.len(), 128, 3)
}

// 4 on them.
#[tactic(auto, using(answer::proofs::Rows::stop, answer::proofs::Rows::stop_by, answer::proofs::Rows::go), unfolding(crate::specs::Frames::three_bits_answer))]
fn three_bits(key: &[u8], record: &[u8], iv: &[u8]) -> Answer
    ensures { result ≡ three_bits_answer key.now «record».now iv.now }
{
    instance::key_bits(6, key, 1)?;
    answer::bits(record, 2)?;
    answer::bits(iv, 3)
}

#[tactic(auto, using(answer::proofs::Rows::stop, answer::proofs::Rows::stop_by, answer::proofs::Rows::go, crate::proofs::Judged::iv_lent), unfolding(crate::specs::Frames::append_answer))]
pub(crate) fn append(key: &[u8], record: &[u8], iv: &[u8], file: &[u8], room: usize) -> Answer
    ensures { result ≡ append_answer key.now «record».now iv.now file.now room }
{
    lengths(key, record, iv)?;
    three_bits(key, record, iv)?;
    end(file, Iv::of_bits(iv), room)
}

// 3 on a last frame of this length.
#[tactic(auto, using(crate::proofs::Judged::last_none, crate::proofs::Judged::last_some))]
fn last_length(size: usize) -> Answer
    ensures { result ≡ last_answer 4 size }
{
    if size == 0 {
        return Ok(());
    }
    answer::exact(size, FRAME_SIZE, 4)
}

#[tactic(auto, using(answer::proofs::Rows::stop, answer::proofs::Rows::stop_by, answer::proofs::Rows::go, crate::proofs::Judged::iv_lent), unfolding(crate::specs::Frames::append_after_answer))]
pub(crate) fn append_after(key: &[u8], record: &[u8], iv: &[u8], last: &[u8], room: usize) -> Answer
    ensures { result ≡ append_after_answer key.now «record».now iv.now last.now room }
{
    lengths(key, record, iv)?;
    last_length(last.len())?;
    three_bits(key, record, iv)?;
    end(last, Iv::of_bits(iv), room)
}

// 8 on the room for the records of a file of whole frames; their number times 64 may be past what a length can be.
#[tactic(auto, using(crate::proofs::Judged::room_short, crate::proofs::Judged::room_enough))]
fn records_room(room: usize, len: usize) -> Answer
    requires { len % frame_size ≡ 0 }
    ensures { result ≡ room_answer 3 room (64 * ((len + 25) / frame_size)) }
{
    if room / RECORD_BITS < len / FRAME_SIZE {
        return answer::refused(Reason::Room, 3, room);
    }
    Ok(())
}

#[tactic(auto, using(answer::proofs::Rows::stop, answer::proofs::Rows::stop_by, answer::proofs::Rows::go, crate::proofs::Judged::whole_if), unfolding(crate::specs::Frames::frames_read_answer))]
pub(crate) fn read(key: &[u8], file: &[u8], room: usize) -> Answer
    ensures { result ≡ frames_read_answer key.now file.now room }
{
    instance::key_length(6, key.len(), 1)?;
    instance::key_bits(6, key, 1)?;
    sequence::file(file, 2)?;
    records_room(room, file.len())
}
