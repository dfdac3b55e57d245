// A file of frames judged: docs/RULES.md, "Frames". Frames end to end, each with its mark, and their IVs rising strictly.
// What a frame holds besides is no matter here.
#![tactic(auto)]

ghost use Rattle.std.specs.Prelude.{◌≡◌, ◌+◌, ◌*◌, ◌/◌, ◌^◌, ◌<◌, ◌≤◌, length, nat_lt, Ok};
ghost use Rattle.answer.specs.Answers.{each};
ghost use Rattle.port.specs.Bytes.{value_at};
ghost use Rattle.sequence.specs.Files.{frame_size, start, frame_begins, iv_number, iv_word_at, frame_answer, file_answer};

use answer::{Answer, Reason};

// The bytes of a frame.
pub const FRAME_SIZE: usize = 26;

// "PT", the low byte first.
const MARK: u16 = 21584;

// The word that eight bytes from a place on make.
#[tactic(auto, using(crate::proofs::Judged::read_eight))]
fn eight_bytes(s: &[u8], at: usize) -> u64
    requires { at + 8 ≤ length s.now }
    ensures { result ≡ value_at 256 s.now at 8 }
{
    u64::from_be_bytes(s[at..at + 8].try_into().unwrap())
}

// The same for any place: 0 where there are not eight bytes.
pub fn word(s: &[u8], at: usize) -> u64
    ensures { result ≡ iv_word_at s.now at }
{
    if s.len() < 8 {
        return 0;
    }
    if s.len() - 8 < at {
        return 0;
    }
    eight_bytes(s, at)
}

// Whether the mark stands at a place.
#[tactic(auto, using(crate::proofs::Judged::begins_number))]
fn marked(s: &[u8], at: usize) -> bool
    requires { at + frame_size ≤ length s.now }
    ensures { result ≡ frame_begins s.now at }
{
    u16::from_le_bytes([s[at], s[at + 1]]) == MARK
}

// An IV, in two words, as one number. Two numbers are compared by a borrow from the low words, so that nothing branches
// on whether the high words are equal, which in a file can be as chance has it.
fn number(high: u64, low: u64) -> u128
    ensures { result ≡ high * 2 ^ 64 + low }
{
    (u128::from(high) << 64) + u128::from(low)
}

// The IV of frame k.
#[tactic(auto, using(crate::proofs::Judged::iv_read))]
fn iv(s: &[u8], k: usize) -> u128
    requires { frame_size * k + frame_size ≤ length s.now }
    ensures { result ≡ iv_number s.now k }
{
    let at = FRAME_SIZE * k;
    number(eight_bytes(s, at + 2), eight_bytes(s, at + 10))
}

// Whether an IV is above the one before.
fn above(before: u128, iv: u128) -> bool
    ensures { result ≡ nat_lt before iv }
{
    before < iv
}

// The same of two IVs of two words each, as `word` gives them: a public call, which takes any words.
pub fn iv_above(p0: u64, p1: u64, v0: u64, v1: u64) -> bool
    ensures { result ≡ nat_lt (p0 * 2 ^ 64 + p1) (v0 * 2 ^ 64 + v1) }
{
    above(number(p0, p1), number(v0, v1))
}

// The byte where frame k begins, for its refusal. Out of line, so that the walk below keeps no place of its own:
// docs/SPEED.md, "Why", says what that does.
#[inline(never)]
fn place(k: usize) -> usize
    requires { frame_size * k < 2 ^ 64 }
    ensures { result ≡ start k }
{
    FRAME_SIZE * k
}

// 15 and 16 of the frames from the second on, of the first `count`. The IV before is carried along. s stays the whole
// file, here and below: `frame_answer` judges a frame at its place in it.
#[tactic(auto, using(answer::proofs::Rows::each_stop, answer::proofs::Rows::each_more, answer::proofs::Rows::each_all, answer::proofs::Rows::each_none, crate::proofs::Judged::frame_bad, crate::proofs::Judged::frame_low, crate::proofs::Judged::frame_good, crate::proofs::Judged::rises_carried))]
fn later_frames(s: &[u8], count: usize, list: u32) -> Answer
    requires some { 1 ≤ count }
    requires there { frame_size * count ≤ length s.now }
    requires first { frame_answer list s.now 0 ≡ Ok tt }
    ensures { result ≡ each count (frame_answer list s.now) }
{
    let mut before = iv(s, 0);
    for k in 1..count {
        if !marked(s, FRAME_SIZE * k) {
            return answer::refused(Reason::Frame, list, place(k));
        }
        let next = iv(s, k);
        if !above(before, next) {
            return answer::refused(Reason::Order, list, place(k));
        }
        before = next;
    }
    Ok(())
}

// 15 and 16 of the first `count` frames.
#[tactic(auto, using(answer::proofs::Rows::each_stop, answer::proofs::Rows::each_none, crate::proofs::Judged::frame_bad, crate::proofs::Judged::first_good))]
fn whole_frames(s: &[u8], count: usize, list: u32) -> Answer
    requires { frame_size * count ≤ length s.now }
    ensures { result ≡ each count (frame_answer list s.now) }
{
    if count == 0 {
        return Ok(());
    }
    if !marked(s, 0) {
        return answer::refused(Reason::Frame, list, 0);
    }
    later_frames(s, count, list)
}

// 15 and 16 of a whole file; what is left behind the whole frames is a cut one. Out of line, so that all callers share
// one walk (the same page).
#[tactic(auto, using(crate::proofs::Judged::file_stop, crate::proofs::Judged::file_cut, crate::proofs::Judged::file_end))]
#[inline(never)]
pub fn file(s: &[u8], list: u32) -> Answer
    ensures { result ≡ file_answer list s.now }
{
    let len = s.len();
    let count = len / FRAME_SIZE;
    whole_frames(s, count, list)?;
    let whole = FRAME_SIZE * count;
    if whole < len {
        return answer::refused(Reason::Frame, list, whole);
    }
    Ok(())
}
