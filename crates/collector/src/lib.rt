// The collector's four calls, for C: files of port frames appended to, read and checked, on numbers and byte lists.
// A list passes as a pointer and a length, an answer as one number, packed as the daemon's are.
#![tactic(auto)]

ghost use Rattle.std.specs.Prelude.{◌≡◌};
ghost use Rattle.daemon.specs.Packed.{packed_of};
ghost use Rattle.sequence.specs.Files.{file_answer};
ghost use Rattle.collector.specs.Collector.{AppendedPacked, AppendedAfterPacked, ReadPacked};

use daemon::packed;

// Judges key, record, IV and the file so far, and writes the new frame. Lists: key, record, IV, file, frame.
pub fn sallowknot_frames_append(
    key: &[u8],
    record: &[u8],
    iv: &[u8],
    file: &[u8],
    frame: &mut [u8],
) -> u64
    ensures { AppendedPacked key.now «record».now iv.now file.now frame.old result frame.new }
{
    packed(frames::append(key, record, iv, file, frame))
}

// The same behind the last frame of a file that the caller has judged. Lists: key, record, IV, last frame, frame.
pub fn sallowknot_frames_append_after(
    key: &[u8],
    record: &[u8],
    iv: &[u8],
    last: &[u8],
    frame: &mut [u8],
) -> u64
    ensures { AppendedAfterPacked key.now «record».now iv.now last.now frame.old result frame.new }
{
    packed(frames::append_after(key, record, iv, last, frame))
}

// Gives every record of a file. Lists: key, file, records.
pub fn sallowknot_frames_read(key: &[u8], file: &[u8], records: &mut [u8]) -> u64
    ensures { ReadPacked key.now file.now records.old result records.new }
{
    packed(frames::read(key, file, records))
}

// Checks a file. List: file.
#[tactic(auto, using(daemon::proofs::Numbers::packed_due, crate::proofs::Numbers::check_small))]
pub fn sallowknot_frames_check(file: &[u8]) -> u64
    ensures { result ≡ packed_of (file_answer 1 file.now) }
{
    packed(frames::check(file))
}
