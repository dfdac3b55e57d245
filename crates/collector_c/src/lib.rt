// The calls of crate `collector` as a static library for C. Each call is that of `collector`.
#![tactic(auto)]

ghost use Rattle.std.specs.Prelude.{◌≡◌};
ghost use Rattle.daemon.specs.Packed.{packed_of};
ghost use Rattle.sequence.specs.Files.{file_answer};
ghost use Rattle.collector.specs.Collector.{AppendedPacked, AppendedAfterPacked, ReadPacked};

// Judges key, record, IV and the file so far, and writes the new frame. Lists: key, record, IV, file, frame.
#[unsafe(no_mangle)]
pub extern "C" fn sallowknot_frames_append(
    key: &[u8],
    record: &[u8],
    iv: &[u8],
    file: &[u8],
    frame: &mut [u8],
) -> u64
    ensures { AppendedPacked key.now «record».now iv.now file.now frame.old result frame.new }
{
    collector::sallowknot_frames_append(key, record, iv, file, frame)
}

// The same behind the last frame of a file that the caller has judged. Lists: key, record, IV, last frame, frame.
#[unsafe(no_mangle)]
pub extern "C" fn sallowknot_frames_append_after(
    key: &[u8],
    record: &[u8],
    iv: &[u8],
    last: &[u8],
    frame: &mut [u8],
) -> u64
    ensures { AppendedAfterPacked key.now «record».now iv.now last.now frame.old result frame.new }
{
    collector::sallowknot_frames_append_after(key, record, iv, last, frame)
}

// Gives every record of a file. Lists: key, file, records.
#[unsafe(no_mangle)]
pub extern "C" fn sallowknot_frames_read(key: &[u8], file: &[u8], records: &mut [u8]) -> u64
    ensures { ReadPacked key.now file.now records.old result records.new }
{
    collector::sallowknot_frames_read(key, file, records)
}

// Checks a file. List: file.
#[unsafe(no_mangle)]
pub extern "C" fn sallowknot_frames_check(file: &[u8]) -> u64
    ensures { result ≡ packed_of (file_answer 1 file.now) }
{
    collector::sallowknot_frames_check(file)
}
