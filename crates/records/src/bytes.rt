// Words in the bytes of a list, the low byte first.
ghost use Rattle.std.specs.Prelude.{◌≡◌, ◌+◌, ◌<◌, ◌≤◌, length};
ghost use Rattle.records.specs.Bytes.{word_at};

// The word that four bytes from p on make, which are all there.
#[tactic(auto, unfolding(crate::specs::Bytes::word_at))]
pub(crate) fn word_there(s: &[u8], p: usize) -> u32
    requires { p + 4 ≤ length s.now }
    ensures { result ≡ word_at s.now p }
{
    u32::from_le_bytes([s[p], s[p + 1], s[p + 2], s[p + 3]])
}
