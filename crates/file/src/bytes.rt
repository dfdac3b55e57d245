// Values stored one after another. Room is the caller's to see to. List and place are two parameters: each
// function on a struct that holds the list would have to ensure that it holds the same one afterwards.
ghost use Rattle.std.specs.Prelude.{◌≡◌, ◌+◌, ◌*◌, ◌≤◌, length};
ghost use Rattle.std.proofs.lemmas.List.Edits.{sets};
ghost use Rattle.file.specs.File.{words_bytes};

// N values stored from a place on.
#[tactic(auto, using(crate::proofs::Put::put_part))]
pub(crate) fn put<T: Copy, const N: usize>(out: &mut [T], at: usize, values: [T; N])
    requires { at + N ≤ length out.old }
    ensures { out.new ≡ sets out.old at values }
{
    out[at..at + N].copy_from_slice(&values);
}

// Words as bytes.
#[tactic(auto, using(crate::proofs::Put::words_none, crate::proofs::Put::words_next))]
pub(crate) fn put_words(words: &[u32], out: &mut [u8], at: usize)
    requires { at + 4 * length words.now ≤ length out.old }
    ensures { out.new ≡ sets out.old at (words_bytes words.now 0 (length words.now)) }
{
    for (j, &x) in words.iter().enumerate() {
        put(out, at + 4 * j, x.to_le_bytes());
    }
}
