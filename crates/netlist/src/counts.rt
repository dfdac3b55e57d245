// The counts in front of a netlist: how many inputs, gates and outputs it has.
ghost use Rattle.std.specs.Prelude.{◌≡◌, set};
ghost use Rattle.std.proofs.lemmas.List.Edits.{sets};
ghost use Rattle.netlist.specs.Words.{header, counts_of, word_count};

use crate::{GATE_STRIDE, HEADER_WORDS};

#[derive(Clone, Copy)]
pub struct Counts {
    pub inputs: u32,
    pub gates: u32,
    pub outputs: u32,
}

// The counts that a netlist's first words are; 0 for a word that is not there.
pub fn counts_of(net: &[u32]) -> Counts
    ensures { result ≡ counts_of net.now }
{
    Counts {
        inputs: answer::get_or(net, 0, 0),
        gates: answer::get_or(net, 1, 0),
        outputs: answer::get_or(net, 2, 0),
    }
}

// How many words a netlist of these counts has.
pub fn word_count(counts: Counts) -> usize
    ensures { result ≡ word_count counts }
{
    HEADER_WORDS + GATE_STRIDE * (counts.gates as usize) + (counts.outputs as usize)
}

// A word stored at a place; nothing past the end.
fn put_word(out: &mut [u32], i: usize, x: u32)
    ensures { out.new ≡ set out.old i x }
{
    if i < out.len() {
        out[i] = x;
    }
}

// The counts stored in front; nothing past the end.
pub fn put_header(out: &mut [u32], counts: Counts)
    ensures { out.new ≡ sets out.old 0 (header counts) }
{
    put_word(out, 0, counts.inputs);
    put_word(out, 1, counts.gates);
    put_word(out, 2, counts.outputs);
}
