// The form of a file: the header's letter, and how many operands a gate's record has. Nothing else tells one
// form from another.
ghost use Rattle.std.specs.Prelude.{◌≡◌, ◌≤◌};
ghost use Rattle.records.specs.File.{mark_of, width_of};

use netlist::HEADER_WORDS;

// Full: all three operands, used or not.
#[derive(Clone, Copy, Debug, PartialEq, Eq)]
pub enum Form {
    Full,
}

// Each mark is N and one of the others.
pub const BYTE_N: u8 = b'N';

const BYTE_H: u8 = b'H';

pub const BYTE_G: u8 = b'G';

pub const BYTE_O: u8 = b'O';

// The bytes of the header's record, and of an output's.
pub const HEAD_SIZE: usize = 2 + 4 * HEADER_WORDS;

pub const OUT_SIZE: usize = 6;

// The header's letter.
#[tactic(auto, unfolding(crate::specs::File::mark_of))]
pub fn mark_of(form: Form) -> u8
    ensures { result ≡ mark_of form }
{
    match form {
        Form::Full => BYTE_H,
    }
}

// How many operands the record of a gate of this kind has.
#[tactic(auto, unfolding(crate::specs::File::width_of))]
pub fn width(form: Form, kind: u32) -> usize
    ensures { (result ≡ width_of form kind) × (result ≤ 3) }
{
    match form {
        Form::Full => 3,
    }
}
