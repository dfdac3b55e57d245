// The printing program's work on lists of bytes: docs/RULES.md, "The printing program". The text that is
// printed for a whole input.
#![tactic(auto)]

mod gates;
mod net;
mod text;
mod threshold;

ghost use Rattle.std.specs.Prelude.{◌≡◌, []};
ghost use Rattle.text.specs.Text.{printed, Kept, Printed};

use crate::text::Text;
use answer::Refusal;

// The text for an input.
#[tactic(auto, using(crate::proofs::Fits::threshold_fits), unfolding(crate::specs::Text::text_of, crate::specs::Text::printed))]
fn write(input: &[u8], text: &mut Text)
    requires { text.old ≡ [] }
    ensures { text.new ≡ printed input.now }
{
    match line::parse(input) {
        Some(line) => text.threshold(line),
        None => text.refused(),
    }
}

// A text copied to the front of the result, and its length. Judged 8; the result is list 2, after the input.
fn keep(text: &[u8], res: &mut [u8]) -> Result<usize, Refusal>
    ensures { Kept text.now res.old result res.new }
{
    answer::room(res.len(), text.len(), 2)?;
    res[..text.len()].copy_from_slice(text);
    Ok(text.len())
}

// What is printed on a whole input, at the front of the result, and its length.
pub fn print_text(input: &[u8], res: &mut [u8]) -> Result<usize, Refusal>
    ensures { Printed input.now res.old result res.new }
{
    let mut text = Text::new();
    write(input, &mut text);
    keep(text.as_slice(), res)
}
