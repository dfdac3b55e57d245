// The netlist file, read, written and checked: docs/RULES.md, "Netlist file". A file is judged header (12),
// counts (9), room (8), records and rest (12), wires (9), and nothing is written before all is judged. The
// lists are what is read or written, and the result.
#![tactic(auto)]

mod bytes;
mod read;
mod write;

ghost use Rattle.std.specs.Prelude.{◌≡◌};
ghost use Rattle.records.specs.File.{check_answer};
ghost use Rattle.file.specs.File.{ReadAs, WrittenAs};

use answer::Answer;
use records::form::Form;

// The words in a file.
pub fn read_file(source: &[u8], res: &mut [u32]) -> Answer
    ensures { ReadAs Form.Full source.now res.old result res.new }
{
    read::read_form(source, Form::Full, res)
}

// The bytes of a netlist.
pub fn write_file(net: &[u32], res: &mut [u8]) -> Answer
    ensures { WrittenAs Form.Full net.now res.old result res.new }
{
    write::write_form(net, Form::Full, res)
}

// A file judged as reading judges it, without room.
pub fn check_file(source: &[u8]) -> Answer
    ensures { result ≡ check_answer Form.Full source.now }
{
    records::check(source, Form::Full)
}
