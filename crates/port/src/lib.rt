// A port record's five fields and its 64 bits: docs/RULES.md, "Frames". No call on frames judges fields: a record is any
// 64 bits.
#![tactic(auto)]

ghost use Rattle.std.specs.Prelude.{◌≡◌, ◌+◌, ◌<◌, ◌≤◌, length, Ok};
ghost use Rattle.answer.specs.Fronts.{over};
ghost use Rattle.port.specs.Bytes.{value_at, high_first, BitList};
ghost use Rattle.port.specs.Layout.{field_number, within, bits_of, port_of, port_made, fields_answer, found_by, BitsWritten};

use answer::{Answer, Refusal};

pub const RECORD_BITS: usize = 64;

// A port's fields, in their order.
#[derive(Clone, Copy, Debug, PartialEq, Eq)]
pub enum Field {
    Number,
    Admin,
    Link,
    Errors,
    Load,
}

// A field's place, counted from 1.
impl From<Field> for u32 {
    ghost from_gives = { λ field n. n ≡ field_number field };

    fn from(field: Field) -> u32 {
        match field {
            Field::Number => 1,
            Field::Admin => 2,
            Field::Link => 3,
            Field::Errors => 4,
            Field::Load => 5,
        }
    }
}

// Made by `new` and `fields` alone, so that each value has room in its field. That is no ghost field: `port_of` and
// `port_made` would have to prove it of the numbers that they are given.
#[derive(Clone, Copy, Debug, PartialEq, Eq)]
pub struct Port {
    number: u32,
    admin: u32,
    link: u32,
    errors: u32,
    load: u32,
}

// Refuses a value that is too large for its field.
#[tactic(auto, using(crate::proofs::Layouts::too_large, crate::proofs::Layouts::no_high))]
fn room(field: Field, width: u32, x: u32) -> Result<(), Field>
    requires { width < 32 }
    ensures { result ≡ within field width x (Ok tt) }
{
    if x >> width != 0 {
        return Err(field);
    }
    Ok(())
}

impl Port {
    // The port's number below 65,536, admin up and link up 0 or 1, errors below 4,194,304, load below 16,777,216; or the
    // first field whose value is too large for it.
    #[tactic(auto, using(crate::proofs::Layouts::large_by, crate::proofs::Layouts::next), unfolding(crate::specs::Layout::port_made))]
    pub fn new(number: u32, admin: u32, link: u32, errors: u32, load: u32) -> Result<Port, Field>
        ensures { result ≡ port_made number admin link errors load }
    {
        room(Field::Number, 16, number)?;
        room(Field::Admin, 1, admin)?;
        room(Field::Link, 1, link)?;
        room(Field::Errors, 22, errors)?;
        room(Field::Load, 24, load)?;
        Ok(Port {
            number,
            admin,
            link,
            errors,
            load,
        })
    }

    pub fn number(self) -> u32
        ensures { result ≡ self.number }
    {
        self.number
    }

    pub fn admin_up(self) -> u32
        ensures { result ≡ self.admin }
    {
        self.admin
    }

    pub fn link_up(self) -> u32
        ensures { result ≡ self.link }
    {
        self.link
    }

    pub fn errors(self) -> u32
        ensures { result ≡ self.errors }
    {
        self.errors
    }

    pub fn load(self) -> u32
        ensures { result ≡ self.load }
    {
        self.load
    }

    fn put_fields(self, out: &mut [u8])
        requires { 64 ≤ length out.old }
        ensures { out.new ≡ over (bits_of self) out.old }
    {
        put_number(self.number, 16, out);
        put_number(self.admin, 1, &mut out[16..]);
        put_number(self.link, 1, &mut out[17..]);
        put_number(self.errors, 22, &mut out[18..]);
        put_number(self.load, 24, &mut out[40..]);
    }
}

// The number that n of the 64 bits make, from a place on.
fn number_at(s: &[u8], at: usize, n: usize) -> u32
    requires few { n ≤ 24 }
    requires within { at + n ≤ 64 }
    requires held { BitList 64 s.now }
    ensures { result ≡ value_at 2 s.now at n }
{
    let mut x: u32 = 0;
    for i in 0..n {
        x = x * 2 + u32::from(s[at + i]);
    }
    x
}

// The n low bits of a number, at the front of a list.
fn put_number(x: u32, n: usize, out: &mut [u8])
    requires { (n ≤ 24) × (n ≤ length out.old) }
    ensures { out.new ≡ over (high_first n x) out.old }
{
    for i in 0..n {
        out[i] = ((x >> (n - 1 - i)) % 2) as u8;
    }
}

#[tactic(auto, using(answer::proofs::Rows::stop, answer::proofs::Rows::stop_by, answer::proofs::Rows::go), unfolding(crate::specs::Layout::fields_answer))]
fn judge(s: &[u8]) -> Answer
    ensures { result ≡ fields_answer s.now }
{
    answer::exact(s.len(), RECORD_BITS, 1)?;
    answer::bits(s, 1)
}

// The fields that 64 bits hold.
#[tactic(auto, using(crate::proofs::Layouts::fields_held))]
pub fn fields(bits: &[u8]) -> Result<Port, Refusal>
    ensures { result ≡ found_by (fields_answer bits.now) (port_of bits.now) }
{
    judge(bits)?;
    Ok(Port {
        number: number_at(bits, 0, 16),
        admin: number_at(bits, 16, 1),
        link: number_at(bits, 17, 1),
        errors: number_at(bits, 18, 22),
        load: number_at(bits, 40, 24),
    })
}

// The 64 bits of a port's fields.
pub fn bits(port: Port, res: &mut [u8]) -> Answer
    ensures { BitsWritten port res.old result res.new }
{
    answer::room(res.len(), RECORD_BITS, 1)?;
    port.put_fields(res);
    Ok(())
}
