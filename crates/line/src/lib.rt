// The line "d n" that the printing program reads: docs/RULES.md, "The printing program".
#![tactic(auto)]

ghost use Rattle.std.specs.Prelude.{◌≡◌, ◌≤◌, Some};
ghost use Rattle.line.specs.Asked.{digit_at, number_at, ended_by, asked_of};

// What a line "d n" asks for.
#[derive(Clone, Copy, Debug, PartialEq, Eq)]
pub struct Line {
    pub d: u32,
    pub n: u32,
}

// A number and the place past it.
#[derive(Clone, Copy)]
struct Number {
    value: u32,
    past: usize,
}

// The value of the digit at a place, none where no digit stands there.
#[tactic(auto, unfolding(crate::specs::Asked::digit_at))]
fn digit(s: &[u8], at: usize) -> Option<u32>
    ensures { result ≡ digit_at s.now at }
{
    let byte = answer::get_or(s, at, 0);
    if byte.is_ascii_digit() {
        return Some(u32::from(byte - b'0'));
    }
    None
}

// The number of 1 to 3 digits at a place. A first digit '0' is the whole number.
#[tactic(auto, using(crate::proofs::Reading::digit_byte), unfolding(crate::specs::Asked::number_of, crate::specs::Asked::number_at))]
fn read_number(s: &[u8], at: usize) -> Option<Number>
    requires { at ≤ 4 }
    ensures { result ≡ number_at s.now at }
{
    let a = digit(s, at)?;
    let one = Number {
        value: a,
        past: at + 1,
    };
    if a == 0 {
        return Some(one);
    }
    let Some(b) = digit(s, at + 1) else {
        return Some(one);
    };
    let Some(c) = digit(s, at + 2) else {
        return Some(Number {
            value: a * 10 + b,
            past: at + 2,
        });
    };
    Some(Number {
        value: a * 100 + b * 10 + c,
        past: at + 3,
    })
}

// The line of d and a second number: a newline follows it, and nothing after that.
#[tactic(auto, unfolding(crate::specs::Asked::ended_by))]
fn ended(input: &[u8], d: u32, second: Number) -> Option<Line>
    ensures { result ≡ ended_by input.now d (Some second) }
{
    if answer::get_or(input, second.past, 0) != b'\n' {
        return None;
    }
    if input.len() == second.past + 1 {
        return Some(Line { d, n: second.value });
    }
    None
}

// What a whole input asks.
#[tactic(auto, using(crate::proofs::Reading::number_past), unfolding(crate::specs::Asked::ended_by, crate::specs::Asked::followed, crate::specs::Asked::asked_of))]
pub fn parse(input: &[u8]) -> Option<Line>
    ensures { result ≡ asked_of input.now }
{
    let first = read_number(input, 0)?;
    if answer::get_or(input, first.past, 0) != b' ' {
        return None;
    }
    let second = read_number(input, first.past + 1)?;
    ended(input, first.value, second)
}
