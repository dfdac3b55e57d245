// A text that is made part after part, with room for the longest one that is printed (`printed-fits`), without a heap.
ghost use Rattle.std.specs.Prelude.{◌≡◌, ◌≤◌, List, ℕ, [], ◌++◌, take, length};
ghost use Rattle.line.specs.Decimal.{decimal};
ghost use Rattle.text.specs.Text.{named, pair, triple};
ghost use Rattle.text.specs.Inner.{Room};

use std::marker::Model;

const ROOM: usize = 131072;

#[derive(Drop)]
pub(crate) struct Text {
    bytes: [u8; ROOM],
    len: usize,
}

impl Model for Text {
    ghost Value = { List ℕ };

    ghost view = { λ t. take t.len t.bytes };

    ghost invariant = { λ t. t.len ≤ 131072 };
}

impl Text {
    pub(crate) fn new() -> Text
        ensures { result ≡ [] }
    {
        Text {
            bytes: [0; ROOM],
            len: 0,
        }
    }

    pub(crate) fn as_slice(&self) -> &[u8]
        ensures { result.now ≡ self.now }
    {
        &self.bytes[..self.len]
    }

    pub(crate) fn bytes(&mut self, bytes: &[u8])
        requires { Room self.old bytes.now }
        ensures { self.new ≡ self.old ++ bytes.now }
    {
        let end = self.len + bytes.len();
        self.bytes[self.len..end].copy_from_slice(bytes);
        self.len = end;
    }

    // A number in decimal. By hand: no clause of std's `fmt` says that a text is written whole where there is room.
    #[tactic(auto, using(line::proofs::Decimals::decimal_low, line::proofs::Decimals::decimal_high, std::proofs::lemmas::Grind::common_steps))]
    pub(crate) fn decimal(&mut self, n: u32)
        requires { Room self.old (decimal n) }
        ensures { self.new ≡ self.old ++ decimal n }
    {
        if n < 10 {
            return self.bytes(&[b'0' + n as u8]);
        }
        self.decimal(n / 10);
        self.bytes(&[b'0' + (n % 10) as u8]);
    }

    // What stands before a number, and the number.
    #[tactic(auto, unfolding(crate::specs::Text::named))]
    pub(crate) fn named(&mut self, name: &[u8], n: u32)
        requires { Room self.old (named name.now n) }
        ensures { self.new ≡ self.old ++ named name.now n }
    {
        self.bytes(name);
        self.decimal(n);
    }

    // The same with two numbers, or three, and a space between: the text has just these.
    #[tactic(auto, unfolding(crate::specs::Text::pair))]
    pub(crate) fn pair(&mut self, name: &[u8], a: u32, b: u32)
        requires { Room self.old (pair name.now a b) }
        ensures { self.new ≡ self.old ++ pair name.now a b }
    {
        self.named(name, a);
        self.named(b" ", b);
    }

    #[tactic(auto, unfolding(crate::specs::Text::triple))]
    pub(crate) fn triple(&mut self, name: &[u8], a: u32, b: u32, c: u32)
        requires { Room self.old (triple name.now a b c) }
        ensures { self.new ≡ self.old ++ triple name.now a b c }
    {
        self.pair(name, a, b);
        self.named(b" ", c);
    }
}
