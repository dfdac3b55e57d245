// Kreyvium's registers, its round and its keystream: docs/RULES.md, "Kreyvium".
//
// The registers are packed words that go into each function by value and come back from it. Beside
// the single round there are 64 rounds at once on whole words: every tap stands at the 66th place of
// its register or above, so what 64 rounds read is in the registers before the first of them.
#![tactic(auto)]

ghost use Rattle.std.specs.Prelude.{◌≡◌, ◌++◌, ℕ, ◌+◌, ◌-◌, ◌%◌, ◌<◌, ◌≤◌, take, drop, get_or};
ghost use Rattle.kreyvium.specs.Kreyvium.{loaded, out_of, t1, t2, t3, push, round_of, rounds, stream, stream_of};
ghost use Rattle.kreyvium.specs.Words.{bits, bit, tops, reg, state_of};
ghost use Rattle.kreyvium.specs.Early.{early, later, Right};

// A register of up to 128 places: the first 64 in lo and the others in hi, each from the low end up.
// A shorter register leaves bits above its length. They are never cleared: every tap stands below
// that length and bits only move up, so none of them is ever read.
#[derive(Clone, Copy)]
struct Words {
    lo: u64,
    hi: u64,
}

// The registers s1..s93, s94..s177 and s178..s288, and K* and IV*, whose first place is bit 127 and whose last is bit 0.
// The fields are private: a caller learns of a state what the promises say of the registers it stands for, and nothing
// of its words.
#[derive(Clone, Copy)]
pub struct State {
    a: Words,
    b: Words,
    c: Words,
    k: Words,
    v: Words,
}

// So many stand before b's first and before c's first, s94 and s178.
const B: u64 = 93;

const C: u64 = 177;

// What 64 rounds bring into a, b and c: the first round's bit at place 63.
#[derive(Clone, Copy)]
struct Entry {
    a: u64,
    b: u64,
    c: u64,
}

// c is loaded with IV84..IV127 at places 0 to 43, then 66 ones, then a zero at place 110, s288. These are the 20 ones of
// the first word, at places 44 to 63.
const ONES_FROM_44: u64 = (1 << 20) - 1 << 44;

// The other 46 ones, at the low end of the second word. The zero is the bit above them.
const ONES_BELOW_46: u64 = (1 << 46) - 1;

impl Words {
    // The 64 bits from place o on.
    fn window(self, o: u64) -> u64
        requires { (0 < o) × (o < 64) }
        ensures { bits 64 result ≡ take 64 (drop o (reg 128 self)) }
    {
        (self.lo >> o) | (self.hi << (64 - o))
    }

    // Two such windows added: first what lo has of both, then what hi has. A window by itself is one instruction
    // of a kind that a processor starts one at a time; the shifts here leave it free for other windows.
    fn windows(self, o: u64, p: u64) -> u64
        requires { (0 < o) × (o < 64) × (0 < p) × (p < 64) }
        ensures { (i : ℕ) → i < 64 → bit result i ≡ (get_or (drop o (reg 128 self)) i 0 + get_or (drop p (reg 128 self)) i 0) % 2 }
    {
        ((self.lo >> o) ^ (self.lo >> p)) ^ ((self.hi << (64 - o)) ^ (self.hi << (64 - p)))
    }

    // What stands at place n, counted from 1, in each of the next 64 rounds, for a tap. The coming round finds it at
    // place n, and the last of the 64 what stands 63 places before it now: one window holds them all.
    fn tap(self, n: u64) -> u64
        requires { (64 < n) × (n < 128) }
        ensures { (len i : ℕ) → n ≤ len → len ≤ 128 → i < 64 → bit result i ≡ get_or (later i (reg len self)) (n - 1) 0 }
    {
        self.window(n - 64)
    }

    // Two taps added.
    fn taps(self, n: u64, m: u64) -> u64
        requires { (64 < n) × (n < 128) × (64 < m) × (m < 128) }
        ensures { (len i : ℕ) → n ≤ len → m ≤ len → len ≤ 128 → i < 64 → bit result i ≡ (get_or (later i (reg len self)) (n - 1) 0 + get_or (later i (reg len self)) (m - 1) 0) % 2 }
    {
        self.windows(n - 64, m - 64)
    }

    // 64 places up: a whole word enters, and the word that stood first moves up.
    fn risen(self, x: u64) -> Words
        ensures { result ≡ record { lo = x; hi = self.lo } }
    {
        Words { lo: x, hi: self.lo }
    }

    // Each bit moves one place up, and the bit at place 63 of x enters.
    fn entered(self, x: u64) -> Words
        ensures { (n : ℕ) → n ≤ 128 → reg n result ≡ push (bit x 63) (reg n self) }
    {
        Words {
            lo: self.risen(x).window(63),
            hi: self.window(63),
        }
    }
}

impl State {
    // Key and IV loaded, each given as two words with its first bit lowest. They stay four numbers here, in `with_stars`
    // and in `stream64`: these are public calls, which take any words.
    pub fn load(k0: u64, k1: u64, v0: u64, v1: u64) -> State
        ensures { state_of result ≡ loaded 0 1 (bits 64 k0 ++ bits 64 k1) (bits 64 v0 ++ bits 64 v1) }
    {
        let k = Words { lo: k0, hi: k1 };
        let v = Words { lo: v0, hi: v1 };
        let c = Words {
            lo: ONES_FROM_44 + (v1 >> 20),
            hi: ONES_BELOW_46,
        };
        State {
            a: k,
            b: v,
            c,
            k,
            v,
        }
    }

    // The same three registers, with K* and IV* from another key and IV. The rules load both from the same; a library
    // whose vectors are public does not.
    pub fn with_stars(self, k0: u64, k1: u64, v0: u64, v1: u64) -> State
        ensures { state_of result ≡ record { a = (state_of self).a; b = (state_of self).b; c = (state_of self).c; k = bits 64 k0 ++ bits 64 k1; v = bits 64 v0 ++ bits 64 v1 } }
    {
        State {
            k: Words { lo: k0, hi: k1 },
            v: Words { lo: v0, hi: v1 },
            ..self
        }
    }

    // The output bits of the next 64 rounds, t1 + t2 + t3 in each: the first at place 63 and the last at place 0. K*0 will
    // be K*0..K*63 of now, which is k.hi.
    pub fn outputs64(self) -> u64
        ensures { (n : ℕ) → n ≤ 64 → tops n result ≡ stream n (state_of self) }
    {
        self.a.taps(66, 93)
            ^ self.b.taps(162 - B, 177 - B)
            ^ self.c.taps(243 - C, 288 - C)
            ^ self.k.hi
    }

    // The output bit of the coming round.
    pub fn output(self) -> u8
        ensures { result ≡ out_of (state_of self) }
    {
        (self.outputs64() >> 63) as u8
    }

    // t1 with what it gains; IV*0 is v.hi likewise.
    fn word_one(self) -> u64
        ensures { (i : ℕ) → i < 64 → bit result i ≡ t1 (early self i) }
    {
        self.a.taps(66, 93) ^ (self.a.tap(91) & self.a.tap(92)) ^ self.b.tap(171 - B) ^ self.v.hi
    }

    // t2 with what it gains.
    fn word_two(self) -> u64
        ensures { (i : ℕ) → i < 64 → bit result i ≡ t2 (early self i) }
    {
        self.b.taps(162 - B, 177 - B)
            ^ (self.b.tap(175 - B) & self.b.tap(176 - B))
            ^ self.c.tap(264 - C)
    }

    // t3 with what it gains.
    fn word_three(self) -> u64
        ensures { (i : ℕ) → i < 64 → bit result i ≡ t3 (early self i) }
    {
        self.c.taps(243 - C, 288 - C)
            ^ self.k.hi
            ^ (self.c.tap(286 - C) & self.c.tap(287 - C))
            ^ self.a.tap(69)
    }

    fn entry(self) -> Entry
        ensures { Right self result }
    {
        Entry {
            a: self.word_three(),
            b: self.word_one(),
            c: self.word_two(),
        }
    }

    // One round: of the 64 bits that would enter each register, the first does.
    pub fn round(self) -> State
        ensures { state_of result ≡ round_of (state_of self) }
    {
        let e = self.entry();
        State {
            a: self.a.entered(e.a),
            b: self.b.entered(e.b),
            c: self.c.entered(e.c),
            k: self.k.entered(self.k.hi),
            v: self.v.entered(self.v.hi),
        }
    }

    // 64 rounds at once. K* and IV* turn by half their length, so their words change places.
    pub fn rounds64(self) -> State
        ensures { state_of result ≡ rounds 64 (state_of self) }
    {
        let e = self.entry();
        State {
            a: self.a.risen(e.a),
            b: self.b.risen(e.b),
            c: self.c.risen(e.c),
            k: self.k.risen(self.k.hi),
            v: self.v.risen(self.v.hi),
        }
    }

    // The 1,152 rounds before the first output bit: 18 times 64, two of them a turn, after which each word is where
    // it was.
    pub fn warmed(self) -> State
        ensures { state_of result ≡ rounds 1152 (state_of self) }
    {
        let mut s = self;
        for _ in 0..9u8 {
            let t = s.rounds64();
            s = t.rounds64();
        }
        s
    }
}

// The first 64 keystream bits, the first at place 63; key and IV are two words each, first bit lowest.
pub fn stream64(k0: u64, k1: u64, v0: u64, v1: u64) -> u64
    ensures { (n : ℕ) → n ≤ 64 → tops n result ≡ stream_of (bits 64 k0 ++ bits 64 k1) (bits 64 v0 ++ bits 64 v1) n }
{
    State::load(k0, k1, v0, v1).warmed().outputs64()
}
