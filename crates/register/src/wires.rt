// The wires that a round of Kreyvium reads, computed from its number. Rounds count from 0, and those from 1,152 on have an
// output; m is the number of the record's bits.
//
// Of each register a round reads what entered 66 to 111 rounds ago, or, in the first 111 rounds, what was loaded. So no round
// reads what entered in a round with an output, and all that is read entered in rounds of 14 gates.
ghost use Rattle.std.specs.Prelude.{◌≡◌, ◌+◌, ◌*◌, ◌%◌, ◌≤◌, ◌<◌, length};
ghost use Rattle.register.specs.InnerPlaces.{tail_at, registers_at, const_wire, start_c, entering, loaded, wire_of, places_of, Read, five_of, taps_of};

// The registers by their first places: s1, s94 and s178.
#[derive(Clone, Copy, Debug, PartialEq, Eq)]
enum Register {
    A,
    B,
    C,
}

// Of the five places that a round reads of a register, in the order of their numbers, the wires or the places.
#[derive(Clone, Copy)]
pub(crate) struct Five {
    pub(crate) p: u32,
    pub(crate) q: u32,
    pub(crate) r: u32,
    pub(crate) s: u32,
    pub(crate) t: u32,
}

// The wires that a round reads: of the three registers, K*0 and IV*0.
#[derive(Clone, Copy)]
pub(crate) struct Taps {
    pub(crate) a: Five,
    pub(crate) b: Five,
    pub(crate) c: Five,
    pub(crate) k: u32,
    pub(crate) v: u32,
}

// The netlist for m bits under an IV.
#[derive(Clone, Copy)]
pub(crate) struct Netlist<'a> {
    pub(crate) iv: &'a [u8],
    pub(crate) m: u32,
    ghost iv_whole: { length iv.now ≡ 128 },
    ghost m_small: { m ≤ 64 },
}

// Its round n.
#[derive(Clone, Copy)]
pub(crate) struct Round<'a> {
    pub(crate) net: Netlist<'a>,
    pub(crate) n: u32,
    ghost n_small: { n < 1216 },
}

impl Register {
    // The place among a round's last ten gates of the one whose wire enters the register.
    fn entering(self) -> u32
        ensures { (result ≡ entering self) × (result ≤ 9) }
    {
        match self {
            Register::A => 9,
            Register::B => 3,
            Register::C => 6,
        }
    }

    // The places that a round reads, counted from 0: s66, s69, s91, s92, s93; s162, s171, s175, s176, s177; s243, s264,
    // s286, s287, s288.
    fn places(self) -> Five
        ensures value { result ≡ places_of self }
        ensures p_read { Read result.p }
        ensures q_read { Read result.q }
        ensures r_read { Read result.r }
        ensures s_read { Read result.s }
        ensures t_read { Read result.t }
    {
        match self {
            Register::A => Five {
                p: 65,
                q: 68,
                r: 90,
                s: 91,
                t: 92,
            },
            Register::B => Five {
                p: 68,
                q: 77,
                r: 81,
                s: 82,
                t: 83,
            },
            Register::C => Five {
                p: 65,
                q: 86,
                r: 108,
                s: 109,
                t: 110,
            },
        }
    }
}

impl Five {
    // f of each. Without the hints on inlining the early rounds' wires cost calls, and an eighth of the emission's time.
    #[inline(always)]
    fn map<F: Fn(u32) -> u32>(self, f: F) -> Five
        requires p_asks { F.pre f self.p }
        requires q_asks { F.pre f self.q }
        requires r_asks { F.pre f self.r }
        requires s_asks { F.pre f self.s }
        requires t_asks { F.pre f self.t }
        ensures p_is { F.post f self.p result.p }
        ensures q_is { F.post f self.q result.q }
        ensures r_is { F.post f self.r result.r }
        ensures s_is { F.post f self.s result.s }
        ensures t_is { F.post f self.t result.t }
    {
        Five {
            p: f(self.p),
            q: f(self.q),
            r: f(self.r),
            s: f(self.s),
            t: f(self.t),
        }
    }
}

// The first of the last ten gates of round n, without output.
#[tactic(auto, unfolding(crate::specs::InnerPlaces::tail_at))]
fn tail_at(m: u32, n: u32) -> u32
    requires { (m ≤ 64) × (n ≤ 1151) }
    ensures value { result ≡ tail_at m n }
    ensures upper_bound { result ≤ 20000 }
{
    134 + m + 14 * n
}

impl Round<'_> {
    // The wire of an IV bit: ZERO or ONE.
    #[tactic(auto, using(crate::proofs::Cases::const_zero, crate::proofs::Cases::const_one))]
    fn const_wire(self, i: u32) -> u32
        requires { i < 128 }
        ensures { result ≡ const_wire self.entry.net.iv.now self.entry.net.m i }
    {
        let at = i as usize;
        if self.net.iv[at] == 0 {
            128 + self.net.m
        } else {
            129 + self.net.m
        }
    }

    // What was loaded into the third register: 44 bits of the IV, 66 ones, a zero.
    #[tactic(auto, using(crate::proofs::Cases::c_iv, crate::proofs::Cases::c_ones, crate::proofs::Cases::c_zero))]
    fn start_c(self, i: u32) -> u32
        ensures { result ≡ start_c self.entry.net.iv.now self.entry.net.m i }
    {
        if i < 44 {
            self.const_wire(84 + i)
        } else {
            if i < 110 {
                129 + self.net.m
            } else {
                128 + self.net.m
            }
        }
    }

    // What was loaded into a register.
    fn loaded(self, register: Register, i: u32) -> u32
        requires { i < 111 }
        ensures { result ≡ loaded register self.entry.net.iv.now self.entry.net.m i }
    {
        match register {
            Register::A => i,
            Register::B => self.const_wire(i),
            Register::C => self.start_c(i),
        }
    }

    // That a round is one of the first 111 stays a clause of three functions: a type for these would repeat Round for one fact.
    // The wire at place j of a register before one of the first 111 rounds: what entered j + 1 rounds ago, or what was
    // loaded.
    #[tactic(auto, using(crate::proofs::Cases::wire_new, crate::proofs::Cases::wire_old))]
    fn wire(self, register: Register, j: u32) -> u32
        requires { (self.n < 111) × Read j }
        ensures { result ≡ wire_of register self.entry.net.iv.now self.entry.net.m self.entry.n j }
    {
        if j < self.n {
            tail_at(self.net.m, self.n - j - 1) + register.entering()
        } else {
            self.loaded(register, j - self.n)
        }
    }

    // The wires that one of the first 111 rounds reads of a register.
    #[inline(always)]
    fn early_five(self, register: Register) -> Five
        requires { self.n < 111 }
        ensures { result ≡ five_of register (registers_at self.entry.net.iv.now self.entry.net.m self.entry.n) }
    {
        register.places().map(|j| self.wire(register, j))
    }

    // The wires that a later round reads: all entered in rounds of 14 gates.
    fn late_five(self, register: Register) -> Five
        requires { 111 ≤ self.n }
        ensures { result ≡ five_of register (registers_at self.entry.net.iv.now self.entry.net.m self.entry.n) }
    {
        let enters = 134 + self.net.m + 14 * self.n + register.entering();
        register.places().map(|j| enters - 14 * (j + 1))
    }

    // The bit of K and of IV that leaves K* and IV* in the round: 127, and one less, modulo 128, in each further round.
    fn leaving(self) -> u32
        ensures { result ≡ (127 + 127 * self.entry.n) % 128 }
    {
        (127 + 127 * self.n) % 128
    }

    // What one of the first 111 rounds reads.
    #[tactic(auto, using(crate::proofs::Places::taps_are))]
    pub(crate) fn early_taps(self) -> Taps
        requires { self.n < 111 }
        ensures { result ≡ taps_of (registers_at self.entry.net.iv.now self.entry.net.m self.entry.n) }
    {
        let k = self.leaving();
        Taps {
            a: self.early_five(Register::A),
            b: self.early_five(Register::B),
            c: self.early_five(Register::C),
            k,
            v: self.const_wire(k),
        }
    }

    // What a later round reads. It is apart from early_taps since a test in each round takes a third longer.
    #[tactic(auto, using(crate::proofs::Places::taps_are))]
    pub(crate) fn late_taps(self) -> Taps
        requires { 111 ≤ self.n }
        ensures { result ≡ taps_of (registers_at self.entry.net.iv.now self.entry.net.m self.entry.n) }
    {
        let k = self.leaving();
        Taps {
            a: self.late_five(Register::A),
            b: self.late_five(Register::B),
            c: self.late_five(Register::C),
            k,
            v: self.const_wire(k),
        }
    }
}
