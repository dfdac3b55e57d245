// Kreyvium's deciphering netlist, written: header, gates and outputs. m is the number of the record's bits. Rounds count from 0;
// each of the first 1,152 has 14 gates, and each of the m after them, which have an output, 17.
ghost use Rattle.std.specs.Prelude.{◌≡◌, ◌+◌, ◌≤◌, ◌<◌, length};
ghost use Rattle.std.proofs.lemmas.List.Edits.{sets};
ghost use Rattle.answer.specs.Fronts.{over};
ghost use Rattle.netlist.specs.Words.{header_words, gate_place, word_count, words};
ghost use Rattle.netlist.specs.Put.{put_gates};
ghost use Rattle.rounds.specs.Gates.{outs_from, out_gates, kreyvium_gates, kreyvium_net};
ghost use Rattle.register.specs.InnerPlaces.{head_of, gain_of, tail_of};
ghost use Rattle.register.specs.InnerRounds.{counts_for, plain_at, plain_of, plain_rest, output_at, output_wire, output_of, output_rest};

use crate::put::put_gate;
use crate::wires::{Netlist, Round, Taps};
use netlist::counts::Counts;
use netlist::gate::Gate;
use netlist::{GATE_STRIDE, HEADER_WORDS};

// The first word of a gate.
fn gate_place(gate: u32) -> usize
    ensures { result ≡ gate_place gate }
{
    HEADER_WORDS + GATE_STRIDE * (gate as usize)
}

// Where a round's gates stand: the first word, and the first wire.
#[derive(Clone, Copy)]
struct Spot {
    at: usize,
    w: u32,
    ghost low: { w ≤ 20000 },
}

// The product of p and q, on wire u; it is added to the sum t, on wire v; then y.
fn put_gain(out: &mut [u32], at: usize, t: u32, u: u32, v: u32, p: u32, q: u32, y: u32)
    requires { at + 12 ≤ length out.old }
    ensures { out.new ≡ put_gates out.old at (gain_of t u v p q y) }
{
    put_gate(out, at, Gate::And(p, q));
    put_gate(out, at + 4, Gate::Xor(t, u));
    put_gate(out, at + 8, Gate::Xor(v, y));
}

impl Spot {
    // t1, t2, s243 + s288, t3
    fn put_head(self, out: &mut [u32], t: Taps)
        requires { self.at + 16 ≤ length out.old }
        ensures { out.new ≡ put_gates out.old self.at (head_of self.w t) }
    {
        let at = self.at;
        let a = t.a;
        let b = t.b;
        let c = t.c;
        put_gate(out, at, Gate::Xor(a.p, a.t));
        put_gate(out, at + 4, Gate::Xor(b.p, b.t));
        put_gate(out, at + 8, Gate::Xor(c.p, c.t));
        put_gate(out, at + 12, Gate::Xor(self.w + 2, t.k));
    }

    // t1 + t2, + t3, + the record bit on wire x
    fn put_out(self, out: &mut [u32], x: u32)
        requires { self.at + 28 ≤ length out.old }
        ensures { out.new ≡ put_gates out.old (self.at + 16) (out_gates self.w (self.w + 4) x) }
    {
        let at = self.at + 16;
        let w = self.w;
        put_gate(out, at, Gate::Xor(w, w + 1));
        put_gate(out, at + 4, Gate::Xor(w + 4, w + 3));
        put_gate(out, at + 8, Gate::Xor(w + 4 + 1, x));
    }

    // What t1, t2 and t3 gain, ten gates from word at and wire u on.
    fn put_tail(self, out: &mut [u32], at: usize, u: u32, t: Taps)
        requires { (at + 40 ≤ length out.old) × (u ≤ 20000) }
        ensures { out.new ≡ put_gates out.old at (tail_of self.w u t) }
    {
        let w = self.w;
        let a = t.a;
        let b = t.b;
        let c = t.c;
        put_gain(out, at, w, u, u + 1, a.r, a.s, b.q);
        put_gate(out, at + 12, Gate::Xor(u + 2, t.v));
        put_gain(out, at + 16, w + 1, u + 4, u + 5, b.r, b.s, c.q);
        put_gain(out, at + 28, w + 3, u + 7, u + 8, c.r, c.s, a.q);
    }
}

impl Netlist<'_> {
    // What it has of each: 128 key bits and m record bits come in; ZERO, ONE and the rounds' gates follow.
    pub(crate) fn counts(self) -> Counts
        ensures { result ≡ counts_for self.entry.m }
    {
        Counts {
            inputs: 128 + self.m,
            gates: 16130 + 17 * self.m,
            outputs: self.m,
        }
    }

    // Round n without output, over what it reads: 14 gates, behind the header, ZERO, ONE and the rounds before.
    fn plain_round(self, out: &mut [u32], n: u32, t: Taps)
        requires { (n < 1152) × (output_at 0 ≤ length out.old) }
        ensures { out.new ≡ put_gates out.old (plain_at n) (plain_of self.entry.m n t) }
    {
        let w = 130 + self.m + 14 * n;
        let at = gate_place(2 + 14 * n);
        let spot = Spot { at, w };
        spot.put_head(out, t);
        spot.put_tail(out, at + 16, w + 4, t);
    }

    // Round 1,152 + k with output bit k, over what it reads: 17 gates.
    fn output_round(self, out: &mut [u32], k: u32, t: Taps)
        requires { (k < 64) × (output_at (k + 1) ≤ length out.old) }
        ensures { out.new ≡ put_gates out.old (output_at k) (output_of self.entry.m k t) }
    {
        let w = 16258 + self.m + 17 * k;
        let at = gate_place(16130 + 17 * k);
        let spot = Spot { at, w };
        spot.put_head(out, t);
        spot.put_out(out, 128 + k);
        spot.put_tail(out, at + 28, w + 7, t);
    }

    fn plain_rounds(self, out: &mut [u32])
        requires { output_at 0 ≤ length out.old }
        ensures { put_gates out.new (output_at 0) (output_rest self.entry.iv.now self.entry.m 0) ≡ put_gates out.old (plain_at 0) (plain_rest self.entry.iv.now self.entry.m 0) }
    {
        'early: for n in 0..111 {
            self.plain_round(out, n, Round { net: self, n }.early_taps());
        }
        'late: for n in 111..1152 {
            self.plain_round(out, n, Round { net: self, n }.late_taps());
        }
    }

    fn output_rounds(self, out: &mut [u32])
        requires { output_at self.m ≤ length out.old }
        ensures { out.new ≡ put_gates out.old (output_at 0) (output_rest self.entry.iv.now self.entry.m 0) }
    {
        for k in 0..self.m {
            let n = 1152 + k;
            self.output_round(out, k, Round { net: self, n }.late_taps());
        }
    }

    // ZERO, ONE and every round's gates, behind the header.
    fn put_rounds(self, out: &mut [u32])
        requires { output_at self.m ≤ length out.old }
        ensures { out.new ≡ put_gates out.old header_words (kreyvium_gates self.entry.iv.now self.entry.m) }
    {
        put_gate(out, gate_place(0), Gate::Zero);
        put_gate(out, gate_place(1), Gate::One);
        self.plain_rounds(out);
        self.output_rounds(out);
    }

    fn put_outs(self, out: &mut [u32])
        requires { word_count (counts_for self.m) ≤ length out.old }
        ensures { out.new ≡ sets out.old (output_at self.entry.m) (outs_from 0 self.entry.m (output_wire self.entry.m 0)) }
    {
        let m = self.m;
        let start = gate_place(16130 + 17 * m);
        for k in 0..m {
            out[start + (k as usize)] = 16264 + m + 17 * k;
        }
    }

    // The whole netlist.
    pub(crate) fn put(self, out: &mut [u32])
        requires { length (words (kreyvium_net self.iv.now self.m)) ≤ length out.old }
        ensures { out.new ≡ over (words (kreyvium_net self.entry.iv.now self.entry.m)) out.old }
    {
        netlist::counts::put_header(out, self.counts());
        self.put_rounds(out);
        self.put_outs(out);
    }
}
