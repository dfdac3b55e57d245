// The deciphering netlists of instances 1 to 5: docs/RULES.md, "What is emitted". Each bit has its NOTs, its
// filter, and the XOR with its record bit. Room is the caller's to see to.
ghost use Rattle.std.specs.Prelude.{◌≡◌, true, List, [], ◌∷◌, ◌++◌, ℕ, ◌+◌, ◌*◌, ◌≤◌, ◌<◌, length, get_or};
ghost use Rattle.std.proofs.lemmas.List.Edits.{sets};
ghost use Rattle.answer.specs.Fronts.{over};
ghost use Rattle.netlist.specs.Words.{words};
ghost use Rattle.netlist.specs.declared.gate.Gate.{Gate};
ghost use Rattle.netlist.specs.declared.gate.Gate.TheVariants.{Not};
ghost use Rattle.netlist.specs.Gates.{gate_words};
ghost use Rattle.netlist.specs.Put.{put_gates, Wrote};
ghost use Rattle.wiring.specs.Exp.{wire, sum, emit, product, chain, monomials};
ghost use Rattle.wiring.specs.Inner.{fits};
ghost use Rattle.wiring.specs.Costs.{cost_of};
ghost use Rattle.wiring.specs.Decipher.{nots, vars, filter_exp, bit_part, bits_gates, bits_outs, rows_net};
ghost use Rattle.instance.specs.Table.{key_bits, row_bits};
ghost use Rattle.filter.specs.Filter.{ones};
ghost use Rattle.filter.specs.Instances.{degrees_of};
ghost use Rattle.wiring.specs.Rows.{Rows};
ghost use Rattle.emit.specs.InnerRows.{variable_wire, flips, term, Wiring};

use crate::levels::put_threshold;
use crate::put::{Next, put_gate, put_words};
use netlist::counts::Counts;
use netlist::gate::Gate;
use netlist::{GATE_STRIDE, HEADER_WORDS};

// An instance from 1 to 5 and the wires of a row's variables.
#[derive(Clone, Copy)]
struct Variables<'a> {
    instance: u32,
    xs: &'a [u32],
    ghost low: { 1 ≤ instance },
    ghost high: { instance ≤ 5 },
    ghost whole: { length xs.now ≡ row_bits instance },
}

// An accepted wiring of m bits of an instance from 1 to 5.
#[derive(Clone, Copy)]
pub(crate) struct RowsNet<'a> {
    pub(crate) instance: u32,
    pub(crate) m: u32,
    pub(crate) indices: &'a [u32],
    pub(crate) whitening: &'a [u8],
    ghost wiring: { Wiring instance m indices.now whitening.now },
}

// A NOT of wire p, and whether it counts: where whitening w asks for one. One that does not count is stored all the
// same, and the next gate goes over it: w is as good as random, and a branch on it would be guessed wrong.
fn put_not(out: &mut [u32], at: usize, p: u32, w: u8) -> u32
    requires { at + 4 ≤ length out.old }
    ensures value { (result ≡ flips w) × (result ≤ 1) }
    ensures out_after { out.new ≡ sets out.old at (gate_words (Not p)) }
{
    put_gate(out, at, Gate::Not(p));
    u32::from(w != 0)
}

// The wire of a variable: the key's, or its NOT's.
fn pick_wire(p: u32, w: u8, next: u32) -> u32
    ensures { result ≡ variable_wire p w next }
{
    if w == 0 { p } else { next }
}

// The NOTs of a row and the wires of its variables; where the next gate goes. The words behind the NOTs are the
// next gate's: once any gate is stored there, all is as it should be.
fn put_vars(out: &mut [u32], next: Next, row: &[u32], ws: &[u8], xs: &mut [u32]) -> Next
    requires ws_len { (length ws.now ≡ length row.now) × (length xs.old ≡ length row.now) }
    requires ws_in_bounds { (next.at + 4 * (length (nots row.now ws.now) + 1) ≤ length out.old) × (next.wire + length row.now < 4294967296) }
    ensures at_is { result.at ≡ next.at + 4 * length (nots row.now ws.now) }
    ensures wire_is { result.wire ≡ next.wire + length (nots row.now ws.now) }
    ensures g_after { (g : Gate) → put_gates out.new (next.at + 4 * length (nots row.now ws.now)) (g ∷ []) ≡ put_gates out.old next.at (nots row.now ws.now ++ g ∷ []) }
    ensures xs_after { xs.new ≡ vars next.wire row.now ws.now }
{
    let mut i = next.at;
    let mut wire = next.wire;
    for (j, &p) in row.iter().enumerate() {
        let w = ws[j];
        xs[j] = pick_wire(p, w, wire);
        let more = put_not(out, i, p, w);
        i += 4 * (more as usize);
        wire += more;
    }
    Next { at: i, wire }
}

// The product of wires as a chain from the left, the running product first; its wire. That there is a wire is asked here, of
// put_term and of put_cells: a struct for it would be made anew at each call, since each is lent another part of a list.
// The loops here and in put_monomials go by place as that of put_cells does.
fn put_chain(out: &mut [u32], next: Next, ws: &[u32]) -> u32
    requires { (1 ≤ length ws.now) × (next.at + 4 * length ws.now ≤ length out.old + 4) × (next.wire + length ws.now < 4294967296) }
    ensures { Wrote out.old next.at (emit next.wire (product (chain (length ws.now)) ws.now)) out.new result }
{
    let mut i = next.at;
    let mut acc = ws[0];
    let mut wire = next.wire;
    for j in 1..ws.len() {
        put_gate(out, i, Gate::And(acc, ws[j]));
        acc = wire;
        i += 4;
        wire += 1;
    }
    acc
}

// One more monomial, and its XOR to the running sum at wire acc; the new sum's wire.
fn put_term(out: &mut [u32], next: Next, acc: u32, ws: &[u32]) -> u32
    requires { (1 ≤ length ws.now) × (next.at + 4 * length ws.now ≤ length out.old) × (next.wire + length ws.now < 4294967296) }
    ensures { Wrote out.old next.at (term next.wire acc ws.now) out.new result }
{
    let w = put_chain(out, next, ws);
    let end = next.past(ws.len() - 1);
    put_gate(out, end.at, Gate::Xor(acc, w));
    end.wire
}

// The sum of monomials of the given degrees over the wires xs, each used once; its wire.
fn put_monomials(out: &mut [u32], next: Next, degrees: &[u8], xs: &[u32]) -> u32
    requires in_bounds { (1 ≤ length degrees.now) × (fits degrees.now (length xs.now) ≡ true) }
    requires xs_in_bounds { (next.at + 4 * length xs.now ≤ length out.old + 4) × (next.wire + length xs.now < 4294967296) }
    ensures { Wrote out.old next.at (emit next.wire (monomials chain degrees.now xs.now)) out.new result }
{
    let first = usize::from(degrees[0]);
    let mut acc = put_chain(out, next, &xs[..first]);
    let mut used = first;
    for j in 1..degrees.len() {
        let end = used + usize::from(degrees[j]);
        acc = put_term(out, next.past(used - 1), acc, &xs[used..end]);
        used = end;
    }
    acc
}

// How many gates a bit has besides its NOTs.
fn bit_gates(instance: u32) -> usize
    ensures { (result ≡ (cost_of instance).gates) × (result ≤ 1394) }
{
    if instance == 5 {
        return 1197;
    }
    instance::row_bits(instance)
}

// How many bits are 1, summed in 32 bits: the compiler adds more of those at a time than of 64.
fn count_ones(wh: &[u8]) -> u32
    requires { length wh.now < 4294967296 }
    ensures { result ≡ ones wh.now }
{
    let mut n: u32 = 0;
    for &w in wh {
        n += u32::from(w % 2);
    }
    n
}

// That the wires lie below the next free one stays a clause: the next one moves between the calls. 81 is where FiLIP-144's
// threshold begins.
impl Variables<'_> {
    // The sum of the instance's monomials.
    fn put_sum(self, out: &mut [u32], next: Next) -> u32
        requires xs_in_bounds { (next.at + 4 * length self.xs.now ≤ length out.old + 4) × (next.wire + length self.xs.now < 4294967296) }
        ensures { Wrote out.old next.at (emit next.wire (monomials chain (degrees_of self.entry.instance) self.entry.xs.now)) out.new result }
    {
        put_monomials(out, next, filter::degrees(self.instance), self.xs)
    }

    // The instance's filter; its wire. FiLIP-144: an XOR chain of 80 gates, a threshold of 1,115, and the XOR of both.
    fn put_filter(self, out: &mut [u32], next: Next) -> u32
        requires next_bound { (get_or self.xs.now 81 0 < next.wire) × (next.wire ≤ 900000) }
        requires instance_in_bounds { next.at + 4 * (cost_of self.instance).gates ≤ length out.old + 4 }
        ensures { Wrote out.old next.at (emit next.wire (filter_exp chain self.entry.instance self.entry.xs.now)) out.new result }
    {
        let s = self.put_sum(out, next);
        if self.instance < 5 {
            return s;
        }
        let t = put_threshold(out, next.past(80), 32, &self.xs[81..]);
        let end = next.past(1195);
        put_gate(out, end.at, Gate::Xor(s, t));
        end.wire
    }

    // The filter, and its XOR with the record bit at wire rec; its wire.
    fn put_filtered(self, out: &mut [u32], next: Next, rec: u32) -> u32
        requires next_bound { (get_or self.xs.now 81 0 < next.wire) × (next.wire ≤ 400000) }
        requires instance_in_bounds { next.at + 4 * (cost_of self.instance).gates ≤ length out.old }
        ensures { Wrote out.old next.at (emit next.wire (sum (filter_exp chain self.entry.instance self.entry.xs.now) (wire rec))) out.new result }
    {
        let f = self.put_filter(out, next);
        let end = next.past(bit_gates(self.instance) - 1);
        put_gate(out, end.at, Gate::Xor(f, rec));
        end.wire
    }

    // One bit, where the variables are a row of the key's: NOTs, filter, XOR with the record bit at wire rec; its wire. xs is
    // room for the row's wires. Where nothing is whitened, as in FLIP, these are the row itself.
    fn put_bit(self, out: &mut [u32], next: Next, rec: u32, ws: &[u8], xs: &mut [u32]) -> u32
        requires lengths { (length ws.now ≡ length self.xs.now) × (length xs.old ≡ length self.xs.now) }
        requires row_bound { (get_or self.xs.now 81 0 < next.wire) × (next.wire ≤ 300000) }
        requires instance_in_bounds { next.at + 4 * (length (nots self.xs.now ws.now) + (cost_of self.instance).gates) ≤ length out.old }
        ensures { Wrote out.old next.at (bit_part chain self.entry.instance rec next.wire self.entry.xs.now ws.now) out.new result }
    {
        if answer::or_all(ws) == 0 {
            return self.put_filtered(out, next, rec);
        }
        let free = put_vars(out, next, self.xs, ws, xs);
        let whitened = Variables {
            instance: self.instance,
            xs,
        };
        whitened.put_filtered(out, free, rec)
    }
}

impl RowsNet<'_> {
    // How many gates the netlist has: a NOT for each whitening 1, and the others.
    pub(crate) fn gates(self) -> usize
        ensures { (result ≡ length (rows_net chain self.entry.instance self.entry.indices.now self.entry.whitening.now self.entry.m).gates) × (result ≤ 178432) }
    {
        (count_ones(self.whitening) as usize) + (self.m as usize) * bit_gates(self.instance)
    }

    // How many bits the key has.
    fn key(self) -> u32
        ensures { (result ≡ key_bits self.entry.instance) × (result ≤ 16384) }
    {
        instance::sizes_of(self.instance).key as u32
    }

    // The gates of all bits; wires gets the bits' wires. The record bits follow key wires. xs is room for a row's wires. A
    // row's place is counted on beside the bit's: three lists go together, cut at two kinds of places.
    fn put_bits(self, out: &mut [u32], next: Next, xs: &mut [u32], wires: &mut [u32])
        requires lengths { (length wires.old ≡ self.m) × (length xs.old ≡ row_bits self.instance) × (key_bits self.instance ≤ next.wire) × (next.wire ≤ 20000) }
        requires next_in_bounds { next.at + 4 * length (bits_gates chain self.instance self.indices.now self.whitening.now (length wires.old) 0 next.wire) ≤ length out.old }
        ensures out_after { out.new ≡ put_gates out.old next.at (bits_gates chain self.entry.instance self.entry.indices.now self.entry.whitening.now (length wires.old) 0 next.wire) }
        ensures wires_after { wires.new ≡ bits_outs chain self.entry.instance self.entry.indices.now self.entry.whitening.now (length wires.old) 0 next.wire }
    {
        let key = self.key();
        let mut i = next.at;
        let mut wire = next.wire;
        let mut start: usize = 0;
        for j in 0..wires.len() {
            let end = start + xs.len();
            let rec = key + (j as u32);
            let row = Variables {
                instance: self.instance,
                xs: &self.indices[start..end],
            };
            let last = row.put_bit(
                out,
                Next { at: i, wire },
                rec,
                &self.whitening[start..end],
                xs,
            );
            wires[j] = last;
            i += 4 * ((last + 1 - wire) as usize);
            wire = last + 1;
            start = end;
        }
    }

    // Header, gates, outputs. xs and wires are just the room for a row's wires and for the outputs.
    fn put_net(self, out: &mut [u32], xs: &mut [u32], wires: &mut [u32])
        requires lengths { (length xs.old ≡ row_bits self.instance) × (length wires.old ≡ self.m) }
        requires m_in_bounds { length (words (rows_net chain self.instance self.indices.now self.whitening.now self.m)) ≤ length out.old }
        ensures { out.new ≡ over (words (rows_net chain self.entry.instance self.entry.indices.now self.entry.whitening.now self.entry.m)) out.old }
    {
        let g = self.gates();
        let inputs = self.key() + self.m;
        let counts = Counts {
            inputs,
            gates: g as u32,
            outputs: self.m,
        };
        netlist::counts::put_header(out, counts);
        let next = Next {
            at: HEADER_WORDS,
            wire: inputs,
        };
        self.put_bits(out, next, xs, wires);
        put_words(out, HEADER_WORDS + GATE_STRIDE * g, wires);
    }

    // The deciphering netlist, written at the front of out.
    pub(crate) fn put(self, out: &mut [u32])
        requires { length (words (rows_net chain self.instance self.indices.now self.whitening.now self.m)) ≤ length out.old }
        ensures { out.new ≡ over (words (rows_net chain self.entry.instance self.entry.indices.now self.entry.whitening.now self.entry.m)) out.old }
    {
        let mut xs = [0u32; 1394];
        let mut wires = [0u32; 64];
        let row = instance::row_bits(self.instance);
        let count = self.m as usize;
        self.put_net(out, &mut xs[..row], &mut wires[..count]);
    }
}
