// The cells of the one-hot and threshold netlists, level by level over any input wires: docs/RULES.md, "What is
// emitted". Room is the caller's to see to.
ghost use Rattle.std.specs.Prelude.{◌≡◌, ◌+◌, ◌-◌, ◌*◌, ◌≤◌, ◌<◌, length, get_or};
ghost use Rattle.netlist.specs.Glue.{up_from};
ghost use Rattle.netlist.specs.Words.{header_words, gate_place};
ghost use Rattle.netlist.specs.Put.{put_gates, Wrote};
ghost use Rattle.cells.specs.Cells.{threshold_part};
ghost use Rattle.cells.specs.InnerLoop.{pos, down, tail, low_gates, sum_gates, first_gates, first_wire, cells};
ghost use Rattle.emit.specs.InnerLevels.{level_gates, after_level, first_level, LevelFits, StepFits};

use crate::put::{Next, put_gate, put_wires};
use netlist::HEADER_WORDS;
use netlist::gate::Gate;

// Where a run of levels stands. Cell 0 is kept at `lows` more levels. The last AND of a level is a cell at
// `highs` - 1 more; then it is the sum, and after that it joins the sum. The row before has its cells at wires
// `first`, `second`, `second` + 1, ..; `more` are there after the first.
#[derive(Clone, Copy)]
pub struct LevelRow {
    pub at: usize,
    pub lows: u32,
    pub highs: u32,
    pub first: u32,
    pub second: u32,
    pub more: u32,
    pub next: u32,
    pub sum: u32,
}

// The cells over inputs 0 .. n-1, with cell 0 kept at the first `lows` levels and the last cell at the first `highs`.
#[derive(Clone, Copy)]
pub(crate) struct Cells {
    pub(crate) n: u32,
    pub(crate) lows: u32,
    pub(crate) highs: u32,
    ghost some: { 1 ≤ n },
    ghost few: { n ≤ 64 },
}

// 1 from one on.
fn pos_of(n: u32) -> u32
    ensures { (result ≡ pos n) × (result ≤ 1) }
{
    u32::from(0 < n)
}

// One less, and 0 of 0.
fn down_of(n: u32) -> u32
    ensures { (result ≡ down n) × (result ≡ n - 1) }
{
    n.saturating_sub(1)
}

// Cell 0 where it is kept: NOT of the input, AND of the row's first cell and that.
fn put_low(out: &mut [u32], at: usize, lows: u32, x: u32, first: u32, next: u32)
    requires { at + 8 * pos lows ≤ length out.old }
    ensures { out.new ≡ put_gates out.old at (low_gates lows x first next) }
{
    if 0 < lows {
        put_gate(out, at, Gate::Not(x));
        put_gate(out, at + 4, Gate::And(first, next));
    }
}

// The cells that choose between two neighbours of the row before, then AND of its last cell and the input.
fn put_tail(out: &mut [u32], at: usize, x: u32, first: u32, second: u32, more: u32)
    requires { (at + 4 * (more + 1) ≤ length out.old) × (second + more < 4294967296) }
    ensures { out.new ≡ put_gates out.old at (tail x first second more) }
{
    // The place is counted on: reckoned from the cell's number it is a tenth slower.
    let mut i = at;
    let mut before = first;
    for cell in second..second + more {
        put_gate(out, i, Gate::Mux(x, cell, before));
        i += 4;
        before = cell;
    }
    put_gate(out, i, Gate::And(before, x));
}

// Above level d: XOR of the last AND and the previous sum.
fn put_sum(out: &mut [u32], at: usize, highs: u32, last: u32, sum: u32)
    requires { at + 4 ≤ length out.old + 4 * pos highs }
    ensures { out.new ≡ put_gates out.old at (sum_gates highs last sum) }
{
    if highs == 0 {
        put_gate(out, at, Gate::Xor(last, sum));
    }
}

// Where the levels stand after one more.
fn after_level(r: LevelRow) -> LevelRow
    requires { StepFits r }
    ensures { result ≡ after_level r }
{
    let highs = r.highs;
    let more = r.more;
    let next = r.next;
    let low = pos_of(r.lows);
    let xor = 1 - pos_of(highs);
    let fewer = down_of(highs);
    let size = 2 * low + more + 1 + xor;
    LevelRow {
        at: r.at + 4 * (size as usize),
        lows: down_of(r.lows),
        highs: fewer,
        first: next + low,
        second: next + low + 1,
        more: down_of(low + more + pos_of(fewer)),
        next: next + size,
        sum: next + size - 1,
    }
}

// The gates of a level over input wire x, and where the levels stand after it.
fn put_level(out: &mut [u32], r: LevelRow, x: u32) -> LevelRow
    requires { LevelFits r (length out.old) }
    ensures value { result ≡ after_level r }
    ensures out_after { out.new ≡ put_gates out.old r.at (level_gates r x) }
{
    let at = r.at;
    let more = r.more;
    let next = r.next;
    let low = pos_of(r.lows);
    put_low(out, at, r.lows, x, r.first, next);
    let at_tail = at + 8 * (low as usize);
    put_tail(out, at_tail, x, r.first, r.second, more);
    let at_sum = at_tail + 4 * (more as usize + 1);
    put_sum(out, at_sum, r.highs, next + 2 * low + more, r.sum);
    after_level(r)
}

// Cell 0 of level 1: its NOT where it is kept.
fn first_wire(lows: u32, x: u32, next: u32) -> u32
    ensures { result ≡ first_wire lows x next }
{
    if 0 < lows { next } else { x }
}

// Where the levels stand after level 1, over input wire x.
fn first_level(at: usize, next: u32, lows: u32, highs: u32, x: u32) -> LevelRow
    requires { (next ≤ 1000000) × (at + 4 * pos lows < 18446744073709551616) }
    ensures { result ≡ first_level at next lows highs x }
{
    let low = pos_of(lows);
    let fewer = down_of(highs);
    let first = first_wire(lows, x, next);
    LevelRow {
        at: at + 4 * (low as usize),
        lows: down_of(lows),
        highs: fewer,
        first: first,
        second: x,
        more: down_of(low + pos_of(fewer)),
        next: next + low,
        sum: x,
    }
}

// The gates of level 1.
fn put_first(out: &mut [u32], at: usize, lows: u32, x: u32)
    requires { at + 4 * pos lows ≤ length out.old }
    ensures { out.new ≡ put_gates out.old at (first_gates lows x) }
{
    if 0 < lows {
        put_gate(out, at, Gate::Not(x));
    }
}

// All levels over the input wires ws; the next free wire.
pub(crate) fn put_cells(out: &mut [u32], next: Next, lows: u32, highs: u32, ws: &[u32]) -> u32
    requires in_bounds { (1 ≤ length ws.now) × (length ws.now ≤ 64) × (next.wire ≤ 1000000) × (get_or ws.now 0 0 < next.wire) }
    requires next_in_bounds { next.at + 4 * length (cells ws.now lows highs next.wire) ≤ length out.old }
    ensures out_after { out.new ≡ put_gates out.old next.at (cells ws.now lows highs next.wire) }
    ensures value { (result ≡ next.wire + length (cells ws.now lows highs next.wire)) × (result ≤ 1010000) }
{
    let x = ws[0];
    put_first(out, next.at, lows, x);
    let mut r = first_level(next.at, next.wire, lows, highs, x);
    // By place: what is still to store is told from place j of ws on, and a walk over &ws[1..] would count one less.
    for j in 1..ws.len() {
        r = put_level(out, r, ws[j]);
    }
    r.next
}

// Threshold d over the wires ws, of which there are at least two; its wire.
pub(crate) fn put_threshold(out: &mut [u32], next: Next, d: u32, ws: &[u32]) -> u32
    requires in_bounds { (2 ≤ length ws.now) × (length ws.now ≤ 64) × (1 ≤ d) × (d ≤ length ws.now) × (next.wire ≤ 1000000) × (get_or ws.now 0 0 < next.wire) }
    requires ws_in_bounds { next.at + 4 * length (threshold_part next.wire d ws.now).gates ≤ length out.old }
    ensures wrote { Wrote out.old next.at (threshold_part next.wire d ws.now) out.new result }
    ensures upper_bound { result ≤ 1010000 }
{
    let n = ws.len() as u32;
    let free = put_cells(out, next, n - d, d, ws);
    down_of(free)
}

impl Cells {
    // How many gates they have: the levels walked without storing any.
    pub(crate) fn count(self) -> u32
        ensures { (result ≡ length (cells (up_from 0 self.n) self.lows self.highs self.n)) × (result ≤ 10000) }
    {
        let n = self.n;
        let mut r = first_level(0, n, self.lows, self.highs, 0);
        for _level in 1..n {
            r = after_level(r);
        }
        r.next - n
    }

    // Their gates, behind the header.
    pub(crate) fn put(self, out: &mut [u32])
        requires { gate_place (length (cells (up_from 0 self.n) self.lows self.highs self.n)) ≤ length out.old }
        ensures { out.new ≡ put_gates out.old header_words (cells (up_from 0 self.n) self.lows self.highs self.n) }
    {
        let n = self.n;
        let mut wires = [0u32; 64];
        put_wires(&mut wires, 0, 0, n);
        let end = n as usize;
        let next = Next {
            at: HEADER_WORDS,
            wire: n,
        };
        put_cells(out, next, self.lows, self.highs, &wires[..end]);
    }
}
