// The one-hot and threshold netlists whole: the counts, the cells over inputs 0 .. n-1, the outputs. What both
// share is in levels and put_wires; the rest differs in each line: the constant netlist, the levels kept, the outputs.
ghost use Rattle.std.specs.Prelude.{◌≡◌, false, ◌+◌, ◌*◌, ◌≤◌, ◌<◌, length};
ghost use Rattle.std.proofs.lemmas.List.Edits.{sets};
ghost use Rattle.netlist.specs.Glue.{up_from};
ghost use Rattle.netlist.specs.Words.{header_words, gate_place, net_counts};
ghost use Rattle.cells.specs.Cells.{one_hot_net, threshold_net};
ghost use Rattle.cells.specs.InnerLoop.{cells};
ghost use Rattle.netlist.specs.Emitted.{Emitted};
ghost use Rattle.netlist.specs.Put.{put_gates};
ghost use Rattle.emit.specs.Emit.{one_hot_answer, threshold_answer, no_threshold};

use crate::levels::Cells;
use crate::put::{put_gate, put_wires};
use answer::Answer;
use netlist::counts::Counts;
use netlist::gate::Gate;
use netlist::{GATE_STRIDE, HEADER_WORDS};

// The one-hot netlist of n inputs.
#[derive(Clone, Copy)]
pub(crate) struct OneHot {
    pub(crate) n: u32,
    ghost few: { n ≤ 64 },
}

// The netlist of threshold d of n inputs.
#[derive(Clone, Copy)]
pub(crate) struct Threshold {
    pub(crate) d: u32,
    pub(crate) n: u32,
    ghost few: { n ≤ 64 },
    ghost some: { 1 ≤ d },
    ghost most: { d ≤ n + 1 },
}

impl OneHot {
    // How many gates it has.
    fn count(self) -> u32
        ensures { (result ≡ length (one_hot_net self.n).gates) × (result ≤ 10000) }
    {
        let n = self.n;
        if n == 0 {
            return 1;
        }
        let cells = Cells {
            n,
            lows: n,
            highs: n + 1,
        };
        cells.count()
    }

    // What it has of each.
    fn counts(self) -> Counts
        ensures { (result ≡ net_counts (one_hot_net self.n)) × (result.gates ≤ 10000) }
    {
        Counts {
            inputs: self.n,
            gates: self.count(),
            outputs: self.n + 1,
        }
    }

    fn put_gates(self, out: &mut [u32])
        requires { gate_place (length (one_hot_net self.n).gates) ≤ length out.old }
        ensures { out.new ≡ put_gates out.old header_words (one_hot_net self.n).gates }
    {
        let n = self.n;
        if n == 0 {
            put_gate(out, HEADER_WORDS, Gate::One);
            return;
        }
        let cells = Cells {
            n,
            lows: n,
            highs: n + 1,
        };
        cells.put(out);
    }

    // The last level's cells, which are the last wires of g gates' where there are two levels or more.
    fn put_outs(self, out: &mut [u32], at: usize, g: u32)
        requires { (g ≤ 10000) × (g ≡ length (one_hot_net self.n).gates) × (at + (self.n + 1) ≤ length out.old) }
        ensures { out.new ≡ sets out.old at (one_hot_net self.n).outs }
    {
        let n = self.n;
        if n == 1 {
            out[at] = 1;
            out[at + 1] = 0;
            return;
        }
        put_wires(out, at, g - 1, n + 1);
    }

    // The whole netlist, if there is room for it.
    pub(crate) fn put(self, out: &mut [u32]) -> Answer
        ensures { Emitted (one_hot_answer self.n (length out.old)) (one_hot_net self.n) out.old result out.new }
    {
        let counts = self.counts();
        answer::room(out.len(), netlist::counts::word_count(counts), 1)?;
        let g = counts.gates;
        netlist::counts::put_header(out, counts);
        self.put_gates(out);
        self.put_outs(out, HEADER_WORDS + GATE_STRIDE * (g as usize), g);
        Ok(())
    }
}

// 13: there is no threshold d of n.
#[tactic(auto, using(crate::proofs::Shapes::shape_many, crate::proofs::Shapes::shape_zero, crate::proofs::Shapes::shape_last))]
pub(crate) fn no_threshold(d: u32, n: u32) -> bool
    ensures { result ≡ no_threshold d n }
{
    64 < n || d == 0 || n + 1 < d
}

impl Threshold {
    // How many gates it has.
    fn count(self) -> u32
        ensures { (result ≡ length (threshold_net self.d self.n).gates) × (result ≤ 10000) }
    {
        let d = self.d;
        let n = self.n;
        if n < d {
            return 1;
        }
        let cells = Cells {
            n,
            lows: n - d,
            highs: d,
        };
        cells.count()
    }

    // What it has of each.
    fn counts(self) -> Counts
        ensures { (result ≡ net_counts (threshold_net self.d self.n)) × (result.gates ≤ 10000) }
    {
        Counts {
            inputs: self.n,
            gates: self.count(),
            outputs: 1,
        }
    }

    fn put_gates(self, out: &mut [u32])
        requires { gate_place (length (threshold_net self.d self.n).gates) ≤ length out.old }
        ensures { out.new ≡ put_gates out.old header_words (threshold_net self.d self.n).gates }
    {
        let d = self.d;
        let n = self.n;
        if n < d {
            put_gate(out, HEADER_WORDS, Gate::Zero);
            return;
        }
        let cells = Cells {
            n,
            lows: n - d,
            highs: d,
        };
        cells.put(out);
    }

    // The whole netlist, if there is room for it. Its output is the last wire.
    pub(crate) fn put(self, out: &mut [u32]) -> Answer
        ensures { Emitted (threshold_answer self.d self.n (length out.old)) (threshold_net self.d self.n) out.old result out.new }
    {
        let counts = self.counts();
        answer::room(out.len(), netlist::counts::word_count(counts), 1)?;
        let n = self.n;
        let g = counts.gates;
        netlist::counts::put_header(out, counts);
        self.put_gates(out);
        put_wires(out, HEADER_WORDS + GATE_STRIDE * (g as usize), n + g - 1, 1);
        Ok(())
    }
}
