// The text of a threshold netlist, which is emitted and not metered: its depth and its multiplications are
// those of docs/RULES.md, "What is emitted".
ghost use Rattle.std.specs.Prelude.{◌≡◌, false, ◌++◌};
ghost use Rattle.netlist.specs.Net.{depth, mults};
ghost use Rattle.netlist.specs.Words.{words};
ghost use Rattle.cells.specs.Cells.{threshold_net};
ghost use Rattle.emit.specs.Emit.{no_threshold};
ghost use Rattle.text.specs.Text.{refusal, threshold_text};
ghost use Rattle.text.specs.Inner.{Room};

use crate::text::Text;
use line::Line;

// The d and n of a netlist that there is.
#[derive(Clone, Copy)]
pub(crate) struct Shape {
    pub(crate) d: u32,
    pub(crate) n: u32,
    ghost there: { no_threshold d n ≡ false },
}

impl Shape {
    fn depth(self) -> u32
        ensures { result ≡ depth (threshold_net self.d self.n) }
    {
        if self.n < self.d {
            return 0;
        }
        self.n - 1
    }

    // One fewer if d < n.
    fn multiplications(self) -> u32
        ensures { result ≡ mults (threshold_net self.d self.n) }
    {
        if self.n < self.d {
            return 0;
        }
        let all = (self.d + 1) * (self.n - self.d + 1) - 2;
        if self.d < self.n {
            return all - 1;
        }
        all
    }
}

impl Text {
    pub(crate) fn refused(&mut self)
        requires { Room self.old refusal }
        ensures { self.new ≡ self.old ++ refusal }
    {
        self.bytes(b"refused 13\n");
    }

    // The text of a netlist that was emitted.
    fn emitted(&mut self, shape: Shape, net: &[u32])
        requires net_value { net.now ≡ words (threshold_net shape.d shape.n) }
        requires room { Room self.old (threshold_text shape.d shape.n) }
        ensures { self.new ≡ self.old ++ threshold_text shape.d shape.n }
    {
        self.title(shape);
        self.net(net, shape.depth(), shape.multiplications());
    }

    // The text for a line "d n". Netlists of up to 64 inputs have at most 4,289 gates, so 17,160 words with header
    // and output (`words_most`).
    pub(crate) fn threshold(&mut self, line: Line)
        requires { Room self.old (threshold_text line.d line.n) }
        ensures { self.new ≡ self.old ++ threshold_text line.d line.n }
    {
        let Line { d, n } = line;
        let mut words = [0u32; 17160];
        let Ok(()) = emit::emit_threshold(d, n, &mut words) else {
            return self.refused();
        };
        let counts = netlist::counts::counts_of(&words);
        let size = netlist::counts::word_count(counts);
        self.emitted(Shape { d, n }, &words[..size]);
    }
}
