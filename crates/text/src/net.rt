// A netlist's words as text: its counts, its gates and its output wires.
ghost use Rattle.std.specs.Prelude.{◌+◌, ◌≤◌, ◌≡◌, ◌++◌, length};
ghost use Rattle.netlist.specs.Words.{gate_place, inputs_of, gates_of};
ghost use Rattle.text.specs.Text.{title_line, sizes, costs, out_line, out_lines};
ghost use Rattle.text.specs.Inner.{Room, words_text};

use crate::text::Text;
use crate::threshold::Shape;
use netlist::counts::Counts;
use netlist::{GATE_STRIDE, HEADER_WORDS};

impl Text {
    #[tactic(auto, unfolding(crate::specs::Text::title_line))]
    pub(crate) fn title(&mut self, shape: Shape)
        requires { Room self.old (title_line shape.d shape.n) }
        ensures { self.new ≡ self.old ++ title_line shape.d shape.n }
    {
        self.pair(b"T ", shape.d, shape.n);
        self.bytes(b"\n");
    }

    #[tactic(auto, unfolding(crate::specs::Text::sizes))]
    fn sizes(&mut self, counts: Counts)
        requires { Room self.old (sizes counts.inputs counts.gates counts.outputs) }
        ensures { self.new ≡ self.old ++ sizes counts.inputs counts.gates counts.outputs }
    {
        self.named(b"in ", counts.inputs);
        self.named(b" gates ", counts.gates);
        self.named(b" out ", counts.outputs);
    }

    #[tactic(auto, unfolding(crate::specs::Text::costs))]
    fn costs(&mut self, depth: u32, multiplications: u32)
        requires { Room self.old (costs depth multiplications) }
        ensures { self.new ≡ self.old ++ costs depth multiplications }
    {
        self.named(b" depth ", depth);
        self.named(b" mult ", multiplications);
        self.bytes(b"\n");
    }

    #[tactic(auto, unfolding(crate::specs::Text::out_line))]
    fn output(&mut self, wire: u32)
        requires { Room self.old (out_line wire) }
        ensures { self.new ≡ self.old ++ out_line wire }
    {
        self.named(b"out ", wire);
        self.bytes(b"\n");
    }

    #[tactic(auto, using(crate::proofs::Netlists::outs_turn, crate::proofs::Netlists::outs_none, std::proofs::lemmas::Grind::common_steps))]
    fn outputs(&mut self, wires: &[u32])
        requires { Room self.old (out_lines wires.now) }
        ensures { self.new ≡ self.old ++ out_lines wires.now }
    {
        for &wire in wires {
            self.output(wire);
        }
    }

    #[tactic(auto, unfolding(crate::specs::Inner::words_text))]
    pub(crate) fn net(&mut self, words: &[u32], depth: u32, multiplications: u32)
        requires words_bound { inputs_of words.now + gates_of words.now ≤ 65536 }
        requires long { gate_place (gates_of words.now) ≤ length words.now }
        requires room { Room self.old (words_text words.now depth multiplications) }
        ensures { self.new ≡ self.old ++ words_text words.now depth multiplications }
    {
        let counts = netlist::counts::counts_of(words);
        self.sizes(counts);
        self.costs(depth, multiplications);
        self.gates(words, counts.inputs, counts.gates);
        self.outputs(&words[HEADER_WORDS + GATE_STRIDE * (counts.gates as usize)..]);
    }
}
