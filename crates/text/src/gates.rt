// Lines of gates: the gate's wire, its kind and the operands that it uses.
ghost use Rattle.std.specs.Prelude.{◌≡◌, ◌+◌, ◌≤◌, ◌++◌};
ghost use Rattle.netlist.specs.Words.{header_words, gate_at, gates_at};
ghost use Rattle.text.specs.Text.{gate_text, gate_line, gate_lines};
ghost use Rattle.text.specs.Inner.{Room};

use crate::text::Text;
use netlist::gate::Gate;
use netlist::{GATE_STRIDE, HEADER_WORDS};

// The gate whose words begin at a place. Every kind of an emitted netlist is known; an unknown one would be
// printed as ZERO.
#[tactic(auto, unfolding(netlist::specs::Gates::gate_of))]
fn gate_at(words: &[u32], place: usize) -> Gate
    requires { place ≤ 4294967296 }
    ensures { result ≡ gate_at words.now place }
{
    let kind = answer::get_or(words, place, 0);
    let a = answer::get_or(words, place + 1, 0);
    let b = answer::get_or(words, place + 2, 0);
    let c = answer::get_or(words, place + 3, 0);
    netlist::gate::take_apart(kind, a, b, c).unwrap_or(Gate::Zero)
}

impl Text {
    #[tactic(auto, unfolding(crate::specs::Text::gate_text))]
    fn kind(&mut self, gate: Gate)
        requires { Room self.old (gate_text gate) }
        ensures { self.new ≡ self.old ++ gate_text gate }
    {
        match gate {
            Gate::Zero => self.bytes(b" ZERO"),
            Gate::One => self.bytes(b" ONE"),
            Gate::Not(a) => self.named(b" NOT ", a),
            Gate::Xor(a, b) => self.pair(b" XOR ", a, b),
            Gate::And(a, b) => self.pair(b" AND ", a, b),
            Gate::Mux(a, b, c) => self.triple(b" MUX ", a, b, c),
        }
    }

    #[tactic(auto, unfolding(crate::specs::Text::gate_line))]
    fn gate(&mut self, wire: u32, gate: Gate)
        requires { Room self.old (gate_line wire gate) }
        ensures { self.new ≡ self.old ++ gate_line wire gate }
    {
        self.decimal(wire);
        self.kind(gate);
        self.bytes(b"\n");
    }

    // The lines of all gates of a netlist's words, the first of which is the wire after the inputs.
    #[tactic(auto, using(crate::proofs::Netlists::gates_turn, crate::proofs::Netlists::gates_none, std::proofs::lemmas::Grind::common_steps))]
    pub(crate) fn gates(&mut self, words: &[u32], inputs: u32, gates: u32)
        requires gates_bound { inputs + gates ≤ 65536 }
        requires room { Room self.old (gate_lines inputs (gates_at words.now header_words gates)) }
        ensures { self.new ≡ self.old ++ gate_lines inputs (gates_at words.now header_words gates) }
    {
        for i in 0..gates {
            let gate = gate_at(words, HEADER_WORDS + GATE_STRIDE * (i as usize));
            self.gate(inputs + i, gate);
        }
    }
}
