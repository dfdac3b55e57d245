// Emission of one-hot, threshold and deciphering netlists: docs/RULES.md, "What is emitted".
#![tactic(auto)]

mod judge;
mod levels;
mod nets;
mod put;
mod rows;

ghost use Rattle.std.specs.Prelude.{◌≡◌, ◌≤◌, length, Ok};
ghost use Rattle.cells.specs.Cells.{one_hot_net, threshold_net};
ghost use Rattle.netlist.specs.Words.{net_counts, words};
ghost use Rattle.netlist.specs.Emitted.{Emitted};
ghost use Rattle.instance.specs.Wired.{Wired};
ghost use Rattle.emit.specs.Emit.{one_hot_answer, threshold_answer, decipher_net, wiring_answer, decipher_answer, sized_by};

use answer::{Answer, Reason, Refusal};
use netlist::counts::Counts;
use nets::{OneHot, Threshold, no_threshold};
use rows::RowsNet;

// How many gates and words a netlist has.
#[derive(Clone, Copy, Debug, PartialEq, Eq)]
pub struct Size {
    pub gates: usize,
    pub words: usize,
}

// The one-hot netlist of n inputs.
pub fn emit_one_hot(n: u32, res: &mut [u32]) -> Answer
    ensures { Emitted (one_hot_answer n (length res.old)) (one_hot_net n) res.old result res.new }
{
    if 64 < n {
        return answer::refused(Reason::Shape, 0, 0);
    }
    let net = OneHot { n };
    net.put(res)
}

// Threshold d of n inputs.
pub fn emit_threshold(d: u32, n: u32, res: &mut [u32]) -> Answer
    ensures { Emitted (threshold_answer d n (length res.old)) (threshold_net d n) res.old result res.new }
{
    if no_threshold(d, n) {
        return answer::refused(Reason::Shape, 0, 0);
    }
    let net = Threshold { d, n };
    net.put(res)
}

// A wiring that is accepted.
#[derive(Clone, Copy)]
struct Lent<'a> {
    instance: u32,
    m: u32,
    indices: &'a [u32],
    whitening: &'a [u8],
    ghost wired: { Wired instance m indices.now whitening.now },
}

impl Lent<'_> {
    // How many gates its deciphering netlist has.
    fn gates(self) -> usize
        ensures { (result ≡ length (decipher_net self.entry.instance self.entry.m self.entry.indices.now self.entry.whitening.now).gates) × (result ≤ 178432) }
    {
        let Lent {
            instance,
            m,
            indices,
            whitening,
        } = self;
        if instance == 6 {
            return 16130 + 17 * (m as usize);
        }
        let net = RowsNet {
            instance,
            m,
            indices,
            whitening,
        };
        net.gates()
    }

    // What that netlist has of each.
    fn counts(self) -> Counts
        ensures { result ≡ net_counts (decipher_net self.entry.instance self.entry.m self.entry.indices.now self.entry.whitening.now) }
    {
        let sizes = instance::sizes_of(self.instance);
        let key = sizes.key;
        let gates = self.gates();
        Counts {
            inputs: key as u32 + self.m,
            gates: gates as u32,
            outputs: self.m,
        }
    }

    // That netlist, where there is room for it.
    fn put(self, res: &mut [u32]) -> Answer
        requires { length (words (decipher_net self.instance self.m self.indices.now self.whitening.now)) ≤ length res.old }
        ensures { Emitted (Ok tt) (decipher_net self.entry.instance self.entry.m self.entry.indices.now self.entry.whitening.now) res.old result res.new }
    {
        let Lent {
            instance,
            m,
            indices,
            whitening,
        } = self;
        if instance == 6 {
            return register::emit_kreyvium(m, whitening, res);
        }
        let net = RowsNet {
            instance,
            m,
            indices,
            whitening,
        };
        net.put(res);
        Ok(())
    }
}

// What emit_decipher needs room for: how many gates and words the deciphering netlist has. All is judged that emit_decipher
// judges, but for the room.
pub fn decipher_size(
    instance: u32,
    m: u32,
    indices: &[u32],
    whitening: &[u8],
) -> Result<Size, Refusal>
    ensures { result ≡ sized_by (wiring_answer instance m indices.now whitening.now) (decipher_net instance m indices.now whitening.now) }
{
    judge::wiring(instance, m, indices, whitening)?;
    let lent = Lent {
        instance,
        m,
        indices,
        whitening,
    };
    let counts = lent.counts();
    Ok(Size {
        gates: counts.gates as usize,
        words: netlist::counts::word_count(counts),
    })
}

// The deciphering netlist of an instance for a record of m bits. whitening is the IV for Kreyvium.
pub fn emit_decipher(
    instance: u32,
    m: u32,
    indices: &[u32],
    whitening: &[u8],
    res: &mut [u32],
) -> Answer
    ensures { Emitted (decipher_answer instance m indices.now whitening.now (length res.old)) (decipher_net instance m indices.now whitening.now) res.old result res.new }
{
    let size = decipher_size(instance, m, indices, whitening)?;
    answer::room(res.len(), size.words, 3)?;
    let lent = Lent {
        instance,
        m,
        indices,
        whitening,
    };
    lent.put(res)
}
