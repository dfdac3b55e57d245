// Kreyvium's deciphering netlist: docs/RULES.md, "What is emitted".
#![tactic(auto)]

mod put;
mod wires;
mod write;

ghost use Rattle.std.specs.Prelude.{◌≡◌, length};
ghost use Rattle.netlist.specs.Emitted.{Emitted};
ghost use Rattle.rounds.specs.Gates.{kreyvium_net};
ghost use Rattle.register.specs.Judging.{iv_answer, emit_kreyvium_answer};

use answer::Answer;
use wires::Netlist;

// 2 to 4: the record's size and the IV.
#[tactic(auto, using(answer::proofs::Rows::stop, answer::proofs::Rows::go), unfolding(crate::specs::Judging::iv_answer))]
fn judge_iv(m: u32, iv: &[u8]) -> Answer
    ensures { result ≡ iv_answer m iv.now }
{
    instance::numbers(6, m)?;
    answer::exact(iv.len(), 128, 1)?;
    answer::bits(iv, 1)
}

// The netlist for a record of m bits under an IV.
pub fn emit_kreyvium(m: u32, iv: &[u8], res: &mut [u32]) -> Answer
    ensures { Emitted (emit_kreyvium_answer m iv.now (length res.old)) (kreyvium_net iv.now m) res.old result res.new }
{
    judge_iv(m, iv)?;
    let net = Netlist { iv, m };
    let counts = net.counts();
    answer::room(res.len(), netlist::counts::word_count(counts), 2)?;
    net.put(res);
    Ok(())
}
