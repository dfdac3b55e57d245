// What emit_decipher is lent, judged in the rules' order, as the cipher calls judge rows and IV. The indices
// are its first list, the whitening or IV the second.
ghost use Rattle.std.specs.Prelude.{◌≡◌};
ghost use Rattle.emit.specs.Emit.{wiring_answer};

use answer::Answer;

// 1 to 7. Here, and in the two public calls, the four are not yet accepted and stand by themselves; accepted they are a Lent.
#[tactic(auto, using(answer::proofs::Rows::stop, answer::proofs::Rows::go), unfolding(crate::specs::Emit::wiring_answer))]
pub(crate) fn wiring(instance: u32, m: u32, indices: &[u32], whitening: &[u8]) -> Answer
    ensures { result ≡ wiring_answer instance m indices.now whitening.now }
{
    instance::numbers(instance, m)?;
    instance::wiring_lengths(instance, m, indices.len(), whitening.len(), 1)?;
    answer::bits(whitening, 2)?;
    instance::wiring_rows(instance, indices, whitening, 1)
}
