// Ordered choice of wires from public draws: docs/RULES.md, "Choice from draws". Judged 1, 3, 8, 14; the lists
// are the draws and the row.
#![tactic(auto)]

ghost use Rattle.std.specs.Prelude.{◌≡◌, ◌≤◌, length, MatchResult};
ghost use Rattle.instance.specs.Table.{key_bits};
ghost use Rattle.answer.specs.Judges.{first_answer};
ghost use Rattle.answer.specs.declared.Reason.TheVariants.{Draw};
ghost use Rattle.answer.specs.Fronts.{over};
ghost use Rattle.choice.specs.Choice.{up_to, swaps, chosen, past_draw, choose_answer, Chosen};
ghost use Rattle.choice.specs.Inner.{DrawsFit};

use answer::{Answer, Reason, Refusal};

// The numbers of the wires, in order, at the front. A wire's number takes half a word: the fewer bytes, the sooner
// they are set. Written by index, which is the value too.
fn fill(wires: &mut [u16], key: usize)
    requires { (key ≤ length wires.old) × (key ≤ 16384) }
    ensures { wires.new ≡ over (up_to key) wires.old }
{
    for i in 0..key {
        wires[i] = i as u16;
    }
}

// The swaps, one for each draw. `swap` of slices asks first which place is the lower, and was up to a third slower.
fn exchange(draws: &[u32], wires: &mut [u16])
    requires { DrawsFit (length wires.old) draws.now }
    ensures { wires.new ≡ swaps 0 draws.now wires.old }
{
    for (i, &draw) in draws.iter().enumerate() {
        let j = i + draw as usize;
        (wires[i], wires[j]) = (wires[j], wires[i]);
    }
}

// The wires at the front of the row.
fn copy(wires: &[u16], row: &mut [u32])
    requires { length wires.now ≤ length row.old }
    ensures { row.new ≡ over wires.now row.old }
{
    for (i, &wire) in wires.iter().enumerate() {
        row[i] = u32::from(wire);
    }
}

// Draws that were judged, and the size of the key that they choose from.
#[derive(Clone, Copy)]
struct Judged<'a> {
    draws: &'a [u32],
    key: usize,
    ghost fit: { DrawsFit key draws.now },
    ghost small: { key ≤ 16384 },
}

impl Judged<'_> {
    // The row, over N wires to work in. All are set to 0 first.
    fn put_in<const N: usize>(self, row: &mut [u32])
        requires { (self.key ≤ N) × (N ≤ 16384) × (length self.draws.now ≤ length row.old) }
        ensures { let j = self.entry in row.new ≡ over (chosen j.key (length j.draws.now) j.draws.now) row.old }
    {
        let mut wires = [0u16; N];
        fill(&mut wires, self.key);
        exchange(self.draws, &mut wires);
        copy(&wires[..self.draws.len()], row);
    }

    // As many wires as the two smallest keys have, or the middle one, or the two largest.
    fn put(self, row: &mut [u32])
        requires { length self.draws.now ≤ length row.old }
        ensures { let j = self.entry in row.new ≡ over (chosen j.key (length j.draws.now) j.draws.now) row.old }
    {
        match self.key {
            0..=1394 => self.put_in::<1394>(row),
            1395..=4096 => self.put_in::<4096>(row),
            _ => self.put_in::<16384>(row),
        }
    }
}

// 14: a draw that is not below the number of places left to it.
fn judge_draws(draws: &[u32], key: usize) -> Answer
    requires { length draws.now ≤ key }
    ensures { result ≡ first_answer Draw 1 (past_draw key draws.now) draws.now }
{
    for (i, &draw) in draws.iter().enumerate() {
        if key - i <= draw as usize {
            return answer::refused(Reason::Draw, 1, i);
        }
    }
    Ok(())
}

fn judge(instance: u32, draws: &[u32], room: usize) -> Result<Judged<'_>, Refusal>
    ensures { MatchResult result (λ j. (choose_answer instance draws.now «room» ≡ Ok tt) × (j.draws.now ≡ draws.now) × (j.key ≡ key_bits instance)) (λ e. choose_answer instance draws.now «room» ≡ Err e) }
{
    if instance < 1 || 5 < instance {
        return Err(Refusal {
            reason: Reason::Instance,
            list: 0,
            place: 0,
        });
    }
    let sizes = instance::sizes_of(instance);
    answer::exact(draws.len(), sizes.row, 1)?;
    answer::room(room, sizes.row, 2)?;
    judge_draws(draws, sizes.key)?;
    Ok(Judged {
        draws,
        key: sizes.key,
    })
}

// The row that the draws choose.
pub fn choose(instance: u32, draws: &[u32], row: &mut [u32]) -> Answer
    ensures { Chosen instance draws.now row.old result row.new }
{
    let judged = judge(instance, draws, row.len())?;
    judged.put(row);
    Ok(())
}
