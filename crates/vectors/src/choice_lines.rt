// The rules' case of choice from draws. They have N = 4 there. The call takes N from its instance, so it is
// FLIP-530's here: three draws that reach no further than place 3 do not tell the two apart.
use crate::text::{say, say_number};

fn say_row(row: &[u32]) {
    say_number(answer::get_or(row, 0, 0) as usize);
    say(b",");
    say_number(answer::get_or(row, 1, 0) as usize);
    say(b",");
    say_number(answer::get_or(row, 2, 0) as usize);
}

pub(crate) fn print() {
    let mut draws = [0u32; 530];
    draws[0] = 2;
    draws[1] = 2;
    let mut row = [0u32; 530];
    say(b"rules, Cases, choice from draws 2,2,0, with FLIP-530's N and zeros after them: row ");
    let Ok(()) = choice::choose(1, &draws, &mut row) else {
        say(b"refused\n");
        return;
    };
    say_row(&row);
    say(b"\n");
}
