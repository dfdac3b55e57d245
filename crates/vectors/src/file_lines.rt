// The rules' netlist file, a one-wire pass-through, written and read.
use crate::text::{say, say_bytes, say_words};

const PASS_THROUGH: [u32; 4] = [1, 0, 1, 0];

fn print_read(bytes: &[u8]) {
    let mut words = [0u32; 4];
    let Ok(()) = file::read_file(bytes, &mut words) else {
        say(b"refused\n");
        return;
    };
    say(b"rules, Netlist file, a one-wire pass-through, read:");
    say_words(&words);
    say(b"\n");
}

pub(crate) fn print() {
    let mut bytes = [0u8; 20];
    let Ok(()) = file::write_file(&PASS_THROUGH, &mut bytes) else {
        say(b"refused\n");
        return;
    };
    say(b"rules, Netlist file, a one-wire pass-through, written:");
    say_bytes(&bytes);
    say(b"\n");
    print_read(&bytes);
}
