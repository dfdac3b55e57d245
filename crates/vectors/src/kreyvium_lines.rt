// Kreyvium's public vectors. Key and IV are two words each, lent on as `kreyvium::stream64` takes them: the low byte of the
// first word is printed first.
use crate::text::{say, say_word};

// One vector. The word z has the first keystream bit at its high end, so it is turned to be printed.
fn vector(source: &[u8], k0: u64, k1: u64, v0: u64, v1: u64, z: u64) {
    say(source);
    say(b", key ");
    say_word(k0);
    say_word(k1);
    say(b", IV ");
    say_word(v0);
    say_word(v1);
    say(b": ");
    say_word(crate::reversed::turned(z));
}

fn plain(source: &[u8], k0: u64, k1: u64, v0: u64, v1: u64) {
    let z = kreyvium::stream64(k0, k1, v0, v1);
    vector(source, k0, k1, v0, v1, z);
    if crate::round_by_round::stream64(k0, k1, v0, v1) == z {
        say(b", round by round the same\n");
    } else {
        say(b", round by round different\n");
    }
}

fn reversed(source: &[u8], k0: u64, k1: u64, v0: u64, v1: u64) {
    vector(
        source,
        k0,
        k1,
        v0,
        v1,
        crate::reversed::stream64(k0, k1, v0, v1),
    );
    say(b"\n");
}

pub(crate) fn print() {
    plain(
        b"Kreyvium, public vector, loaded as the rules say",
        0,
        0,
        0,
        0,
    );
    let other = b"Kreyvium, public vector of a library that loads in reverse, loaded so";
    reversed(other, 0, 0, 1, 0);
    reversed(
        other,
        0x45F29F4CF9A65300,
        0xEB98,
        0xDE7710A942DB740D,
        0xAC45,
    );
}
