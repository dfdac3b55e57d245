// The printing program: docs/RULES.md, "The printing program". It reads standard input, and writes to
// standard output what crate text prints for it. No promise can say what is read or written: all that is
// decided stands in `text::print_text`.
//
// The longest line "d n" has 8 bytes, so 64 bytes decide: where the input is longer, they are no line
// either, and both are refused (`long_refused` of crate text).
//
// `io::read_full` reads until its list is full or nothing comes, and tells how many bytes came. Std's
// `read_exact` tells no number, and `read_to_end` takes a heap.
#![tactic(auto)]

const STANDARD_INPUT: i32 = 0;

const STANDARD_OUTPUT: i32 = 1;

// The text always fits (`printed-fits` of crate text), so it is always printed.
fn main() {
    let mut input = [0u8; 64];
    let got = io::read_full(STANDARD_INPUT, &mut input);
    let mut text = [0u8; 131072];
    if let Ok(size) = text::print_text(&input[..got], &mut text) {
        io::write_all(STANDARD_OUTPUT, &text[..size]);
    }
}
