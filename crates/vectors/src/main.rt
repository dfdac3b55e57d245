// Prints vectors that others published or that the documents work out, as the product's own functions
// compute them. Each line says where its vector is from. The file `stdout` was written from those
// sources, and what is printed must equal it.
//
// Sources: 000 (FLIP), 003 (Kreyvium), the rules (docs/RULES.md). A list of bits is printed with
// commas; a key, an IV and a keystream as bytes in hexadecimal, the low bit of each byte first in Kreyvium's
// public vectors and the high bit in frames.
#![tactic(auto)]

mod choice_lines;
mod file_lines;
mod filter_lines;
mod frame_lines;
mod kreyvium_lines;
mod netlist_lines;
mod reversed;
mod round_by_round;
mod text;

fn main() {
    kreyvium_lines::print();
    filter_lines::print();
    netlist_lines::print();
    choice_lines::print();
    file_lines::print();
    frame_lines::print();
}
