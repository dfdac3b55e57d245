// The filters' worked cases: 000's example of a triangle, the edge of FiLIP-144's threshold, and the
// rules' cases that are sums of monomials.
use crate::text::{say, say_bits, say_digit, say_number};

fn line(source: &[u8], degrees: &[u8], x: &[u8]) {
    say(source);
    say(b" on ");
    say_bits(x);
    say(b": ");
    say_digit(filter::sum_monomials(degrees, x));
    say(b"\n");
}

// T4 = x0 + x1 x2 + x3 x4 x5 + x6 x7 x8 x9
fn triangle_line(x: &[u8; 10]) {
    line(
        b"000, Definition 15, triangle of degree 4",
        &[1, 2, 3, 4],
        x,
    );
}

// Each monomial alone; those of degree 2, 3 and 4 one variable short, twice; two, three and all four
// monomials together.
fn triangle() {
    triangle_line(&[1, 0, 0, 0, 0, 0, 0, 0, 0, 0]);
    triangle_line(&[0, 1, 1, 0, 0, 0, 0, 0, 0, 0]);
    triangle_line(&[0, 0, 0, 1, 1, 1, 0, 0, 0, 0]);
    triangle_line(&[0, 0, 0, 0, 0, 0, 1, 1, 1, 1]);
    triangle_line(&[0, 1, 0, 0, 1, 1, 1, 1, 1, 0]);
    triangle_line(&[0, 0, 1, 1, 1, 0, 0, 1, 1, 1]);
    triangle_line(&[1, 1, 1, 0, 0, 0, 0, 0, 0, 0]);
    triangle_line(&[0, 1, 1, 1, 1, 1, 1, 1, 1, 1]);
    triangle_line(&[1, 1, 1, 1, 1, 1, 1, 1, 1, 1]);
}

// FiLIP-144 on zeros and then ones, which stand among the 63 variables of its threshold.
fn threshold_line(zeros: usize) {
    let mut x = [0u8; 144];
    for bit in x.iter_mut().skip(zeros) {
        *bit = 1;
    }
    say(b"rules, Monomials, FiLIP-144 on zeros and then ones from place ");
    say_number(zeros);
    say(b" of 144: ");
    say_digit(filter::filter(5, &x));
    say(b"\n");
}

// [1,1] is one monomial of degree 1 and one of degree 2; so is the triangle of degree 2.
pub(crate) fn print() {
    triangle();
    threshold_line(113);
    threshold_line(112);
    line(b"rules, Cases, monomials [1,1]", &[1, 2], &[1, 1, 1]);
    line(b"rules, Cases, triangle of degree 2", &[1, 2], &[0, 1, 1]);
}
