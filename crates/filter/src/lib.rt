// The filters of instances 1 to 5: docs/RULES.md, "Monomials"; papers 000 (FLIP) and 001 (FiLIP). A filter
// takes the variables of a row, in order, each once. No branch and no index depends on a variable.
#![tactic(auto)]

mod tables;

ghost use Rattle.std.specs.Prelude.{◌≡◌, ◌+◌, ◌*◌, ◌%◌, ◌<◌, ◌≤◌, length, take, drop, replicate};
ghost use Rattle.instance.specs.Table.{row_bits};
ghost use Rattle.filter.specs.Filter.{prod, sum_of, ones};
ghost use Rattle.filter.specs.Papers.{triangle_size};
ghost use Rattle.filter.specs.Instances.{degrees_to, copies, flip_degrees, degrees_of, tail_of, filter_of};

pub use crate::tables::{FILIP_144, FILIP_1216, FILIP_1280, FLIP_530, FLIP_1394};

// The product of all bits, as a bit.
fn product(x: &[u8]) -> u8
    ensures { result ≡ prod x.now % 2 }
{
    let mut p = 1;
    for &b in x {
        p &= b;
    }
    p
}

// The sum of monomials of the given degrees, over variables taken in order.
pub fn sum_monomials(degrees: &[u8], x: &[u8]) -> u8
    ensures { result ≡ sum_of degrees.now x.now }
{
    let mut sum = 0;
    let mut rest = x;
    for &degree in degrees {
        let (monomial, after) = rest.split_at(usize::from(degree).min(rest.len()));
        sum ^= product(monomial);
        rest = after;
    }
    sum
}

// The degrees of an instance's monomials; none for an instance that has no filter.
pub fn degrees(instance: u32) -> &'static [u8]
    ensures { result.now ≡ degrees_of instance }
{
    match instance {
        1 => &FLIP_530,
        2 => &FLIP_1394,
        3 => &FILIP_1216,
        4 => &FILIP_1280,
        5 => &FILIP_144,
        _ => &[],
    }
}

// From here to `sum_by_parts`: the same sums where all variables are there. Degrees and numbers of monomials
// come from constants, so that the compiler lays out the loops of a monomial.

// The sum of some monomials of one degree.
fn sum_equal(degree: usize, many: usize, x: &[u8]) -> u8
    requires { (0 < degree) × (degree * many ≤ length x.now) }
    ensures { result ≡ sum_of (replicate many degree) x.now }
{
    let mut sum = 0;
    for monomial in x[..degree * many].chunks_exact(degree) {
        sum ^= product(monomial);
    }
    sum
}

// The sum of monomials of degree 1, 2, .. k.
fn triangle(k: usize, x: &[u8]) -> u8
    requires { triangle_size k ≤ length x.now }
    ensures { result ≡ sum_of (degrees_to k) x.now }
{
    let mut sum = 0;
    let mut rest = x;
    for degree in 1..k + 1 {
        let (monomial, after) = rest.split_at(degree);
        sum ^= product(monomial);
        rest = after;
    }
    sum
}

// 8 triangles of degree k. The loop goes by variables: one that counted to 8 the compiler would unroll before
// it knows k, and then not lay out for each k.
fn triangles(k: usize, x: &[u8]) -> u8
    requires { (0 < k) × (8 * triangle_size k ≤ length x.now) }
    ensures { result ≡ sum_of (copies 8 (degrees_to k)) x.now }
{
    let size = k * (k + 1) / 2;
    let mut sum = 0;
    for triangular in x[..8 * size].chunks_exact(size) {
        sum ^= triangle(k, triangular);
    }
    sum
}

// FLIP: linear variables, pairs, and 8 triangles of degree k.
fn flip(linear: usize, pairs: usize, k: usize, x: &[u8]) -> u8
    requires { (0 < k) × (linear + 2 * pairs + 8 * triangle_size k ≤ length x.now) }
    ensures { result ≡ sum_of (flip_degrees linear pairs 8 k) x.now }
{
    let ones = sum_equal(1, linear, x);
    let twos = sum_equal(2, pairs, &x[linear..]);
    let at = linear + 2 * pairs;
    let triangular = triangles(k, &x[at..]);
    ones ^ twos ^ triangular
}

fn filip_1216(x: &[u8]) -> u8
    requires { 1216 ≤ length x.now }
    ensures { result ≡ sum_of (degrees_of 3) x.now }
{
    let ones = sum_equal(1, 128, x);
    let twos = sum_equal(2, 64, &x[128..]);
    let fours = sum_equal(4, 80, &x[256..]);
    let eights = sum_equal(8, 80, &x[576..]);
    ones ^ twos ^ fours ^ eights
}

fn filip_1280(x: &[u8]) -> u8
    requires { 1280 ≤ length x.now }
    ensures { result ≡ sum_of (degrees_of 4) x.now }
{
    let ones = sum_equal(1, 128, x);
    let twos = sum_equal(2, 64, &x[128..]);
    let sixteens = sum_equal(16, 64, &x[256..]);
    ones ^ twos ^ sixteens
}

// The sum of an instance's monomials, part by part.
fn sum_by_parts(instance: u32, x: &[u8]) -> u8
    requires { row_bits instance ≤ length x.now }
    ensures { result ≡ sum_of (degrees_of instance) x.now }
{
    match instance {
        1 => flip(42, 64, 9, x),
        2 => flip(82, 112, 16, x),
        3 => filip_1216(x),
        4 => filip_1280(x),
        5 => sum_equal(1, 81, x),
        _ => 0,
    }
}

// The sum of an instance's monomials: by parts where all variables of a row are there.
fn monomials(instance: u32, x: &[u8]) -> u8
    ensures { result ≡ sum_of (degrees_of instance) x.now }
{
    if x.len() < instance::row_bits(instance) {
        sum_monomials(degrees(instance), x)
    } else {
        sum_by_parts(instance, x)
    }
}

// How many of the bits are 1. A chain of iterators was a twentieth slower.
pub fn count_ones(x: &[u8]) -> usize
    ensures { result ≡ ones x.now }
{
    let mut n = 0;
    for &b in x {
        n += usize::from(b % 2);
    }
    n
}

// 63 variables from place 81 on, or as many as there are.
fn last_part(x: &[u8]) -> &[u8]
    ensures { result.now ≡ take 63 (drop 81 x.now) }
{
    let (_, rest) = x.split_at(x.len().min(81));
    let (part, _) = rest.split_at(rest.len().min(63));
    part
}

// FiLIP-144's threshold, 32 of 63: (ones + 32) / 64 is 1 exactly from 32 ones on, and 0 below. 0 for the
// other instances.
fn tail(instance: u32, x: &[u8]) -> u8
    ensures { (result ≡ tail_of instance x.now) × (result ≤ 1) }
{
    if instance == 5 {
        let n = count_ones(last_part(x));
        return ((n + 32) / 64) as u8;
    }
    0
}

// The filter of an instance over the variables of a row; 0 for an instance that has none.
pub fn filter(instance: u32, x: &[u8]) -> u8
    ensures { result ≡ filter_of instance x.now }
{
    (monomials(instance, x) + tail(instance, x)) % 2
}
