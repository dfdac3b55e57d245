// Text on standard output. No promise can say what is written there: `digit`, which chooses the
// characters, has one, and the rest is compared with the file `stdout`.
ghost use Rattle.std.specs.Prelude.{◌≡◌};
ghost use Rattle.vectors.specs.Text.{digit_of};

const STANDARD_OUTPUT: i32 = 1;

pub(crate) fn say(text: &[u8]) {
    io::write_all(STANDARD_OUTPUT, text);
}

// A bit as '0' or '1', four bits as one hexadecimal digit; '?' for what is neither.
#[tactic(auto, unfolding(crate::specs::Text::digit_of))]
fn digit(n: u8) -> u8
    ensures { result ≡ digit_of n }
{
    match n {
        0..=9 => b'0' + n,
        10..=15 => b'A' + (n - 10),
        _ => b'?',
    }
}

pub(crate) fn say_number(n: usize) {
    io::print_decimal(STANDARD_OUTPUT, n as u64);
}

pub(crate) fn say_digit(n: u8) {
    say(&[digit(n)]);
}

// A byte in hexadecimal.
fn say_byte(n: u8) {
    say_digit(n / 16);
    say_digit(n % 16);
}

// A list of bits, with commas.
pub(crate) fn say_bits(bits: &[u8]) {
    if bits.is_empty() {
        say(b"nothing");
    }
    for (i, &bit) in bits.iter().enumerate() {
        if 0 < i {
            say(b",");
        }
        say_digit(bit);
    }
}

// All bytes of a list in hexadecimal, and all words in decimal, each after a space.
pub(crate) fn say_bytes(bytes: &[u8]) {
    for &byte in bytes {
        say(b" ");
        say_byte(byte);
    }
}

pub(crate) fn say_words(words: &[u32]) {
    for &word in words {
        say(b" ");
        say_number(word as usize);
    }
}

// The eight bytes of a word, the low one first, in hexadecimal.
pub(crate) fn say_word(word: u64) {
    for &byte in &word.to_le_bytes() {
        say_byte(byte);
    }
}
