// The hex digits of a line of input: capitals, a quarter of the bits rounded up, spare bits zero.
ghost use Rattle.std.specs.Prelude.{◌≡◌, ◌<◌};
ghost use Rattle.lines.specs.Digits.{kept, is_digit, all_digits, hex_says};

use text::number::{digit, said};

// How many bits a character says.
const NIBBLE: usize = 4;

// What a character says where n bits are left, of which it has the first four.
pub fn nibble(c: u8, n: usize) -> u64
    ensures value { result ≡ kept n c }
    ensures upper_bound { result < 16 }
{
    let four = said(c) % 16;
    if n >= NIBBLE {
        return four;
    }
    let spare = 1u64 << (NIBBLE - n);
    four / spare * spare
}

// Whether a character is a digit.
fn is_digit(c: u8) -> bool
    ensures { result ≡ is_digit c }
{
    c.is_ascii_digit() | ((c >= b'A') & (c <= b'F'))
}

// Whether characters are digits: gathered and tested once, so that many are looked at at a time.
fn all_digits(digits: &[u8]) -> bool
    ensures { result ≡ all_digits digits.now }
{
    let mut all = true;
    for c in digits {
        all &= is_digit(*c);
    }
    all
}

// Whether the characters are the digits of n bits.
pub fn digits_say(digits: &[u8], n: usize) -> bool
    ensures { result ≡ hex_says n digits.now }
{
    let k = n / NIBBLE;
    let left = n % NIBBLE;
    if left == 0 {
        return digits.len() == k && all_digits(digits);
    }
    let Some((&last, whole)) = digits.split_last() else {
        return false;
    };
    if whole.len() != k {
        return false;
    }
    digit(nibble(last, left)) == last && all_digits(whole)
}
