// Digits and numbers.
ghost use Rattle.std.specs.Prelude.{◌≡◌, ◌+◌, ◌*◌, ◌≤◌, ◌<◌, length};
ghost use Rattle.std.proofs.lemmas.List.Edits.{sets};
ghost use Rattle.format.specs.Listing.{value_text};
ghost use Rattle.bits.specs.BitLists.{spell};
ghost use Rattle.format.specs.Text.{digit_char, char_digit, decimal};
ghost use Rattle.format.specs.Text as Text;
ghost use Rattle.text.specs.Digits.{last_digits};

use crate::{DASH, put};
use format::ABSENT;

// A digit, capitals from ten on.
#[tactic(auto, unfolding(format::specs::Text::digit_char))]
pub fn digit(n: u64) -> u8
    requires { n < 16 }
    ensures { result ≡ digit_char n }
{
    if n < 10 {
        b'0' + n as u8
    } else {
        b'A' - 10 + n as u8
    }
}

// What a character says as a digit, whether or not it is one.
#[tactic(auto, unfolding(format::specs::Text::char_digit))]
pub fn said(c: u8) -> u64
    ensures { result ≡ char_digit c }
{
    if c <= b'9' {
        u64::from(c.saturating_sub(b'0'))
    } else {
        u64::from(c - (b'A' - 10))
    }
}

// The last k digits of a number in a base, from a place on; the place behind them. It is made part of its callers, so
// that where they know k and the base no loop and no division is left.
#[inline(always)]
pub fn digits(line: &mut [u8], at: usize, k: usize, n: u64, base: u64) -> usize
    requires { (at + k ≤ length line.old) × (0 < base) × (base ≤ 16) }
    ensures value { result ≡ at + k }
    ensures line_after { line.new ≡ sets line.old at (last_digits base k n) }
{
    let mut left = n;
    for i in (0..k).rev() {
        line[at + i] = digit(left % base);
        left /= base;
    }
    at + k
}

// How many digits a number has, decimal without leading zeros.
#[tactic(auto, using(crate::proofs::LastDigits::short, crate::proofs::LastDigits::width))]
pub fn decimals(n: u64) -> usize
    ensures { result ≡ length (decimal n) }
{
    match n.checked_ilog10() {
        Some(k) => k as usize + 1,
        None => 1,
    }
}

// A number of K digits. Nearly all have one to four: for these K is a constant, and each digit goes to its place without
// a loop.
#[tactic(auto, using(crate::proofs::LastDigits::own_digits))]
fn short<const K: usize>(line: &mut [u8], at: usize, n: u64) -> usize
    requires { (length (decimal n) ≡ K) × (at + K ≤ length line.old) }
    ensures value { result ≡ at + length (decimal n) }
    ensures line_after { line.new ≡ sets line.old at (decimal n) }
{
    digits(line, at, K, n, 10)
}

// A number, decimal without leading zeros.
#[tactic(auto, using(crate::proofs::LastDigits::short, crate::proofs::LastDigits::own_digits))]
pub fn number(line: &mut [u8], at: usize, n: u64) -> usize
    requires { at + length (decimal n) ≤ length line.old }
    ensures value { result ≡ at + length (decimal n) }
    ensures line_after { line.new ≡ sets line.old at (decimal n) }
{
    if n < 10 {
        return short::<1>(line, at, n);
    }
    if n < 100 {
        return short::<2>(line, at, n);
    }
    if n < 1000 {
        return short::<3>(line, at, n);
    }
    if n < 10000 {
        return short::<4>(line, at, n);
    }
    digits(line, at, decimals(n), n, 10)
}

// The base that writes four bits by a digit.
const HEX: u64 = 16;

// The low bits of a word by fours, k digits.
#[tactic(auto, using(crate::proofs::HexDigits::hex_digits))]
pub fn hex(line: &mut [u8], at: usize, k: usize, word: u64) -> usize
    requires { at + k ≤ length line.old }
    ensures value { result ≡ at + k }
    ensures line_after { line.new ≡ sets line.old at (Text.hex (spell (4 * k) word)) }
{
    digits(line, at, k, word, HEX)
}

// A value of a head or a row: a dash where it is absent, else decimal, with a minus sign in front of a negative one.
#[tactic(auto, using(crate::proofs::Values::absent_text, crate::proofs::Values::plain_read, crate::proofs::Values::negative_read, crate::proofs::Values::value_some))]
pub fn value(line: &mut [u8], at: usize, v: i32) -> usize
    requires { at + length (value_text v) ≤ length line.old }
    ensures value { result ≡ at + length (value_text v) }
    ensures line_after { line.new ≡ sets line.old at (value_text v) }
{
    if v == ABSENT {
        return put(line, at, DASH);
    }
    let n = u64::from(v.unsigned_abs());
    if v >= 0 {
        return number(line, at, n);
    }
    let from = put(line, at, DASH);
    number(line, from, n)
}
