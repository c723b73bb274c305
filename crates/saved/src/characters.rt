// What the characters of a line say: one of them, one bit of hex digits, and bits at the places of a mask.
ghost use Rattle.std.specs.Prelude.{◌≡◌, false, ◌^◌, ◌≤◌, ◌<◌, get_or, drop};
ghost use Rattle.bits.specs.BitLists.{digit, number, spell};
ghost use Rattle.format.specs.Text.{hex_bits};
ghost use Rattle.holding.specs.Spread.{spread};

use crate::cells::DIGIT;
use text::number::said;

// The character at a place; 0 where the line has ended.
pub fn char_at(line: &[u8], i: usize) -> u8
    ensures { result ≡ get_or line.now i 0 }
{
    line.get(i).copied().unwrap_or(0)
}

// A bit of the digits from a place on.
fn bit_at(line: &[u8], at: usize, i: usize) -> u64
    requires { (at < 2 ^ 32) × (i < 2 ^ 32) }
    ensures { result ≡ digit (get_or (hex_bits (drop at line.now)) i false) }
{
    let four = said(char_at(line, at + i / DIGIT));
    (four >> (DIGIT - 1 - i % DIGIT)) % 2
}

// The bits of the digits from a place on, from one of them on, put one after the other at the places of a mask of w bits.
pub fn spread_at(line: &[u8], at: usize, first: usize, places: u64, w: usize) -> u64
    requires { (at < 2 ^ 32) × (first < 2 ^ 16) × (w ≤ 40) }
    ensures { result ≡ number (spread (spell w places) (drop first (hex_bits (drop at line.now)))) }
{
    let mut word: u64 = 0;
    let mut next = first;
    for i in (0..w).rev() {
        if (places >> i) % 2 == 1 {
            word = word * 2 + bit_at(line, at, next);
            next += 1;
        } else {
            word *= 2;
        }
    }
    word
}
