// The bit count that opens a line of input.
ghost use Rattle.std.specs.Prelude.{◌≡◌, ◌≤◌, ◌<◌, ◌^◌, length, take};
ghost use Rattle.format.specs.Text.{decimal_value};
ghost use Rattle.lines.specs.Counting.{tab_within, opens_with};

use text::TAB;
use text::number::{decimals, digit, said};

// The most digits that a count has.
pub const DIGITS: usize = 5;

// How many characters stand before the first tab of a line, or before the sixth character.
pub fn before_tab(line: &[u8]) -> usize
    ensures { result ≡ tab_within 5 line.now }
{
    line.iter().take(DIGITS).take_while(|c| **c != TAB).count()
}

// The number that the first k characters of a line say.
pub fn number_in(line: &[u8], k: usize) -> u64
    requires { (k ≤ 5) × (k ≤ length line.now) }
    ensures value { result ≡ decimal_value 0 (take k line.now) }
    ensures upper_bound { result < 2 ^ 32 }
{
    let mut sum = 0;
    for c in &line[..k] {
        sum = 10 * sum + said(*c);
    }
    sum
}

// Whether the first k characters of a line are a number, decimal without leading zeros.
pub fn opens_with(line: &[u8], k: usize, n: u64) -> bool
    requires { k ≤ length line.now }
    ensures { result ≡ opens_with line.now k n }
{
    if decimals(n) != k {
        return false;
    }
    let mut left = n;
    for c in line[..k].iter().rev() {
        if *c != digit(left % 10) {
            return false;
        }
        left /= 10;
    }
    true
}
