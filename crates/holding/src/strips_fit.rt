// The test of a slot's strips, four at a time where there are as many.
ghost use Rattle.std.specs.Prelude.{◌≡◌, ◌+◌, ◌-◌, ◌≤◌, length, take, drop};
ghost use Rattle.holding.specs.Testing.{strip_fits, strips_fit};

use crate::joined::joined;

// Whether a strip, or four joined, has the signals that the system's flag lets it have.
fn strip_fits(flag: bool, signals: u64, strip: u64) -> bool
    ensures { result ≡ strip_fits flag signals strip }
{
    if flag {
        strip & signals == strip
    } else {
        signals == strip
    }
}

// The same of the strips from one on, up to another that is not among them.
fn each_fits(strips: &[u16], from: usize, to: usize, signals: u16, flag: bool) -> bool
    requires { (from ≤ to) × (to ≤ length strips.now) }
    ensures { result ≡ strips_fit flag signals (take (to - from) (drop from strips.now)) }
{
    let mut i = from;
    while i < to {
        if !strip_fits(flag, signals as u64, strips[i] as u64) {
            return false;
        }
        i += 1;
    }
    true
}

// The same of four.
fn four_fit(strips: &[u16], i: usize, signals: u16, flag: bool) -> bool
    requires { i + 4 ≤ length strips.now }
    ensures { result ≡ strips_fit flag signals (take 4 (drop i strips.now)) }
{
    let all = joined(signals, signals, signals, signals);
    strip_fits(
        flag,
        all,
        joined(strips[i], strips[i + 1], strips[i + 2], strips[i + 3]),
    )
}

// The same of any number. The last four may be tested with some that were tested before.
pub fn strips_fit(strips: &[u16], from: usize, to: usize, signals: u16, flag: bool) -> bool
    requires { (from ≤ to) × (to ≤ length strips.now) }
    ensures { result ≡ strips_fit flag signals (take (to - from) (drop from strips.now)) }
{
    if to - from < 4 {
        return each_fits(strips, from, to, signals, flag);
    }
    let last = to - 4;
    let mut i = from;
    while i < last {
        if !four_fit(strips, i, signals, flag) {
            return false;
        }
        i += 4;
    }
    four_fit(strips, last, signals, flag)
}
