// The listing's lines (document 01, "Saved mask and listing"): what a line of input says, and the lines of output.
#![tactic(auto)]

pub mod count;
pub mod digits;
pub mod records;
pub mod stretch;

ghost use Rattle.std.specs.Prelude.{◌≡◌};
ghost use Rattle.format.specs.Listing.{line_says};
ghost use Rattle.lines.specs.Saying.{line_for};

use format::STRETCH;
use text::{LINE_FEED, TAB};

// A line that says so many bits, whose digits begin at a place.
#[derive(Clone, Copy)]
pub struct Line {
    pub bits: usize,
    pub first: usize,
}

// What a line of input says, bit count, tab, digits, line feed; or nothing, if it is a bad one.
pub fn said_by(line: &[u8]) -> Option<Line>
    ensures { result ≡ line_for (line_says line.now) }
{
    let t = count::before_tab(line);
    if *line.get(t)? != TAB {
        return None;
    }
    let n = count::number_in(line, t);
    if n > STRETCH as u64 || !count::opens_with(line, t, n) {
        return None;
    }
    let first = t + 1;
    let (last, digits) = line[first..].split_last()?;
    if *last != LINE_FEED {
        return None;
    }
    let bits = n as usize;
    digits::digits_say(digits, bits).then_some(Line { bits, first })
}
