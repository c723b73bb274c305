// A line gathered from pieces of input.
ghost use Rattle.std.specs.Prelude.{◌≡◌, ◌≤◌, length, take};
ghost use Rattle.lister.specs.Gathering.{up_to, kept_in, filled_to, gathered};

use crate::Work;
use text::LINE_FEED;

// How many bytes of a piece belong to the line under way: up to its line feed, or all.
fn up_to(piece: &[u8]) -> usize
    ensures value { result ≡ up_to piece.now }
    ensures upper_bound { result ≤ length piece.now }
{
    match piece.iter().position(|c| *c == LINE_FEED) {
        Some(i) => i + 1,
        None => piece.len(),
    }
}

// Bytes come to a line of which so many have come, as long as there is room; how many it then has.
fn keep(line: &mut [u8], filled: usize, new: &[u8]) -> usize
    requires { filled ≤ length line.old }
    ensures value { result ≡ filled_to (length line.old) filled (length new.now) }
    ensures line_after { line.new ≡ kept_in line.old filled new.now }
{
    let n = new.len().min(line.len() - filled);
    let to = filled + n;
    line[filled..to].copy_from_slice(&new[..n]);
    to
}

// What is then under way, and how many bytes of the piece were taken.
#[derive(Clone, Copy)]
pub struct Gathered {
    pub work: Work,
    pub taken: usize,
}

// Takes of a piece what belongs to the line; no piece says that the input has ended.
pub fn gather(line: &mut [u8], filled: usize, piece: &[u8]) -> Gathered
    requires { filled ≤ length line.old }
    ensures value { result ≡ record { work = gathered (length line.old) filled piece.now; taken = up_to piece.now } }
    ensures line_after { line.new ≡ kept_in line.old filled (take (up_to piece.now) piece.now) }
{
    let taken = up_to(piece);
    let new = &piece[..taken];
    let to = keep(line, filled, new);
    let work = match new.last() {
        Some(last) if *last == LINE_FEED => Work::Whole(to),
        None if filled > 0 => Work::Whole(to),
        _ => Work::Gathering(to),
    };
    Gathered { work, taken }
}
