// The test of the strips that are not used. They are gathered without an exit, which makes it a few vectors' work.
ghost use Rattle.std.specs.Prelude.{◌≡◌, ◌&&◌, ◌+◌, ◌≤◌, eqb, length, take, drop};
ghost use Rattle.holding.specs.Gathering.{nought};
ghost use Rattle.holding.specs.Testing.{empty_strips};

use crate::Holding;
use crate::joined::joined;

// As many strips are gathered in a round.
const ROUND: usize = 16;

// The first of the last round.
const LAST: usize = Holding::SATELLITES - ROUND;

// Whether no strip from one on is used, one by one.
fn each_empty(strips: &[u16], from: usize) -> bool
    requires { from ≤ length strips.now }
    ensures { result ≡ empty_strips (drop from strips.now) }
{
    let mut any = 0u16;
    let mut i = from;
    while i < strips.len() {
        any |= strips[i];
        i += 1;
    }
    any == 0
}

// What is gathered, with four strips from one on.
fn gathered(any: u64, strips: &[u16], i: usize) -> u64
    requires { i + 4 ≤ length strips.now }
    ensures { eqb result 0 ≡ (eqb any 0 && empty_strips (take 4 (drop i strips.now))) }
{
    any | joined(strips[i], strips[i + 1], strips[i + 2], strips[i + 3])
}

// What is gathered in rounds, in four numbers that do not wait for each other.
#[derive(Clone, Copy)]
struct Lanes {
    a: u64,
    b: u64,
    c: u64,
    d: u64,
}

// The same, with sixteen strips from one on.
fn sixteen(any: Lanes, strips: &[u16], i: usize) -> Lanes
    requires { i + 16 ≤ length strips.now }
    ensures { nought result ≡ (nought any && empty_strips (take 16 (drop i strips.now))) }
{
    Lanes {
        a: gathered(any.a, strips, i),
        b: gathered(any.b, strips, i + 4),
        c: gathered(any.c, strips, i + 8),
        d: gathered(any.d, strips, i + 12),
    }
}

// Whether no strip from one on is used, the last round first, of which some may be gathered again.
pub fn strips_empty(strips: &[u16], from: usize) -> bool
    requires { (length strips.now ≡ 64) × (from ≤ 64) }
    ensures { result ≡ empty_strips (drop from strips.now) }
{
    if from > LAST {
        return each_empty(strips, from);
    }
    let none = Lanes {
        a: 0,
        b: 0,
        c: 0,
        d: 0,
    };
    let mut any = sixteen(none, strips, LAST);
    let mut i = from;
    while i < LAST {
        any = sixteen(any, strips, i);
        i += ROUND;
    }
    any.a | (any.b | (any.c | any.d)) == 0
}
