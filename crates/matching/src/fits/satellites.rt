// How far rows fit the lines of satellites.
ghost use Rattle.std.specs.Prelude.{◌≡◌, ◌≤◌, length};
ghost use Rattle.body.specs.Chosen.{alone, chosen_lines};
ghost use Rattle.body.specs.Lent.{Slots};
ghost use Rattle.holding.specs.Held.{satellites_in, slot_satellites};
ghost use Rattle.rows.specs.Shapes.{columns_in, FormedShape, Laid};
ghost use Rattle.matching.specs.Matching.{matched_at, passed_at, shape_on};

use crate::fits::{Matched, line};
use body::FIRST;
use format::ABSENT;
use holding::set_places;
use rows::row::Key;
use rows::shape::Shape;
use rows::shapes;

// How far the rows of a slot's satellites fit their lines: not all of them do, or they do up to that number of those
// lent; and the selection of the satellites behind, whose first one's bit is the highest again.
#[derive(Clone, Copy)]
pub enum Passed {
    Stopped,
    On(usize, u64),
}

// The shape of a system's rows: an IODE is as wide as the system has it.
fn shape_in(s: Shape, system: u8) -> Shape
    ensures { result ≡ shape_on s system }
{
    if s.iode {
        return shapes::orbit(shapes::iode(system), s.v5);
    }
    s
}

// How far the rows from a number on fit the lines of one system's satellites that are chosen: its mask and the
// selection each begin at the highest of 64 bits.
fn slot(id: u8, word: u64, s: Shape, chosen: u64, rows: &[i32], from: usize) -> Passed
    requires { FormedShape s × Laid s × (from ≤ length rows.now) }
    ensures { result ≡ passed_at chosen (alone (columns_in s) (satellites_in 64 id word)) rows.now from }
{
    let own = shape_in(s, id);
    let system = id as i32;
    let mut left = word;
    let mut marks = chosen;
    let mut k = from;
    while left > 0 {
        if marks >= FIRST {
            let number = set_places::first(left) + 1;
            let key = Key {
                system,
                satellite: number as i32,
                signal: ABSENT,
            };
            if !line::fits(rows, k, key, own) {
                return Passed::Stopped;
            }
            k += 8;
        }
        left = set_places::rest(left);
        marks = marks << 1;
    }
    Passed::On(k, marks)
}

// How far the rows fit the lines of all systems' satellites that are chosen.
pub fn reach(ids: &[u8], masks: &[u64], s: Shape, chosen: u64, rows: &[i32]) -> Matched
    requires { Slots ids.now masks.now × FormedShape s × Laid s }
    ensures { result ≡ matched_at (chosen_lines chosen (alone (columns_in s) (slot_satellites ids.now masks.now))) rows.now 0 }
{
    let mut marks = chosen;
    let mut k = 0;
    let mut i = 0;
    while i < ids.len() {
        let passed = slot(ids[i], masks[i] << 24, s, marks, rows, k);
        let Passed::On(next, behind) = passed else {
            return Matched::Not;
        };
        k = next;
        marks = behind;
        i += 1;
    }
    Matched::To(k)
}
