// How far rows fit the lines of cells.
ghost use Rattle.std.specs.Prelude.{◌≡◌, ◌≤◌, ◌<◌, ◌^◌, length};
ghost use Rattle.body.specs.Chosen.{satellite_of, cells_in, striped, chosen_lines};
ghost use Rattle.body.specs.Lent.{Slots};
ghost use Rattle.format.specs.Messages.{cell_lines};
ghost use Rattle.holding.specs.Held.{satellites_in, slot_satellites};
ghost use Rattle.rows.specs.Shapes.{columns_in, FormedShape, Narrow};
ghost use Rattle.matching.specs.Matching.{matched_at, strips_passed_at};

use crate::fits::{Matched, line};
use body::{FIRST, Satellite};
use holding::set_places;
use rows::row::Key;
use rows::shape::Shape;

// Which rows are tested: their shape, the satellites that are chosen, and the number where they begin.
#[derive(Clone, Copy)]
pub struct Tested {
    pub shape: Shape,
    pub chosen: u64,
    pub from: usize,
}

// How far the rows of a slot's cells fit their lines: not all of them do, or they do up to that number of those lent;
// how many satellites that were, each with its strip; and the selection of those behind, as of satellites.
#[derive(Clone, Copy)]
pub enum Passed {
    Stopped,
    On(usize, usize, u64),
}

// How far the rows from a number on fit the lines of one satellite's cells, by its strip, which begins at the highest
// of 64 bits.
fn satellite(sat: Satellite, word: u64, s: Shape, rows: &[i32], from: usize) -> Matched
    requires { (sat.number < 2 ^ 31) × FormedShape s × Narrow s × (from ≤ length rows.now) }
    ensures { result ≡ matched_at (cell_lines (columns_in s) (cells_in 64 (satellite_of sat) word)) rows.now from }
{
    let system = sat.system as i32;
    let satellite = sat.number as i32;
    let own = &rows[from..];
    let mut left = word;
    let mut k = 0;
    while left > 0 {
        let key = Key {
            system,
            satellite,
            signal: set_places::first(left) as i32,
        };
        if !line::cell_fits(own, k, key, s.v1, s.v2, s.v3) {
            return Matched::Not;
        }
        left = set_places::rest(left);
        k += 8;
    }
    Matched::To(from + k)
}

// How far the rows fit the lines of one system's cells: the strips, in their order, of the satellites that are chosen.
// Its mask and the selection each begin at the highest of 64 bits.
fn slot(id: u8, word: u64, strips: &[u16], tested: Tested, rows: &[i32]) -> Passed
    requires { (length (satellites_in 64 id word) ≤ length strips.now) × FormedShape tested.shape × Narrow tested.shape × (tested.from ≤ length rows.now) }
    ensures { result ≡ strips_passed_at tested.chosen (striped (columns_in tested.shape) (satellites_in 64 id word) strips.now) rows.now tested.from }
{
    let s = tested.shape;
    let mut left = word;
    let mut marks = tested.chosen;
    let mut n = 0;
    let mut k = tested.from;
    while left > 0 {
        if marks >= FIRST {
            let number = set_places::first(left) + 1;
            let strip = strips[n] as u64;
            let sat = Satellite { system: id, number };
            let far = satellite(sat, strip << 48, s, rows, k);
            let Matched::To(next) = far else {
                return Passed::Stopped;
            };
            k = next;
        }
        left = set_places::rest(left);
        marks = marks << 1;
        n += 1;
    }
    Passed::On(k, n, marks)
}

// How far the rows fit the lines of all systems' cells, of the satellites that are chosen.
pub fn reach(
    ids: &[u8],
    masks: &[u64],
    strips: &[u16],
    s: Shape,
    chosen: u64,
    rows: &[i32],
) -> Matched
    requires { Slots ids.now masks.now × (length (slot_satellites ids.now masks.now) ≤ length strips.now) × FormedShape s × Narrow s }
    ensures { result ≡ matched_at (chosen_lines chosen (striped (columns_in s) (slot_satellites ids.now masks.now) strips.now)) rows.now 0 }
{
    let mut marks = chosen;
    let mut n = 0;
    let mut k = 0;
    let mut i = 0;
    while i < ids.len() {
        let tested = Tested {
            shape: s,
            chosen: marks,
            from: k,
        };
        let passed = slot(ids[i], masks[i] << 24, &strips[n..], tested, rows);
        let Passed::On(next, many, behind) = passed else {
            return Matched::Not;
        };
        k = next;
        n += many;
        marks = behind;
        i += 1;
    }
    Matched::To(k)
}
