// Rows of cells.
ghost use Rattle.std.specs.Prelude.{◌≡◌, ◌&&◌, ◌≤◌, ◌<◌, ◌^◌, leb, eqb, length};
ghost use Rattle.std.specs.Int.Count.{ones};
ghost use Rattle.bits.specs.BitLists.{spell};
ghost use Rattle.body.specs.Asking.{striped_in, Asks, AsksCells};
ghost use Rattle.body.specs.Chosen.{satellite_of, cells_in, striped};
ghost use Rattle.body.specs.Written.{numbers_at, Room, Wrote, Handed};
ghost use Rattle.format.specs.Lengths.{total};
ghost use Rattle.format.specs.Masks.{pick};
ghost use Rattle.format.specs.Messages.{cell_lines};
ghost use Rattle.format.specs.Reading.{over};
ghost use Rattle.holding.specs.Held.{satellites_in, slot_satellites};
ghost use Rattle.rows.specs.Shapes.{columns_in, FormedShape, Narrow};
ghost use Rattle.table.specs.Bodies.{all_set};

use crate::{End, FIRST, Passed, Satellite, Wanted};
use holding::set_places;
use rows::row::Key;
use rows::shape::Shape;
use rows::{row, shape};

// The rows of one satellite's cells, by its strip, which begins at the highest of 64 bits.
fn satellite(sat: Satellite, word: u64, s: Shape, bytes: &[u8], at: usize, rows: &mut [i32]) -> End
    requires { (sat.number < 2 ^ 31) × FormedShape s × Narrow s × Room (cell_lines (columns_in s) (cells_in 64 (satellite_of sat) word)) bytes.now at rows.old }
    ensures { Wrote (cell_lines (columns_in s) (cells_in 64 (satellite_of sat) word)) bytes.now at rows.old rows.new result }
{
    let system = sat.system as i32;
    let satellite = sat.number as i32;
    let width = shape::width(s);
    let mut left = word;
    let mut k = 0;
    let mut place = at;
    // Tried as an iterator over the set places: it misses a bar of speed.
    while left > 0 {
        let key = Key {
            system,
            satellite,
            signal: set_places::first(left) as i32,
        };
        let e = k + 8;
        row::cell(&mut rows[k..e], key, bytes, place, s);
        left = set_places::rest(left);
        k = e;
        place += width;
    }
    End {
        filled: k,
        at: place,
    }
}

// The rows of one system's cells: the strips, in their order, of the satellites that are chosen. Its mask and the
// selection each begin at the highest of 64 bits.
fn slot(id: u8, word: u64, strips: &[u16], wanted: Wanted, bytes: &[u8], rows: &mut [i32]) -> Passed
    requires { (length (satellites_in 64 id word) ≤ length strips.now) × Asks Narrow (striped_in wanted (satellites_in 64 id word) strips.now) bytes.now wanted rows.old }
    ensures { Handed wanted.chosen (striped (columns_in wanted.shape) (satellites_in 64 id word) strips.now) bytes.now wanted.at rows.old rows.new result }
{
    let s = wanted.shape;
    let mut left = word;
    let mut marks = wanted.chosen;
    let mut n = 0;
    let mut k = 0;
    let mut place = wanted.at;
    // Tried as an iterator over the set places: it misses a bar of speed.
    while left > 0 {
        if marks >= FIRST {
            let number = set_places::first(left) + 1;
            let strip = strips[n] as u64;
            let sat = Satellite { system: id, number };
            let end = satellite(sat, strip << 48, s, bytes, place, &mut rows[k..]);
            k += end.filled;
            place = end.at;
        }
        left = set_places::rest(left);
        marks = marks << 1;
        n += 1;
    }
    let end = End {
        filled: k,
        at: place,
    };
    Passed { end, marks }
}

// The rows of all systems' cells, of the satellites that are chosen.
pub fn fill(
    ids: &[u8],
    masks: &[u64],
    strips: &[u16],
    wanted: Wanted,
    bytes: &[u8],
    rows: &mut [i32],
)
    requires { AsksCells ids.now masks.now strips.now bytes.now wanted rows.old }
    ensures { rows.new ≡ over (numbers_at (striped_in wanted (slot_satellites ids.now masks.now) strips.now) bytes.now wanted.at) rows.old }
{
    let mut marks = wanted.chosen;
    let mut n = 0;
    let mut k = 0;
    let mut place = wanted.at;
    // By index: with an iterator over both a message takes 15 instructions more, and misses its bar.
    for i in 0..ids.len() {
        let mask = masks[i];
        let left = Wanted {
            chosen: marks,
            at: place,
            ..wanted
        };
        let passed = slot(
            ids[i],
            mask << 24,
            &strips[n..],
            left,
            bytes,
            &mut rows[k..],
        );
        let end = passed.end;
        n += set_places::count(mask);
        k += end.filled;
        place = end.at;
        marks = passed.marks;
    }
}

// How many cells the strips have that are chosen.
pub fn count(strips: &[u16], chosen: u64) -> usize
    requires { length strips.now ≤ 64 }
    ensures { result ≡ total ones (pick (spell 64 chosen) strips.now) }
{
    let mut marks = chosen;
    let mut sum = 0;
    for strip in strips {
        if marks >= FIRST {
            sum += set_places::count(*strip as u64);
        }
        marks <<= 1;
    }
    sum
}

// Whether the first satellite of a selection is chosen, and its strip is empty.
fn lacking(marks: u64, strip: u16) -> bool
    ensures { result ≡ (leb (2 ^ 63) marks && eqb strip 0) }
{
    marks >= FIRST && strip == 0
}

// Whether each satellite that is chosen has a cell, by the strips: a selection for cells names no other (document 02,
// Ask 1).
pub fn celled(strips: &[u16], chosen: u64) -> bool
    ensures { result ≡ all_set (pick (spell 64 chosen) strips.now) }
{
    let mut marks = chosen;
    for strip in strips {
        if lacking(marks, *strip) {
            return false;
        }
        marks <<= 1;
    }
    true
}
