// Rows of satellites.
ghost use Rattle.std.specs.Prelude.{◌≡◌, ◌-◌, ◌*◌, ◌/◌, ◌^◌, ◌≤◌, length};
ghost use Rattle.std.specs.Int.Count.{ones};
ghost use Rattle.bits.specs.BitLists.{spell};
ghost use Rattle.body.specs.Asking.{alone_in, Asks};
ghost use Rattle.body.specs.Chosen.{up_to_galileo, galileos, alone, chosen_lines};
ghost use Rattle.body.specs.Lent.{Slots};
ghost use Rattle.body.specs.Written.{numbers_at, Handed, Counts};
ghost use Rattle.format.specs.Masks.{pick};
ghost use Rattle.format.specs.Reading.{over};
ghost use Rattle.format.specs.Rows.{shape_width};
ghost use Rattle.holding.specs.Held.{satellites_in, slot_satellites};
ghost use Rattle.rows.specs.Shapes.{columns_in, FormedShape, Laid};
ghost use Rattle.rows.specs.Table.{shape_at};

use crate::{End, Extent, FIRST, Passed, Wanted, alike};
use holding::set_places;
use rows::shape::Shape;
use rows::{row, shapes};
use table::ALL;

// How many bits a row of a system has, whose IODE has so many.
fn width(s: Shape, system: u8) -> usize
    requires { FormedShape s }
    ensures { result ≡ shape_width (columns_in s system) }
{
    let others = s.v2.width + s.v3.width + s.v4.width + s.v5.width;
    if s.iode {
        return shapes::iode(system) + others;
    }
    s.v1.width + others
}

// The rows of one system's satellites that are chosen: its mask and the selection each begin at the highest of
// 64 bits.
fn slot(id: u8, word: u64, wanted: Wanted, bytes: &[u8], rows: &mut [i32]) -> Passed
    requires { Asks Laid (alone_in wanted (satellites_in 64 id word)) bytes.now wanted rows.old }
    ensures { Handed wanted.chosen (alone (columns_in wanted.shape) (satellites_in 64 id word)) bytes.now wanted.at rows.old rows.new result }
{
    let s = wanted.shape;
    let width = width(s, id);
    let mut left = word;
    let mut marks = wanted.chosen;
    let mut k = 0;
    let mut place = wanted.at;
    // Tried as an iterator over the set places: it misses a bar of speed.
    while left > 0 {
        if marks >= FIRST {
            let number = set_places::first(left) + 1;
            let e = k + 8;
            row::satellite(&mut rows[k..e], id, number as i32, bytes, place, s);
            k = e;
            place += width;
        }
        left = set_places::rest(left);
        marks = marks << 1;
    }
    let end = End {
        filled: k,
        at: place,
    };
    Passed { end, marks }
}

// The rows of all systems' satellites that are chosen.
pub fn fill(ids: &[u8], masks: &[u64], wanted: Wanted, bytes: &[u8], rows: &mut [i32])
    requires { Slots ids.now masks.now × Asks Laid (alone_in wanted (slot_satellites ids.now masks.now)) bytes.now wanted rows.old }
    ensures { rows.new ≡ over (numbers_at (alone_in wanted (slot_satellites ids.now masks.now)) bytes.now wanted.at) rows.old }
{
    let mut marks = wanted.chosen;
    let mut k = 0;
    let mut place = wanted.at;
    // By index: with an iterator over both a message takes 15 instructions more, and misses its bar.
    for i in 0..ids.len() {
        let mask = masks[i];
        let left = Wanted {
            chosen: marks,
            at: place,
            ..wanted
        };
        let passed = slot(ids[i], mask << 24, left, bytes, &mut rows[k..]);
        let end = passed.end;
        k += end.filled;
        place = end.at;
        marks = passed.marks;
    }
}

// How many of the next n satellites a selection chooses: its first n bits that are set. Most often all are, and a count
// takes longer than to see that.
fn picked(chosen: u64, n: usize) -> usize
    requires { n ≤ 64 }
    ensures { result ≡ ones (chosen / 2 ^ (64 - n)) }
{
    if n == 0 {
        return 0;
    }
    let first = chosen >> (64 - n);
    if first == ALL >> (64 - n) {
        return n;
    }
    set_places::count(first)
}

// How many bits and rows n satellites that are chosen have, where their rows are of one width: by their selection alone.
pub fn size_alike(n: usize, width: usize, chosen: u64) -> Extent
    requires { (n ≤ 64) × (width ≤ 71) }
    ensures { result ≡ record { bits = ones (chosen / 2 ^ (64 - n)) * width; rows = ones (chosen / 2 ^ (64 - n)) } }
{
    alike(picked(chosen, n), width)
}

// How many slots there are up to the last one of Galileo, none where it has none: their IDs are seen sooner than the
// satellites of a slot are counted.
fn up_to_galileo(ids: &[u8]) -> usize
    ensures { result ≡ up_to_galileo ids.now (length ids.now) }
{
    let mut n = ids.len();
    // Tried by `rposition`, and the loop of `galileo` by an iterator: two instructions more a row of cells miss a bar.
    while n > 0 {
        if ids[n - 1] == shapes::GALILEO {
            return n;
        }
        n -= 1;
    }
    n
}

// How many satellites of Galileo are chosen.
fn galileo(ids: &[u8], masks: &[u64], chosen: u64) -> usize
    requires { Slots ids.now masks.now × (length (slot_satellites ids.now masks.now) ≤ 64) }
    ensures { result ≡ galileos (pick (spell 64 chosen) (slot_satellites ids.now masks.now)) }
{
    let mut marks = chosen;
    let mut sum = 0;
    let end = up_to_galileo(ids);
    let mut i = 0;
    // By index: see `up_to_galileo`.
    while i < end {
        let n = set_places::count(masks[i]);
        if ids[i] == shapes::GALILEO {
            sum += picked(marks, n);
        }
        marks = marks << n;
        i += 1;
    }
    sum
}

// And where an IODE is in them: of one width but for Galileo's.
pub fn size(n: usize, ids: &[u8], masks: &[u64], shape: usize, chosen: u64) -> Extent
    requires { Slots ids.now masks.now × (length (slot_satellites ids.now masks.now) ≡ n) × (n ≤ 64) }
    ensures { Counts (chosen_lines chosen (alone (shape_at shape) (slot_satellites ids.now masks.now))) result }
{
    let width = shapes::width_of(shape);
    let even = size_alike(n, width, chosen);
    let more = shapes::width_in(shape, shapes::GALILEO) - width;
    Extent {
        bits: even.bits + galileo(ids, masks, chosen) * more,
        rows: even.rows,
    }
}
