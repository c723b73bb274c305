// The body of a message: one reader of rows over their shapes, for all sub types.
#![tactic(auto)]

pub mod cells;
pub mod near;
pub mod packet;
pub mod satellites;
pub mod whole;

ghost use Rattle.std.specs.Prelude.{◌≡◌, ◌+◌, ◌-◌, ◌*◌, ◌^◌, ◌≤◌, length, take};
ghost use Rattle.std.specs.Int.Count.{ones};
ghost use Rattle.bits.specs.BitLists.{spell};
ghost use Rattle.body.specs.Asking.{Fills};
ghost use Rattle.body.specs.Chosen.{alone, chosen_lines};
ghost use Rattle.body.specs.Lent.{view_by, Slots, Sized};
ghost use Rattle.body.specs.Written.{numbers_at, Counts};
ghost use Rattle.format.specs.Lengths.{total};
ghost use Rattle.format.specs.Masks.{pick};
ghost use Rattle.format.specs.Reading.{over};
ghost use Rattle.holding.specs.Held.{slot_satellites};
ghost use Rattle.rows.specs.Table.{shape_at};
ghost use Rattle.table.specs.Bodies.{lines_in, Fits};

use rows::shape::Shape;
use rows::shapes;
use table::{ALL, Body, Keys};

// How long a body is, in bits and in rows.
#[derive(Clone, Copy)]
pub struct Extent {
    pub bits: usize,
    pub rows: usize,
}

// A body, how many bits and rows it has, and the place where it begins.
#[derive(Clone, Copy)]
pub struct Placed {
    pub body: Body,
    pub bits: usize,
    pub rows: usize,
    pub at: usize,
}

// A satellite: its system, and its number there.
#[derive(Clone, Copy)]
pub struct Satellite {
    pub system: u8,
    pub number: usize,
}

// Which rows are wanted: their shape, the satellites that are chosen, and the place where their bits begin.
#[derive(Clone, Copy)]
pub struct Wanted {
    pub shape: Shape,
    pub chosen: u64,
    pub at: usize,
}

// Where writing rows ended: how many numbers they are, and the place behind their bits.
#[derive(Clone, Copy)]
pub struct End {
    pub filled: usize,
    pub at: usize,
}

// And the selection of the satellites behind, whose first one's bit is the highest again.
#[derive(Clone, Copy)]
pub struct Passed {
    pub end: End,
    pub marks: u64,
}

// The first satellite, as a selection.
pub const FIRST: u64 = 0x8000_0000_0000_0000;

// So many rows of one width.
fn alike(rows: usize, width: usize) -> Extent
    requires { (rows ≤ 256) × (width ≤ 71) }
    ensures { result ≡ record { bits = rows * width; rows = rows } }
{
    Extent {
        bits: rows * width,
        rows,
    }
}

// How long the rows of the satellites that are chosen are, of n: of one width, unless an IODE is in them.
fn satellites_size(n: usize, ids: &[u8], masks: &[u64], shape: usize, chosen: u64) -> Extent
    requires { Slots ids.now masks.now × (length (slot_satellites ids.now masks.now) ≡ n) × (n ≤ 64) }
    ensures { Counts (chosen_lines chosen (alone (shape_at shape) (slot_satellites ids.now masks.now))) result }
{
    if shape < shapes::ORBIT || shape > shapes::COMBINED {
        return satellites::size_alike(n, shapes::width_of(shape), chosen);
    }
    satellites::size(n, ids, masks, shape, chosen)
}

// How many cells those of n satellites have that are chosen; all of them are known.
fn cells_chosen(n: usize, all: usize, strips: &[u16], chosen: u64) -> usize
    requires { (n ≤ 64) × (n ≤ length strips.now) × ((chosen ≡ 2 ^ 64 - 1) → all ≡ total ones (pick (spell 64 chosen) (take n strips.now))) }
    ensures { result ≡ total ones (pick (spell 64 chosen) (take n strips.now)) }
{
    if chosen == ALL {
        return all;
    }
    cells::count(&strips[..n], chosen)
}

// How long the body is, under slots and strips of so many satellites and cells.
pub fn size(
    nsat: usize,
    ncell: usize,
    ids: &[u8],
    masks: &[u64],
    strips: &[u16],
    body: Body,
) -> Extent
    requires { Sized ids.now masks.now strips.now nsat ncell × Fits body }
    ensures { Counts (lines_in (view_by ids.now masks.now strips.now) body) result }
{
    let keys = body.keys;
    let shape = body.shape;
    match keys {
        Keys::Satellites(chosen) => satellites_size(nsat, ids, masks, shape, chosen),
        Keys::Cells(chosen) => alike(
            cells_chosen(nsat, ncell, strips, chosen),
            shapes::width_of(shape),
        ),
        Keys::Parts(parts) => alike(parts, shapes::width_of(shape)),
    }
}

// The rows of a body under the slots and strips that are lent, into the row buffer. Where the string ends too soon behind
// the body for windows their values come last. (Rows are written at one place of the code for both, so that this function
// becomes part of the loop over messages.)
pub fn fill(
    ids: &[u8],
    masks: &[u64],
    strips: &[u16],
    placed: Placed,
    bytes: &[u8],
    rows: &mut [i32],
)
    requires { Fills ids.now masks.now strips.now placed rows.old }
    ensures { rows.new ≡ over (numbers_at (lines_in (view_by ids.now masks.now strips.now) placed.body) bytes.now placed.at) rows.old }
{
    let near = (placed.at + placed.bits + 127) / 8 > bytes.len();
    let zeros = [0u8; near::ZEROS];
    let first = near::body(near, placed);
    whole::fill(
        ids,
        masks,
        strips,
        first,
        near::string(near, bytes, &zeros),
        rows,
    );
    if near {
        near::values(placed, bytes, rows);
    }
}
