// The table of the rows' shapes (document 01, "What is handed out"; document 02, Ask 1), by number: those by the flags
// of orbit and clock first, those by the flags of code and phase biases from BIASES on. Numbers, and no enum: a head's
// two flags are added to the first of four, and specs/Table.antt has a shape by its number.
ghost use Rattle.std.specs.Prelude.{◌≡◌, false, ◌≤◌};
ghost use Rattle.format.specs.Messages.{iode_width};
ghost use Rattle.format.specs.Rows.{gap, shape_width};
ghost use Rattle.rows.specs.Shapes.{column_for, orbit_of, last_of};
ghost use Rattle.rows.specs.Table.{shape_at, shape_for};

use crate::shape;
use crate::shape::{Column, Shape};

// By the two flags: neither is set.
pub const NONE: usize = 0;

// The clock's alone.
pub const LAST: usize = 1;

// The orbit's alone, which the orbit's own message has, too.
pub const ORBIT: usize = 2;

// Both.
pub const COMBINED: usize = 3;

// The clock's own message.
pub const CLOCK: usize = 4;

// Code biases.
pub const CODE: usize = 5;

// Phase biases.
pub const PHASE: usize = 6;

// A packet's part.
pub const PACKET: usize = 7;

// By the two flags of code and phase biases: neither is set.
pub const BIASES: usize = 8;

// The phase biases' alone.
const PHASES: usize = 9;

// The code biases' alone.
const CODES: usize = 10;

// Both.
const BOTH: usize = 11;

// SSR URA.
pub const ACCURACY: usize = 12;

// The system whose IODE is longer.
pub const GALILEO: u8 = 2;

// How many bits an IODE has.
pub fn iode(system: u8) -> usize
    ensures { result ≡ iode_width system }
{
    if system == GALILEO { 10 } else { 8 }
}

// An orbit, its IODE of so many bits, and one column more.
pub fn orbit(iode: usize, v5: Column) -> Shape
    requires { (1 ≤ iode) × (iode ≤ 10) }
    ensures { result ≡ orbit_of iode v5 }
{
    let across = shape::counts(13);
    Shape {
        iode: true,
        v1: shape::plain(iode),
        v2: shape::counts(15),
        v3: across,
        v4: across,
        v5,
    }
}

// Gaps instead of an orbit, and one column.
fn last(column: Column) -> Shape
    ensures { result ≡ last_of column }
{
    let none = shape::gap();
    Shape {
        iode: false,
        v1: none,
        v2: none,
        v3: none,
        v4: none,
        v5: column,
    }
}

// Three columns and two gaps.
fn three(v1: Column, v2: Column, v3: Column) -> Shape
    ensures { result ≡ record { iode = false; v1 = v1; v2 = v2; v3 = v3; v4 = column_for gap; v5 = column_for gap } }
{
    let none = shape::gap();
    Shape {
        iode: false,
        v1,
        v2,
        v3,
        v4: none,
        v5: none,
    }
}

fn clock() -> Shape
    ensures { result ≡ shape_for 4 }
{
    three(shape::counts(15), shape::gap(), shape::gap())
}

fn code() -> Shape
    ensures { result ≡ shape_for 5 }
{
    three(shape::counts(11), shape::gap(), shape::gap())
}

fn phase() -> Shape
    ensures { result ≡ shape_for 6 }
{
    three(shape::counts(15), shape::plain(2), shape::gap())
}

// By the flags: phase biases alone, and both.
fn phases() -> Shape
    ensures { result ≡ shape_for 9 }
{
    three(shape::gap(), shape::counts(15), shape::plain(2))
}

pub fn both() -> Shape
    ensures { result ≡ shape_for 11 }
{
    three(shape::counts(11), shape::counts(15), shape::plain(2))
}

fn accuracy() -> Shape
    ensures { result ≡ shape_for 12 }
{
    three(shape::plain(6), shape::gap(), shape::gap())
}

pub fn packet() -> Shape
    ensures { result ≡ shape_for 7 }
{
    let byte = shape::plain(8);
    Shape {
        iode: false,
        v1: byte,
        v2: byte,
        v3: byte,
        v4: byte,
        v5: byte,
    }
}

// The shape of a number, gaps alone for one past the table.
pub fn shape_of(i: usize) -> Shape
    ensures { result ≡ shape_for i }
{
    match i {
        LAST => last(shape::counts(15)),
        ORBIT => orbit(iode(0), shape::gap()),
        COMBINED => orbit(iode(0), shape::counts(15)),
        CLOCK => clock(),
        CODE => code(),
        PHASE => phase(),
        PACKET => packet(),
        PHASES => phases(),
        CODES => code(),
        BOTH => both(),
        ACCURACY => accuracy(),
        _ => last(shape::gap()),
    }
}

// How many bits a row of a system has. Not by shape_of, which is too large to be inlined: here each arm is a sum that
// the compiler knows.
pub fn width_in(i: usize, system: u8) -> usize
    ensures { result ≡ shape_width (shape_at i system) }
{
    match i {
        LAST => shape::width(last(shape::counts(15))),
        ORBIT => shape::width(orbit(iode(system), shape::gap())),
        COMBINED => shape::width(orbit(iode(system), shape::counts(15))),
        CLOCK => shape::width(clock()),
        CODE => shape::width(code()),
        PHASE => shape::width(phase()),
        PACKET => shape::width(packet()),
        PHASES => shape::width(phases()),
        CODES => shape::width(code()),
        BOTH => shape::width(both()),
        ACCURACY => shape::width(accuracy()),
        _ => shape::width(last(shape::gap())),
    }
}

// And of most systems.
pub fn width_of(i: usize) -> usize
    ensures { result ≡ shape_width (shape_at i 0) }
{
    width_in(i, 0)
}
