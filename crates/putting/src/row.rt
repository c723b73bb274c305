// The rows of a body, put out as bits (document 01, "Message layouts"): the values of a row one after the other. Which
// columns rows have is told once, before the first of them: each kind has a loop that does what its rows need alone.
ghost use Rattle.std.specs.Prelude.{◌≡◌, true, false};
ghost use Rattle.format.specs.Messages.{iode_width};
ghost use Rattle.format.specs.Writing.{rows_in};
ghost use Rattle.rows.specs.Shapes.{orbit_of, FormedShape};
ghost use Rattle.rows.specs.Table.{shape_for};
ghost use Rattle.pens.specs.Pens.{pen_after, ink_after};
ghost use Rattle.putting.specs.Putting.{system_of, row_fields, own_fields, orbit_on, PutsRow, PutsRows, pairs, triples, ends};

use crate::values::{front, last, pair};
use pens::pen::{Pen, push};
use rows::shape::{Column, Shape};
use rows::shapes;

// The key of the system whose IODE is longer.
pub const GALILEO: i32 = shapes::GALILEO as i32;

// The shape of an orbit's row: its IODE is as wide as its own system has it.
fn orbit_in(system: i32, v5: Column) -> Shape
    ensures { result ≡ orbit_of (iode_width (system_of system)) v5 }
{
    let known = if system == GALILEO {
        shapes::GALILEO
    } else {
        0
    };
    shapes::orbit(shapes::iode(known), v5)
}

// A row with an orbit, of sub type 2 or 11: the compiler knows all of its columns but the last. That one may be a gap,
// and then a field of no bits: a test for it would make two loops of one.
fn put_orbit(bytes: &mut [u8], pen: Pen, row: &[i32], v5: Column) -> Pen
    requires { PutsRow (orbit_on v5 row.now) row.now pen bytes.old }
    ensures value { result ≡ pen_after pen (own_fields (orbit_on v5 row.now) row.now) }
    ensures bytes_after { bytes.new ≡ ink_after pen (own_fields (orbit_on v5 row.now) row.now) bytes.old }
{
    let own = orbit_in(row[0], v5);
    let p = push(bytes, pen, front(row, own));
    push(bytes, p, last(row, own))
}

// A row of two columns and three gaps.
fn put_pair(bytes: &mut [u8], pen: Pen, row: &[i32], s: Shape) -> Pen
    requires { (pairs s ≡ true) × PutsRow s row.now pen bytes.old }
    ensures value { result ≡ pen_after pen (own_fields s row.now) }
    ensures bytes_after { bytes.new ≡ ink_after pen (own_fields s row.now) bytes.old }
{
    push(bytes, pen, pair(row, s))
}

// A row of the last column alone: sub type 11 without an orbit.
fn put_last(bytes: &mut [u8], pen: Pen, row: &[i32], s: Shape) -> Pen
    requires { (ends s ≡ true) × PutsRow s row.now pen bytes.old }
    ensures value { result ≡ pen_after pen (own_fields s row.now) }
    ensures bytes_after { bytes.new ≡ ink_after pen (own_fields s row.now) bytes.old }
{
    push(bytes, pen, last(row, s))
}

// Whether rows have a code bias, a phase bias and its indicator (document 02, Ask 1).
fn tripled(s: Shape) -> bool
    ensures { result ≡ triples s }
{
    if s.v4.width > 0 {
        return false;
    }
    if s.v1.width == 0 {
        return false;
    }
    s.v3.width > 0
}

// A row of any columns, as a packet's part has them, but for an IODE. Of a code bias with a phase bias the compiler knows
// all columns, and it tests for them outside the loop over rows.
fn put_wide(bytes: &mut [u8], pen: Pen, row: &[i32], s: Shape) -> Pen
    requires { (triples s ≡ true → s ≡ shape_for 11) × PutsRow s row.now pen bytes.old }
    ensures value { result ≡ pen_after pen (own_fields s row.now) }
    ensures bytes_after { bytes.new ≡ ink_after pen (own_fields s row.now) bytes.old }
{
    if tripled(s) {
        return push(bytes, pen, front(row, shapes::both()));
    }
    let p = push(bytes, pen, front(row, s));
    push(bytes, p, last(row, s))
}

// How many numbers a row has.
pub const ROW: usize = 8;

// Rows with an orbit.
fn put_orbits(bytes: &mut [u8], pen: Pen, rows: &[i32], count: usize, s: Shape) -> Pen
    requires { (s.iode ≡ true) × PutsRows s rows.now count pen bytes.old }
    ensures value { result ≡ pen_after pen (row_fields s (rows_in count rows.now)) }
    ensures bytes_after { bytes.new ≡ ink_after pen (row_fields s (rows_in count rows.now)) bytes.old }
{
    let mut p = pen;
    let mut i = 0;
    while i < count {
        let from = ROW * i;
        p = put_orbit(bytes, p, &rows[from..from + ROW], s.v5);
        i += 1;
    }
    p
}

// Rows of two columns and three gaps.
fn put_pairs(bytes: &mut [u8], pen: Pen, rows: &[i32], count: usize, s: Shape) -> Pen
    requires { (pairs s ≡ true) × PutsRows s rows.now count pen bytes.old }
    ensures value { result ≡ pen_after pen (row_fields s (rows_in count rows.now)) }
    ensures bytes_after { bytes.new ≡ ink_after pen (row_fields s (rows_in count rows.now)) bytes.old }
{
    let mut p = pen;
    let mut i = 0;
    while i < count {
        let from = ROW * i;
        p = put_pair(bytes, p, &rows[from..from + ROW], s);
        i += 1;
    }
    p
}

// Rows of the last column alone.
fn put_lasts(bytes: &mut [u8], pen: Pen, rows: &[i32], count: usize, s: Shape) -> Pen
    requires { (s.iode ≡ false) × (ends s ≡ true) × PutsRows s rows.now count pen bytes.old }
    ensures value { result ≡ pen_after pen (row_fields s (rows_in count rows.now)) }
    ensures bytes_after { bytes.new ≡ ink_after pen (row_fields s (rows_in count rows.now)) bytes.old }
{
    let mut p = pen;
    let mut i = 0;
    while i < count {
        let from = ROW * i;
        p = put_last(bytes, p, &rows[from..from + ROW], s);
        i += 1;
    }
    p
}

// Rows of any columns, none of them an IODE.
fn put_wides(bytes: &mut [u8], pen: Pen, rows: &[i32], count: usize, s: Shape) -> Pen
    requires { (s.iode ≡ false) × PutsRows s rows.now count pen bytes.old }
    ensures value { result ≡ pen_after pen (row_fields s (rows_in count rows.now)) }
    ensures bytes_after { bytes.new ≡ ink_after pen (row_fields s (rows_in count rows.now)) bytes.old }
{
    let mut p = pen;
    let mut i = 0;
    while i < count {
        let from = ROW * i;
        p = put_wide(bytes, p, &rows[from..from + ROW], s);
        i += 1;
    }
    p
}

// Whether rows have two columns and three gaps.
fn paired(s: Shape) -> bool
    requires { FormedShape s }
    ensures { result ≡ pairs s }
{
    if s.iode {
        return false;
    }
    s.v3.width + s.v4.width + s.v5.width == 0
}

// Whether rows without an IODE have the last column alone, if any.
fn ended(s: Shape) -> bool
    requires { FormedShape s }
    ensures { result ≡ ends s }
{
    s.v1.width + s.v2.width + s.v3.width + s.v4.width == 0
}

// The rows' values, row after row, in a shape: an IODE as wide as the row's own system has it. Rows of two columns, of
// which a message has the most, are told first.
pub fn put_rows(bytes: &mut [u8], pen: Pen, rows: &[i32], count: usize, s: Shape) -> Pen
    requires { PutsRows s rows.now count pen bytes.old }
    ensures value { result ≡ pen_after pen (row_fields s (rows_in count rows.now)) }
    ensures bytes_after { bytes.new ≡ ink_after pen (row_fields s (rows_in count rows.now)) bytes.old }
{
    if count == 0 {
        return pen;
    }
    if paired(s) {
        return put_pairs(bytes, pen, rows, count, s);
    }
    if s.iode {
        return put_orbits(bytes, pen, rows, count, s);
    }
    if ended(s) {
        return put_lasts(bytes, pen, rows, count, s);
    }
    put_wides(bytes, pen, rows, count, s)
}
