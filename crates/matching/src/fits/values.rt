// Whether values fit, of rows whose satellites are known to be right: of sub type 11 a selection was told by the rows'
// own keys (document 01, refusal 12), so that only what stands behind those is left to be tested.
ghost use Rattle.std.specs.Prelude.{◌≡◌, ◌*◌, ◌≤◌, length};
ghost use Rattle.format.specs.Messages.{iode_width};
ghost use Rattle.format.specs.Writing.{rows_in};
ghost use Rattle.rows.specs.Shapes.{columns_in, orbit_of, last_of, Formed};
ghost use Rattle.matching.specs.Values.{own_system, row_valued, rows_valued, Flagged};

use crate::fits::line;
use rows::shape::{Column, Shape};
use rows::shapes;

// The key of the system whose IODE is longer.
const GALILEO: i32 = shapes::GALILEO as i32;

// How many bits the IODE of a row has, by its first key.
fn own_iode(key: i32) -> usize
    ensures { result ≡ iode_width (own_system key) }
{
    if key == GALILEO {
        return shapes::iode(shapes::GALILEO);
    }
    shapes::iode(0)
}

// Whether an orbit's row has no signal, and values that its columns can mean.
fn orbit(row: &[i32], v5: Column) -> bool
    requires { (length row.now ≡ 8) × Formed v5 }
    ensures { result ≡ row_valued (columns_in (orbit_of 8 v5)) row.now }
{
    if !line::absent_at(row, 2) {
        return false;
    }
    line::valued(row, shapes::orbit(own_iode(row[0]), v5))
}

// Whether a row has neither signal nor orbit, and a value that its last column can mean.
fn last(row: &[i32], v5: Column) -> bool
    requires { (length row.now ≡ 8) × Formed v5 }
    ensures { result ≡ row_valued (columns_in (last_of v5)) row.now }
{
    if !line::absent_at(row, 2) {
        return false;
    }
    if !line::absent_at(row, 3) {
        return false;
    }
    if !line::absent_at(row, 4) {
        return false;
    }
    if !line::absent_at(row, 5) {
        return false;
    }
    if !line::absent_at(row, 6) {
        return false;
    }
    line::column_fits(row[7], v5)
}

// Whether each of so many rows is such an orbit's.
fn orbits(rows: &[i32], count: usize, v5: Column) -> bool
    requires { (8 * count ≤ length rows.now) × Formed v5 }
    ensures { result ≡ rows_valued (columns_in (orbit_of 8 v5)) (rows_in count rows.now) }
{
    let mut i = 0;
    while i < count {
        let at = 8 * i;
        let end = at + 8;
        if !orbit(&rows[at..end], v5) {
            return false;
        }
        i += 1;
    }
    true
}

// Whether each has that last value alone.
fn lasts(rows: &[i32], count: usize, v5: Column) -> bool
    requires { (8 * count ≤ length rows.now) × Formed v5 }
    ensures { result ≡ rows_valued (columns_in (last_of v5)) (rows_in count rows.now) }
{
    let mut i = 0;
    while i < count {
        let at = 8 * i;
        let end = at + 8;
        if !last(&rows[at..end], v5) {
            return false;
        }
        i += 1;
    }
    true
}

// Whether so many rows of sub type 11 have no signal, and values that their columns can mean. A loop for each of the
// two layouts, in which nothing but the last column has to be looked up.
pub fn values_fit(s: Shape, rows: &[i32], count: usize) -> bool
    requires { Flagged s × (8 * count ≤ length rows.now) }
    ensures { result ≡ rows_valued (columns_in s) (rows_in count rows.now) }
{
    if s.iode {
        return orbits(rows, count, s.v5);
    }
    lasts(rows, count, s.v5)
}
