// Whether a row fits its line: the line's three keys, then five values that their columns can mean.
ghost use Rattle.std.specs.Prelude.{◌≡◌, ◌&&◌, ◌+◌, ◌≤◌, ◌<◌, leb, pos, length, get_or, take, drop};
ghost use Rattle.format.specs.Rows.{absent};
ghost use Rattle.format.specs.Same.{same_list, sameℤ};
ghost use Rattle.rows.specs.Shapes.{column_of, columns_of, Formed, FormedShape};
ghost use Rattle.fitting.specs.Fits.{column_fits, values_fit, row_fits};
ghost use Rattle.matching.specs.Matching.{keys_of, line_of, cell_columns, cell_of};

use bits::signed;
use format::ABSENT;
use rows::row::Key;
use rows::shape::{Column, Shape};

// A value of a row has so many bits.
const NUMBER: usize = 32;

// Whether a column's bits can mean a value: half more than it is a number of those bits. Of a gap, whose half is what
// stands for an absent value, that is 0 alone. The sum wraps, so that one test tells both ends of the range.
pub fn column_fits(v: i32, c: Column) -> bool
    requires { Formed c }
    ensures { result ≡ column_fits (column_of c) v }
{
    let moved = signed::from_signed(v, NUMBER) + (c.half as u64);
    moved % (1u64 << NUMBER) <= (c.mask as u64)
}

// Whether a row has these keys.
fn keyed(row: &[i32], key: Key) -> bool
    requires { length row.now ≡ 8 }
    ensures { result ≡ same_list sameℤ (take 3 row.now) (keys_of key) }
{
    if row[0] != key.system {
        return false;
    }
    if row[1] != key.satellite {
        return false;
    }
    row[2] == key.signal
}

// Whether a row's i-th number is absent.
pub fn absent_at(row: &[i32], i: usize) -> bool
    requires { i < length row.now }
    ensures { result ≡ sameℤ (get_or row.now i (pos 0)) absent }
{
    row[i] == ABSENT
}

// Whether a row's third and fourth value fit their columns, which only an orbit and a packet have. The compiler tests
// that outside the loop over rows, so that the others have a shorter loop of their own.
fn middle(row: &[i32], s: Shape) -> bool
    requires { (length row.now ≡ 8) × FormedShape s }
    ensures { result ≡ (column_fits (column_of s.v3) (get_or row.now 5 (pos 0)) && column_fits (column_of s.v4) (get_or row.now 6 (pos 0))) }
{
    if s.v3.width + s.v4.width == 0 {
        if !absent_at(row, 5) {
            return false;
        }
        return absent_at(row, 6);
    }
    if !column_fits(row[5], s.v3) {
        return false;
    }
    column_fits(row[6], s.v4)
}

// Whether a row's values fit their columns.
pub fn valued(row: &[i32], s: Shape) -> bool
    requires { (length row.now ≡ 8) × FormedShape s }
    ensures { result ≡ values_fit (columns_of s) (drop 3 row.now) }
{
    if !column_fits(row[3], s.v1) {
        return false;
    }
    if !column_fits(row[4], s.v2) {
        return false;
    }
    if !middle(row, s) {
        return false;
    }
    column_fits(row[7], s.v5)
}

// Whether a row is there from the k-th number on, and fits the line of these keys and this shape.
pub fn fits(rows: &[i32], k: usize, key: Key, s: Shape) -> bool
    requires { (k ≤ length rows.now) × FormedShape s }
    ensures { result ≡ (leb (k + 8) (length rows.now) && row_fits (line_of key s) (take 8 (drop k rows.now))) }
{
    let e = k + 8;
    if e > rows.len() {
        return false;
    }
    let row = &rows[k..e];
    if !keyed(row, key) {
        return false;
    }
    valued(row, s)
}

// Whether a row's third value fits its column, which of cells only those with a code bias beside a phase bias have
// (document 02, Ask 1). The compiler tests that outside the loop over rows.
fn third(row: &[i32], c: Column) -> bool
    requires { (length row.now ≡ 8) × Formed c }
    ensures { result ≡ column_fits (column_of c) (get_or row.now 5 (pos 0)) }
{
    if c.width == 0 {
        return absent_at(row, 5);
    }
    column_fits(row[5], c)
}

// Whether a row's values fit a cell's three columns, and nothing stands behind.
fn cell_valued(row: &[i32], v1: Column, v2: Column, v3: Column) -> bool
    requires { (length row.now ≡ 8) × Formed v1 × Formed v2 × Formed v3 }
    ensures { result ≡ values_fit (cell_columns v1 v2 v3) (drop 3 row.now) }
{
    if !column_fits(row[3], v1) {
        return false;
    }
    if !column_fits(row[4], v2) {
        return false;
    }
    if !third(row, v3) {
        return false;
    }
    if !absent_at(row, 6) {
        return false;
    }
    absent_at(row, 7)
}

// The same as `fits` for a cell's row, which has at most three columns (document 01, "What is handed out", and document
// 02, Ask 1): a function of its own, so that cells are tested in a loop that looks at no other column.
pub fn cell_fits(rows: &[i32], k: usize, key: Key, v1: Column, v2: Column, v3: Column) -> bool
    requires { (k ≤ length rows.now) × Formed v1 × Formed v2 × Formed v3 }
    ensures { result ≡ (leb (k + 8) (length rows.now) && row_fits (cell_of key v1 v2 v3) (take 8 (drop k rows.now))) }
{
    let rest = &rows[k..];
    if rest.len() < 8 {
        return false;
    }
    let row = &rest[..8];
    if !keyed(row, key) {
        return false;
    }
    cell_valued(row, v1, v2, v3)
}
