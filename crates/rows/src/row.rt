// One row, written: its three keys, and the values that its columns have at a place. Windows are read without a
// test, so eight bytes have to be there from the byte of the row's last bit on; `fill_in` alone tests each.
ghost use Rattle.std.specs.Prelude.{◌≡◌, ◌&&◌, false, [], ◌∷◌, ◌+◌, ◌*◌, ◌^◌, ◌≤◌, ◌<◌, eqb, ltb, pos, length};
ghost use Rattle.std.specs.Int.Signed.{mag};
ghost use Rattle.bits.specs.Places.{field};
ghost use Rattle.format.specs.Messages.{iode_width};
ghost use Rattle.format.specs.Rows.{absent, value_of, shape_width};
ghost use Rattle.rows.specs.At.{values_at, columns_on, valued_at};
ghost use Rattle.rows.specs.Shapes.{column_of, columns_of, columns_in, Formed, shape_on, FormedShape, Laid, Narrow};

use crate::shape::{Column, Shape};
use crate::{shape, shapes};
use bits::read::read_field;
use bits::signed::magnitude;
use bits::window;
use format::ABSENT;

// The three keys of a row (document 01, "What is handed out").
#[derive(Clone, Copy)]
pub struct Key {
    pub system: i32,
    pub satellite: i32,
    pub signal: i32,
}

// And its five values.
#[derive(Clone, Copy)]
pub struct Values {
    pub v1: i32,
    pub v2: i32,
    pub v3: i32,
    pub v4: i32,
    pub v5: i32,
}

// Eight numbers, stored.
fn store(row: &mut [i32], key: Key, v: Values)
    requires { length row.old ≡ 8 }
    ensures { row.new ≡ key.system ∷ key.satellite ∷ key.signal ∷ v.v1 ∷ v.v2 ∷ v.v3 ∷ v.v4 ∷ v.v5 ∷ [] }
{
    let Key {
        system,
        satellite,
        signal,
    } = key;
    let Values { v1, v2, v3, v4, v5 } = v;
    row[0] = system;
    row[1] = satellite;
    row[2] = signal;
    row[3] = v1;
    row[4] = v2;
    row[5] = v3;
    row[6] = v4;
    row[7] = v5;
}

// The value of one column, from the front of a window of its own: half of it holds every column, and is one load where
// a window moved down by one bit is a load for each byte.
fn alone(bytes: &[u8], at: usize, c: Column) -> i32
    requires { Formed c × (at + 64 ≤ 8 * length bytes.now) }
    ensures { result ≡ value_of (column_of c) (field bytes.now at c.width) }
{
    let front = window::eight(bytes, at / 8) >> 32;
    shape::value((front << (at % 8)) >> (32 - c.width), c)
}

// The value of a column that a row may have or not. One without bits reads no window: the compiler tests it outside the
// loop over rows, so that each kind of row has a loop of its own.
fn sole(bytes: &[u8], at: usize, c: Column) -> i32
    requires { Formed c × (at + 64 ≤ 8 * length bytes.now) }
    ensures { result ≡ value_of (column_of c) (field bytes.now at c.width) }
{
    if c.width == 0 {
        return ABSENT;
    }
    alone(bytes, at, c)
}

// Whether a row has a first column and no third.
fn paired(s: Shape) -> bool
    ensures { result ≡ (eqb s.v3.width 0 && ltb 0 s.v1.width) }
{
    s.v3.width == 0 && s.v1.width > 0
}

// A row of five columns: four values are cut from one window, moved so that the last of them is lowest, and the fifth
// from the window behind them.
pub fn wide(row: &mut [i32], key: Key, bytes: &[u8], at: usize, s: Shape)
    requires { (length row.old ≡ 8) × (at < 2 ^ 32) × FormedShape s × (at + 120 ≤ 8 * length bytes.now) }
    ensures { row.new ≡ key.system ∷ key.satellite ∷ key.signal ∷ values_at (columns_of s) bytes.now at }
{
    let second = s.v3.width + s.v4.width;
    let first = s.v2.width + second;
    let front = s.v1.width + first;
    let half = window::eight(bytes, at / 8) >> 1;
    let four = half >> (63 - at % 8 - front);
    let v = Values {
        v1: shape::value(four >> first, s.v1),
        v2: shape::value(four >> second, s.v2),
        v3: shape::value(four >> s.v4.width, s.v3),
        v4: shape::value(four, s.v4),
        v5: alone(bytes, at + front, s.v5),
    };
    store(row, key, v);
}

// A row of gaps.
fn gaps(row: &mut [i32], key: Key)
    requires { length row.old ≡ 8 }
    ensures { row.new ≡ key.system ∷ key.satellite ∷ key.signal ∷ absent ∷ absent ∷ absent ∷ absent ∷ absent ∷ [] }
{
    let v = Values {
        v1: ABSENT,
        v2: ABSENT,
        v3: ABSENT,
        v4: ABSENT,
        v5: ABSENT,
    };
    store(row, key, v);
}

// A row of three columns (document 02, Ask 1): cut from one window, moved down so that the third of them is lowest.
fn three(row: &mut [i32], key: Key, bytes: &[u8], at: usize, s: Shape)
    requires { (length row.old ≡ 8) × FormedShape s × Narrow s × (at + 64 ≤ 8 * length bytes.now) × (1 ≤ s.v1.width) }
    ensures { row.new ≡ key.system ∷ key.satellite ∷ key.signal ∷ values_at (columns_of s) bytes.now at }
{
    let first = s.v2.width + s.v3.width;
    let front = s.v1.width + first;
    let all = window::eight(bytes, at / 8) >> (64 - front - at % 8);
    let v = Values {
        v1: shape::value(all >> first, s.v1),
        v2: shape::value(all >> s.v3.width, s.v2),
        v3: shape::value(all, s.v3),
        v4: ABSENT,
        v5: ABSENT,
    };
    store(row, key, v);
}

// A row of a cell. Most have at most two columns, which are cut from one window moved up so that the first of them is
// highest. Three are those of a combined bias, whose widths the compiler knows here: such a row costs no more than one of
// two. A phase bias without a code bias is cut as any other row is.
pub fn cell(row: &mut [i32], key: Key, bytes: &[u8], at: usize, s: Shape)
    requires { (length row.old ≡ 8) × (at < 2 ^ 32) × FormedShape s × Narrow s × (at + 120 ≤ 8 * length bytes.now) }
    ensures { row.new ≡ key.system ∷ key.satellite ∷ key.signal ∷ values_at (columns_of s) bytes.now at }
{
    if paired(s) {
        let up = window::eight(bytes, at / 8) << (at % 8);
        let first = 64 - s.v1.width;
        let second = first - s.v2.width;
        let v = Values {
            v1: shape::value(up >> first, s.v1),
            v2: shape::value(up >> second, s.v2),
            v3: ABSENT,
            v4: ABSENT,
            v5: ABSENT,
        };
        store(row, key, v);
    } else if s.v1.width > 0 {
        three(row, key, bytes, at, shapes::both());
    } else if s.v3.width > 0 {
        wide(row, key, bytes, at, s);
    } else {
        gaps(row, key);
    }
}

// A row of gaps but for its first or its last column.
fn ends(row: &mut [i32], key: Key, bytes: &[u8], at: usize, s: Shape)
    requires { (length row.old ≡ 8) × FormedShape s × Laid s × (s.iode ≡ false) × (s.v2.width + s.v3.width ≡ 0) × (at + 64 ≤ 8 * length bytes.now) }
    ensures { row.new ≡ key.system ∷ key.satellite ∷ key.signal ∷ values_at (columns_of s) bytes.now at }
{
    let v = Values {
        v1: sole(bytes, at, s.v1),
        v2: ABSENT,
        v3: ABSENT,
        v4: ABSENT,
        v5: sole(bytes, at, s.v5),
    };
    store(row, key, v);
}

// A row of a satellite.
pub fn satellite(row: &mut [i32], system: u8, number: i32, bytes: &[u8], at: usize, s: Shape)
    requires { (length row.old ≡ 8) × (at < 2 ^ 32) × FormedShape s × Laid s × (at + 120 ≤ 8 * length bytes.now) }
    ensures { row.new ≡ pos system ∷ number ∷ absent ∷ values_at (columns_in s system) bytes.now at }
{
    let key = Key {
        system: system as i32,
        satellite: number,
        signal: ABSENT,
    };
    if s.iode {
        wide(
            row,
            key,
            bytes,
            at,
            shapes::orbit(shapes::iode(system), s.v5),
        );
    } else if s.v2.width + s.v3.width == 0 {
        ends(row, key, bytes, at, s);
    } else {
        wide(row, key, bytes, at, s);
    }
}

// The value of a column that a row may have or not, wherever the string ends.
fn tested(bytes: &[u8], at: usize, c: Column) -> i32
    requires { Formed c }
    ensures { result ≡ value_of (column_of c) (field bytes.now at c.width) }
{
    if c.width > 0 {
        return shape::value(read_field(bytes, at, c.width), c);
    }
    ABSENT
}

// A row as `wide` writes it, wherever the string ends.
fn anywhere(row: &mut [i32], key: Key, bytes: &[u8], at: usize, s: Shape)
    requires { (length row.old ≡ 8) × (at < 2 ^ 33) × FormedShape s }
    ensures { row.new ≡ key.system ∷ key.satellite ∷ key.signal ∷ values_at (columns_of s) bytes.now at }
{
    let second = s.v3.width + s.v4.width;
    let first = s.v2.width + second;
    let front = s.v1.width + first;
    let four = read_field(bytes, at, front);
    let v = Values {
        v1: shape::value(four >> first, s.v1),
        v2: shape::value(four >> second, s.v2),
        v3: shape::value(four >> s.v4.width, s.v3),
        v4: shape::value(four, s.v4),
        v5: tested(bytes, at + front, s.v5),
    };
    store(row, key, v);
}

// How many bits an IODE has, by a row's first key.
pub fn iode_by(system: i32) -> usize
    ensures { result ≡ iode_width (mag system) }
{
    if magnitude(system) == shapes::GALILEO as u64 {
        return shapes::iode(shapes::GALILEO);
    }
    shapes::iode(0)
}

// A shape as the rows of a system have it.
#[tactic(auto, unfolding(crate::specs::Shapes::shape_on), using(crate::proofs::Laid::iode_some))]
fn shape_in(s: Shape, system: i32) -> Shape
    ensures { result ≡ shape_on s (mag system) }
{
    if !s.iode {
        return s;
    }
    Shape {
        v1: shape::plain(iode_by(system)),
        ..s
    }
}

// The values of a row whose keys stand there, wherever the string ends; and the place behind them.
pub fn fill_in(row: &mut [i32], bytes: &[u8], at: usize, s: Shape) -> usize
    requires { (length row.old ≡ 8) × (at < 2 ^ 33) × FormedShape s }
    ensures value { result ≡ at + shape_width (columns_on s row.old) }
    ensures row_after { row.new ≡ valued_at s bytes.now at row.old }
{
    let key = Key {
        system: row[0],
        satellite: row[1],
        signal: row[2],
    };
    let own = shape_in(s, key.system);
    anywhere(row, key, bytes, at, own);
    at + shape::width(own)
}
