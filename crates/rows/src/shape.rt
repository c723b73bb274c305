// Columns and shapes of a row (document 01, "Message layouts" and "What is handed out").
ghost use Rattle.std.specs.Prelude.{◌≡◌, ◌%◌, ◌^◌, ◌≤◌, ◌<◌};
ghost use Rattle.format.specs.Rows.{gap, plain, counts, value_of, shape_width};
ghost use Rattle.rows.specs.Shapes.{column_for, column_of, columns_of, Formed, FormedShape};

use format::ABSENT;

// A column of v1 to v5, as the numbers that turn bits into its value: nothing, a number, or two's complement. Of 32
// bits each, since what they make has 32: a loop's machine code then adds and masks with them where they lie.
#[derive(Clone, Copy)]
pub struct Column {
    pub width: usize,
    pub half: u32,
    pub mask: u32,
}

// Five columns. Where `iode` is set the first is an IODE, whose width goes by the row's system (8 bits, 10 for
// Galileo): the rest of the shape holds for all of them.
#[derive(Clone, Copy)]
pub struct Shape {
    pub iode: bool,
    pub v1: Column,
    pub v2: Column,
    pub v3: Column,
    pub v4: Column,
    pub v5: Column,
}

// Of no bits the value is half less than 0, which is what stands for an absent one.
pub fn gap() -> Column
    ensures { result ≡ column_for gap }
{
    Column {
        width: 0,
        half: -ABSENT as u32,
        mask: 0,
    }
}

pub fn plain(w: usize) -> Column
    requires { (1 ≤ w) × (w ≤ 15) }
    ensures { result ≡ column_for (plain w) }
{
    Column {
        width: w,
        half: 0,
        mask: (1u32 << w) - 1,
    }
}

pub fn counts(w: usize) -> Column
    requires { (1 ≤ w) × (w ≤ 15) }
    ensures { result ≡ column_for (counts w) }
{
    Column {
        half: 1u32 << (w - 1),
        ..plain(w)
    }
}

// The value of a column whose bits are the low ones of a number.
pub fn value(x: u64, c: Column) -> i32
    requires { (x < 2 ^ 63) × Formed c }
    ensures { result ≡ value_of (column_of c) (x % 2 ^ c.width) }
{
    let y = (x + (c.half as u64)) & (c.mask as u64);
    (y as i32) - (c.half as i32)
}

// How many bits a row has.
pub fn width(s: Shape) -> usize
    requires { FormedShape s }
    ensures { result ≡ shape_width (columns_of s) }
{
    s.v1.width + s.v2.width + s.v3.width + s.v4.width + s.v5.width
}
