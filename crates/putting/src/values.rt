// The values of a row as fields for a pen (document 01, "Message layouts"): the first four together, which fit one
// setting, and the fifth.
ghost use Rattle.std.specs.Prelude.{◌≡◌, true, ◌+◌, ◌-◌, ◌*◌, ◌^◌, ◌<◌};
ghost use Rattle.bits.specs.Signed.{unsigned};
ghost use Rattle.rows.specs.Shapes.{column_of, Formed};
ghost use Rattle.fitting.specs.Fits.{column_fits};
ghost use Rattle.putting.specs.Putting.{front_field, last_field, Valued, pairs};

use crate::column::column_bits;
use pens::pen::Field;
use rows::shape::{Column, Shape};

// Bits, and those of one value more behind them.
fn with(bits: u64, v: i32, c: Column) -> u64
    requires { (bits < 2 ^ (56 - c.width)) × Formed c × (column_fits (column_of c) v ≡ true) }
    ensures { result ≡ bits * 2 ^ c.width + unsigned c.width v }
{
    (bits << c.width) + column_bits(v, c)
}

// The bits of the first four values, together.
fn four(row: &[i32], s: Shape) -> u64
    requires { Valued s row.now }
    ensures { result ≡ (front_field s row.now).value }
{
    let v1 = column_bits(row[3], s.v1);
    let v2 = with(v1, row[4], s.v2);
    let v3 = with(v2, row[5], s.v3);
    with(v3, row[6], s.v4)
}

// The first four values.
pub fn front(row: &[i32], s: Shape) -> Field
    requires { Valued s row.now }
    ensures { result ≡ front_field s row.now }
{
    Field {
        width: s.v1.width + (s.v2.width + s.v3.width + s.v4.width),
        value: four(row, s),
    }
}

// The same where two of them are gaps.
pub fn pair(row: &[i32], s: Shape) -> Field
    requires { (pairs s ≡ true) × Valued s row.now }
    ensures { result ≡ front_field s row.now }
{
    Field {
        width: s.v1.width + s.v2.width,
        value: with(column_bits(row[3], s.v1), row[4], s.v2),
    }
}

// The fifth value.
pub fn last(row: &[i32], s: Shape) -> Field
    requires { Valued s row.now }
    ensures { result ≡ last_field s row.now }
{
    Field {
        width: s.v5.width,
        value: column_bits(row[7], s.v5),
    }
}
