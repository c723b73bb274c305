// How many bits the rows of a body have, told by the rows before any of them is put out.
ghost use Rattle.std.specs.Prelude.{◌≡◌, ◌+◌, ◌*◌, ◌≤◌, length};
ghost use Rattle.format.specs.Messages.{iode_width};
ghost use Rattle.format.specs.Writing.{rows_in};
ghost use Rattle.pens.specs.Pens.{spell_fields};
ghost use Rattle.putting.specs.Putting.{system_of, row_fields};
ghost use Rattle.putting.specs.Sizes.{iode_bits, Sized};

use crate::row::{GALILEO, ROW};
use rows::shape;
use rows::shape::Shape;

// How many bits more than most systems' a system's IODE has: a number, not a branch, so that a loop can add it up.
fn longer(system: i32) -> usize
    ensures system_value { iode_width (system_of system) ≡ 8 + result }
    ensures upper_bound { result ≤ 2 }
{
    if system == GALILEO { 2 } else { 0 }
}

// How many more the IODEs of so many rows have together.
fn longer_in(rows: &[i32], count: usize) -> usize
    requires { (8 * count ≤ length rows.now) × (count ≤ 256) }
    ensures rows_value { iode_bits (rows_in count rows.now) ≡ 8 * count + result }
    ensures upper_bound { result ≤ 512 }
{
    let mut more = 0;
    let mut i = 0;
    while i < count {
        more += longer(rows[ROW * i]);
        i += 1;
    }
    more
}

// As many as their shape says each, and two more for each of Galileo's where an IODE is in them.
pub fn row_bits(s: Shape, rows: &[i32], count: usize) -> usize
    requires { Sized s rows.now count }
    ensures { result ≡ length (spell_fields (row_fields s (rows_in count rows.now))) }
{
    let plain = count * shape::width(s);
    if !s.iode {
        return plain;
    }
    plain + longer_in(rows, count)
}
