// A value as the bits of its column (document 01, "Message layouts"): the way back from rows::shape::value.
ghost use Rattle.std.specs.Prelude.{◌≡◌, true};
ghost use Rattle.bits.specs.Signed.{unsigned};
ghost use Rattle.rows.specs.Shapes.{column_of, Formed};
ghost use Rattle.fitting.specs.Fits.{column_fits};

use rows::shape::Column;

// The bits of a value that fits its column, as a number. Half of what the column can mean is added twice: a count below
// zero comes out that much below 2 ^ width, one from zero on that much above it, and an absent value's bits are none.
pub fn column_bits(v: i32, c: Column) -> u64
    requires { Formed c × (column_fits (column_of c) v ≡ true) }
    ensures { result ≡ unsigned c.width v }
{
    let raised = (v + (c.half as i32)) as u32;
    ((raised + c.half) & c.mask) as u64
}
