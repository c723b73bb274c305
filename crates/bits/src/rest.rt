// The rest of a string.
ghost use Rattle.std.specs.Prelude.{◌≡◌, ◌-◌, min, eqb};
ghost use Rattle.bits.specs.Places.{field};

use crate::read::{bits_left, read_field};

// As many bits as one reading takes.
fn stride(left: usize) -> usize
    ensures { result ≡ min left 56 }
{
    if left < 56 { left } else { 56 }
}

// Whether every bit from a place to the end is zero: whether the number in them is.
pub fn zero_from(bytes: &[u8], end: usize, place: usize) -> bool
    ensures { result ≡ eqb (field bytes.now place (end - place)) 0 }
{
    let mut at = place;
    while at < end {
        let w = stride(bits_left(end, at));
        if read_field(bytes, at, w) != 0 {
            return false;
        }
        at += w;
    }
    true
}
