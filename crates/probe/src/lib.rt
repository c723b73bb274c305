// Crate bits for C: each function takes every number there is, and refuses what crate bits asks its
// callers to have tested. tests/fields.c compares these with a bit-by-bit program, bench/ counts them.
#![tactic(auto)]

ghost use Rattle.std.specs.Prelude.{◌≡◌, ◌-◌, eqb, length};
ghost use Rattle.bits.specs.Places.{field};
ghost use Rattle.probe.specs.Probes.{read_or, writable, written_or, bits_or};

// All ones: no number.
const NONE: u64 = u64::MAX;

// The number in w bits at a place; all ones, which no field of 56 bits or fewer is, for a wider one.
// The width comes before the place, which leaves x86-64 fewer moves.
pub fn hundurzek_read_field(bytes: &[u8], w: usize, place: usize) -> u64
    ensures { result ≡ read_or bytes.now place w }
{
    if w <= 56 {
        bits::read::read_field(bytes, place, w)
    } else {
        NONE
    }
}

// Whether a field and its number can be written into a part of so many bytes.
fn can_write(count: usize, skip: usize, w: usize, value: u64) -> bool
    ensures { result ≡ writable count skip w value }
{
    skip < 8 && w <= 56 && (skip + w).div_ceil(8) <= count && value < 1u64 << w
}

// Sets w bits after the first skip to a number; false, and nothing changed, where that cannot be.
pub fn hundurzek_write_field(part: &mut [u8], skip: usize, w: usize, value: u64) -> bool
    ensures value { result ≡ writable (length part.old) skip w value }
    ensures part_after { part.new ≡ written_or part.old skip w value }
{
    let can = can_write(part.len(), skip, w, value);
    if can {
        bits::write::write_field(part, skip, w, value);
    }
    can
}

// Whether every bit from a place to the end is zero.
pub fn hundurzek_zero_from(bytes: &[u8], end: usize, place: usize) -> bool
    ensures { result ≡ eqb (field bytes.now place (end - place)) 0 }
{
    bits::rest::zero_from(bytes, end, place)
}

// The w bits that mean an integer; all ones where the width is not from 1 to 32 or they cannot.
pub fn hundurzek_from_signed(z: i32, w: usize) -> u64
    ensures { result ≡ bits_or z w }
{
    if (1..=32).contains(&w) && bits::signed::in_range(z, w) {
        bits::signed::from_signed(z, w)
    } else {
        NONE
    }
}
