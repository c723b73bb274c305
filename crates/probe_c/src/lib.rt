// What C calls of crate `probe` (include/probe.h): each function has the clauses of the one that it calls.
#![tactic(auto)]

ghost use Rattle.std.specs.Prelude.{◌≡◌, ◌-◌, eqb, length};
ghost use Rattle.bits.specs.Places.{field};
ghost use Rattle.probe.specs.Probes.{read_or, writable, written_or, bits_or};

// The number in w bits at a place.
#[unsafe(no_mangle)]
pub extern "C" fn hundurzek_read_field(bytes: &[u8], w: usize, place: usize) -> u64
    ensures { result ≡ read_or bytes.now place w }
{
    probe::hundurzek_read_field(bytes, w, place)
}

// Sets w bits after the first skip to a number.
#[unsafe(no_mangle)]
pub extern "C" fn hundurzek_write_field(part: &mut [u8], skip: usize, w: usize, value: u64) -> bool
    ensures value { result ≡ writable (length part.old) skip w value }
    ensures part_after { part.new ≡ written_or part.old skip w value }
{
    probe::hundurzek_write_field(part, skip, w, value)
}

// Whether every bit from a place to the end is zero.
#[unsafe(no_mangle)]
pub extern "C" fn hundurzek_zero_from(bytes: &[u8], end: usize, place: usize) -> bool
    ensures { result ≡ eqb (field bytes.now place (end - place)) 0 }
{
    probe::hundurzek_zero_from(bytes, end, place)
}

// The w bits that mean an integer.
#[unsafe(no_mangle)]
pub extern "C" fn hundurzek_from_signed(z: i32, w: usize) -> u64
    ensures { result ≡ bits_or z w }
{
    probe::hundurzek_from_signed(z, w)
}
