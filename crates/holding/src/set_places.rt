// The places that are set in a mask.
ghost use Rattle.std.specs.Prelude.{◌≡◌, ◌-◌, ◌<◌, ◌^◌};
ghost use Rattle.std.specs.Int.Count.{ones, count_leading_zeros};

// How many there are.
pub fn count(mask: u64) -> usize
    ensures { result ≡ ones mask }
{
    let n = u64::count_ones(mask);
    n as usize
}

// The first one of a mask whose place 0 is the highest bit of 64; 64 where none is set.
pub fn first(mask: u64) -> usize
    ensures { result ≡ count_leading_zeros 64 mask }
{
    let n = u64::leading_zeros(mask);
    n as usize
}

// The mask without its first place.
pub fn rest(mask: u64) -> u64
    requires { 0 < mask }
    ensures { result ≡ mask - 2 ^ (63 - count_leading_zeros 64 mask) }
{
    let place = first(mask);
    mask - (0x8000_0000_0000_0000u64 >> place)
}
