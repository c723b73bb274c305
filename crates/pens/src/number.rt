// A number of a head: its 32 bits, and the tests of them.
ghost use Rattle.std.specs.Prelude.{◌≡◌, ◌^◌, ◌≤◌, ◌<◌, pos};
ghost use Rattle.format.specs.Rows.{absent};
ghost use Rattle.format.specs.Same.{sameℤ};
ghost use Rattle.fitting.specs.FitHeads.{number_fits};
ghost use Rattle.pens.specs.Numbers.{word_of};

use bits::signed::from_signed;

// How many bits a number of a head has.
const BITS: usize = 32;

// Those of an absent number, -32768.
const ABSENT_WORD: u64 = 0xffff_8000;

// Its bits: a number that is not negative is what they say.
pub fn word(v: i32) -> u64
    ensures value { result ≡ word_of v }
    ensures upper_bound { result < 2 ^ 32 }
{
    from_signed(v, BITS)
}

// Whether it is a number of w bits.
pub fn fits(v: i32, w: usize) -> bool
    requires { w ≤ 31 }
    ensures { result ≡ number_fits w v }
{
    word(v) < (1u64 << w)
}

// Whether it isn't there.
pub fn is_absent(v: i32) -> bool
    ensures { result ≡ sameℤ v absent }
{
    word(v) == ABSENT_WORD
}

// Whether it is this number.
pub fn is(v: i32, n: u64) -> bool
    requires { n ≤ 255 }
    ensures { result ≡ sameℤ v (pos n) }
{
    word(v) == n
}
