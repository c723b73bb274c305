// One satellite's strip from its part of a cell mask: the last four bits by a table that the signal mask alone fixes, the
// others one by one.
ghost use Rattle.std.specs.Prelude.{◌≡◌, ◌≤◌};
ghost use Rattle.std.specs.Int.Count.{ones};
ghost use Rattle.adoption.specs.Spreading.{without_last, ByFour};
ghost use Rattle.bits.specs.BitLists.{number, spell};
ghost use Rattle.holding.specs.Spread.{spread};

// A mask without its last place; 0 where it has none.
fn without_last(mask: u16) -> u16
    ensures value { result ≡ without_last mask }
    ensures upper_bound { result ≤ mask }
{
    if mask == 0 {
        return 0;
    }
    mask & (mask - 1)
}

// The strips that four bits make at a mask's last four places, by the number that the bits are; the mask without those
// places.
#[derive(Clone, Copy)]
pub struct Four {
    pub strips: [u16; 16],
    pub rest: u16,
}

pub fn last_four(mask: u16) -> Four
    ensures { ByFour mask result.strips result.rest }
{
    let second = without_last(mask);
    let third = without_last(second);
    let fourth = without_last(third);
    let rest = without_last(fourth);
    let a = mask - second;
    let b = second - third;
    let c = third - fourth;
    let d = fourth - rest;
    let ab = a + b;
    let cd = c + d;
    let strips = [
        0,
        a,
        b,
        ab,
        c,
        a + c,
        b + c,
        ab + c,
        d,
        a + d,
        b + d,
        ab + d,
        cd,
        a + cd,
        b + cd,
        ab + cd,
    ];
    Four { strips, rest }
}

// The low bits, as many as the signal mask has places set, at those places: the last bit at the last place, and so
// up to the first.
pub fn spread_strip(signals: u16, bits: u64) -> u16
    ensures { result ≡ number (spread (spell 16 signals) (spell (ones signals) bits)) }
{
    let mut left = signals as u64;
    let mut more = bits;
    let mut strip: u64 = 0;
    while left != 0 {
        let next = left & (left - 1);
        strip += (left - next) * (more % 2);
        more /= 2;
        left = next;
    }
    strip as u16
}
