// What opens a message: its number and sub type, and the head that all but a packet's part share (document 01,
// "Message layouts").
#![tactic(auto)]

pub mod heading;

ghost use Rattle.std.specs.Prelude.{◌≡◌, List, ℕ, ◌+◌, ◌≤◌, ◌<◌};
ghost use Rattle.bits.specs.Places.{field};
ghost use Rattle.bits.specs.Short.{taken_at};
ghost use Rattle.format.specs.Ends.{end_from};
ghost use Rattle.format.specs.Messages as Messages;
ghost use Rattle.format.specs.Table as Table;
ghost use Rattle.heads.specs.Fronts.{front_at, Opens, Opened};
ghost use Rattle.heads.specs.Heads.{opening_by, head_from, common_by};

use bits::read::{Short, Widths, cut, read_field, short_by};
use format::Refusal;

// The number that is ours; how many bits it and the sub type have, and how many sub types those can say.
const MESSAGE: u64 = 4073;

const NUMBER: usize = 12;

const SUB_TYPE: usize = 4;

const SUB_TYPES: u64 = 16;

pub const OPENING: usize = NUMBER + SUB_TYPE;

// The epoch's width: a mask's, and the hourly one of all others.
pub const EPOCH: usize = 20;

const HOURLY: usize = 12;

// The widths of what follows the epoch in a common head, and how many bits these are.
pub const INTERVAL: usize = 4;

pub const INDICATOR: usize = 1;

pub const ISSUE: usize = 4;

pub const AFTER_EPOCH: usize = INTERVAL + INDICATOR + ISSUE;

// The first bits of a message, where its stretch ends and where it starts. All fields before a selection lie in these
// bits: they are read once, and each field is cut from them.
#[derive(Clone, Copy)]
pub struct Front {
    pub bits: u64,
    pub end: usize,
    pub start: usize,
}

// How many they are: as many as one reading takes; and how many bits of a number are above them.
pub const FRONT: usize = 56;

const ABOVE: usize = 64 - FRONT;

// The front at a place, whether or not the string has all of its bits: those past its end are zero.
pub fn front_at(bytes: &[u8], end: usize, start: usize) -> Front
    ensures { result ≡ front_at bytes.now end start }
{
    Front {
        bits: read_field(bytes, start, FRONT),
        end,
        start,
    }
}

// The w bits behind the first ones of a front, whether or not the stretch has them.
fn within(f: Front, first: usize, w: usize) -> u64
    requires { Opened f × (first + w < 56) }
    ensures { (bs : List ℕ) → Opens bs f → result ≡ field bs (f.start + first) w }
{
    cut(f.bits, ABOVE + first, w)
}

// The same w bits, or how many of them lie past the stretch's end.
pub fn taken(f: Front, first: usize, w: usize) -> Result<u64, Short>
    requires { Opened f × (first + w < 56) × (f.start + first ≤ f.end) }
    ensures { (bs : List ℕ) → Opens bs f → result ≡ taken_at bs f.end (f.start + first) w }
{
    let left = f.end - f.start;
    if left < first + w {
        let missing = first + w - left;
        return Err(Short { missing });
    }
    Ok(within(f, first, w))
}

// The sub type, or the refusal and how many bits were missing.
#[derive(Clone, Copy)]
pub enum Opening {
    SubType(usize),
    Refused(Refusal, usize),
}

// Both fields are cut at once, whether or not the second is there, and then parted.
pub fn open(f: Front) -> Opening
    requires { Opened f × (f.start ≤ f.end) }
    ensures { (bs : List ℕ) → Opens bs f → result ≡ opening_by (end_from Table.opening bs f.end f.start) }
{
    let left = f.end - f.start;
    if left < NUMBER {
        return Opening::Refused(Refusal::Short, NUMBER - left);
    }
    let both = within(f, 0, OPENING);
    if both / SUB_TYPES != MESSAGE {
        return Opening::Refused(Refusal::Number, 0);
    }
    if left < OPENING {
        return Opening::Refused(Refusal::Short, OPENING - left);
    }
    Opening::SubType((both % SUB_TYPES) as usize)
}

// Epoch, interval, indicator and IOD SSR.
#[derive(Clone, Copy)]
pub struct CommonHead {
    pub epoch: u64,
    pub interval: u64,
    pub indicator: u64,
    pub iod: u64,
}

// Its fields, parted from one number.
pub fn parted(n: u64) -> CommonHead
    ensures { result ≡ head_from n }
{
    CommonHead {
        epoch: n / 512,
        interval: n / 32 % 16,
        indicator: n / 16 % 2,
        iod: n % 16,
    }
}

// Its fields, as all but a mask have it, how many bits these are, and where it ends from the message's start on.
const HEAD: Widths = Widths {
    first: HOURLY,
    second: INTERVAL,
    third: INDICATOR,
    fourth: ISSUE,
};

const HEAD_BITS: usize = HOURLY + AFTER_EPOCH;

pub const HEADED: usize = OPENING + HEAD_BITS;

// The common head with an hourly epoch, behind the opening; or how many bits of its first short field are missing. Its
// fields are cut at once, and which of them is short is asked only where one is.
pub fn common(f: Front) -> Result<CommonHead, Short>
    requires { Opened f × (f.start + 16 ≤ f.end) }
    ensures { (bs : List ℕ) → Opens bs f → result ≡ common_by (end_from (Messages.common 12) bs f.end (f.start + 16)) }
{
    let Ok(n) = taken(f, OPENING, HEAD_BITS) else {
        let missing = short_by(HEAD, f.end - (f.start + OPENING));
        return Err(Short { missing });
    };
    Ok(parted(n))
}
