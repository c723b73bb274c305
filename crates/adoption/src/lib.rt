// A mask message, read into a holding that it makes (document 01, "Message layouts"), and adopted where it may follow what
// is held (document 02, Ask 2).
#![tactic(auto)]

pub mod cells;
pub mod grow;
pub mod settle;
pub mod spread;
pub mod stages;
pub mod systems;

ghost use Rattle.std.specs.Prelude.{◌≡◌, true, List, ℕ, ◌+◌};
ghost use Rattle.adoption.specs.Adoptions.{keeping, made, made_by, head_at};
ghost use Rattle.format.specs.Ends.{Within, end_from};
ghost use Rattle.adoption.specs.Stages.{after_common_head};
ghost use Rattle.format.specs.Messages.{common, mask_message};
ghost use Rattle.heads.specs.Fronts.{Opens, Opened};
ghost use Rattle.heads.specs.Heads.{Small, common_by};
ghost use Rattle.holding.specs.Outlines.{whole_of};
ghost use Rattle.holding.specs.Pictures.{sound};

use crate::systems::Before;
use bits::read::{Short, Widths, cut, read_field, short_by};
use format::{ABSENT, Head, Refusal};
use heads::{CommonHead, Front, front_at, heading, parted, taken};
use holding::{Holding, Outline};

// Where a mask message ends: at the place behind it, or refused, and how many bits were missing.
#[derive(Clone, Copy)]
pub enum Ending {
    Behind(usize),
    Refused(Refusal, usize),
}

// A mask message: where it ends, and what is held after it: what was, or what has this outline, whose masks and strips
// are left in what is lent for them. Its head is read where the message is answered (head_at): handed on from here it
// would lie in each frame on the way.
#[derive(Clone, Copy)]
pub struct Adoption {
    pub ending: Ending,
    pub kept: bool,
    pub outline: Outline,
}

// An ending that leaves what is held; the outline is then the empty one's.
fn keeping(ending: Ending) -> Adoption
    ensures { result ≡ keeping ending }
{
    let empty = Holding::empty();
    Adoption {
        ending,
        kept: true,
        outline: empty.outline(),
    }
}

// How many bits a mask message's common head and its number of systems have.
const COMMON: usize = heads::EPOCH + heads::AFTER_EPOCH;

const COUNT: usize = 4;

// How many bits of a number are above a front's.
const ABOVE: usize = 64 - heads::FRONT;

// The common head's fields, as a mask has it.
const HEAD: Widths = Widths {
    first: heads::EPOCH,
    second: heads::INTERVAL,
    third: heads::INDICATOR,
    fourth: heads::ISSUE,
};

// A mask message's common head, at its front: as heads::common, whose copy for the other sub types is one of its own for
// speed.
fn head(f: Front) -> Result<CommonHead, Short>
    requires { Opened f }
    ensures { (bs : List ℕ) → Opens bs f → result ≡ common_by (end_from (common 20) bs f.end f.start) }
{
    let Ok(n) = taken(f, 0, COMMON) else {
        let missing = short_by(HEAD, f.end - f.start);
        return Err(Short { missing });
    };
    Ok(parted(n))
}

// A mask message from its number of systems on.
fn after_head(
    held: Outline,
    h: CommonHead,
    f: Front,
    bytes: &[u8],
    satellites: &mut [u64; Holding::SYSTEMS],
    strips: &mut [u16; Holding::SATELLITES],
) -> Adoption
    requires { Small h × Within bytes.now f.end (f.start + 29) × Opens bytes.now f × (sound (whole_of held satellites.old strips.old) ≡ true) }
    ensures { made held result satellites.new strips.new ≡ made_by (whole_of held satellites.old strips.old) (end_from (after_common_head h) bytes.now f.end (f.start + 29)) }
{
    let taken = taken(f, COMMON, COUNT);
    match taken {
        Err(short) => keeping(Ending::Refused(Refusal::Short, short.missing)),
        Ok(n) => {
            let place = f.start + COMMON + COUNT;
            let before = Before {
                iod: h.iod as u8,
                systems: n as usize,
                place,
            };
            systems::all(held, before, bytes, f.end, satellites, strips)
        }
    }
}

// A mask message at the place behind its number and sub type, under what is held. Where it is accepted, its masks and
// strips are in the arrays lent; where it changed under the held number, they are those of the empty holding; at every other
// refusal they are as they were.
pub fn adopt(
    held: Outline,
    bytes: &[u8],
    end: usize,
    place: usize,
    satellites: &mut [u64; Holding::SYSTEMS],
    strips: &mut [u16; Holding::SATELLITES],
) -> Adoption
    requires { Within bytes.now end place × (sound (whole_of held satellites.old strips.old) ≡ true) }
    ensures { made held result satellites.new strips.new ≡ made_by (whole_of held satellites.old strips.old) (end_from mask_message bytes.now end place) }
{
    let f = front_at(bytes, end, place);
    match head(f) {
        Err(short) => keeping(Ending::Refused(Refusal::Short, short.missing)),
        Ok(h) => after_head(held, h, f, bytes, satellites, strips),
    }
}

// The head that a mask message says at the place behind its number and sub type, whether or not its bits are there. All
// of them lie in one front.
pub fn head_at(bytes: &[u8], place: usize) -> Head
    ensures { result ≡ head_at bytes.now place }
{
    let front = read_field(bytes, place, heads::FRONT);
    let h = parted(cut(front, ABOVE, COMMON));
    let n = cut(front, ABOVE + COMMON, COUNT);
    heading::head(table::MASK, h, n as i32, ABSENT, ABSENT)
}
