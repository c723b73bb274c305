// A mask that all tests but the last have passed, and what is held (document 02, Ask 2).
ghost use Rattle.std.specs.Prelude.{◌≡◌};
ghost use Rattle.adoption.specs.Adoptions.{made, settled_by};
ghost use Rattle.holding.specs.Outlines.{whole_of};

use crate::{Adoption, Ending, keeping};
use format::Refusal;
use holding::same::same;
use holding::{Holding, Outline};

// What the message says: the place after it, and the outline of the holding that it makes.
#[derive(Clone, Copy)]
pub struct Offer {
    pub next: usize,
    pub outline: Outline,
}

// Adopts it where it may follow what is held: its masks and strips then stand where the old ones did, and where it is the
// mask that is held they stand there already. Another mask under the held number means a missed turn of the counter or a
// sender's error: it is refused, and what is held is dropped, so that the next mask is taken.
pub fn settled(
    held: Outline,
    offer: Offer,
    masks: &[u64; Holding::SYSTEMS],
    cells: &[u16; Holding::SATELLITES],
    satellites: &mut [u64; Holding::SYSTEMS],
    strips: &mut [u16; Holding::SATELLITES],
) -> Adoption
    ensures { made held result satellites.new strips.new ≡ settled_by (whole_of held satellites.old strips.old) offer masks.now cells.now }
{
    let new = offer.outline;
    let ending = Ending::Behind(offer.next);
    if !held.held || new.iod != held.iod {
        *satellites = *masks;
        *strips = *cells;
        return Adoption {
            ending,
            kept: false,
            outline: new,
        };
    }
    if same(held, satellites, strips, new, masks, cells) {
        return keeping(ending);
    }
    *satellites = [0; Holding::SYSTEMS];
    *strips = [0; Holding::SATELLITES];
    let empty = Holding::empty();
    Adoption {
        ending: Ending::Refused(Refusal::Changed, 0),
        kept: false,
        outline: empty.outline(),
    }
}
