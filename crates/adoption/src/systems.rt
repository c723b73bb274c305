// The systems of a mask message, one after the other, read into the one holding that they make.
ghost use Rattle.std.specs.Prelude.{◌≡◌, true, [], ◌≤◌, ◌<◌, length, take};
ghost use Rattle.adoption.specs.Adoptions.{made, made_by};
ghost use Rattle.adoption.specs.Stages.{untested, end_system, FitsSystem, with_systems};
ghost use Rattle.format.specs.declared.Head.{Head};
ghost use Rattle.format.specs.Ends.{Within, end_from};
ghost use Rattle.holding.specs.Outlines.{whole_of};
ghost use Rattle.holding.specs.Pictures.{sound};

use crate::cells::{Masks, System};
use crate::settle::{Offer, settled};
use crate::stages::{Masked, Named};
use crate::{Adoption, Ending, cells, grow, keeping, stages};
use format::Refusal;
use heads::front_at;
use holding::{Holding, Outline, set_places};

// The system at a place up to its cells, after count others with nsat satellites.
fn read_system(
    ids: &[u8],
    count: usize,
    nsat: usize,
    bytes: &[u8],
    end: usize,
    place: usize,
) -> System
    requires { (count ≤ length ids.now) × (nsat ≤ 64) × Within bytes.now end place }
    ensures result_value { end_system bytes.now result ≡ end_from (untested (take count ids.now) nsat) bytes.now end place }
    ensures fits_system { FitsSystem nsat result }
{
    let f = front_at(bytes, end, place);
    match stages::read_id(ids, count, f) {
        Named::Refused(r, missing) => System::Refused(r, missing),
        Named::Fine(id) => match stages::read_masks(nsat, id, f, bytes) {
            Masked::Refused(r, missing) => System::Refused(r, missing),
            Masked::Fine(satellites, signals, next) => {
                let masks = Masks {
                    id,
                    satellites,
                    signals,
                };
                cells::read_flag(masks, next)
            }
        },
    }
}

// What a mask message says before its systems: the issue, how many there are, and the place of the first.
#[derive(Clone, Copy)]
pub struct Before {
    pub iod: u8,
    pub systems: usize,
    pub place: usize,
}

// The systems from a place on, and the message that they end. The holding that they make is written out here and changed in
// place: each function that it went through by value would be a copy. The test of 256 cells comes after the cell mask, or
// after a zero flag (document 01, "Reader's order"). Whatever the head is, the message ends at the same place and makes
// the same holding.
pub fn all(
    held: Outline,
    before: Before,
    bytes: &[u8],
    end: usize,
    satellites: &mut [u64; Holding::SYSTEMS],
    strips: &mut [u16; Holding::SATELLITES],
) -> Adoption
    requires { (before.iod < 16) × Within bytes.now end before.place × (sound (whole_of held satellites.old strips.old) ≡ true) }
    ensures { (head : Head) → made held result satellites.new strips.new ≡ made_by (whole_of held satellites.old strips.old) (end_from (with_systems head before.systems (record { iod = before.iod; systems = [] })) bytes.now end before.place) }
{
    let n = before.systems;
    let mut next = before.place;
    let mut h = Holding {
        held: true,
        iod: before.iod,
        count: 0,
        ids: [0; Holding::SYSTEMS],
        satellites: [0; Holding::SYSTEMS],
        signals: [0; Holding::SYSTEMS],
        flags: [false; Holding::SYSTEMS],
        strips: [0; Holding::SATELLITES],
        nsat: 0,
        ncell: 0,
    };
    while (h.count as usize) < n {
        let i = h.count as usize;
        let first = h.nsat as usize;
        match read_system(&h.ids, i, first, bytes, end, next) {
            System::Refused(r, missing) => return keeping(Ending::Refused(r, missing)),
            System::Fine(m, flag, from) => {
                h.ncell += grow::strips(&mut h.strips, first, m, flag, bytes, from);
                if h.ncell > Holding::CELLS {
                    return keeping(Ending::Refused(Refusal::Size, 0));
                }
                h.nsat = (first + set_places::count(m.satellites)) as u8;
                h.ids[i] = m.id;
                h.satellites[i] = m.satellites;
                h.signals[i] = m.signals;
                h.flags[i] = flag;
                h.count = (i + 1) as u8;
                next = from + cells::width(m, flag);
            }
        }
    }
    let outline = h.outline();
    let offer = Offer { next, outline };
    let masks = h.satellites;
    let cells = h.strips;
    settled(held, offer, &masks, &cells, satellites, strips)
}
