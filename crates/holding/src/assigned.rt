// Assigned places (document 01, "Held mask and assigned places"): two tables by GNSS ID, and one rule over them.
ghost use Rattle.std.specs.Prelude.{◌≡◌, suc, ◌^◌, ◌≤◌, ◌<◌, drop, get_or};
ghost use Rattle.bits.specs.BitLists.{spell};
ghost use Rattle.format.specs.Assigned.{satellite_places, signal_places, blank, assigned};
ghost use Rattle.holding.specs.Assigning.{places_of};

use crate::Holding;

// The highest assigned place of each system. Numbers of their own, which the compiler sees in each test: an array would be
// laid out anew for each.
#[derive(Clone, Copy)]
struct Places {
    gps: usize,
    glonass: usize,
    galileo: usize,
    beidou: usize,
    qzss: usize,
}

const SATELLITE_PLACES: Places = Places {
    gps: 39,
    glonass: 23,
    galileo: 36,
    beidou: 39,
    qzss: 9,
};

const SIGNAL_PLACES: Places = Places {
    gps: 13,
    glonass: 12,
    galileo: 14,
    beidou: 8,
    qzss: 9,
};

// By GNSS ID.
fn highest(places: Places, id: usize) -> usize
    requires { id < 5 }
    ensures { result ≡ get_or (places_of places) id 0 }
{
    match id {
        0 => places.gps,
        1 => places.glonass,
        2 => places.galileo,
        3 => places.beidou,
        _ => places.qzss,
    }
}

// Whether no bit of a mask of w bits is set past a place.
fn ends_by(mask: u64, w: usize, highest: usize) -> bool
    requires { (highest < w) × (w ≤ 40) × (mask < 2 ^ w) }
    ensures { result ≡ blank (drop (suc highest) (spell w mask)) }
{
    let free = w - 1 - highest;
    mask % (1u64 << free) == 0
}

pub fn satellites_assigned(id: usize, mask: u64) -> bool
    requires { (id < 5) × (mask < 2 ^ 40) }
    ensures { result ≡ assigned satellite_places id (spell 40 mask) }
{
    let last = highest(SATELLITE_PLACES, id);
    ends_by(mask, Holding::SATELLITE_MASK, last)
}

pub fn signals_assigned(id: usize, mask: u64) -> bool
    requires { (id < 5) × (mask < 2 ^ 16) }
    ensures { result ≡ assigned signal_places id (spell 16 mask) }
{
    let last = highest(SIGNAL_PLACES, id);
    ends_by(mask, Holding::SIGNAL_MASK, last)
}
