// The test of a lent holding, slot by slot and strip by strip (specs/Testing.antt).
ghost use Rattle.std.specs.Prelude.{◌≡◌, true, cond, ◌&&◌, [], ◌-◌, ◌≤◌, ◌<◌, eqb, leb, ltb, length, get_or, take, drop};
ghost use Rattle.holding.specs.Building.{ones_in};
ghost use Rattle.holding.specs.Testing.{masks_fit, slot_fits, empty_slots, empty_strips, slots_fit};

use crate::{Holding, assigned, cells_in, named, set_places, strips_empty, strips_fit};

// The least number that has more bits than a satellite mask.
const WIDER: u64 = 1u64 << Holding::SATELLITE_MASK;

// Whether the issue is one: of 4 bits where a mask is held, and none, without a system, where nothing is.
pub fn issue_fits(held: bool, iod: u8, count: usize) -> bool
    ensures { result ≡ cond held (ltb iod 16) (eqb iod 0 && eqb count 0) }
{
    if held {
        return iod < 16;
    }
    if iod != 0 {
        return false;
    }
    count == 0
}

// Whether a slot's masks fit after n satellites.
fn masks_fit(n: usize, id: usize, satellites: u64, signals: u16) -> bool
    requires { (id < 5) × (n ≤ 64) }
    ensures { result ≡ masks_fit n id satellites signals }
{
    if satellites >= WIDER {
        return false;
    }
    if !assigned::satellites_assigned(id, satellites) {
        return false;
    }
    if n + set_places::count(satellites) > Holding::SATELLITES {
        return false;
    }
    assigned::signals_assigned(id, signals as u64)
}

// Whether no slot from one on is used: gathered by width, the last slot first, and tested once.
fn slots_empty(ids: &[u8], satellites: &[u64], signals: &[u16], flags: &[bool], from: usize) -> bool
    requires { (from ≤ length ids.now) × (length satellites.now ≡ length ids.now) × (length signals.now ≡ length ids.now) × (length flags.now ≡ length ids.now) }
    ensures { result ≡ empty_slots (length ids.now - from) (drop from ids.now) (drop from satellites.now) (drop from signals.now) (drop from flags.now) }
{
    let mut wide = 0u64;
    let mut half = 0u16;
    let mut thin = 0u8;
    let mut i = ids.len();
    while i > from {
        i -= 1;
        wide |= satellites[i];
        half |= signals[i];
        thin |= ids[i] | (flags[i] as u8);
    }
    wide | ((half as u64) | (thin as u64)) == 0
}

// What a slot says of its system beside the ID.
#[derive(Clone, Copy)]
struct Slot {
    satellites: u64,
    signals: u16,
    flag: bool,
}

// Whether a slot fits after n satellites, its strips being those from the n-th on.
fn slot_fits(ids: &[u8], i: usize, n: usize, slot: Slot, strips: &[u16]) -> bool
    requires { (i < length ids.now) × (n ≤ 64) × (length strips.now ≡ 64) }
    ensures { result ≡ slot_fits (take i ids.now) n (get_or ids.now i 0) slot.satellites slot.signals slot.flag (drop n strips.now) }
{
    let id = ids[i];
    if id as usize >= Holding::SYSTEMS {
        return false;
    }
    if named::named_in(ids, i, id) {
        return false;
    }
    if !masks_fit(n, id as usize, slot.satellites, slot.signals) {
        return false;
    }
    let to = n + set_places::count(slot.satellites);
    strips_fit::strips_fit(strips, n, to, slot.signals, slot.flag)
}

// Whether the cells of n satellites, behind whose strips none is used, are that many and no more than 256.
fn cells_fit(strips: &[u16], n: usize, ncell: usize) -> bool
    requires { (length strips.now ≡ 64) × (n ≤ 64) × (empty_strips (drop n strips.now) ≡ true) }
    ensures { result ≡ (leb (ones_in (take n strips.now)) 256 && eqb (ones_in (take n strips.now)) ncell) }
{
    let cells = cells_in::cells_in(strips, n);
    if cells > Holding::CELLS {
        return false;
    }
    cells == ncell
}

// Whether count slots are used, which fit one after the other, the counts of satellites and cells are theirs, and
// nothing else is used.
pub fn slots_fit(
    ids: &[u8],
    satellites: &[u64],
    signals: &[u16],
    flags: &[bool],
    strips: &[u16],
    count: usize,
    nsat: usize,
    ncell: usize,
) -> bool
    requires { (length ids.now ≡ 5) × (length satellites.now ≡ 5) × (length signals.now ≡ 5) × (length flags.now ≡ 5) × (length strips.now ≡ 64) × (count ≤ 5) }
    ensures { result ≡ slots_fit nsat ncell count [] 0 0 ids.now satellites.now signals.now flags.now strips.now }
{
    let mut i = 0;
    let mut n = 0;
    while i < count {
        let slot = Slot {
            satellites: satellites[i],
            signals: signals[i],
            flag: flags[i],
        };
        if !slot_fits(ids, i, n, slot, strips) {
            return false;
        }
        n += set_places::count(satellites[i]);
        i += 1;
    }
    if n != nsat {
        return false;
    }
    if !slots_empty(ids, satellites, signals, flags, count) {
        return false;
    }
    if !strips_empty::strips_empty(strips, n) {
        return false;
    }
    cells_fit(strips, n, ncell)
}
