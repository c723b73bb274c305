// One system of a mask message up to its cells: its ID, then its masks, each refused at its point (document 01,
// "Reader's order").
ghost use Rattle.std.specs.Prelude.{◌≡◌, List, ℕ, ◌+◌, ◌^◌, ◌≤◌, ◌<◌, length, take};
ghost use Rattle.format.specs.Ends.{Within, end_from};
ghost use Rattle.adoption.specs.Stages.{end_named, end_masked, FitsMasked};
ghost use Rattle.bits.specs.BitLists.{spell};
ghost use Rattle.format.specs.Messages.{system_id, system_masks, system_signals};
ghost use Rattle.heads.specs.Fronts.{Opens, Opened};

use format::Refusal;
use heads::{Front, front_at, taken};
use holding::{Holding, assigned, named, set_places};

// How many bits an ID has.
const ID: usize = 4;

// An ID that is known and new; or the refusal and how many bits were missing.
#[derive(Clone, Copy)]
pub enum Named {
    Fine(u8),
    Refused(Refusal, usize),
}

// The ID at a front, after count others.
pub fn read_id(ids: &[u8], count: usize, f: Front) -> Named
    requires { (count ≤ length ids.now) × Opened f }
    ensures { (bs : List ℕ) → Opens bs f → end_named f.start result ≡ end_from (system_id (take count ids.now)) bs f.end f.start }
{
    let taken = taken(f, 0, ID);
    match taken {
        Err(short) => Named::Refused(Refusal::Short, short.missing),
        Ok(n) => {
            let id = n as u8;
            if id as usize >= Holding::SYSTEMS {
                return Named::Refused(Refusal::System, 0);
            }
            if named::named_in(ids, count, id) {
                return Named::Refused(Refusal::System, 0);
            }
            Named::Fine(id)
        }
    }
}

// The satellite and the signal mask, and the front that begins with the latter; or the refusal and how many bits were
// missing.
#[derive(Clone, Copy)]
pub enum Masked {
    Fine(u64, u16, Front),
    Refused(Refusal, usize),
}

// The signal mask at a front, after a satellite mask.
fn read_signals(id: u8, satellites: u64, f: Front) -> Masked
    requires { (id < 5) × (satellites < 2 ^ 40) × Opened f }
    ensures by_index { (bs : List ℕ) → Opens bs f → end_masked result ≡ end_from (system_signals id (spell 40 satellites)) bs f.end f.start }
    ensures by_index_2 { (bs : List ℕ) → Opens bs f → FitsMasked bs f.end result }
{
    let taken = taken(f, 0, Holding::SIGNAL_MASK);
    match taken {
        Err(short) => Masked::Refused(Refusal::Short, short.missing),
        Ok(signals) => {
            if !assigned::signals_assigned(id as usize, signals) {
                return Masked::Refused(Refusal::Reserved, 0);
            }
            Masked::Fine(satellites, signals as u16, f)
        }
    }
}

// The masks behind the ID of a front, after n satellites of other systems.
pub fn read_masks(n: usize, id: u8, f: Front, bytes: &[u8]) -> Masked
    requires { (n ≤ 64) × (id < 5) × Within bytes.now f.end (f.start + 4) × Opens bytes.now f }
    ensures result_value { end_masked result ≡ end_from (system_masks n id) bytes.now f.end (f.start + 4) }
    ensures fits_masked { FitsMasked bytes.now f.end result }
{
    let taken = taken(f, ID, Holding::SATELLITE_MASK);
    match taken {
        Err(short) => Masked::Refused(Refusal::Short, short.missing),
        Ok(satellites) => {
            if !assigned::satellites_assigned(id as usize, satellites) {
                return Masked::Refused(Refusal::Reserved, 0);
            }
            if n + set_places::count(satellites) > Holding::SATELLITES {
                return Masked::Refused(Refusal::Size, 0);
            }
            let at = f.start + ID + Holding::SATELLITE_MASK;
            read_signals(id, satellites, front_at(bytes, f.end, at))
        }
    }
}
