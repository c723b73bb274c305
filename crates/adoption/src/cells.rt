// One system's cells up to its cell mask: the flag, and that the bits of the mask are there (document 01, "Message
// layouts").
ghost use Rattle.std.specs.Prelude.{◌≡◌, List, ℕ, ◌+◌, ◌^◌, ◌≤◌, ◌<◌};
ghost use Rattle.adoption.specs.Stages.{masks_by, cell_bits, with_cells, end_system, HasMasks};
ghost use Rattle.format.specs.Ends.{end_from};
ghost use Rattle.heads.specs.Fronts.{Opens, Opened};

use format::Refusal;
use heads::{Front, taken};
use holding::{Holding, set_places};

// How many bits the flag has.
const FLAG: usize = 1;

// A system's ID and its two masks.
#[derive(Clone, Copy)]
pub struct Masks {
    pub id: u8,
    pub satellites: u64,
    pub signals: u16,
}

// A system up to its cells: its masks, its flag and the place behind that, where the cell mask stands; or the refusal
// and how many bits were missing.
#[derive(Clone, Copy)]
pub enum System {
    Fine(Masks, bool, usize),
    Refused(Refusal, usize),
}

// How many bits its cell mask has: none without the flag.
pub fn width(m: Masks, flag: bool) -> usize
    requires { m.satellites < 2 ^ 40 }
    ensures { result ≡ cell_bits m flag }
{
    if !flag {
        return 0;
    }
    set_places::count(m.satellites) * set_places::count(m.signals as u64)
}

// The flag behind the signal mask, with which a front begins.
pub fn read_flag(m: Masks, f: Front) -> System
    requires { (m.satellites < 2 ^ 40) × Opened f × (f.start + 16 ≤ f.end) }
    ensures by_index { (bs : List ℕ) → Opens bs f → end_system bs result ≡ end_from (with_cells m.id (masks_by m.satellites m.signals)) bs f.end (f.start + 16) }
    ensures has_masks { HasMasks m result }
{
    let taken = taken(f, Holding::SIGNAL_MASK, FLAG);
    match taken {
        Err(short) => System::Refused(Refusal::Short, short.missing),
        Ok(bit) => {
            let at = f.start + Holding::SIGNAL_MASK + FLAG;
            let flag = bit != 0;
            let cells = width(m, flag);
            let left = f.end - at;
            if left < cells {
                return System::Refused(Refusal::Short, cells - left);
            }
            System::Fine(m, flag, at)
        }
    }
}
