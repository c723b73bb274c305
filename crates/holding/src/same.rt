// Whether two masks are the same (document 02, Ask 2: when their `S` lines are), by their structs. All of both is compared
// without an exit, which makes it a few vectors' work.
ghost use Rattle.std.specs.Prelude.{◌≡◌, ◌&&◌, eqb, length};
ghost use Rattle.std.specs.Bool.{beq};
ghost use Rattle.format.specs.Same.{same_list};
ghost use Rattle.holding.specs.Outlines.{whole_of};
ghost use Rattle.holding.specs.Pictures.{same_holding};

use crate::{Holding, Outline};

// Whether their systems are, slot by slot: ID, satellite mask, signal mask and cell flag.
fn systems_same(old: Outline, satellites: &[u64], new: Outline, masks: &[u64]) -> bool
    requires { (length satellites.now ≡ 5) × (length masks.now ≡ 5) }
    ensures { result ≡ (same_list eqb old.ids new.ids && (same_list eqb satellites.now masks.now && (same_list eqb old.signals new.signals && same_list beq old.flags new.flags))) }
{
    let mut same = true;
    let mut i = 0;
    while i < Holding::SYSTEMS {
        let signals = (old.signals[i] == new.signals[i]) & (old.flags[i] == new.flags[i]);
        same = same & ((old.ids[i] == new.ids[i]) & ((satellites[i] == masks[i]) & signals));
        i += 1;
    }
    same
}

// Whether their cells are, strip by strip.
fn cells_same(strips: &[u16], cells: &[u16]) -> bool
    requires { (length strips.now ≡ 64) × (length cells.now ≡ 64) }
    ensures { result ≡ same_list eqb strips.now cells.now }
{
    let mut same = true;
    let mut i = 0;
    while i < Holding::SATELLITES {
        same = same & (strips[i] == cells[i]);
        i += 1;
    }
    same
}

// Whether all that stands in them is.
pub fn same(
    old: Outline,
    satellites: &[u64; Holding::SYSTEMS],
    strips: &[u16; Holding::SATELLITES],
    new: Outline,
    masks: &[u64; Holding::SYSTEMS],
    cells: &[u16; Holding::SATELLITES],
) -> bool
    ensures { result ≡ same_holding (whole_of old satellites.now strips.now) (whole_of new masks.now cells.now) }
{
    let head = (old.held == new.held) & ((old.iod == new.iod) & (old.count == new.count));
    let counts = (old.nsat == new.nsat) & (old.ncell == new.ncell);
    let systems = systems_same(old, satellites, new, masks);
    head & (systems & (cells_same(strips, cells) & counts))
}
