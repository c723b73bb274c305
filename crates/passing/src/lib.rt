// How a holding passes as bytes (docs/HOST.md): out of a lent slice, and into one.
#![tactic(auto)]

pub mod give;
pub mod take;

use holding::Holding;

// Where the parts begin, behind four bytes that are said of the whole mask: how many cells it has, in two bytes; by
// system IDs, flags, signal masks of two bytes and satellite masks of eight; then the strips, of two. And how many
// bytes a holding has.
pub const CELLS: usize = 4;

pub const IDS: usize = CELLS + 2;

pub const FLAGS: usize = IDS + Holding::SYSTEMS;

pub const SIGNALS: usize = FLAGS + Holding::SYSTEMS;

pub const SATELLITES: usize = SIGNALS + 2 * Holding::SYSTEMS;

pub const STRIPS: usize = SATELLITES + 8 * Holding::SYSTEMS;

pub const SIZE: usize = STRIPS + 2 * Holding::SATELLITES;
