// The systems of a mask message (document 01, "Sub type 1"), from the held mask.
ghost use Rattle.std.specs.Prelude.{◌≡◌, true, ℕ, ◌≤◌, length};
ghost use mathlib.Core.List.{List, flat_map};
ghost use Rattle.std.specs.Int.Count.{ones};
ghost use Rattle.format.specs.Lengths.{mask_or};
ghost use Rattle.format.specs.Spelling.{put_system};
ghost use Rattle.holding.specs.Outlines.{whole_of};
ghost use Rattle.holding.specs.Pictures.{mask_of, sound};
ghost use Rattle.putting.specs.MaskFields.{strip_fields, front_fields, system_fields, mask_fields};
ghost use Rattle.pens.specs.Pens.{pen_after, ink_after, Ready};
ghost use Rattle.saved.specs.Slots.{Outlined};

use holding::{Holding, Outline, set_places};
use pens::pen::{Field, Pen, push};
use saved::cells::gather;
use saved::systems;
use saved::systems::Slot;

// The widths of a GNSS ID and of a cell flag.
const ID: usize = 4;

const FLAG: usize = 1;

// "the cell mask, Nsat x Nsig bits, satellite by satellite": a part for each strip.
fn put_strips(bytes: &mut [u8], pen: Pen, signals: u16, strips: &[u16]) -> Pen
    requires { Ready pen (strip_fields signals strips.now) bytes.old }
    ensures value { result ≡ pen_after pen (strip_fields signals strips.now) }
    ensures bytes_after { bytes.new ≡ ink_after pen (strip_fields signals strips.now) bytes.old }
{
    let width = set_places::count(signals as u64);
    let mut behind = pen;
    let mut i = 0;
    while i < strips.len() {
        let value = gather(signals, strips[i]);
        behind = push(bytes, behind, Field { width, value });
        i += 1;
    }
    behind
}

// What comes before it: the ID and the satellite mask, the signal mask and the flag.
fn put_front(bytes: &mut [u8], pen: Pen, s: Slot) -> Pen
    requires { Ready pen (front_fields s) bytes.old }
    ensures value { result ≡ pen_after pen (front_fields s) }
    ensures bytes_after { bytes.new ≡ ink_after pen (front_fields s) bytes.old }
{
    let named = Field {
        width: ID + Holding::SATELLITE_MASK,
        value: ((s.id as u64) << Holding::SATELLITE_MASK) + s.satellites,
    };
    let flagged = Field {
        width: Holding::SIGNAL_MASK + FLAG,
        value: ((s.signals as u64) << FLAG) + s.flag as u64,
    };
    let behind = push(bytes, pen, named);
    push(bytes, behind, flagged)
}

// One system, with the strips from its first satellite's on.
fn put_system(bytes: &mut [u8], pen: Pen, s: Slot, strips: &[u16]) -> Pen
    requires { (ones s.satellites ≤ length strips.now) × Ready pen (system_fields s strips.now) bytes.old }
    ensures value { result ≡ pen_after pen (system_fields s strips.now) }
    ensures bytes_after { bytes.new ≡ ink_after pen (system_fields s strips.now) bytes.old }
{
    let behind = put_front(bytes, pen, s);
    if !s.flag {
        return behind;
    }
    let n = set_places::count(s.satellites);
    put_strips(bytes, behind, s.signals, &strips[..n])
}

// All systems.
pub fn put_systems(
    outline: Outline,
    satellites: &[u64; Holding::SYSTEMS],
    strips: &[u16; Holding::SATELLITES],
    bytes: &mut [u8],
    pen: Pen,
) -> Pen
    requires { (sound (whole_of outline satellites.now strips.now) ≡ true) × Ready pen (mask_fields (whole_of outline satellites.now strips.now)) bytes.old }
    ensures value { result ≡ pen_after pen (mask_fields (whole_of outline satellites.now strips.now)) }
    ensures bytes_after { bytes.new ≡ ink_after pen (mask_fields (whole_of outline satellites.now strips.now)) bytes.old }
{
    let all = &strips[..];
    let mut behind = pen;
    let mut from = 0;
    let mut i = 0;
    while i < outline.count as usize {
        let slot = systems::slot_in(outline, satellites, i);
        behind = put_system(bytes, behind, slot, &all[from..]);
        from += set_places::count(slot.satellites);
        i += 1;
    }
    behind
}

// How many bits a system has beside its cell mask.
const FIXED: usize = ID + Holding::SATELLITE_MASK + Holding::SIGNAL_MASK + FLAG;

// How many bits they are: at most so many for each of five systems, and 16 of a cell mask for each of 64 satellites.
pub fn mask_bits(outline: Outline, satellites: &[u64; Holding::SYSTEMS]) -> usize
    requires { Outlined outline satellites.now }
    ensures by_index { (strips : List ℕ) → sound (whole_of outline satellites.now strips) ≡ true → result ≡ length (flat_map put_system (mask_or (mask_of (whole_of outline satellites.now strips))).systems) }
    ensures upper_bound { result ≤ 1329 }
{
    let mut bits = 0;
    let mut i = 0;
    while i < outline.count as usize {
        bits += FIXED + systems::cell_count(systems::slot_in(outline, satellites, i));
        i += 1;
    }
    bits
}
