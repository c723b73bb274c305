// The line of a sound holding (document 01, "Saved mask and listing"): how long it is, its text, and whether a line is it.
ghost use Rattle.std.specs.Prelude.{◌≡◌, true, ℕ, ◌+◌, ◌≤◌, eqb, length};
ghost use mathlib.Core.List.{List, flat_map};
ghost use Rattle.std.proofs.lemmas.List.Edits.{sets};
ghost use Rattle.format.specs.Same.{same_list};
ghost use Rattle.format.specs.Saved.{system_text, line_of};
ghost use Rattle.holding.specs.Outlines.{whole_of};
ghost use Rattle.holding.specs.Pictures.{mask_of, sound};
ghost use Rattle.saved.specs.Lines.{line_front, stands_at};
ghost use Rattle.saved.specs.Slots.{Outlined, HasRoom, systems_from};

use crate::systems;
use holding::{Holding, Outline, set_places};
use text::{DASH, LINE_FEED, TAB, number, put};

// The letter that a saved holding begins with.
const LETTER: u8 = b'S';

// How long the text of its systems is, whatever strips it has: only how many they are counts.
fn systems_long(outline: Outline, satellites: &[u64; Holding::SYSTEMS]) -> usize
    requires { Outlined outline satellites.now }
    ensures by_index { (strips : List ℕ) → sound (whole_of outline satellites.now strips) ≡ true → result ≡ length (flat_map system_text (systems_from (whole_of outline satellites.now strips) 0 0)) }
    ensures upper_bound { result ≤ 25000 }
{
    let mut long = 0;
    for i in 0..outline.count as usize {
        long += systems::system_long(systems::slot_in(outline, satellites, i));
    }
    long
}

// How long the line is around what it says of the mask: the letter, a tab and the line feed; and where it says a dash.
const AROUND: usize = 3;

const EMPTY: usize = AROUND + 1;

// How long the line is.
pub fn line_long(outline: Outline, satellites: &[u64; Holding::SYSTEMS]) -> usize
    requires { Outlined outline satellites.now }
    ensures { (strips : List ℕ) → sound (whole_of outline satellites.now strips) ≡ true → result ≡ length (line_of (mask_of (whole_of outline satellites.now strips))) }
{
    if !outline.held {
        return EMPTY;
    }
    number::decimals(outline.iod as u64) + systems_long(outline, satellites) + AROUND
}

// The text of its systems.
fn systems_text(
    line: &mut [u8],
    at: usize,
    outline: Outline,
    satellites: &[u64; Holding::SYSTEMS],
    strips: &[u16; Holding::SATELLITES],
) -> usize
    requires { HasRoom (whole_of outline satellites.now strips.now) (flat_map system_text (systems_from (whole_of outline satellites.now strips.now) 0 0)) at line.old }
    ensures value { result ≡ at + length (flat_map system_text (systems_from (whole_of outline satellites.now strips.now) 0 0)) }
    ensures line_after { line.new ≡ sets line.old at (flat_map system_text (systems_from (whole_of outline satellites.now strips.now) 0 0)) }
{
    let mut place = at;
    let mut from = 0;
    for i in 0..outline.count as usize {
        let slot = systems::slot_in(outline, satellites, i);
        place = systems::system(line, place, slot, strips, from);
        from += set_places::count(slot.satellites);
    }
    place
}

// What comes before its systems: the letter, a tab, and a dash where nothing is held, else the issue.
fn front_text(line: &mut [u8], outline: Outline) -> usize
    requires { length (line_front outline) ≤ length line.old }
    ensures value { result ≡ length (line_front outline) }
    ensures line_after { line.new ≡ sets line.old 0 (line_front outline) }
{
    let first = put(line, 0, LETTER);
    let second = put(line, first, TAB);
    if !outline.held {
        return put(line, second, DASH);
    }
    number::number(line, second, outline.iod as u64)
}

// The line, from the first byte on: a sound holding that holds nothing has no systems.
pub fn line_text(
    line: &mut [u8],
    outline: Outline,
    satellites: &[u64; Holding::SYSTEMS],
    strips: &[u16; Holding::SATELLITES],
) -> usize
    requires { (sound (whole_of outline satellites.now strips.now) ≡ true) × (length (line_of (mask_of (whole_of outline satellites.now strips.now))) ≤ length line.old) }
    ensures value { result ≡ length (line_of (mask_of (whole_of outline satellites.now strips.now))) }
    ensures line_after { line.new ≡ sets line.old 0 (line_of (mask_of (whole_of outline satellites.now strips.now))) }
{
    let first = front_text(line, outline);
    let second = systems_text(line, first, outline, satellites, strips);
    put(line, second, LINE_FEED)
}

// Whether a text stands at a place of a line. Not by `starts_with`: there no wrong program that takes another character
// for the right one has a fact of its own (docs/DESIGN-PASS.md).
fn stands(line: &[u8], at: usize, text: &[u8]) -> bool
    requires { at + length text.now ≤ length line.now }
    ensures { result ≡ stands_at line.now at text.now }
{
    for i in 0..text.len() {
        if line[at + i] != text[i] {
            return false;
        }
    }
    true
}

// A piece of a line is the text of one system at most: what is fixed, its ID and a dash; for each place of its satellite mask a
// bit of a cell mask for each signal.
const PIECE: usize = systems::FIXED + 2 + systems::SIGNAL_DIGITS * Holding::SATELLITE_MASK;

// Whether a line is a sound holding's own, piece by piece: the text of one system is made at a time, so that no room for a
// whole line is needed.
pub fn is_own(
    outline: Outline,
    satellites: &[u64; Holding::SYSTEMS],
    strips: &[u16; Holding::SATELLITES],
    line: &[u8],
) -> bool
    requires { sound (whole_of outline satellites.now strips.now) ≡ true }
    ensures { result ≡ same_list eqb (line_of (mask_of (whole_of outline satellites.now strips.now))) line.now }
{
    if line.len() != line_long(outline, satellites) {
        return false;
    }
    let mut piece = [0u8; PIECE];
    let mut place = front_text(&mut piece, outline);
    if !stands(line, 0, &piece[..place]) {
        return false;
    }
    let mut from = 0;
    for i in 0..outline.count as usize {
        let slot = systems::slot_in(outline, satellites, i);
        let long = systems::system(&mut piece, 0, slot, strips, from);
        if !stands(line, place, &piece[..long]) {
            return false;
        }
        place += long;
        from += set_places::count(slot.satellites);
    }
    line[place] == LINE_FEED
}
