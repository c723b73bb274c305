// The holding that a line would say (document 01, "Saved mask and listing"), if it is the line of one. Of any other line it
// makes something, which `load_parts` tests: so no field is tested here, and a place past the end says 0. It is made in
// parts, its masks and strips in arrays that are lent: by value it would be a copy for each function that it comes through.
ghost use Rattle.std.specs.Prelude.{◌≡◌, true, List, [], ◌+◌, ◌^◌, ◌≤◌, ◌<◌, drop, replicate};
ghost use Rattle.std.specs.Int.Count.{ones};
ghost use Rattle.std.proofs.lemmas.List.Edits.{sets};
ghost use Rattle.format.specs.Good.{good_systems, good};
ghost use Rattle.format.specs.Masks.{System, Held, mask};
ghost use Rattle.format.specs.Saved.{line_of};
ghost use Rattle.format.specs.Text.{hex_bits};
ghost use Rattle.holding.specs.Building.{ones_in};
ghost use Rattle.holding.specs.Outlines.{whole_of};
ghost use Rattle.holding.specs.Pictures.{picture_of};
ghost use Rattle.saved.specs.Lines.{text_from};
ghost use Rattle.saved.specs.Saying.{slot_said, strip_said, strips_said, issue_said};

use crate::characters::{char_at, spread_at};
use crate::systems;
use crate::systems::Slot;
use holding::{Holding, Outline, set_places};
use text::number::said;
use text::{DASH, TAB, number};

// Where the fields of a system stand behind its first tab: an ID has one digit.
const ID: usize = 1;

const SATELLITES: usize = ID + 2;

const SIGNALS: usize = SATELLITES + systems::SATELLITE_DIGITS + 1;

const FLAG: usize = SIGNALS + systems::SIGNAL_DIGITS + 1;

const CELLS: usize = FLAG + 2;

// The masks whose places are all set: what is spread over them is itself.
const ALL_SATELLITES: u64 = 0xFF_FFFF_FFFF;

const ALL_SIGNALS: u64 = 0xFFFF;

// The slot of the system at a place.
fn slot_said(line: &[u8], at: usize) -> Slot
    requires { at < 2 ^ 31 }
    ensures { result ≡ slot_said (drop at line.now) }
{
    let id = said(char_at(line, at + ID));
    let satellites = spread_at(
        line,
        at + SATELLITES,
        0,
        ALL_SATELLITES,
        Holding::SATELLITE_MASK,
    );
    let signals = spread_at(line, at + SIGNALS, 0, ALL_SIGNALS, Holding::SIGNAL_MASK);
    let flag = char_at(line, at + FLAG) == b'1';
    Slot {
        id: id as u8,
        satellites,
        signals: signals as u16,
        flag,
    }
}

// One satellite's strip, by the bits of the cell mask from one on: with flag 0 every signal counts.
fn strip_said(s: Slot, line: &[u8], at: usize, first: usize) -> u16
    requires { (at < 2 ^ 32) × (first < 2 ^ 16) }
    ensures { result ≡ strip_said s (drop first (hex_bits (drop at line.now))) }
{
    if !s.flag {
        return s.signals;
    }
    spread_at(line, at, first, s.signals as u64, Holding::SIGNAL_MASK) as u16
}

// The strips of its satellites, from a place of the array on; how many cells they have.
fn strips_said(
    strips: &mut [u16; Holding::SATELLITES],
    from: usize,
    s: Slot,
    line: &[u8],
    at: usize,
) -> usize
    requires { (from + ones s.satellites ≤ 64) × (at < 2 ^ 32) }
    ensures value { (result ≡ ones_in (strips_said s (ones s.satellites) (hex_bits (drop at line.now)))) × (result ≤ 1024) }
    ensures strips_after { strips.new ≡ sets strips.old from (strips_said s (ones s.satellites) (hex_bits (drop at line.now))) }
{
    let n = set_places::count(s.satellites);
    let w = set_places::count(s.signals as u64);
    let mut first = 0;
    let mut cells = 0;
    for i in 0..n {
        let strip = strip_said(s, line, at, first);
        strips[from + i] = strip;
        cells += set_places::count(strip as u64);
        first += w;
    }
    cells
}

// The mask with an issue and the systems from a place on, as far as a holding has room for them: its outline, and its masks
// and strips in arrays of zeros.
fn mask_said(
    iod: u8,
    line: &[u8],
    at: usize,
    satellites: &mut [u64; Holding::SYSTEMS],
    strips: &mut [u16; Holding::SATELLITES],
) -> Outline
    requires { (at < 2 ^ 16) × (satellites.old ≡ replicate 5 0) × (strips.old ≡ replicate 64 0) }
    ensures { (ss : List System) → good_systems [] ss ≡ true → drop at line.now ≡ text_from ss → whole_of result satellites.new strips.new ≡ picture_of (mask (record { iod = iod; systems = ss })) }
{
    let mut h = Holding::empty().outline();
    h.held = true;
    h.iod = iod;
    let mut place = at;
    for i in 0..Holding::SYSTEMS {
        if char_at(line, place) != TAB {
            return h;
        }
        let s = slot_said(line, place);
        let first = h.nsat as usize;
        let n = set_places::count(s.satellites);
        if first + n > Holding::SATELLITES {
            return h;
        }
        h.ncell += strips_said(strips, first, s, line, place + CELLS);
        h.nsat = (first + n) as u8;
        h.ids[i] = s.id;
        satellites[i] = s.satellites;
        h.signals[i] = s.signals;
        h.flags[i] = s.flag;
        h.count = (i + 1) as u8;
        place += systems::system_long(s);
    }
    h
}

// Where the issue stands, behind the letter and a tab.
const ISSUE: usize = 2;

// The issue: one digit, or two.
fn issue_said(line: &[u8]) -> u8
    ensures { result ≡ issue_said (drop 2 line.now) }
{
    let tens = said(char_at(line, ISSUE));
    let second = char_at(line, ISSUE + 1);
    if second < b'0' {
        return tens as u8;
    }
    ((10 * tens + said(second)) % 256) as u8
}

// A dash, or an issue and systems. Its masks and strips go into the lent arrays, whatever stood there.
pub fn candidate(
    line: &[u8],
    satellites: &mut [u64; Holding::SYSTEMS],
    strips: &mut [u16; Holding::SATELLITES],
) -> Outline
    ensures { (held : Held) → good held ≡ true → line_of held ≡ line.now → whole_of result satellites.new strips.new ≡ picture_of held }
{
    *satellites = [0; Holding::SYSTEMS];
    *strips = [0; Holding::SATELLITES];
    if char_at(line, ISSUE) == DASH {
        return Holding::empty().outline();
    }
    let iod = issue_said(line);
    let at = ISSUE + number::decimals(iod as u64);
    mask_said(iod, line, at, satellites, strips)
}
