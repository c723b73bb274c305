// One system of the saved holding: its ID, its masks as hex, its flag and its cell mask, each after a tab.
ghost use Rattle.std.specs.Prelude.{◌≡◌, ◌∷◌, ◌+◌, ◌*◌, ◌^◌, ◌≤◌, ◌<◌, length, drop};
ghost use Rattle.std.specs.Int.Count.{ones};
ghost use Rattle.std.proofs.lemmas.List.Edits.{sets};
ghost use Rattle.bits.specs.BitLists.{spell};
ghost use Rattle.format.specs.Saved.{cell_text, system_text};
ghost use Rattle.format.specs.Text.{tab, decimal, hex};
ghost use Rattle.saved.specs.Slots.{slot_in, system_in, cell_count, front_text, cell_long, system_long};

use crate::cells;
use holding::{Holding, Outline, set_places};
use text::{DASH, TAB, number, put};

// A slot of a holding.
#[derive(Clone, Copy)]
pub struct Slot {
    pub id: u8,
    pub satellites: u64,
    pub signals: u16,
    pub flag: bool,
}

// One of a holding in parts: its outline and its masks have it.
pub fn slot_in(outline: Outline, satellites: &[u64; Holding::SYSTEMS], i: usize) -> Slot
    requires { i < 5 }
    ensures { result ≡ slot_in outline satellites.now i }
{
    Slot {
        id: outline.ids[i],
        satellites: satellites[i],
        signals: outline.signals[i],
        flag: outline.flags[i],
    }
}

// How many bits its cell mask has.
pub fn cell_count(s: Slot) -> usize
    ensures value { result ≡ cell_count s }
    ensures upper_bound { result ≤ 64 * 64 }
{
    if !s.flag {
        return 0;
    }
    set_places::count(s.satellites) * set_places::count(s.signals as u64)
}

// How many digits a satellite mask and a signal mask have.
pub const SATELLITE_DIGITS: usize = Holding::SATELLITE_MASK / cells::DIGIT;

pub const SIGNAL_DIGITS: usize = Holding::SIGNAL_MASK / cells::DIGIT;

// How long a system's text is without its ID and its cell mask: five tabs, both masks and the flag.
pub const FIXED: usize = 5 + SATELLITE_DIGITS + SIGNAL_DIGITS + 1;

// The most bits that a digit of a cell mask is padded with.
const SPARE: usize = cells::DIGIT - 1;

// How long the text of a cell mask is.
fn cell_long(n: usize) -> usize
    requires { n ≤ 64 * 64 }
    ensures value { result ≡ cell_long n }
    ensures upper_bound { result ≤ 64 * 64 }
{
    if n == 0 {
        return 1;
    }
    (n + SPARE) / cells::DIGIT
}

// How long that of a system is.
pub fn system_long(s: Slot) -> usize
    ensures value { result ≡ system_long s }
    ensures upper_bound { result ≤ 5000 }
{
    let digits = cell_long(cell_count(s));
    number::decimals(s.id as u64) + FIXED + digits
}

// A number after a tab, and a mask: one function of both would take the writing of the digits as a closure and say its text by
// it, which is no plainer.
fn after_tab(line: &mut [u8], at: usize, n: u64) -> usize
    requires { at + length (tab ∷ decimal n) ≤ length line.old }
    ensures value { result ≡ at + length (tab ∷ decimal n) }
    ensures line_after { line.new ≡ sets line.old at (tab ∷ decimal n) }
{
    let from = put(line, at, TAB);
    number::number(line, from, n)
}

fn hex_after_tab(line: &mut [u8], at: usize, k: usize, word: u64) -> usize
    requires { at + length (tab ∷ hex (spell (4 * k) word)) ≤ length line.old }
    ensures value { result ≡ at + length (tab ∷ hex (spell (4 * k) word)) }
    ensures line_after { line.new ≡ sets line.old at (tab ∷ hex (spell (4 * k) word)) }
{
    let from = put(line, at, TAB);
    number::hex(line, from, k, word)
}

// What comes before the cell mask.
fn front(line: &mut [u8], at: usize, s: Slot) -> usize
    requires { at + length (front_text s) ≤ length line.old }
    ensures value { result ≡ at + length (front_text s) }
    ensures line_after { line.new ≡ sets line.old at (front_text s) }
{
    let first = after_tab(line, at, s.id as u64);
    let second = hex_after_tab(line, first, SATELLITE_DIGITS, s.satellites);
    let third = hex_after_tab(line, second, SIGNAL_DIGITS, s.signals as u64);
    after_tab(line, third, s.flag as u64)
}

// The cell mask, by the strips from the first satellite's on: a dash where it has no bits.
fn cell_text(line: &mut [u8], at: usize, s: Slot, strips: &[u16], from: usize) -> usize
    requires { (s.satellites < 2 ^ 40) × (from + ones s.satellites ≤ length strips.now) × (at + length (cell_text (system_in s (drop from strips.now)).cells) ≤ length line.old) }
    ensures value { result ≡ at + length (cell_text (system_in s (drop from strips.now)).cells) }
    ensures line_after { line.new ≡ sets line.old at (cell_text (system_in s (drop from strips.now)).cells) }
{
    if cell_count(s) == 0 {
        return put(line, at, DASH);
    }
    let n = set_places::count(s.satellites);
    cells::mask_text(line, at, &strips[from..from + n], s.signals)
}

pub fn system(line: &mut [u8], at: usize, s: Slot, strips: &[u16], from: usize) -> usize
    requires { (s.satellites < 2 ^ 40) × (from + ones s.satellites ≤ length strips.now) × (at + length (system_text (system_in s (drop from strips.now))) ≤ length line.old) }
    ensures value { result ≡ at + length (system_text (system_in s (drop from strips.now))) }
    ensures line_after { line.new ≡ sets line.old at (system_text (system_in s (drop from strips.now))) }
{
    let first = front(line, at, s);
    let second = put(line, first, TAB);
    cell_text(line, second, s, strips, from)
}
