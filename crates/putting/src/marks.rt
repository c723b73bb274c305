// The selection of sub types 6 and 11, told by which satellites have rows: as a word of 64 bits, and those bits put out.
ghost use Rattle.std.specs.Prelude.{◌≡◌, ◌*◌, ◌%◌, ◌≤◌, ◌<◌, min, length};
ghost use Rattle.std.specs.Int.Count.{count_leading_zeros};
ghost use Rattle.body.specs.Lent.{Slots};
ghost use Rattle.format.specs.Writing.{rows_in};
ghost use Rattle.holding.specs.Held.{satellites_in, slot_satellites};
ghost use Rattle.putting.specs.Marking.{owns_of, marked_by, has_row, told_by, told_after, own_at, owns_from, Covers, Tells, top_field, selection_fields};
ghost use Rattle.pens.specs.Pens.{pen_after, ink_after, Ready};

use body::FIRST;
use holding::set_places;
use pens::number::is;
use pens::pen::{Field, Pen, push};

// How far a selection is told: where the next row stands, the bit of the next satellite, and the bits of those before it
// that have rows.
#[derive(Clone, Copy)]
pub struct Told {
    pub at: usize,
    pub next: u64,
    pub word: u64,
}

// A selection, and how many numbers the rows have by which it was told.
#[derive(Clone, Copy)]
pub struct Selected {
    pub word: u64,
    pub told: usize,
}

// How many numbers a row has.
const ROW: usize = 8;

// How far a mask of 40 bits is moved up, to begin at the highest of 64.
const UP: usize = 24;

// How many rows the satellite of a bit has if it is selected: sub type 6 has one for each of its cells (document 02,
// Ask 1), sub type 11 one. Its strip is the one with as many before it as there are satellites, and bits, before it.
fn own_rows(strips: &[u16], cells: bool, bit: u64) -> usize
    requires { count_leading_zeros 64 bit < length strips.now }
    ensures value { result ≡ own_at cells strips.now bit }
    ensures upper_bound { result ≤ 64 }
{
    if !cells {
        return 1;
    }
    set_places::count(strips[set_places::first(bit)] as u64)
}

// Whether a satellite with so many rows has them at a place: whether the row there, if one is left, is its own.
fn has_row(rows: &[i32], at: usize, own: usize, system: u8, number: usize) -> bool
    requires { (at % 8 ≡ 0) × (length rows.now % 8 ≡ 0) × (number ≤ 255) }
    ensures { result ≡ has_row rows.now at own (record { system = system; number = number }) }
{
    if own == 0 {
        return false;
    }
    if at >= rows.len() {
        return false;
    }
    if !is(rows[at], system as u64) {
        return false;
    }
    is(rows[at + 1], number as u64)
}

// One satellite more, with so many rows.
fn satellite(rows: &[i32], told: Told, system: u8, number: usize, own: usize) -> Told
    requires { Tells rows.now told × (number ≤ 255) × (own ≤ 64) }
    ensures { result ≡ told_by (has_row rows.now told.at own (record { system = system; number = number })) own told }
{
    let at = told.at;
    let next = told.next >> 1;
    if !has_row(rows, at, own, system, number) {
        return Told {
            at,
            next,
            word: told.word,
        };
    }
    Told {
        at: at + ROW * own,
        next,
        word: told.word + told.next,
    }
}

// The satellites of one system, whose mask begins at the highest of 64 bits.
fn slot(id: u8, mask: u64, strips: &[u16], cells: bool, rows: &[i32], told: Told) -> Told
    requires { Tells rows.now told × Covers strips.now told (satellites_in 64 id mask) }
    ensures { let sats = satellites_in 64 id mask in result ≡ told_after rows.now (owns_from cells strips.now told sats) sats told }
{
    let mut left = mask;
    let mut on = told;
    while left > 0 {
        let own = own_rows(strips, cells, on.next);
        on = satellite(rows, on, id, set_places::first(left) + 1, own);
        left = set_places::rest(left);
    }
    on
}

// Which satellites have rows, the rows standing in their order: the first satellite's bit is the highest of 64.
pub fn marked(
    ids: &[u8],
    masks: &[u64],
    strips: &[u16],
    cells: bool,
    rows: &[i32],
    count: usize,
) -> Selected
    requires { Slots ids.now masks.now × (length (slot_satellites ids.now masks.now) ≤ 64) × (length (slot_satellites ids.now masks.now) ≤ length strips.now) × (8 * count ≤ length rows.now) }
    ensures { let sats = slot_satellites ids.now masks.now in result ≡ marked_by (owns_of cells strips.now sats) sats (rows_in count rows.now) }
{
    let end = ROW * count;
    let counted = &rows[..end];
    let mut told = Told {
        at: 0,
        next: FIRST,
        word: 0,
    };
    let mut i = 0;
    while i < ids.len() {
        told = slot(ids[i], masks[i] << UP, strips, cells, counted, told);
        i += 1;
    }
    Selected {
        word: told.word,
        told: told.at,
    }
}

// How many bits half a word has.
const HALF: usize = 32;

// And how many numbers they spell.
const HALVES: u64 = 0x1_0000_0000;

// How many of a word's first n bits its first half has.
fn in_first(n: usize) -> usize
    ensures { result ≡ min n 32 }
{
    if n < HALF {
        return n;
    }
    HALF
}

// So many bits of half a word, from its highest on.
fn top(half: u64, width: usize) -> Field
    requires { width ≤ 32 }
    ensures { result ≡ top_field half width }
{
    Field {
        width,
        value: half >> (HALF - width),
    }
}

// The selection's bits: those of the first n satellites, in two fields, of which the second often has none.
pub fn select(bytes: &mut [u8], pen: Pen, chosen: u64, n: usize) -> Pen
    requires { (n ≤ 64) × Ready pen (selection_fields chosen n) bytes.old }
    ensures value { result ≡ pen_after pen (selection_fields chosen n) }
    ensures bytes_after { bytes.new ≡ ink_after pen (selection_fields chosen n) bytes.old }
{
    if n == 0 {
        return pen;
    }
    let first = in_first(n);
    let ahead = push(bytes, pen, top(chosen / HALVES, first));
    if n <= HALF {
        return ahead;
    }
    push(bytes, ahead, top(chosen % HALVES, n - first))
}
