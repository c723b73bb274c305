// The listing's lines of output (document 01, "Saved mask and listing"): a letter, then values, each after a tab.
ghost use Rattle.std.specs.Prelude.{◌≡◌, ◌+◌, ◌*◌, ◌^◌, ◌≤◌, ◌<◌, length, take, drop};
ghost use mathlib.Core.List.{◌∷◌, flat_map};
ghost use Rattle.std.proofs.lemmas.List.Edits.{sets};
ghost use Rattle.format.specs.Listing.{value_text, record_text, letter_r, missing_value, bad_text};
ghost use Rattle.format.specs.Text.{tab};
ghost use Rattle.format.specs.Writing.{rows_in};
ghost use Rattle.lines.specs.Records.{values_text, opening_in, message_in, stop_in, record_long, row_long, missing_long, message_room};

use format::Head;
use text::number::value;
use text::{DASH, LINE_FEED, TAB, put};

// A value after a tab.
fn field(out: &mut [u8], at: usize, v: i32) -> usize
    requires { at + length (tab ∷ value_text v) ≤ length out.old }
    ensures value { result ≡ at + length (tab ∷ value_text v) }
    ensures out_after { out.new ≡ sets out.old at (tab ∷ value_text v) }
{
    let from = put(out, at, TAB);
    value(out, from, v)
}

// A letter and some values, from a place on; the place behind them.
fn opened(out: &mut [u8], at: usize, letter: u8, values: &[i32]) -> usize
    requires { at + length (values_text letter values.now) ≤ length out.old }
    ensures value { result ≡ at + length (values_text letter values.now) }
    ensures out_after { out.new ≡ sets out.old at (values_text letter values.now) }
{
    let mut place = put(out, at, letter);
    for v in values {
        place = field(out, place, *v);
    }
    place
}

// A line of some values, from a place on; the place behind it.
pub fn record(out: &mut [u8], at: usize, letter: u8, values: &[i32]) -> usize
    requires { at + length (record_text letter values.now) ≤ length out.old }
    ensures value { result ≡ at + length (record_text letter values.now) }
    ensures out_after { out.new ≡ sets out.old at (record_text letter values.now) }
{
    let place = opened(out, at, letter, values);
    put(out, place, LINE_FEED)
}

// The letter of a row's line.
const LETTER_R: u8 = b'R';

// The line of a row. Its values are read first: of each that was read it is known that it has 32 bits, and so that its
// line finds room.
fn row(out: &mut [u8], at: usize, row: &[i32]) -> usize
    requires { (length row.now ≡ 8) × (at + row_long ≤ length out.old) }
    ensures value { result ≡ at + length (record_text letter_r row.now) }
    ensures out_after { out.new ≡ sets out.old at (record_text letter_r row.now) }
    ensures upper_bound { result ≤ at + row_long }
{
    let values = [
        row[0], row[1], row[2], row[3], row[4], row[5], row[6], row[7],
    ];
    record(out, at, LETTER_R, &values)
}

// How many values a row has.
const ROW: usize = 8;

// The lines of the first n rows of a row buffer.
pub fn rows(out: &mut [u8], at: usize, rows: &[i32], n: usize) -> usize
    requires { (8 * n ≤ length rows.now) × (at + row_long * n ≤ length out.old) }
    ensures value { result ≡ at + length (flat_map (record_text letter_r) (rows_in n rows.now)) }
    ensures out_after { out.new ≡ sets out.old at (flat_map (record_text letter_r) (rows_in n rows.now)) }
    ensures upper_bound { result ≤ at + row_long * n }
{
    let mut place = at;
    for values in rows[..ROW * n].chunks_exact(ROW) {
        place = row(out, place, values);
    }
    place
}

// The most characters of a message: a line of 11 values, each with its tab at most 12, and those of 256 rows of eight.
pub const MESSAGE_ROOM: usize = 25222;

// The letter of a message's line.
const LETTER_M: u8 = b'M';

// The line of a message without its rows, from the first byte on.
fn opening(out: &mut [u8], head: Head, place: usize, next: usize, n: usize) -> usize
    requires { (place ≤ next) × (next ≤ 50850) × (n ≤ 256) × (message_room ≤ length out.old) }
    ensures value { result ≡ length (opening_in head place next n) }
    ensures out_after { out.new ≡ sets out.old 0 (opening_in head place next n) }
    ensures upper_bound { result ≤ record_long 11 }
{
    let values = [
        place as i32,
        (next - place) as i32,
        head.subtype,
        head.epoch,
        head.interval,
        head.indicator,
        head.iod,
        head.a,
        head.b,
        head.c,
        n as i32,
    ];
    record(out, 0, LETTER_M, &values)
}

// A message, from the first byte on: its own line and those of its rows.
pub fn message(
    out: &mut [u8],
    head: Head,
    place: usize,
    next: usize,
    n: usize,
    rows: &[i32],
) -> usize
    requires { (place ≤ next) × (next ≤ 50850) × (n ≤ 256) × (8 * n ≤ length rows.now) × (message_room ≤ length out.old) }
    ensures value { result ≡ length (message_in head place next n rows.now) }
    ensures out_after { out.new ≡ sets out.old 0 (message_in head place next n rows.now) }
    ensures upper_bound { result ≤ message_room }
{
    let first = opening(out, head, place, next, n);
    crate::records::rows(out, first, rows, n)
}

// The letter of a stop's line, and the stop that says how many bits were missing: a number, as the line prints it, since
// Idle has one and is no refusal.
const LETTER_E: u8 = b'E';

const SHORT: u64 = 3;

// A stop's last value, after a tab (document 02, Ask 7): how many bits were missing where it is 3, else a dash. It is
// printed as a number of 64 bits, so that nothing need be known of it.
fn missing_bits(out: &mut [u8], at: usize, number: u64, missing: usize) -> usize
    requires { at + missing_long ≤ length out.old }
    ensures value { result ≡ at + length (tab ∷ value_text (missing_value number missing)) }
    ensures out_after { out.new ≡ sets out.old at (tab ∷ value_text (missing_value number missing)) }
    ensures upper_bound { result ≤ at + missing_long }
{
    let from = put(out, at, TAB);
    if number == SHORT {
        return text::number::number(out, from, missing as u64);
    }
    put(out, from, DASH)
}

// A stop, from the first byte on: its number and place, how many messages and rows were listed before it, and how many
// bits were missing.
pub fn stop(
    out: &mut [u8],
    number: u64,
    place: usize,
    messages: usize,
    rows: usize,
    missing: usize,
) -> usize
    requires { (number < 2 ^ 31) × (place < 2 ^ 31) × (messages < 2 ^ 31) × (rows < 2 ^ 31) × (message_room ≤ length out.old) }
    ensures value { result ≡ length (stop_in number place messages rows missing) }
    ensures out_after { out.new ≡ sets out.old 0 (stop_in number place messages rows missing) }
    ensures upper_bound { result ≤ message_room }
{
    let values = [number as i32, place as i32, messages as i32, rows as i32];
    let first = opened(out, 0, LETTER_E, &values);
    let last = missing_bits(out, first, number, missing);
    put(out, last, LINE_FEED)
}

// The letter of a bad line's line.
const LETTER_B: u8 = b'B';

// A bad line of input, from the first byte on: its number.
pub fn bad(out: &mut [u8], number: u64) -> usize
    requires { message_room ≤ length out.old }
    ensures value { result ≡ length (bad_text number) }
    ensures out_after { out.new ≡ sets out.old 0 (bad_text number) }
    ensures upper_bound { result ≤ message_room }
{
    let first = put(out, 0, LETTER_B);
    let second = put(out, first, TAB);
    let third = text::number::number(out, second, number);
    put(out, third, LINE_FEED)
}
