// Reading one message (document 01, "Reader's order"): 1, 2, 12, then idle or the message itself. It is the first step of
// a walk, so that one loop serves both.
ghost use Rattle.std.specs.Prelude.{◌≡◌, length};
ghost use Rattle.format.specs.Reading.{rows_after};
ghost use Rattle.holding.specs.Outlines.{whole_of};
ghost use Rattle.holding.specs.Pictures.{sound};
ghost use Rattle.reader.specs.Readings.{reading_of, outcome_at, sought_at};

use crate::under::under;
use format::Answer;
use heads::OPENING;
use holding::{Holding, Outline};
use reader::message::{Found, adopted};
use reader::{Reading, Verdict};

// Reads the message at a place, unless it is a mask: that is left to be adopted, so that no holding is handed on where
// none changes. The row buffer gets a message's rows first and keeps its old numbers after them; a stop changes nothing. It
// is lent a holding in parts, of which the caller has seen whether it is one: the values that were tested are those that
// are lent, and no copy of them is made.
pub fn seek_under(
    held: bool,
    outline: Outline,
    satellites: &[u64; Holding::SYSTEMS],
    strips: &[u16; Holding::SATELLITES],
    bytes: &[u8],
    end: usize,
    start: usize,
    rows: &mut [i32],
) -> Found
    requires { held ≡ sound (whole_of outline satellites.now strips.now) }
    ensures value { result ≡ sought_at (whole_of outline satellites.now strips.now) bytes.now end start (length rows.old) }
    ensures rows_after { rows.new ≡ rows_after (outcome_at (whole_of outline satellites.now strips.now) bytes.now end start rows.old) rows.old }
{
    let room = rows.len();
    let verdict = reader::tested(held, bytes, end, start, room);
    if let Verdict::Refused(r) = verdict {
        return Found::Answered(Answer::Refused(r, 0));
    }
    let pause = under(start, satellites, end, outline, bytes, true, rows, strips);
    pause.found
}

// The same under a holding by value, of which the caller has seen whether it is one.
fn found_in(
    held: bool,
    holding: Holding,
    bytes: &[u8],
    end: usize,
    start: usize,
    rows: &mut [i32],
) -> Found
    requires { held ≡ sound holding }
    ensures value { result ≡ sought_at holding bytes.now end start (length rows.old) }
    ensures rows_after { rows.new ≡ rows_after (outcome_at holding bytes.now end start rows.old) rows.old }
{
    let outline = holding.outline();
    let satellites = holding.satellites;
    let strips = holding.strips;
    seek_under(held, outline, &satellites, &strips, bytes, end, start, rows)
}

// The same under any.
pub fn seek(holding: Holding, bytes: &[u8], end: usize, start: usize, rows: &mut [i32]) -> Found
    ensures value { result ≡ sought_at holding bytes.now end start (length rows.old) }
    ensures rows_after { rows.new ≡ rows_after (outcome_at holding bytes.now end start rows.old) rows.old }
{
    let held = holding.is_sound();
    found_in(held, holding, bytes, end, start, rows)
}

// Reads the message at a place, a mask too, under a holding of which the caller has seen whether it is one: whoever reads on
// with what a reading left need not test it again.
pub fn read_seen(
    held: bool,
    holding: Holding,
    bytes: &[u8],
    end: usize,
    start: usize,
    rows: &mut [i32],
) -> Reading
    requires { held ≡ sound holding }
    ensures value { result ≡ reading_of holding (outcome_at holding bytes.now end start rows.old) }
    ensures rows_after { rows.new ≡ rows_after (outcome_at holding bytes.now end start rows.old) rows.old }
{
    let found = found_in(held, holding, bytes, end, start, rows);
    match found {
        Found::Mask => adopted(holding, bytes, end, start + OPENING),
        Found::Answered(answer) => Reading { answer, holding },
    }
}

// The same under any.
pub fn read(holding: Holding, bytes: &[u8], end: usize, start: usize, rows: &mut [i32]) -> Reading
    ensures value { result ≡ reading_of holding (outcome_at holding bytes.now end start rows.old) }
    ensures rows_after { rows.new ≡ rows_after (outcome_at holding bytes.now end start rows.old) rows.old }
{
    let held = holding.is_sound();
    read_seen(held, holding, bytes, end, start, rows)
}
