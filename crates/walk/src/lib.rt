// The walk over a stretch (document 01): single readings from place 0 on, each going on where the one before
// ended, until idle or a refusal.
#![tactic(auto)]

pub mod single;
pub mod under;

ghost use Rattle.std.specs.Prelude.{◌≡◌};
ghost use Rattle.holding.specs.Outlines.{whole_of};
ghost use Rattle.holding.specs.Pictures.{sound};
ghost use Rattle.walk.specs.Standing.{stand_first, Stands, halt_of, walked_from, rows_from};
ghost use Rattle.walk.specs.Walks.{walk_at, walked_of};

use crate::under::under;
use adoption::Ending;
use format::Answer;
use heads::OPENING;
use holding::{Holding, Outline};
use reader::Verdict;
use reader::message::{Found, mask_answer};

// A place, and how many messages and rows were handed out before it.
#[derive(Clone, Copy)]
pub struct Tally {
    pub place: usize,
    pub messages: usize,
    pub rows: usize,
}

// The stop with its place and what was handed out before it, and what is held after it.
#[derive(Clone, Copy)]
pub struct Halt {
    pub stop: Answer,
    pub tally: Tally,
    pub holding: Holding,
}

// Where a walk begins.
pub const START: Tally = Tally {
    place: 0,
    messages: 0,
    rows: 0,
};

// The same where masks and strips are lent: what is held but for these.
#[derive(Clone, Copy)]
pub struct Stopped {
    pub stop: Answer,
    pub tally: Tally,
    pub outline: Outline,
}

// From mask to mask, all that is lent being good. What is handed out under each mask is counted from 0 and added.
fn on(
    first: Outline,
    satellites: &mut [u64; Holding::SYSTEMS],
    strips: &mut [u16; Holding::SATELLITES],
    bytes: &[u8],
    end: usize,
    rows: &mut [i32],
) -> Stopped
    requires { Stands bytes.now end (stand_first (whole_of first satellites.old strips.old) rows.old) }
    ensures strips_after { halt_of result satellites.new strips.new ≡ walked_from bytes.now end (stand_first (whole_of first satellites.old strips.old) rows.old) }
    ensures rows_after { rows.new ≡ rows_from bytes.now end (stand_first (whole_of first satellites.old strips.old) rows.old) }
{
    let mut outline = first;
    let mut tally = START;
    loop {
        let from = tally.place;
        let pause = under(from, satellites, end, outline, bytes, false, rows, strips);
        let found = pause.found;
        let here = Tally {
            place: pause.tally.place,
            messages: tally.messages + pause.tally.messages,
            rows: tally.rows + pause.tally.rows,
        };
        if let Found::Answered(stop) = found {
            return Stopped {
                stop,
                tally: here,
                outline,
            };
        }
        let place = here.place + OPENING;
        let adoption = adoption::adopt(outline, bytes, end, place, satellites, strips);
        let ending = adoption.ending;
        if !adoption.kept {
            outline = outline.adopt(adoption.outline);
        }
        let Ending::Behind(next) = ending else {
            return Stopped {
                stop: mask_answer(ending, bytes, place),
                tally: here,
                outline,
            };
        };
        tally = Tally {
            place: next,
            messages: here.messages + 1,
            rows: here.rows,
        };
    }
}

// Reads from place 0 until idle or a refusal. It refuses nothing itself: what is lent is tested as for a reading
// there, once. The row buffer ends as the readings, one after another, leave it.
pub fn walk(holding: Holding, bytes: &[u8], end: usize, rows: &mut [i32]) -> Halt
    ensures value { result ≡ walked_of holding (walk_at holding bytes.now end rows.old) }
    ensures rows_after { rows.new ≡ (walk_at holding bytes.now end rows.old).rows }
{
    let held = holding.is_sound();
    let outline = holding.outline();
    let mut satellites = holding.satellites;
    let mut strips = holding.strips;
    let stopped = walk_under(
        held,
        outline,
        &mut satellites,
        &mut strips,
        bytes,
        end,
        rows,
    );
    let stop = stopped.stop;
    let tally = stopped.tally;
    let after = stopped.outline;
    let holding = after.with(satellites, strips);
    Halt {
        stop,
        tally,
        holding,
    }
}

// The same under a holding in parts, where the caller has seen whether it is one (as single::seek_under).
pub fn walk_under(
    held: bool,
    outline: Outline,
    satellites: &mut [u64; Holding::SYSTEMS],
    strips: &mut [u16; Holding::SATELLITES],
    bytes: &[u8],
    end: usize,
    rows: &mut [i32],
) -> Stopped
    requires { held ≡ sound (whole_of outline satellites.old strips.old) }
    ensures strips_after { halt_of result satellites.new strips.new ≡ walked_of (whole_of outline satellites.old strips.old) (walk_at (whole_of outline satellites.old strips.old) bytes.now end rows.old) }
    ensures rows_after { rows.new ≡ (walk_at (whole_of outline satellites.old strips.old) bytes.now end rows.old).rows }
{
    let room = rows.len();
    let verdict = reader::tested(held, bytes, end, 0, room);
    if let Verdict::Refused(r) = verdict {
        return Stopped {
            stop: Answer::Refused(r, 0),
            tally: START,
            outline,
        };
    }
    on(outline, satellites, strips, bytes, end, rows)
}
