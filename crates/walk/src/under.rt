// Messages under one mask.
ghost use Rattle.std.specs.Prelude.{◌≡◌};
ghost use Rattle.holding.specs.Outlines.{whole_of};
ghost use Rattle.walk.specs.Standing.{stand_from, Stands};
ghost use Rattle.walk.specs.Pausing.{rows_in, pauses_in, pause_in};

use crate::Tally;
use format::Answer;
use holding::{Holding, Outline};
use reader::message::{Found, find};

// What was found where reading came to, and what it handed out before that.
#[derive(Clone, Copy)]
pub struct Pause {
    pub found: Found,
    pub tally: Tally,
}

// Reads on from a place as long as messages are accepted, up to the next mask or the stop; or once. It counts what it
// hands out from there on. One loop serves a walk and a single reading: with one caller `find` becomes part of it, rows
// and all, and no answer is stored only to be taken apart again. The order of its parameters says which of them come in
// registers: in this one no message of the bench takes more than before (DECISIONS 88).
pub fn under(
    from: usize,
    satellites: &[u64; Holding::SYSTEMS],
    end: usize,
    outline: Outline,
    bytes: &[u8],
    once: bool,
    rows: &mut [i32],
    strips: &[u16; Holding::SATELLITES],
) -> Pause
    requires { Stands bytes.now end (stand_from (whole_of outline satellites.now strips.now) from rows.old) }
    ensures value { result ≡ pause_in bytes.now end (pauses_in once bytes.now end (stand_from (whole_of outline satellites.now strips.now) from rows.old)) }
    ensures rows_after { rows.new ≡ rows_in bytes.now end (pauses_in once bytes.now end (stand_from (whole_of outline satellites.now strips.now) from rows.old)) }
{
    let ids = outline.ids;
    let count = outline.count as usize;
    let mut tally = Tally {
        place: from,
        messages: 0,
        rows: 0,
    };
    loop {
        let place = tally.place;
        let found = find(
            outline,
            &ids[..count],
            satellites,
            strips,
            bytes,
            end,
            place,
            rows,
        );
        let Found::Answered(answer) = found else {
            return Pause { found, tally };
        };
        let Answer::Message(_, next, n) = answer else {
            return Pause { found, tally };
        };
        if once {
            return Pause { found, tally };
        }
        tally = Tally {
            place: next,
            messages: tally.messages + 1,
            rows: tally.rows + n,
        };
    }
}
