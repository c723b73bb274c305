// The listing step by step (document 01, "Saved mask and listing"): input comes in pieces of any size, text goes out
// message by message.
#![tactic(auto)]

pub mod gather;
pub mod onward;
pub mod open;

ghost use Rattle.std.specs.Prelude.{◌≡◌, ◌≤◌, length};
ghost use Rattle.std.proofs.lemmas.List.Edits.{sets};
ghost use Rattle.lines.specs.Records.{message_room};
ghost use Rattle.lister.specs.Steps.{Good, step_of, answered};

use crate::gather::{Gathered, gather};
use crate::onward::onward;
use crate::open::open;
use holding::Holding;
use walk::Tally;

// How many bytes of a line are kept: one more than the longest that is not bad has.
pub const LINE_ROOM: usize = 12721;

// What is under way: a line of which so many bytes have come; one that has come whole; or the stretch that one said,
// of so many bits, listed up to a place.
#[derive(Clone, Copy)]
pub enum Work {
    Gathering(usize),
    Whole(usize),
    Walking(usize, Tally),
}

// The number of the line under way, and what is held.
#[derive(Clone, Copy)]
pub struct State {
    pub number: u64,
    pub work: Work,
    pub holding: Holding,
}

// The state after a step, how many bytes of the piece it took, how many bytes of text it gave.
#[derive(Clone, Copy)]
pub struct Step {
    pub state: State,
    pub taken: usize,
    pub given: usize,
}

// One step: it takes bytes of a piece of input into the line, no piece saying that the input has ended; or sees what the
// line says; or lists one message or the stop, from the buffer's first byte on.
pub fn advance(
    state: State,
    line: &mut [u8],
    rows: &mut [i32],
    piece: &[u8],
    out: &mut [u8],
) -> Step
    requires { Good state line.old rows.old × (message_room ≤ length out.old) }
    ensures value { result ≡ answered (step_of state line.old rows.old piece.now) }
    ensures line_after { line.new ≡ (step_of state line.old rows.old piece.now).line }
    ensures rows_after { rows.new ≡ (step_of state line.old rows.old piece.now).rows }
    ensures out_after { out.new ≡ sets out.old 0 (step_of state line.old rows.old piece.now).text }
    ensures given_le_message_room { result.given ≤ message_room }
{
    match state.work {
        Work::Gathering(filled) => {
            let Gathered { work, taken } = gather(line, filled, piece);
            Step {
                state: State { work, ..state },
                taken,
                given: 0,
            }
        }
        Work::Whole(filled) => open(state, filled, line, out),
        Work::Walking(bits, tally) => onward(state, bits, tally, line, rows, out),
    }
}
