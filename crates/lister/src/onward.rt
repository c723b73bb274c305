// A stretch, message by message.
ghost use Rattle.std.specs.Prelude.{◌≡◌, ◌^◌, ◌≤◌, ◌<◌, length};
ghost use Rattle.std.proofs.lemmas.List.Edits.{sets};
ghost use Rattle.lines.specs.Records.{message_room};
ghost use Rattle.walk.specs.Standing.{stand_at, Stands};
ghost use Rattle.lister.specs.Steps.{stop_text, listed_at, answered};

use crate::open::next_line;
use crate::{State, Step, Work};
use format::{Answer, number};
use lines::records;
use walk::{Tally, single};

// Idle's number.
const IDLE: u64 = 0;

// The stop's line of text, after which the next line is gathered. It is made part of its callers: as a call it is
// handed the state in memory, and a line takes 270 instructions more.
#[inline(always)]
fn stop(next: State, tally: Tally, number: u64, missing: usize, out: &mut [u8]) -> Step
    requires { (number < 2 ^ 31) × (tally.place < 2 ^ 31) × (tally.messages < 2 ^ 31) × (tally.rows < 2 ^ 31) × (message_room ≤ length out.old) }
    ensures value { result ≡ record { state = next; taken = 0; given = length (stop_text number missing tally) } }
    ensures out_after { out.new ≡ sets out.old 0 (stop_text number missing tally) }
    ensures given_le_message_room { result.given ≤ message_room }
{
    let given = records::stop(
        out,
        number,
        tally.place,
        tally.messages,
        tally.rows,
        missing,
    );
    Step {
        state: next,
        taken: 0,
        given,
    }
}

// The next message of a stretch, or its stop.
pub fn onward(
    state: State,
    bits: usize,
    tally: Tally,
    line: &[u8],
    rows: &mut [i32],
    out: &mut [u8],
) -> Step
    requires { Stands line.now bits (stand_at state.holding tally rows.old) × (message_room ≤ length out.old) }
    ensures value { result ≡ answered (listed_at state bits tally line.now rows.old) }
    ensures rows_after { rows.new ≡ (listed_at state bits tally line.now rows.old).rows }
    ensures out_after { out.new ≡ sets out.old 0 (listed_at state bits tally line.now rows.old).text }
    ensures given_le_message_room { result.given ≤ message_room }
{
    let reading = single::read_seen(true, state.holding, line, bits, tally.place, rows);
    let answer = reading.answer;
    let holding = reading.holding;
    match answer {
        Answer::Message(head, next, n) => {
            let given = records::message(out, head, tally.place, next, n, rows);
            let behind = Tally {
                place: next,
                messages: tally.messages + 1,
                rows: tally.rows + n,
            };
            Step {
                state: State {
                    work: Work::Walking(bits, behind),
                    holding,
                    ..state
                },
                taken: 0,
                given,
            }
        }
        Answer::Idle => stop(next_line(state, holding), tally, IDLE, 0, out),
        Answer::Refused(r, missing) => stop(
            next_line(state, holding),
            tally,
            number(r),
            missing,
            out,
        ),
    }
}
