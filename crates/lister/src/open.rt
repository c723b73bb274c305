// A line that has come whole: what it says.
ghost use Rattle.std.specs.Prelude.{◌≡◌, ◌≤◌, ℤ, List, length, take};
ghost use Rattle.std.proofs.lemmas.List.Edits.{sets};
ghost use Rattle.format.specs.Listing.{line_says};
ghost use Rattle.lines.specs.Records.{message_room};
ghost use Rattle.lister.specs.Steps.{next_line, opens_as, answered};

use crate::{State, Step, Work};
use holding::Holding;
use lines::stretch::stretch_in;
use lines::{records, said_by};
use walk::START;

// The state in which the next line is gathered.
pub fn next_line(state: State, holding: Holding) -> State
    ensures { result ≡ next_line state holding }
{
    State {
        number: state.number.saturating_add(1),
        work: Work::Gathering(0),
        holding,
    }
}

// The stretch's bytes take the line's place; a bad line gets its own line of text, and nothing that is held changes.
pub fn open(state: State, filled: usize, line: &mut [u8], out: &mut [u8]) -> Step
    requires { (filled ≤ length line.old) × (message_room ≤ length out.old) }
    ensures value { (rows : List ℤ) → result ≡ answered (opens_as state (line_says (take filled line.old)) line.old rows) }
    ensures line_after { (rows : List ℤ) → line.new ≡ (opens_as state (line_says (take filled line.old)) line.old rows).line }
    ensures out_after { (rows : List ℤ) → out.new ≡ sets out.old 0 (opens_as state (line_says (take filled line.old)) line.old rows).text }
    ensures given_le_message_room { result.given ≤ message_room }
{
    let Some(said) = said_by(&line[..filled]) else {
        let given = records::bad(out, state.number);
        return Step {
            state: next_line(state, state.holding),
            taken: 0,
            given,
        };
    };
    stretch_in(line, said.first, said.bits);
    Step {
        state: State {
            work: Work::Walking(said.bits, START),
            ..state
        },
        taken: 0,
        given: 0,
    }
}
