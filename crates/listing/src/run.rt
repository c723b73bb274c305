// A run of the program: input into the listing's steps, their text to standard output.
ghost use Rattle.std.specs.Prelude.{◌≡◌, ◌+◌, ◌≤◌, true, IsNone, [], cond, length, take};
ghost use Rattle.std.specs.Io.KnownBytes.{Appends};
ghost use Rattle.format.specs.Saved.{saving, buffer_after};
ghost use Rattle.holding.specs.Pictures.{mask_of, lent_by, sound};
ghost use Rattle.lines.specs.Records.{message_room};
ghost use Rattle.lister.specs.Steps.{Good};

use crate::asked::Asked;
use crate::streams::Streams;
use format::ROOM;
use lines::records::MESSAGE_ROOM;
use lister::{LINE_ROOM, State, Step, Work, advance};
use std::io;
use std::io::{Read, Write};

// The number of the first line.
const FIRST: u64 = 1;

// How many bytes of input come at once at most, and how many of text wait.
pub const BUFFER: usize = 65536;

// Where input comes from and text goes; whether text is shown at all; the listing's state, with the line and the rows that
// are under way; and the text that waits to be written, the first bytes of a buffer.
#[derive(Drop)]
pub struct Run<R, W> {
    pub streams: Streams<R, W>,
    shown: bool,
    state: State,
    line: [u8; LINE_ROOM],
    rows: [i32; ROOM],
    waiting: usize,
    out: [u8; BUFFER],
    ghost waits: { waiting ≤ 65536 },
}

impl<R: Read, W: Write> Run<R, W> {
    pub fn new(streams: Streams<R, W>, asked: Asked) -> Self
        requires { sound asked.holding ≡ true }
        ensures good { Good result.state result.line result.rows }
    {
        Self {
            streams,
            shown: asked.shown,
            state: State {
                number: FIRST,
                work: Work::Gathering(0),
                holding: asked.holding,
            },
            line: [0; LINE_ROOM],
            rows: [0; ROOM],
            waiting: 0,
            out: [0; BUFFER],
        }
    }

    // Writes what waits.
    pub fn flush(&mut self)
        ensures none_waits { self.new.waiting ≡ 0 }
        ensures shown { self.new.shown ≡ self.old.shown }
        ensures bytes { IsNone self.new.streams.failure → Appends (W.contents self.old.streams.output) (W.contents self.new.streams.output) (cond self.old.shown (take self.old.waiting self.old.out) []) }
        ensures input { self.new.streams.input ≡ self.old.streams.input }
        ensures fine { IsNone self.new.streams.failure → IsNone self.old.streams.failure }
        ensures state { self.new.state ≡ self.old.state }
        ensures line { self.new.line ≡ self.old.line }
        ensures rows { self.new.rows ≡ self.old.rows }
        ensures text { self.new.out ≡ self.old.out }
    {
        if self.shown {
            self.streams.write_all(&self.out[..self.waiting]);
        }
        self.waiting = 0;
    }

    // Sees to room for a message.
    pub fn make_room(&mut self)
        ensures message_room_in_bounds { self.new.waiting + message_room ≤ 65536 }
        ensures state { self.new.state ≡ self.old.state }
        ensures line { self.new.line ≡ self.old.line }
        ensures rows { self.new.rows ≡ self.old.rows }
        ensures text { self.new.out ≡ self.old.out }
    {
        if BUFFER - self.waiting < MESSAGE_ROOM {
            self.flush();
        }
    }

    // One step from a state. While a piece is listed the state is handed from step to step, and not kept beside the buffers,
    // where each step would copy it.
    fn step(&mut self, state: State, piece: &[u8]) -> Step
        requires { Good state self.old.line self.old.rows }
        ensures good { Good result.state self.new.line self.new.rows }
        ensures taken_in_bounds { result.taken ≤ length piece.now }
    {
        self.make_room();
        let step = advance(
            state,
            &mut self.line,
            &mut self.rows,
            piece,
            &mut self.out[self.waiting..],
        );
        self.waiting += step.given;
        step
    }

    // Whether the listing waits for input, all of a piece of so many bytes being taken; where there was none, whether it has
    // come to its end.
    fn is_idle(state: State, taken: usize, count: usize) -> bool {
        match state.work {
            Work::Gathering(filled) => taken >= count && (count > 0 || filled == 0),
            Work::Whole(_) | Work::Walking(_, _) => false,
        }
    }

    // Steps until all of a piece is taken, and all is listed that it brought. No piece says that the input has ended.
    pub fn pour(&mut self, piece: &[u8])
        requires { Good self.old.state self.old.line self.old.rows }
        ensures good { Good self.new.state self.new.line self.new.rows }
        ensures room { self.new.waiting + message_room ≤ 65536 }
    {
        let mut state = self.state;
        let mut taken = 0;
        for _ in 0..u64::MAX {
            if Self::is_idle(state, taken, piece.len()) {
                break;
            }
            let step = self.step(state, &piece[taken..]);
            state = step.state;
            taken += step.taken;
        }
        self.state = state;
        self.make_room();
    }

    // Lists the whole input, read into a buffer piece by piece; a reading that fails ends it, too. A proved loop has to end,
    // and nothing says that an input does: so the loop has a number of turns that no run uses up.
    pub fn list(&mut self, input: &mut [u8])
        requires { Good self.old.state self.old.line self.old.rows }
        ensures good { Good self.new.state self.new.line self.new.rows }
        ensures room { self.new.waiting + message_room ≤ 65536 }
    {
        for _ in 0..u64::MAX {
            let n = self.streams.read_once(input);
            self.pour(&input[..n]);
            if n == 0 || self.streams.failure.is_some() {
                break;
            }
        }
        self.make_room();
    }

    // Writes the mask that is held, as a saved line that the buffer for text then begins with.
    pub fn print_mask(&mut self)
        ensures text { self.new.out ≡ buffer_after (saving (lent_by self.old.state.holding) self.old.out) (mask_of self.old.state.holding) self.old.out }
        ensures state { self.new.state ≡ self.old.state }
        ensures line { self.new.line ≡ self.old.line }
        ensures rows { self.new.rows ≡ self.old.rows }
        ensures waiting { self.new.waiting ≡ self.old.waiting }
        ensures shown { self.new.shown ≡ self.old.shown }
    {
        match saved::save(self.state.holding, &mut self.out) {
            Ok(n) => self.streams.write_all(&self.out[..n]),
            Err(_) => self.streams.note(io::Error::other("no mask to save")),
        }
    }
}
