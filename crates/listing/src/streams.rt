// Where input comes from and text goes.
ghost use Rattle.std.specs.Prelude.{◌≡◌, ◌≤◌, IsNone, IsSome, Some, length, take};
ghost use Rattle.std.specs.Io.KnownBytes.{Appends, Consumes};

use std::io;
use std::io::{Read, Write};

// The two, and the first failure so far to read or to write, where there was one.
#[derive(Drop)]
pub struct Streams<R, W> {
    pub input: R,
    pub output: W,
    pub failure: Option<io::Error>,
}

impl<R: Read, W: Write> Streams<R, W> {
    pub fn new(input: R, output: W) -> Self
        ensures input { result.input ≡ input }
        ensures output { result.output ≡ output }
        ensures failure { IsNone result.failure }
    {
        Self {
            input,
            output,
            failure: None,
        }
    }

    // Reads once: how many bytes came, none at the input's end and where reading fails.
    pub fn read_once(&mut self, buffer: &mut [u8]) -> usize
        ensures bound { result ≤ length buffer.new }
        ensures bytes { IsNone self.new.failure → Consumes (R.remaining self.old.input) (R.remaining self.new.input) (take result buffer.new) }
        ensures output { self.new.output ≡ self.old.output }
        ensures fine { IsNone self.new.failure → IsNone self.old.failure }
    {
        match self.input.read(buffer) {
            Ok(n) => n,
            Err(error) => {
                self.note(error);
                0
            }
        }
    }

    pub fn write_all(&mut self, text: &[u8])
        ensures bytes { IsNone self.new.failure → Appends (W.contents self.old.output) (W.contents self.new.output) text.now }
        ensures input { self.new.input ≡ self.old.input }
        ensures fine { IsNone self.new.failure → IsNone self.old.failure }
    {
        if let Err(error) = self.output.write_all(text) {
            self.note(error);
        }
    }

    // A failure, which is kept unless there was one before.
    pub fn note(&mut self, error: io::Error)
        ensures kept { IsSome self.old.failure → self.new.failure ≡ self.old.failure }
        ensures noted { IsNone self.old.failure → self.new.failure ≡ Some error }
        ensures failed { IsSome self.new.failure }
        ensures input { self.new.input ≡ self.old.input }
        ensures output { self.new.output ≡ self.old.output }
    {
        if self.failure.is_none() {
            self.failure = Some(error);
        }
    }
}
