// The raw bytes of a message (document 01, "What is handed out").
ghost use Rattle.bits.specs.Parts.{IsPart};
ghost use Rattle.reader.specs.Readings.{raw_to};

use crate::is_placed;
use bits::part::part;
use format::Answer;

// The bytes of the message that an answer to reading at a place hands out, from the one with its first bit to
// the one with its last, as a part of the caller's own stretch; none for a stop.
pub fn raw(bytes: &[u8], start: usize, answer: Answer) -> &[u8]
    ensures { IsPart bytes.entry result start (raw_to bytes.now start answer) }
{
    match answer {
        Answer::Idle => part(bytes, 0, 0),
        Answer::Refused(_, _) => part(bytes, 0, 0),
        Answer::Message(_, next, _) => {
            if !is_placed(bytes, next, start) {
                return part(bytes, 0, 0);
            }
            part(bytes, start, next)
        }
    }
}
