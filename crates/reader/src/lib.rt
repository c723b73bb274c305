// What one message comes to (document 01, "Reader's order"): the tests of what is lent, 1, 2, 12; then what stands at the
// place (message.rt), and the message's bytes (raw.rt).
#![tactic(auto)]

pub mod message;
pub mod raw;

ghost use Rattle.std.specs.Prelude.{◌≡◌, false};
ghost use Rattle.format.specs.Reading.{placed, lent_tests};
ghost use Rattle.reader.specs.Readings.{tested_by};

use format::{Answer, ROOM, Refusal, STRETCH};
use holding::Holding;

// The answer, and what is held after it.
#[derive(Clone, Copy)]
pub struct Reading {
    pub answer: Answer,
    pub holding: Holding,
}

// Whether a stretch of so many bits is within its limit and the bytes lent, and a place is within it.
pub fn is_placed(bytes: &[u8], end: usize, start: usize) -> bool
    ensures { result ≡ placed bytes.now end start }
{
    if end > STRETCH {
        return false;
    }
    if bytes.len() < (end + 7) / 8 {
        return false;
    }
    start <= end
}

// What is lent for a reading is good, or refused.
#[derive(Clone, Copy)]
pub enum Verdict {
    Good,
    Refused(Refusal),
}

// The tests of what is lent, in their order: room for rows, the place, the holding. Whether that is one the caller has
// seen, so that no holding is handed on for it.
pub fn tested(held: bool, bytes: &[u8], end: usize, start: usize, room: usize) -> Verdict
    ensures { result ≡ tested_by (lent_tests held bytes.now end start room) }
{
    if room < ROOM {
        return Verdict::Refused(Refusal::Room);
    }
    if !is_placed(bytes, end, start) {
        return Verdict::Refused(Refusal::Place);
    }
    if !held {
        return Verdict::Refused(Refusal::Value);
    }
    Verdict::Good
}

// Why a reading is refused where what is lent is no holding: what refuses it even with one comes first, then 12.
pub fn unheld(bytes: &[u8], end: usize, start: usize, room: usize) -> Refusal
    ensures { tested_by (lent_tests false bytes.now end start room) ≡ Verdict.Refused result }
{
    let verdict = tested(true, bytes, end, start, room);
    match verdict {
        Verdict::Refused(r) => r,
        Verdict::Good => Refusal::Value,
    }
}
