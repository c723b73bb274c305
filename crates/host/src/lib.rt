// For a host written in C (docs/HOST.md, include/hundurzek.h): numbers and lent slices, and nothing of its own.
#![tactic(auto)]

pub mod texts;

ghost use Rattle.std.specs.Prelude.{◌≡◌, true, ℕ, ◌≤◌, length};
ghost use Rattle.format.specs.Answers as Said;
ghost use Rattle.format.specs.Answers.{said_at};
ghost use Rattle.format.specs.Ends.{Within};
ghost use Rattle.format.specs.Messages.{mask_message};
ghost use Rattle.format.specs.Programs.{run};
ghost use Rattle.format.specs.Reading.{bits_from, lent_after, answer_of, over, rows_after};
ghost use Rattle.heads.specs.Sorting.{adopted_by};
ghost use Rattle.holding.specs.Outlines.{whole_of};
ghost use Rattle.holding.specs.Pictures.{mask_of, sound};
ghost use Rattle.passing.specs.Passing.{size, bytes_of, holding_in};
ghost use Rattle.reader.specs.Readings.{sought_at};
ghost use Rattle.host.specs.Handing.{handed_by, handed, number_said, missing_said, bytes_after, holding_bytes, host_outcome, host_walk, walked_at, walked_to, changing, left_bytes, walk_bytes, emptied, emptied_number};

use bits::part::{begins, counts};
use format::{ABSENT, Answer, Head, Refusal, number};
use heads::OPENING;
use holding::{Holding, Outline};
use passing::give::holding_over;
use passing::take;
use reader::message::{Found, mask_answer};
use reader::unheld;
use walk::{START, Tally};

// What a reading hands out: the answer's number, the place after the message or the start asked for, how many bits were
// missing, the row count, where the raw part begins and how many bytes it has, the head. Numbers, as C has them.
#[repr(C)]
#[derive(Clone, Copy)]
pub struct Handed {
    pub answer: u64,
    pub place: usize,
    pub missing: usize,
    pub rows: usize,
    pub offset: usize,
    pub count: usize,
    pub head: Head,
}

// What a walk comes to: the stop's number and place, how many bits were missing, and how many messages and rows were
// handed out before it.
#[repr(C)]
#[derive(Clone, Copy)]
pub struct Walked {
    pub answer: u64,
    pub place: usize,
    pub missing: usize,
    pub messages: usize,
    pub rows: usize,
}

// The answer to a message.
const MESSAGE: u64 = 255;

// Document 01's number of a stop, and the one for a message.
#[tactic(auto, unfolding(crate::specs::Handing::number_said, format::specs::Answers::said_at))]
fn answer_number(answer: Answer) -> u64
    ensures { (place : ℕ) → result ≡ number_said (said_at place answer) }
{
    match answer {
        Answer::Message(..) => MESSAGE,
        Answer::Idle => 0,
        Answer::Refused(r, _) => number(r),
    }
}

// How many bits were missing (document 02, Ask 7).
#[tactic(auto, unfolding(crate::specs::Handing::missing_said, format::specs::Answers::said_at))]
fn answer_missing(answer: Answer) -> usize
    ensures { (place : ℕ) → result ≡ missing_said (said_at place answer) }
{
    match answer {
        Answer::Message(..) | Answer::Idle => 0,
        Answer::Refused(_, missing) => missing,
    }
}

// Idle or a refusal: nothing was read.
#[tactic(auto, unfolding(crate::specs::Handing::handed_by, crate::specs::Handing::no_head))]
fn stop(number: u64, start: usize, missing: usize) -> Handed
    ensures { result ≡ handed_by start (Said.stop number start missing) }
{
    Handed {
        answer: number,
        place: start,
        missing,
        rows: 0,
        offset: 0,
        count: 0,
        head: Head {
            subtype: ABSENT,
            epoch: ABSENT,
            interval: ABSENT,
            indicator: ABSENT,
            iod: ABSENT,
            a: ABSENT,
            b: ABSENT,
            c: ABSENT,
        },
    }
}

// A message.
#[tactic(auto, unfolding(crate::specs::Handing::handed_by))]
fn message(head: Head, start: usize, next: usize, rows: usize) -> Handed
    ensures { result ≡ handed_by start (Said.message head next rows) }
{
    Handed {
        answer: MESSAGE,
        place: next,
        missing: 0,
        rows,
        offset: begins(start, next),
        count: counts(start, next),
        head,
    }
}

// What an answer to reading at a start hands out. (No `From`: of the answer alone it does not follow.)
#[tactic(auto, unfolding(format::specs::Answers::said_at))]
fn hand(answer: Answer, start: usize) -> Handed
    ensures { result ≡ handed_by start (said_at start answer) }
{
    match answer {
        Answer::Idle => stop(0, start, 0),
        Answer::Refused(r, missing) => stop(number(r), start, missing),
        Answer::Message(head, next, n) => message(head, start, next, n),
    }
}

// Reads the mask message behind its number and sub type: the holding's bytes become those of what is held after it. (They
// are opened in parts: a holding made of them, to be taken apart, would stay on the stack.)
fn adopt(holding: &mut [u8], bytes: &[u8], end: usize, place: usize) -> Answer
    requires { Within bytes.now end place × (sound (holding_in holding.old) ≡ true) × (size ≤ length holding.old) × (over (bytes_of (holding_in holding.old)) holding.old ≡ holding.old) }
    ensures value { result ≡ answer_of (adopted_by (mask_of (holding_in holding.old)) place (run mask_message (bits_from bytes.now end place))) }
    ensures holding_after { holding.new ≡ bytes_after (lent_after (adopted_by (mask_of (holding_in holding.old)) place (run mask_message (bits_from bytes.now end place)))) holding.old }
{
    let mut satellites = take::satellites(holding);
    let mut strips = take::strips(holding);
    let mut held = take::outline(holding);
    let adoption = adoption::adopt(held, bytes, end, place, &mut satellites, &mut strips);
    if !adoption.kept {
        held = held.adopt(adoption.outline);
    }
    holding_over(holding, held, &satellites, &strips);
    let ending = adoption.ending;
    mask_answer(ending, bytes, place)
}

// Makes the empty holding.
#[tactic(auto, unfolding(crate::specs::Handing::emptied, crate::specs::Handing::emptied_number))]
pub fn hundurzek_empty(holding: &mut [u8]) -> u64
    ensures value { result ≡ emptied_number holding.old }
    ensures holding_after { holding.new ≡ emptied holding.old }
{
    if holding.len() < passing::SIZE {
        return 1;
    }
    let empty = Holding::empty();
    holding_over(holding, empty.outline(), &empty.satellites, &empty.strips);
    0
}

// Reads one message, unless it is a mask. What is held is here alone: it and the holding that a mask makes can then lie
// at the same place of the stack.
fn sought(holding: &[u8], bytes: &[u8], end: usize, start: usize, rows: &mut [i32]) -> Found
    ensures value { result ≡ sought_at (holding_in holding.now) bytes.now end start (length rows.old) }
    ensures rows_after { rows.new ≡ rows_after (host_outcome holding.now bytes.now end start rows.old) rows.old }
{
    if !take::passes(holding) {
        let refusal = unheld(bytes, end, start, rows.len());
        return Found::Answered(Answer::Refused(refusal, 0));
    }
    let satellites = take::satellites(holding);
    let strips = take::strips(holding);
    let outline = take::outline(holding);
    let is = outline.is_sound(&satellites, &strips);
    walk::single::seek_under(is, outline, &satellites, &strips, bytes, end, start, rows)
}

// Reads one message.
pub fn hundurzek_read(
    holding: &mut [u8],
    bytes: &[u8],
    end: usize,
    start: usize,
    rows: &mut [i32],
) -> Handed
    ensures value { result ≡ handed start (host_outcome holding.old bytes.now end start rows.old) }
    ensures holding_after { holding.new ≡ holding_bytes (host_outcome holding.old bytes.now end start rows.old) holding.old }
    ensures rows_after { rows.new ≡ rows_after (host_outcome holding.old bytes.now end start rows.old) rows.old }
{
    let found = sought(holding, bytes, end, start, rows);
    match found {
        Found::Answered(answer) => hand(answer, start),
        Found::Mask => hand(adopt(holding, bytes, end, start + OPENING), start),
    }
}

// What a walk comes to.
fn halted(stop: Answer, tally: Tally) -> Walked
    ensures { result ≡ walked_at stop tally }
{
    Walked {
        answer: answer_number(stop),
        place: tally.place,
        missing: answer_missing(stop),
        messages: tally.messages,
        rows: tally.rows,
    }
}

// Whether a walk changed what is held, or may have: it accepted a message, or dropped it (document 02, Ask 2).
#[tactic(auto, unfolding(crate::specs::Handing::changing, crate::specs::Handing::number_said, format::specs::Answers::said_at, format::specs::Answers::number_of))]
fn changes(stop: Answer, messages: usize) -> bool
    ensures { result ≡ changing stop messages }
{
    messages > 0 || matches!(stop, Answer::Refused(Refusal::Changed, _))
}

// What is held after a walk: where nothing changed, the bytes stay as they were, also such as were no holding.
#[tactic(auto, unfolding(crate::specs::Handing::left_bytes))]
fn leave(
    holding: &mut [u8],
    changed: bool,
    outline: Outline,
    satellites: &[u64; Holding::SYSTEMS],
    strips: &[u16; Holding::SATELLITES],
)
    requires { changed ≡ true → (size ≤ length holding.old) × (sound (whole_of outline satellites.now strips.now) ≡ true) }
    ensures { holding.new ≡ left_bytes changed (whole_of outline satellites.now strips.now) holding.old }
{
    if changed {
        holding_over(holding, outline, satellites, strips);
    }
}

// Reads a whole stretch, from place 0 until idle or a refusal.
pub fn hundurzek_walk(holding: &mut [u8], bytes: &[u8], end: usize, rows: &mut [i32]) -> Walked
    ensures value { result ≡ walked_to (host_walk holding.old bytes.now end rows.old) }
    ensures holding_after { holding.new ≡ walk_bytes (host_walk holding.old bytes.now end rows.old) holding.old }
    ensures rows_after { rows.new ≡ (host_walk holding.old bytes.now end rows.old).rows }
{
    if !take::passes(holding) {
        let refusal = unheld(bytes, end, 0, rows.len());
        return halted(Answer::Refused(refusal, 0), START);
    }
    let mut satellites = take::satellites(holding);
    let mut strips = take::strips(holding);
    let outline = take::outline(holding);
    let is = outline.is_sound(&satellites, &strips);
    let stopped = walk::walk_under(is, outline, &mut satellites, &mut strips, bytes, end, rows);
    let stop = stopped.stop;
    let tally = stopped.tally;
    let left = stopped.outline;
    let changed = changes(stop, tally.messages);
    leave(holding, changed, left, &satellites, &strips);
    halted(stop, tally)
}
