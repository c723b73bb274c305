// One message, by its number and sub type.
ghost use Rattle.std.specs.Prelude.{◌≡◌, true, ◌*◌, ◌≤◌, length};
ghost use Rattle.adoption.specs.Adoptions.{head_at};
ghost use Rattle.body.specs.Lent.{Lends};
ghost use Rattle.format.specs.Messages.{mask_message};
ghost use Rattle.format.specs.Programs.{run};
ghost use Rattle.format.specs.Reading.{stretch_limit, answer_of, rows_after, bits_from};
ghost use Rattle.heads.specs.Fronts.{Opens};
ghost use Rattle.heads.specs.Sorting.{adopted_by};
ghost use Rattle.holding.specs.Outlines.{whole_of};
ghost use Rattle.holding.specs.Pictures.{mask_of, sound};
ghost use Rattle.reader.specs.Readings.{ending_answer, reading_of, read_at, unopened_at, found_at, Ready};
ghost use Rattle.reader.specs.Bodies.{AsksBody, headed_in};

use crate::Reading;
use adoption::Ending;
use bits::rest::zero_from;
use body::Placed;
use format::{Answer, Refusal};
use heads::heading::{Heading, Seen};
use heads::{FRONT, Front, Opening, heading};
use holding::{Holding, Outline};
use table::{Kind, kind_of};

// What is found at a place: a mask message, still to be read; or the answer.
#[derive(Clone, Copy)]
pub enum Found {
    Mask,
    Answered(Answer),
}

// The body that a heading says: its length is tested once, and only then are its rows written, and the slots and strips
// lent for them: a message without rows copies none.
fn body_of(
    outline: Outline,
    ids: &[u8],
    masks: &[u64],
    strips: &[u16],
    heading: Heading,
    bytes: &[u8],
    end: usize,
    rows: &mut [i32],
) -> Answer
    requires { AsksBody (whole_of outline masks.now strips.now) heading ids.now bytes.now end rows.old }
    ensures value { result ≡ answer_of (headed_in (whole_of outline masks.now strips.now) heading bytes.now end) }
    ensures rows_after { rows.new ≡ rows_after (headed_in (whole_of outline masks.now strips.now) heading bytes.now end) rows.old }
{
    match heading {
        Heading::Refused(r, missing) => Answer::Refused(r, missing),
        Heading::Rows(head, body, at) => {
            let size = body::size(
                outline.nsat as usize,
                outline.ncell,
                ids,
                masks,
                strips,
                body,
            );
            let left = end - at;
            if left < size.bits {
                return Answer::Refused(Refusal::Short, size.bits - left);
            }
            if size.rows == 0 {
                return Answer::Message(head, at + size.bits, 0);
            }
            let placed = Placed {
                body,
                bits: size.bits,
                rows: size.rows,
                at,
            };
            body::fill(ids, masks, strips, placed, bytes, rows);
            Answer::Message(head, at + size.bits, size.rows)
        }
    }
}

// The answer to a mask message at a place, by where it ends. Its head is read here, and only where it is accepted.
pub fn mask_answer(ending: Ending, bytes: &[u8], place: usize) -> Answer
    ensures { result ≡ ending_answer (head_at bytes.now place) ending }
{
    match ending {
        Ending::Behind(next) => Answer::Message(adoption::head_at(bytes, place), next, 0),
        Ending::Refused(r, missing) => Answer::Refused(r, missing),
    }
}

// A mask message behind its number and sub type.
pub fn adopted(holding: Holding, bytes: &[u8], end: usize, place: usize) -> Reading
    requires { (end ≤ 8 * length bytes.now) × (end ≤ stretch_limit) × (place ≤ end) × (sound holding ≡ true) }
    ensures { result ≡ reading_of holding (adopted_by (mask_of holding) place (run mask_message (bits_from bytes.now end place))) }
{
    let mut satellites = holding.satellites;
    let mut strips = holding.strips;
    let mut held = holding.outline();
    let adoption = adoption::adopt(held, bytes, end, place, &mut satellites, &mut strips);
    let ending = adoption.ending;
    if !adoption.kept {
        held = held.adopt(adoption.outline);
    }
    Reading {
        answer: mask_answer(ending, bytes, place),
        holding: held.with(satellites, strips),
    }
}

// What answers to a refusal that comes before the sub type: idle where no bit is set. A set bit of a front that the
// stretch has whole is seen at once. (That all bits of the front matter here also keeps its reading one load.)
fn unopened(front: Front, bytes: &[u8], r: Refusal, missing: usize) -> Answer
    requires { Opens bytes.now front }
    ensures { result ≡ unopened_at bytes.now front.end front.start r missing }
{
    if front.bits != 0 && front.end - front.start >= FRONT {
        return Answer::Refused(r, missing);
    }
    if zero_from(bytes, front.end, front.start) {
        return Answer::Idle;
    }
    Answer::Refused(r, missing)
}

// Reads any message but a mask. Number and sub type come first: where they are read, some bit is set. What was held is
// held after it.
pub fn find(
    outline: Outline,
    ids: &[u8],
    masks: &[u64],
    strips: &[u16],
    bytes: &[u8],
    end: usize,
    start: usize,
    rows: &mut [i32],
) -> Found
    requires { Ready (whole_of outline masks.now strips.now) bytes.now end rows.old × Lends (whole_of outline masks.now strips.now) ids.now masks.now strips.now × (start ≤ end) }
    ensures value { result ≡ found_at (whole_of outline masks.now strips.now) bytes.now end start }
    ensures rows_after { rows.new ≡ rows_after (read_at (whole_of outline masks.now strips.now) bytes.now end start) rows.old }
{
    let front = heads::front_at(bytes, end, start);
    let opening = heads::open(front);
    match opening {
        Opening::Refused(r, missing) => Found::Answered(unopened(front, bytes, r, missing)),
        Opening::SubType(n) => {
            let kind = kind_of(n);
            if let Kind::Mask = kind {
                return Found::Mask;
            }
            let seen = Seen {
                held: outline.held,
                iod: outline.iod,
                n: outline.nsat as usize,
                subtype: n,
            };
            let heading = heading::of(kind, seen, strips, front, bytes);
            let answer = body_of(outline, ids, masks, strips, heading, bytes, end, rows);
            Found::Answered(answer)
        }
    }
}
