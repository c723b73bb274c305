// The writer of one message (document 01, "Writer").
#![tactic(auto)]

pub mod front;
pub mod gate;
pub mod message;
pub mod plan;
pub mod planning;
pub mod room;

ghost use Rattle.std.specs.Prelude.{◌≡◌, true, ◌≤◌};
ghost use Rattle.format.specs.Writing.{limit, writing, bytes_after};
ghost use Rattle.holding.specs.Outlines.{whole_of};
ghost use Rattle.holding.specs.Pictures.{lent_by, sound};
ghost use Rattle.writer.specs.Stages.{answered};
ghost use Rattle.writer.specs.Writings.{Passed, past_gate};

use crate::gate::Gate;
use crate::planning::{Asked, Planned};
use crate::room::limit;
use format::{Head, Refusal};
use holding::{Holding, Outline};
use table::Kind;

// How writing ends: done, with the place after the message, or refused.
#[derive(Clone, Copy)]
pub enum Writing {
    Done(usize),
    Refused(Refusal),
}

// How many numbers a row has.
const ROW: usize = 8;

// Past the gate, a message that is no mask: 12 where head and rows do not fit, 1 where the message does not, and only then the first bit.
fn past(
    outline: Outline,
    masks: &[u64],
    strips: &[u16],
    asked: Asked,
    rows: &[i32],
    bytes: &mut [u8],
) -> Writing
    requires { (sound (whole_of outline masks.now strips.now) ≡ true) × Passed outline asked × (asked.start ≤ limit bytes.old) }
    ensures value { result ≡ answered asked.start (past_gate (whole_of outline masks.now strips.now) asked rows.now bytes.old) }
    ensures bytes_after { bytes.new ≡ bytes_after (past_gate (whole_of outline masks.now strips.now) asked rows.now bytes.old) bytes.old asked.start }
{
    if asked.count > rows.len() / ROW {
        return Writing::Refused(Refusal::Value);
    }
    let planned = planning::of(outline, masks, strips, asked, rows);
    let Planned::Message(plan) = planned else {
        return Writing::Refused(Refusal::Value);
    };
    let end = ROW * asked.count;
    message::with_rows(outline, masks, strips, plan, &rows[..end], bytes)
}

// Writes a message of a head and so many rows at a bit place of the lent bytes. Every test comes before the first bit
// is set; bits outside the message keep their values.
pub fn write(
    holding: Holding,
    head: Head,
    rows: &[i32],
    count: usize,
    bytes: &mut [u8],
    start: usize,
) -> Writing
    ensures value { result ≡ answered start (writing (lent_by holding) head rows.now count bytes.old start) }
    ensures bytes_after { bytes.new ≡ bytes_after (writing (lent_by holding) head rows.now count bytes.old start) bytes.old start }
{
    if start > limit(bytes) {
        return Writing::Refused(Refusal::Place);
    }
    let masks = holding.satellites;
    let strips = holding.strips;
    let outline = holding.outline();
    if !outline.is_sound(&masks, &strips) {
        return Writing::Refused(Refusal::Value);
    }
    let kind = gate::kind_in(head.subtype);
    let gate = gate::of(kind, outline.held, outline.iod, head);
    if let Gate::Shut(r) = gate {
        return Writing::Refused(r);
    }
    let asked = Asked {
        kind,
        head,
        count,
        start,
    };
    if let Kind::Mask = kind {
        return message::of_mask(outline, &masks, &strips, asked, bytes);
    }
    past(outline, &masks, &strips, asked, rows, bytes)
}
