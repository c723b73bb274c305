// The gate before a message (document 01, "Writer"): 5, 6, 7 and 11, in this order.
ghost use Rattle.std.specs.Prelude.{◌≡◌, cond, ◌&&◌, ◌≤◌, pos};
ghost use Rattle.format.specs.declared.Refusal.TheVariants.{Network};
ghost use Rattle.format.specs.Same.{sameℤ};
ghost use Rattle.writer.specs.Kinds.{kind_at, issue_gate, gate_by};

use format::{Head, Refusal};
use pens::number::{is, word};
use table::{Kind, kind_of};

// Open, or shut by a refusal.
#[derive(Clone, Copy)]
pub enum Gate {
    Open,
    Shut(Refusal),
}

// The kind of a head's sub type: the bits of a negative one are a number past the table.
pub fn kind_in(subtype: i32) -> Kind
    ensures { result ≡ kind_at subtype }
{
    kind_of(word(subtype) as usize)
}

// Under a mask: one is held, and of the head's issue.
fn issue(held: bool, iod: u8, head: Head, behind: Gate) -> Gate
    ensures { result ≡ issue_gate held iod head behind }
{
    if !held {
        return Gate::Shut(Refusal::NoMask);
    }
    if !is(head.iod, iod as u64) {
        return Gate::Shut(Refusal::OtherIssue);
    }
    behind
}

// Behind flags a network is not 0.
fn network(flagged: bool, c: i32) -> Gate
    ensures { result ≡ cond (flagged && sameℤ c (pos 0)) (Gate.Shut Network) Gate.Open }
{
    if !flagged {
        return Gate::Open;
    }
    if is(c, 0) {
        return Gate::Shut(Refusal::Network);
    }
    Gate::Open
}

// By the kind of the sub type.
#[tactic(auto, unfolding(crate::specs::Kinds::gate_by))]
pub fn of(kind: Kind, held: bool, iod: u8, head: Head) -> Gate
    ensures { result ≡ gate_by kind held iod head }
{
    match kind {
        Kind::Other => Gate::Shut(Refusal::SubType),
        Kind::Packet => Gate::Open,
        Kind::Mask => issue(held, iod, head, Gate::Open),
        Kind::Masked(layout) => issue(held, iod, head, network(layout.flagged, head.c)),
    }
}
