// What is planned of a message with rows before the first bit is set, as far as its head goes.
ghost use Rattle.std.specs.Prelude.{◌≡◌, true, cond, ◌≤◌};
ghost use Rattle.format.specs.Rows.{absent};
ghost use Rattle.format.specs.Same.{sameℤ};
ghost use Rattle.fitting.specs.FitHeads.{network_fits};
ghost use Rattle.writer.specs.Plans.{alone_head, alone_plan, flagged_head, flagged_plan, packet_bare, packet_head, packet_plan};

use crate::front;
use format::Head;
use pens::number::{fits, is, is_absent, word};
use pens::pen::Pen;
use putting::marks::Selected;
use rows::shapes;
use table::{ALL, Body, Keys, Layout};

// What stands before selection and body is gathered in the pen; the selection of a network has a bit for each of so
// many satellites, none without one; then the body. Where the selection was told by rows, these have so many numbers.
#[derive(Clone, Copy)]
pub struct Plan {
    pub pen: Pen,
    pub marked: usize,
    pub chosen: u64,
    pub keyed: bool,
    pub told: usize,
    pub body: Body,
}

// How many bits these have in a head: a flag, a network, a packet's counter and data size.
const FLAG: usize = 1;

const NETWORK: usize = 5;

const COUNTER: usize = 3;

const SIZE: usize = 2;

// Rows alone after the common head: whether its numbers fit.
pub fn alone_fits(head: Head) -> bool
    ensures { result ≡ alone_head head }
{
    front::common_fits(head, front::EPOCH)
        & (is_absent(head.a) & (is_absent(head.b) & is_absent(head.c)))
}

// Their plan.
pub fn alone(head: Head, layout: Layout, start: usize) -> Plan
    ensures { result ≡ alone_plan head layout start }
{
    Plan {
        pen: front::common(head, start),
        marked: 0,
        chosen: ALL,
        keyed: false,
        told: 0,
        body: Body {
            keys: table::over(layout.cells, ALL),
            shape: layout.shape,
        },
    }
}

// Whether there is no network, or one from 1 to 31.
fn network_fits(network: i32) -> bool
    ensures { result ≡ network_fits network }
{
    if is_absent(network) {
        return true;
    }
    if is(network, 0) {
        return false;
    }
    fits(network, NETWORK)
}

// Behind flags: whether the head's numbers fit.
pub fn flagged_fits(head: Head) -> bool
    ensures { result ≡ flagged_head head }
{
    front::common_fits(head, front::EPOCH)
        & (fits(head.a, FLAG) & (fits(head.b, FLAG) & network_fits(head.c)))
}

// How many bits a selection has: one for each of n satellites, none without a network.
fn marks_of(network: i32, n: usize) -> usize
    ensures { result ≡ cond (sameℤ network absent) 0 n }
{
    if is_absent(network) { 0 } else { n }
}

// Their plan, the first of four shapes being for neither flag. Rows of cells are tested key by key, whoever told the
// selection.
pub fn flagged(head: Head, layout: Layout, start: usize, selected: Selected, n: usize) -> Plan
    requires { (flagged_head head ≡ true) × (layout.shape ≤ 255) }
    ensures { result ≡ flagged_plan head layout start selected n }
{
    let flags = word(head.a) * 2 + word(head.b);
    Plan {
        pen: front::flagged(head, start),
        marked: marks_of(head.c, n),
        chosen: selected.word,
        keyed: !layout.cells & !is_absent(head.c),
        told: selected.told,
        body: Body {
            keys: table::over(layout.cells, selected.word),
            shape: layout.shape + (flags as usize),
        },
    }
}

// What a packet's part does not have.
fn packet_bare(head: Head) -> bool
    ensures { result ≡ packet_bare head }
{
    is_absent(head.epoch) & (is_absent(head.interval) & (is_absent(head.iod) & is_absent(head.c)))
}

// A packet's part: whether the head's numbers fit.
pub fn packet_fits(head: Head) -> bool
    ensures { result ≡ packet_head head }
{
    packet_bare(head)
        & (fits(head.indicator, front::INDICATOR) & (fits(head.a, COUNTER) & fits(head.b, SIZE)))
}

// Its plan: a row more than the data size says.
pub fn packet(head: Head, start: usize) -> Plan
    requires { packet_head head ≡ true }
    ensures { result ≡ packet_plan head start }
{
    let parts = (word(head.b) as usize) + 1;
    Plan {
        pen: front::packet(head, start),
        marked: 0,
        chosen: ALL,
        keyed: false,
        told: 0,
        body: Body {
            keys: Keys::Parts(parts),
            shape: shapes::PACKET,
        },
    }
}
