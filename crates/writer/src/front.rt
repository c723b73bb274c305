// What stands before selection and body of a message: a head's numbers, gathered in a pen.
ghost use Rattle.std.specs.Prelude.{◌≡◌, true, ◌++◌, ◌^◌, ◌≤◌, ◌<◌};
ghost use Rattle.fitting.specs.FitHeads.{number_fits, common_fits};
ghost use Rattle.writer.specs.Fronts.{pen_at, opening_field, last_field, front_fields, flag_fields, packet_fields, mask_front};
ghost use Rattle.pens.specs.Pens.{pen_after};

use format::Head;
use pens::number::{fits, is_absent, word};
use pens::pen::Pen;

// How many bits the numbers of a head have.
pub const EPOCH: usize = 12;

pub const MASK_EPOCH: usize = 20;

pub const INTERVAL: usize = 4;

pub const INDICATOR: usize = 1;

pub const IOD: usize = 4;

// The message number, in front of four bits of the sub type.
const NUMBER: u64 = 4073 * 16;

// Message number and sub type.
fn opening(head: Head) -> u64
    ensures value { result ≡ (opening_field head).value }
    ensures upper_bound { result < 2 ^ 33 }
{
    NUMBER + word(head.subtype)
}

// Interval, indicator and IOD SSR.
fn last(head: Head) -> u64
    ensures value { result ≡ (last_field head).value }
    ensures upper_bound { result < 2 ^ 38 }
{
    (word(head.interval) * 2 + word(head.indicator)) * 16 + word(head.iod)
}

// The common head: 37 bits.
pub fn common(head: Head, start: usize) -> Pen
    ensures value { result ≡ pen_after (pen_at start) (front_fields 12 head) }
    ensures gathered_bound { result.gathered < 2 ^ 55 }
{
    Pen {
        place: start,
        width: 37,
        gathered: (opening(head) * 4096 + word(head.epoch)) * 512 + last(head),
    }
}

// And three flags, with a network where there is one.
pub fn flagged(head: Head, start: usize) -> Pen
    ensures { result ≡ pen_after (pen_at start) (front_fields 12 head ++ flag_fields head) }
{
    let front = common(head, start);
    let flags = (word(head.a) * 2 + word(head.b)) * 2;
    if is_absent(head.c) {
        return Pen {
            place: start,
            width: 40,
            gathered: front.gathered * 8 + flags,
        };
    }
    Pen {
        place: start,
        width: 45,
        gathered: front.gathered * 256 + (flags + 1) * 32 + word(head.c),
    }
}

// A packet's part: 22 bits.
pub fn packet(head: Head, start: usize) -> Pen
    ensures { result ≡ pen_after (pen_at start) (packet_fields head) }
{
    let counted = (word(head.indicator) * 8 + word(head.a)) * 4 + word(head.b);
    Pen {
        place: start,
        width: 22,
        gathered: opening(head) * 64 + counted,
    }
}

// Whether epoch, interval, indicator and IOD SSR are numbers of their fields, the epoch of so many bits.
pub fn common_fits(head: Head, epoch: usize) -> bool
    requires { epoch ≤ 31 }
    ensures { result ≡ common_fits epoch head }
{
    fits(head.epoch, epoch)
        & (fits(head.interval, INTERVAL) & (fits(head.indicator, INDICATOR) & fits(head.iod, IOD)))
}

// A mask's head with its number of systems: 49 bits.
pub fn mask(head: Head, start: usize) -> Pen
    requires { (common_fits 20 head ≡ true) × (number_fits 4 head.subtype ≡ true) × (number_fits 4 head.a ≡ true) }
    ensures { result ≡ pen_after (pen_at start) (mask_front head) }
{
    let front = (opening(head) * 1048576 + word(head.epoch)) * 512 + last(head);
    Pen {
        place: start,
        width: 49,
        gathered: front * 16 + word(head.a),
    }
}
