// What a message says before its body: its head, the keys and the shape of its rows and where the body begins; with
// every refusal on the way there (document 01, "Reader's order").
ghost use Rattle.std.specs.Prelude.{◌≡◌, true, cond, List, ℕ, ◌+◌, ◌^◌, ◌≤◌, ◌<◌, length, take};
ghost use Rattle.bits.specs.BitLists.{spell};
ghost use Rattle.bits.specs.Places.{field};
ghost use Rattle.format.specs.Ends.{Within, end_from};
ghost use Rattle.format.specs.Masks.{pick};
ghost use Rattle.format.specs.Messages as Messages;
ghost use Rattle.holding.specs.Held.{View, sky_in};
ghost use Rattle.heads.specs.Fronts.{Opens, Opened};
ghost use Rattle.heads.specs.Heads.{common_of, Small};
ghost use Rattle.heads.specs.Headings.{head_with, chosen_at, Shows, said_by, Bodied, chosen_body, flagged_body, masked_body, packet_body, body_for, networked, network_by, after_flags, gated_by, under_by};
ghost use Rattle.heads.specs.Sorting.{heading_for};
ghost use Rattle.table.specs.Bodies.{all_set, FitsKeys};
ghost use Rattle.table.specs.Kinds.{keys_for, keys_by, LaidOut, OfTable};
ghost use Rattle.rows.specs.Table.{shape_at};
ghost use Rattle.table.specs.Shapes.{shapes_from};

use crate::{CommonHead, Front, HEADED, OPENING, taken};
use bits::read::{Widths, read_field, short_by};
use body::cells::celled;
use format::{ABSENT, Head, Refusal};
use rows::shapes;
use table::{ALL, Body, Keys, Kind, Layout};

// Head, body and the body's place; or the refusal and how many bits were missing.
#[derive(Clone, Copy)]
pub enum Heading {
    Rows(Head, Body, usize),
    Refused(Refusal, usize),
}

// A sub type that is read under the mask, where a mask of n satellites is held under an issue, or nothing: as a holding
// says it. Their strips are lent beside it.
#[derive(Clone, Copy)]
pub struct Under {
    pub held: bool,
    pub iod: u8,
    pub n: usize,
    pub subtype: usize,
    pub layout: Layout,
}

// The eight numbers, from the common head.
pub fn head(subtype: usize, h: CommonHead, a: i32, b: i32, c: i32) -> Head
    requires { (subtype < 16) × Small h }
    ensures { result ≡ head_with subtype h a b c }
{
    Head {
        subtype: subtype as i32,
        epoch: h.epoch as i32,
        interval: h.interval as i32,
        indicator: h.indicator as i32,
        iod: h.iod as i32,
        a,
        b,
        c,
    }
}

// The same eight numbers with a network.
fn with_network(h: Head, network: i32) -> Head
    ensures { result ≡ networked h network }
{
    Head {
        subtype: h.subtype,
        epoch: h.epoch,
        interval: h.interval,
        indicator: h.indicator,
        iod: h.iod,
        a: h.a,
        b: h.b,
        c: network,
    }
}

// A selection of n satellites, the first one's bit as the highest of 64.
fn chosen(bytes: &[u8], place: usize, n: usize) -> u64
    requires { (place < 2 ^ 32) × (n ≤ 64) }
    ensures { result ≡ chosen_at bytes.now place n }
{
    if n <= 32 {
        return read_field(bytes, place, n) << (63 - n) << 1;
    }
    let first = read_field(bytes, place, 32);
    let second = read_field(bytes, place + 32, n - 32);
    (first << 32) + (second << (64 - n))
}

// Three flags, how many bits they have, and where they end from the message's start on.
const FLAGS: Widths = Widths {
    first: 1,
    second: 1,
    third: 1,
    fourth: 0,
};

const FLAG_BITS: usize = 3;

const FLAGGED: usize = HEADED + FLAG_BITS;

// How many bits a network has.
const NETWORK: usize = 5;

// Whether a selection may name whom it does: for cells, satellites that have one (document 02, Ask 1).
fn nameable(cells: bool, strips: &[u16], n: usize, chosen: u64) -> bool
    requires { n ≤ length strips.now }
    ensures { result ≡ cond cells (all_set (pick (spell 64 chosen) (take n strips.now))) true }
{
    if !cells {
        return true;
    }
    celled(&strips[..n], chosen)
}

// A network and its selection, behind which rows of a shape begin. What the selection can be refused for comes right
// after it.
fn selection(
    under: Under,
    strips: &[u16],
    f: Front,
    bytes: &[u8],
    numbers: Head,
    shape: usize,
) -> Heading
    requires { (under.n ≤ 64) × (under.n ≤ length strips.now) × ((chosen : ℕ) → FitsKeys (keys_for under.layout.cells chosen) shape) × Within bytes.now f.end (f.start + 40) × Opens bytes.now f }
    ensures result_value { (v : View) → Shows v under.n strips.now → said_by v result ≡ end_from (network_by (keys_by under.layout) (sky_in v) numbers (shape_at shape)) bytes.now f.end (f.start + 40) }
    ensures bodied { Bodied (chosen_body bytes.now (f.start + 40 + 5) under.n under.layout.cells shape) result }
{
    let n = under.n;
    let cells = under.layout.cells;
    let taken = taken(f, FLAGGED, NETWORK);
    match taken {
        Err(short) => Heading::Refused(Refusal::Short, short.missing),
        Ok(network) => {
            if network == 0 {
                return Heading::Refused(Refusal::Network, 0);
            }
            let at = f.start + FLAGGED + NETWORK;
            let left = f.end - at;
            if left < n {
                return Heading::Refused(Refusal::Short, n - left);
            }
            let word = chosen(bytes, at, n);
            if !nameable(cells, strips, n, word) {
                return Heading::Refused(Refusal::Network, 0);
            }
            let head = with_network(numbers, network as i32);
            let keys = table::over(cells, word);
            Heading::Rows(head, Body { keys, shape }, at + n)
        }
    }
}

// By the three flags, of which the first two say which columns the rows have, and the third whether a network follows.
fn by_flags(
    under: Under,
    strips: &[u16],
    f: Front,
    bytes: &[u8],
    h: CommonHead,
    flags: u64,
) -> Heading
    requires { (under.subtype < 16) × (under.n ≤ 64) × (under.n ≤ length strips.now) × LaidOut under.layout × (under.layout.flagged ≡ true) × (flags < 8) × Small h × Within bytes.now f.end (f.start + 40) × Opens bytes.now f }
    ensures result_value { (v : View) → Shows v under.n strips.now → said_by v result ≡ end_from (after_flags under h flags (sky_in v)) bytes.now f.end (f.start + 40) }
    ensures bodied { Bodied (flagged_body bytes.now f.start under.n under.layout flags) result }
{
    let shape = under.layout.shape + (flags / 2) as usize;
    let numbers = head(
        under.subtype,
        h,
        (flags / 4) as i32,
        (flags / 2 % 2) as i32,
        ABSENT,
    );
    if flags % 2 != 0 {
        return selection(under, strips, f, bytes, numbers, shape);
    }
    let keys = table::over(under.layout.cells, ALL);
    Heading::Rows(numbers, Body { keys, shape }, f.start + FLAGGED)
}

// Flags, and what they say.
fn flagged(under: Under, strips: &[u16], f: Front, bytes: &[u8], h: CommonHead) -> Heading
    requires { (under.subtype < 16) × (under.n ≤ 64) × (under.n ≤ length strips.now) × LaidOut under.layout × (under.layout.flagged ≡ true) × Small h × Within bytes.now f.end (f.start + 37) × Opens bytes.now f }
    ensures result_value { (v : View) → Shows v under.n strips.now → said_by v result ≡ end_from (Messages.flagged under.subtype (keys_by under.layout) (shapes_from under.layout.shape) (sky_in v) (common_of h)) bytes.now f.end (f.start + 37) }
    ensures bodied { Bodied (flagged_body bytes.now f.start under.n under.layout (field bytes.now (f.start + 37) 3)) result }
{
    let taken = taken(f, HEADED, FLAG_BITS);
    match taken {
        Err(_) => Heading::Refused(Refusal::Short, short_by(FLAGS, f.end - (f.start + HEADED))),
        Ok(flags) => by_flags(under, strips, f, bytes, h, flags),
    }
}

// The gate: nothing held, then another issue; then what follows the common head.
fn gated(under: Under, strips: &[u16], f: Front, bytes: &[u8], h: CommonHead) -> Heading
    requires { (under.subtype < 16) × (under.n ≤ 64) × (under.n ≤ length strips.now) × LaidOut under.layout × Small h × Within bytes.now f.end (f.start + 37) × Opens bytes.now f }
    ensures result_value { (v : View) → Shows v under.n strips.now → said_by v result ≡ end_from (gated_by under (sky_in v) (common_of h)) bytes.now f.end (f.start + 37) }
    ensures bodied { Bodied (masked_body bytes.now f.start under.n under.layout) result }
{
    if !under.held {
        return Heading::Refused(Refusal::NoMask, 0);
    }
    if h.iod != under.iod as u64 {
        return Heading::Refused(Refusal::OtherIssue, 0);
    }
    if under.layout.flagged {
        return flagged(under, strips, f, bytes, h);
    }
    let numbers = head(under.subtype, h, ABSENT, ABSENT, ABSENT);
    let keys = table::over(under.layout.cells, ALL);
    let shape = under.layout.shape;
    Heading::Rows(numbers, Body { keys, shape }, f.start + HEADED)
}

// A sub type that is read under the mask, behind its number and sub type.
fn masked(under: Under, strips: &[u16], f: Front, bytes: &[u8]) -> Heading
    requires { (under.subtype < 16) × (under.n ≤ 64) × (under.n ≤ length strips.now) × LaidOut under.layout × Within bytes.now f.end (f.start + 16) × Opens bytes.now f }
    ensures result_value { (v : View) → Shows v under.n strips.now → said_by v result ≡ end_from (under_by under (sky_in v)) bytes.now f.end (f.start + 16) }
    ensures bodied { Bodied (masked_body bytes.now f.start under.n under.layout) result }
{
    let common = crate::common(f);
    match common {
        Ok(h) => gated(under, strips, f, bytes, h),
        Err(short) => Heading::Refused(Refusal::Short, short.missing),
    }
}

// Indicator, counter and size of a packet's part, how many bits they have, and its sub type.
const PACKET: Widths = Widths {
    first: 1,
    second: 3,
    third: 2,
    fourth: 0,
};

const PACKET_BITS: usize = 6;

// Its sub type, as a head says it.
const PACKET_TYPE: i32 = table::PACKET as i32;

// A packet's part, which needs no mask.
pub fn packet(f: Front) -> Heading
    requires { Opened f × (f.start + 16 ≤ f.end) }
    ensures by_index { (bs : List ℕ) → Opens bs f → (v : View) → said_by v result ≡ end_from Messages.packet bs f.end (f.start + 16) }
    ensures by_index_2 { (bs : List ℕ) → Opens bs f → Bodied (packet_body bs f.start) result }
{
    let place = f.start + OPENING;
    let taken = taken(f, OPENING, PACKET_BITS);
    match taken {
        Err(_) => Heading::Refused(Refusal::Short, short_by(PACKET, f.end - place)),
        Ok(n) => {
            let size = n % 4;
            let numbers = Head {
                subtype: PACKET_TYPE,
                epoch: ABSENT,
                interval: ABSENT,
                indicator: (n / 32) as i32,
                iod: ABSENT,
                a: (n / 4 % 8) as i32,
                b: size as i32,
                c: ABSENT,
            };
            let keys = Keys::Parts(size as usize + 1);
            let shape = shapes::PACKET;
            Heading::Rows(numbers, Body { keys, shape }, place + PACKET_BITS)
        }
    }
}

// What is held, for a message of a sub type: a mask of n satellites under an issue, or nothing. Their strips are lent
// beside it.
#[derive(Clone, Copy)]
pub struct Seen {
    pub held: bool,
    pub iod: u8,
    pub n: usize,
    pub subtype: usize,
}

// A message of a kind behind its number and sub type. A mask has no body: it is read in its own way.
pub fn of(kind: Kind, seen: Seen, strips: &[u16], f: Front, bytes: &[u8]) -> Heading
    requires { (seen.subtype < 16) × (seen.n ≤ 64) × (seen.n ≤ length strips.now) × OfTable kind × Within bytes.now f.end (f.start + 16) × Opens bytes.now f }
    ensures result_value { (v : View) → Shows v seen.n strips.now → said_by v result ≡ end_from (heading_for kind seen (sky_in v)) bytes.now f.end (f.start + 16) }
    ensures bodied { Bodied (body_for kind bytes.now f.start seen.n) result }
{
    match kind {
        Kind::Other => Heading::Refused(Refusal::SubType, 0),
        Kind::Mask => Heading::Refused(Refusal::SubType, 0),
        Kind::Packet => packet(f),
        Kind::Masked(layout) => {
            let under = Under {
                held: seen.held,
                iod: seen.iod,
                n: seen.n,
                subtype: seen.subtype,
                layout,
            };
            masked(under, strips, f, bytes)
        }
    }
}
