// A holding out of lent bytes.
ghost use Rattle.std.specs.Prelude.{◌≡◌, ◌+◌, ◌*◌, ◌≤◌, length, take, drop};
ghost use Rattle.holding.specs.Outlines.{outline_of};
ghost use Rattle.passing.specs.Bytes.{littles};
ghost use Rattle.passing.specs.Passing.{size, truths, passes, said};

use crate::{CELLS, FLAGS, IDS, SATELLITES, SIGNALS, SIZE, STRIPS};
use holding::{Holding, Outline};
use std::array;

// N bytes from one on.
fn part<const N: usize>(bytes: &[u8], from: usize) -> [u8; N]
    requires { from + N ≤ length bytes.now }
    ensures { result ≡ take N (drop from bytes.now) }
{
    array::from_fn(|i| bytes[from + i])
}

// N numbers of two bytes from one on, each with its least byte first.
fn words<const N: usize>(bytes: &[u8], from: usize) -> [u16; N]
    requires { from + 2 * N ≤ length bytes.now }
    ensures { result ≡ littles 2 N (drop from bytes.now) }
{
    array::from_fn(|i| u16::from_le_bytes(part(bytes, from + 2 * i)))
}

// Whether the bytes that stand for a truth are 0 or 1: all of them are where their bits together are,
// which takes no branch for each.
#[tactic(auto, using(crate::proofs::Truths::or_truths))]
fn truths(bytes: &[u8]) -> bool
    requires { size ≤ length bytes.now }
    ensures { result ≡ truths (take 5 (drop 11 bytes.now)) }
{
    bytes[FLAGS..SIGNALS].iter().fold(0, |all, b| all | *b) <= 1
}

// The satellite masks, by system. They are put into a lent array by a function of its own: copied whole, as `from_fn`
// would, they take a writer 10 instructions a message more.
fn masks(to: &mut [u64; Holding::SYSTEMS], bytes: &[u8])
    requires { size ≤ length bytes.now }
    ensures { to.new ≡ littles 8 5 (drop 26 bytes.now) }
{
    for (i, mask) in to.iter_mut().enumerate() {
        *mask = u64::from_le_bytes(part(bytes, SATELLITES + 8 * i));
    }
}

pub fn satellites(bytes: &[u8]) -> [u64; Holding::SYSTEMS]
    requires { size ≤ length bytes.now }
    ensures { result ≡ littles 8 5 (drop 26 bytes.now) }
{
    let mut satellites = [0; Holding::SYSTEMS];
    masks(&mut satellites, bytes);
    satellites
}

// The strips of 64 satellites.
pub fn strips(bytes: &[u8]) -> [u16; Holding::SATELLITES]
    requires { size ≤ length bytes.now }
    ensures { result ≡ littles 2 64 (drop 66 bytes.now) }
{
    words(bytes, STRIPS)
}

// What so many bytes say but for masks and strips. A caller that goes on with a holding in parts asks for each of them,
// and no holding is made to be taken apart.
pub fn outline(bytes: &[u8]) -> Outline
    requires { size ≤ length bytes.now }
    ensures { result ≡ outline_of (said bytes.now) }
{
    Outline {
        held: bytes[0] == 1,
        iod: bytes[1],
        count: bytes[2],
        nsat: bytes[3],
        ids: part(bytes, IDS),
        flags: part(bytes, FLAGS).map(|byte| byte == 1),
        signals: words(bytes, SIGNALS),
        ncell: u16::from_le_bytes(part(bytes, CELLS)) as usize,
    }
}

// All that they say.
#[tactic(auto, unfolding(crate::specs::Passing::said))]
pub fn said(bytes: &[u8]) -> Holding
    requires { size ≤ length bytes.now }
    ensures { result ≡ said bytes.now }
{
    outline(bytes).with(satellites(bytes), strips(bytes))
}

// Whether there are 194, and those that stand for a truth are 0 or 1: others say no holding.
#[tactic(auto, unfolding(crate::specs::Passing::passes))]
pub fn passes(bytes: &[u8]) -> bool
    ensures { result ≡ passes bytes.now }
{
    bytes.len() >= SIZE && bytes[0] <= 1 && truths(bytes)
}
