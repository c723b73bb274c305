// The strips of one system's satellites: document 01, "Message layouts": the cell mask goes satellite by satellite.
ghost use Rattle.std.specs.Prelude.{◌≡◌, ◌+◌, ◌-◌, ◌*◌, ◌^◌, ◌≤◌, ◌<◌, length, drop, replicate};
ghost use Rattle.std.specs.Int.Count.{ones};
ghost use Rattle.std.proofs.lemmas.List.Edits.{sets};
ghost use Rattle.adoption.specs.Growing.{Grows, window_for};
ghost use Rattle.adoption.specs.Stages.{system_at};
ghost use Rattle.bits.specs.BitLists.{spell, bits};
ghost use Rattle.holding.specs.Building.{ones_in};
ghost use Rattle.holding.specs.Pictures.{strips_from, strips_of};

use crate::cells::Masks;
use crate::spread::{last_four, spread_strip};
use bits::read::{cut, window_at};
use holding::{Holding, set_places};

// Eight bytes of the string, and the place where they begin.
#[derive(Clone, Copy)]
struct Window {
    bits: u64,
    from: usize,
}

// A window that has the w bits at a place: the one that was read last, where it has them all.
fn window_for(last: Window, bytes: &[u8], at: usize, w: usize) -> Window
    requires { (w ≤ 16) × (at < 2 ^ 33) × (last.from ≤ at) }
    ensures { result ≡ window_for last bytes.now at w }
{
    if at - last.from + w < 64 {
        return last;
    }
    Window {
        bits: window_at(bytes, at / 8),
        from: 8 * (at / 8),
    }
}

// The same strip for each of n satellites, from a place of the array on.
fn equal(strips: &mut [u16], from: usize, n: usize, strip: u16)
    requires { from + n ≤ length strips.old }
    ensures { strips.new ≡ sets strips.old from (replicate n strip) }
{
    let mut i = 0;
    while i < n {
        strips[from + i] = strip;
        i += 1;
    }
}

// A strip for each of n satellites, from a place of the array on, each from the next bits of the cell mask, which
// stands at a place of the bytes; and how many cells they have.
fn masked(
    strips: &mut [u16],
    from: usize,
    n: usize,
    signals: u16,
    bytes: &[u8],
    place: usize,
) -> usize
    requires { (from + n ≤ length strips.old) × (n ≤ 64) × (place + n * ones signals ≤ 8 * length bytes.now) × (place < 2 ^ 32) }
    ensures value { (result ≡ ones_in (strips_from n (spell 16 signals) (drop place (bits bytes.now)))) × (result ≤ 1024) }
    ensures strips_after { strips.new ≡ sets strips.old from (strips_from n (spell 16 signals) (drop place (bits bytes.now))) }
{
    let w = set_places::count(signals as u64);
    let four = last_four(signals);
    let table = four.strips;
    let mut at = place;
    let mut window = Window {
        bits: window_at(bytes, at / 8),
        from: 8 * (at / 8),
    };
    let mut sum = 0;
    let mut i = 0;
    while i < n {
        window = window_for(window, bytes, at, w);
        let bits = cut(window.bits, at - window.from, w);
        let cells = table[(bits % 16) as usize] + spread_strip(four.rest, bits / 16);
        strips[from + i] = cells;
        sum += set_places::count(cells as u64);
        at += w;
        i += 1;
    }
    sum
}

// The strips of a system, from a place on where the array is 0, and how many cells they have: with the flag by the cell
// mask, which stands at a place of the bytes; without it every signal counts.
pub fn strips(
    strips: &mut [u16; Holding::SATELLITES],
    from: usize,
    m: Masks,
    flag: bool,
    bytes: &[u8],
    place: usize,
) -> usize
    requires { Grows strips.old from m flag bytes.now place }
    ensures value { (result ≡ ones_in (strips_of (system_at bytes.now m flag place))) × (result ≤ 1024) }
    ensures strips_after { strips.new ≡ sets strips.old from (strips_of (system_at bytes.now m flag place)) }
{
    let n = set_places::count(m.satellites);
    let w = set_places::count(m.signals as u64);
    if !flag {
        equal(strips, from, n, m.signals);
        return n * w;
    }
    // no bits to read, and each strip is 0 as it was
    if m.signals == 0 {
        return n * w;
    }
    masked(strips, from, n, m.signals, bytes, place)
}
