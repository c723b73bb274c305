// A holding into lent bytes.
ghost use Rattle.std.specs.Prelude.{◌≡◌, true, ◌++◌, ℕ, map, ◌*◌, ◌≤◌, length};
ghost use Rattle.bits.specs.BitLists.{digit};
ghost use Rattle.format.specs.Reading.{over};
ghost use Rattle.holding.specs.Outlines.{whole_of};
ghost use Rattle.holding.specs.Pictures.{sound};
ghost use Rattle.passing.specs.Bytes.{parts, parts_of};
ghost use Rattle.passing.specs.Passing.{size, bytes_of};

use crate::{CELLS, FLAGS, IDS, SIGNALS, SIZE, STRIPS};
use holding::{Holding, Outline};

// A number of K bytes.
trait Number<const K: usize>: Copy {
    ghost value: { Self → ℕ };

    // Its bytes, the least first.
    fn bytes(self) -> [u8; K]
        ensures { result ≡ parts K (value self) };
}

impl Number<2> for u16 {
    ghost value = { λ n. n };

    fn bytes(self) -> [u8; 2] {
        self.to_le_bytes()
    }
}

impl Number<8> for u64 {
    ghost value = { λ n. n };

    fn bytes(self) -> [u8; 8] {
        self.to_le_bytes()
    }
}

// Some numbers, one behind the other.
fn numbers<T: Number<K>, const K: usize>(part: &mut [u8], ns: &[T])
    requires { length part.old ≡ K * length ns.now }
    ensures { part.new ≡ parts_of K (map T.value ns.now) }
{
    for (i, n) in ns.iter().enumerate() {
        part[K * i..K * (i + 1)].copy_from_slice(&n.bytes());
    }
}

// The IDs, and the flags. Each is a loop of its own, and the masks a function: copied whole, as by `copy_from_slice`,
// they take 48 bytes more of a walk's and of loading's stack (docs/PROVING.md, "The machine code is slow").
fn ids(part: &mut [u8], ids: &[u8; Holding::SYSTEMS])
    requires { length part.old ≡ 5 }
    ensures { part.new ≡ ids.now }
{
    for (i, id) in ids.iter().enumerate() {
        part[i] = *id;
    }
}

fn flags(part: &mut [u8], flags: &[bool; Holding::SYSTEMS])
    requires { length part.old ≡ 5 }
    ensures { part.new ≡ map digit flags.now }
{
    for (i, flag) in flags.iter().enumerate() {
        part[i] = *flag as u8;
    }
}

// The masks, by system.
fn masks(part: &mut [u8], signals: &[u16; Holding::SYSTEMS], satellites: &[u64; Holding::SYSTEMS])
    requires { length part.old ≡ 50 }
    ensures { part.new ≡ parts_of 2 signals.now ++ parts_of 8 satellites.now }
{
    numbers(&mut part[0..10], signals);
    numbers(&mut part[10..50], satellites);
}

// A holding in parts over the first bytes.
pub fn holding_over(
    bytes: &mut [u8],
    outline: Outline,
    satellites: &[u64; Holding::SYSTEMS],
    strips: &[u16; Holding::SATELLITES],
)
    requires { (size ≤ length bytes.old) × (sound (whole_of outline satellites.now strips.now) ≡ true) }
    ensures { bytes.new ≡ over (bytes_of (whole_of outline satellites.now strips.now)) bytes.old }
{
    bytes[0] = outline.held as u8;
    bytes[1] = outline.iod;
    bytes[2] = outline.count;
    bytes[3] = outline.nsat;
    bytes[CELLS..IDS].copy_from_slice(&(outline.ncell as u16).bytes());
    ids(&mut bytes[IDS..FLAGS], &outline.ids);
    flags(&mut bytes[FLAGS..SIGNALS], &outline.flags);
    masks(&mut bytes[SIGNALS..STRIPS], &outline.signals, satellites);
    numbers(&mut bytes[STRIPS..SIZE], strips);
}
