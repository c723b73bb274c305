// The cell mask as text: hex, padded at its end with zero bits.
ghost use Rattle.std.specs.Prelude.{◌≡◌, ◌+◌, ◌≤◌, length, take, drop};
ghost use Rattle.std.proofs.lemmas.List.Edits.{sets};
ghost use Rattle.bits.specs.BitLists.{number};
ghost use Rattle.format.specs.Text.{hex};
ghost use Rattle.saved.specs.Gathering.{strip_bits, cell_bits};

use holding::{Holding, set_places};
use text::{number, put};

// How many bits a digit has.
pub const DIGIT: usize = 4;

// One satellite's part of the cell mask: the bits of its strip at the places of the signal mask.
pub fn gather(signals: u16, strip: u16) -> u64
    ensures { result ≡ number (strip_bits signals strip) }
{
    let mut bits: u64 = 0;
    for i in (0..Holding::SIGNAL_MASK).rev() {
        if (signals >> i) % 2 == 1 {
            bits = bits * 2 + ((strip >> i) % 2) as u64;
        }
    }
    bits
}

// The parts of some satellites, as text from a place on; the place behind it. A digit is stored when its four bits
// are there.
pub fn mask_text(line: &mut [u8], at: usize, strips: &[u16], signals: u16) -> usize
    requires { at + length (hex (cell_bits signals strips.now)) ≤ length line.old }
    ensures value { result ≡ at + length (hex (cell_bits signals strips.now)) }
    ensures line_after { line.new ≡ sets line.old at (hex (cell_bits signals strips.now)) }
{
    let w = set_places::count(signals as u64);
    let mut place = at;
    let mut pending: u64 = 0;
    let mut bits = 0;
    for strip in strips {
        let all = (pending << w) + gather(signals, *strip);
        let digits = (bits + w) / DIGIT;
        bits = (bits + w) % DIGIT;
        place = number::hex(line, place, digits, all >> bits);
        pending = all % (1u64 << bits);
    }
    if bits == 0 {
        return place;
    }
    put(line, place, number::digit(pending << (DIGIT - bits)))
}
