// How far a message may go (document 01: "bits up to 50,850 or the bytes' end, the smaller").
ghost use Rattle.std.specs.Prelude.{◌≡◌, ◌≤◌};
ghost use Rattle.format.specs.Writing.{limit};

use format::STRETCH;

// So many bytes have more bits than that.
const BEYOND: usize = 6357;

// How many bits a byte has.
const BYTE: usize = 8;

pub fn limit(bytes: &[u8]) -> usize
    ensures value { result ≡ limit bytes.now }
    ensures upper_bound { result ≤ 50850 }
{
    if bytes.len() >= BEYOND {
        return STRETCH;
    }
    BYTE * bytes.len()
}
