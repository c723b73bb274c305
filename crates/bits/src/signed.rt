// Two's complement.
ghost use Rattle.std.specs.Prelude.{◌≡◌, ◌*◌, ◌^◌, ◌≤◌, ◌<◌, ltb};
ghost use Rattle.std.specs.Int.Signed.{mag};
ghost use Rattle.bits.specs.Signed.{unsigned};

// How far an integer lies from zero, counted so that n and -(n + 1) are both n.
pub fn magnitude(z: i32) -> u64
    ensures { result ≡ mag z }
{
    if z < 0 { (-1 - z) as u64 } else { z as u64 }
}

// Whether w bits can mean an integer: whether it lies from -2 ^ (w - 1) up to below 2 ^ (w - 1).
pub fn in_range(z: i32, w: usize) -> bool
    requires { w ≤ 32 }
    ensures { result ≡ ltb (mag z * 2) (2 ^ w) }
{
    magnitude(z) * 2 < (1u64 << w)
}

// The w bits that mean an integer in their range.
pub fn from_signed(z: i32, w: usize) -> u64
    requires { (1 ≤ w) × (w ≤ 32) × (mag z * 2 < 2 ^ w) }
    ensures { result ≡ unsigned w z }
{
    let all = 1u64 << w;
    let lifted = ((z as i64) + (all as i64)) as u64;
    lifted % all
}
