// A window: the eight bytes from some byte on, as one number, the first byte highest. Bytes past the
// end count as zero, so a window is there at every byte, and one formula serves all of a string.
ghost use Rattle.std.specs.Prelude.{◌≡◌, ◌+◌, ◌*◌, ◌^◌, ◌≤◌, ◌<◌, length};
ghost use Rattle.bits.specs.BitLists.{bytes, spell, set_field};
ghost use Rattle.bits.specs.Places.{field};

// Four bytes as one number. Written with shifts and `|`, of which LLVM makes one load and one swap for all eight bytes of
// a window where they are neighbours; of a sum of products it does not.
pub fn four(a: u8, b: u8, c: u8, d: u8) -> u32
    ensures { result ≡ a * 2 ^ 24 + b * 2 ^ 16 + c * 2 ^ 8 + d }
{
    ((a as u32) << 24) | ((b as u32) << 16) | ((c as u32) << 8) | (d as u32)
}

// Eight bytes as one number, by their halves.
pub fn join(high: u32, low: u32) -> u64
    ensures { result ≡ high * 2 ^ 32 + low }
{
    ((high as u64) << 32) | (low as u64)
}

// The window at byte i where eight bytes are left.
pub fn eight(bytes: &[u8], i: usize) -> u64
    requires { i + 8 ≤ length bytes.now }
    ensures { result ≡ field bytes.now (8 * i) 64 }
{
    join(
        four(bytes[i], bytes[i + 1], bytes[i + 2], bytes[i + 3]),
        four(bytes[i + 4], bytes[i + 5], bytes[i + 6], bytes[i + 7]),
    )
}

// The window at byte i where fewer are left: those, moved up to its front.
pub fn fewer(bytes: &[u8], i: usize) -> u64
    requires { length bytes.now < i + 8 }
    ensures { result ≡ field bytes.now (8 * i) 64 }
{
    if bytes.len() <= i {
        return 0;
    }
    let mut sum: u64 = 0;
    let mut at = i;
    while at < bytes.len() {
        sum = sum * 256 + (bytes[at] as u64);
        at += 1;
    }
    sum << (64 - 8 * (bytes.len() - i))
}

// The eight bytes of a window.
fn split(window: u64) -> [u8; 8]
    ensures { result ≡ bytes 8 (spell 64 window) }
{
    [
        (window / 0x0100_0000_0000_0000 % 256) as u8,
        (window / 0x0001_0000_0000_0000 % 256) as u8,
        (window / 0x0100_0000_0000 % 256) as u8,
        (window / 0x0001_0000_0000 % 256) as u8,
        (window / 0x0100_0000 % 256) as u8,
        (window / 0x0001_0000 % 256) as u8,
        (window / 0x0100 % 256) as u8,
        (window % 256) as u8,
    ]
}

// Sets the window at the start where eight bytes are there.
pub fn store_eight(bytes: &mut [u8], window: u64)
    requires { 8 ≤ length bytes.old }
    ensures { bytes.new ≡ set_field bytes.old 0 64 window }
{
    let new = split(window);
    bytes[0] = new[0];
    bytes[1] = new[1];
    bytes[2] = new[2];
    bytes[3] = new[3];
    bytes[4] = new[4];
    bytes[5] = new[5];
    bytes[6] = new[6];
    bytes[7] = new[7];
}

// Sets as much of the window as there is where fewer are.
pub fn store_fewer(bytes: &mut [u8], window: u64)
    requires { length bytes.old < 8 }
    ensures { bytes.new ≡ set_field bytes.old 0 64 window }
{
    let new = split(window);
    let mut i = 0;
    while i < bytes.len() {
        bytes[i] = new[i];
        i += 1;
    }
}
