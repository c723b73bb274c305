// Writing a field.
ghost use Rattle.std.specs.Prelude.{◌≡◌, ◌+◌, ◌-◌, ◌*◌, ◌/◌, ◌%◌, ◌^◌, ◌≤◌, ◌<◌, length};
ghost use Rattle.bits.specs.BitLists.{set_field};

use crate::read::cut;
use crate::window;

// A window with the w bits after its first skip replaced: the old ones are taken out, the new ones put in.
fn replaced(window: u64, skip: usize, w: usize, value: u64) -> u64
    requires { (1 ≤ w) × (skip + w < 64) × (value < 2 ^ w) }
    ensures { result ≡ window - window / 2 ^ (64 - skip - w) % 2 ^ w * 2 ^ (64 - skip - w) + value * 2 ^ (64 - skip - w) }
{
    let after = 64 - skip - w;
    let old = cut(window, skip, w);
    window - (old << after) + (value << after)
}

// Sets w bits to a number and keeps every other bit. The part begins with skip bits before them, and
// all of these lie within a window.
pub fn write_field(part: &mut [u8], skip: usize, w: usize, value: u64)
    requires { (skip + w < 64) × (skip + w ≤ 8 * length part.old) × (value < 2 ^ w) }
    ensures { part.new ≡ set_field part.old skip w value }
{
    if w == 0 {
        return;
    }
    if 8 <= part.len() {
        let old = window::eight(part, 0);
        window::store_eight(part, replaced(old, skip, w, value));
        return;
    }
    let old = window::fewer(part, 0);
    window::store_fewer(part, replaced(old, skip, w, value));
}
