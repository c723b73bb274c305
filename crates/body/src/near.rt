// The rows of a body behind which the string ends too soon for windows. Their keys are written first, over a string of
// zeros, as the rows of every other body are; then their values, each with a test.
ghost use Rattle.std.specs.Prelude.{◌≡◌, cond, ◌*◌, ◌^◌, ◌≤◌, ◌<◌, length};
ghost use Rattle.body.specs.Near.{named, valued};
ghost use Rattle.rows.specs.Table.{shape_for};

use crate::Placed;
use rows::{row, shapes};
use table::Body;

// How many zeros there are: enough for a packet's four parts and the windows behind them.
pub const ZEROS: usize = 35;

// The string that rows are written over.
pub fn string<'a>(near: bool, bytes: &'a [u8], zeros: &'a [u8]) -> &'a [u8]
    ensures { result.now ≡ cond near zeros.now bytes.now }
{
    if near { zeros } else { bytes }
}

// The body that is written over it: for its keys alone one of gaps. (A packet's parts are written in their one shape,
// whatever is said here.)
pub fn body(near: bool, placed: Placed) -> Placed
    ensures { result ≡ cond near (named placed) placed }
{
    if !near {
        return placed;
    }
    let body = Body {
        shape: shapes::NONE,
        ..placed.body
    };
    Placed {
        body,
        at: 0,
        ..placed
    }
}

// The values of a body's rows, whose keys stand there.
pub fn values(placed: Placed, bytes: &[u8], rows: &mut [i32])
    requires { (placed.at < 2 ^ 32) × (placed.rows ≤ 256) × (8 * placed.rows ≤ length rows.old) }
    ensures { rows.new ≡ valued (shape_for placed.body.shape) bytes.now placed.rows placed.at rows.old }
{
    let s = shapes::shape_of(placed.body.shape);
    let mut place = placed.at;
    for i in 0..placed.rows {
        let k = 8 * i;
        place = row::fill_in(&mut rows[k..k + 8], bytes, place, s);
    }
}
