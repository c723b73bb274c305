// Whether rows fit the lines of a body (document 01, "What is handed out", and refusal 12), told before any bit is set.
pub mod cells;
pub mod line;
pub mod packet;
pub mod satellites;
pub mod values;

ghost use Rattle.std.specs.Prelude.{◌≡◌, ◌*◌, ◌≤◌, length};
ghost use Rattle.body.specs.Lent.{view_by, Lent};
ghost use Rattle.format.specs.Writing.{rows_in};
ghost use Rattle.table.specs.Bodies.{lines_in};
ghost use Rattle.fitting.specs.Fits.{rows_fit};
ghost use Rattle.matching.specs.Matching.{matched_at, MadeFor};

use rows::shape::Shape;
use table::{Body, Keys};

// How far rows fit lines: not all of them do, or they do up to that number of those lent.
#[derive(Clone, Copy)]
pub enum Matched {
    Not,
    To(usize),
}

// A body with the shape of its rows, which its caller looked up once for all that it does with them.
#[derive(Clone, Copy)]
pub struct Shaped {
    pub body: Body,
    pub shape: Shape,
}

// How far the rows that are lent fit the lines of a body.
fn reach(ids: &[u8], masks: &[u64], strips: &[u16], shaped: Shaped, rows: &[i32]) -> Matched
    requires { Lent ids.now masks.now strips.now × MadeFor shaped.body shaped.shape }
    ensures { result ≡ matched_at (lines_in (view_by ids.now masks.now strips.now) shaped.body) rows.now 0 }
{
    let body = shaped.body;
    let keys = body.keys;
    let s = shaped.shape;
    match keys {
        Keys::Satellites(chosen) => satellites::reach(ids, masks, s, chosen, rows),
        Keys::Cells(chosen) => cells::reach(ids, masks, strips, s, chosen, rows),
        Keys::Parts(parts) => packet::reach(parts, rows),
    }
}

// Whether rows fit the lines of a body under the slots and strips that are lent: as many as counted, and no line more.
pub fn rows_fit(
    ids: &[u8],
    masks: &[u64],
    strips: &[u16],
    shaped: Shaped,
    rows: &[i32],
    count: usize,
) -> bool
    requires { Lent ids.now masks.now strips.now × MadeFor shaped.body shaped.shape × (8 * count ≤ length rows.now) }
    ensures { result ≡ rows_fit (lines_in (view_by ids.now masks.now strips.now) shaped.body) (rows_in count rows.now) }
{
    let end = 8 * count;
    let far = reach(ids, masks, strips, shaped, &rows[..end]);
    match far {
        Matched::Not => false,
        Matched::To(k) => k == end,
    }
}
