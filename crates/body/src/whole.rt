// The rows of a body behind which the string goes on far enough for windows.
ghost use Rattle.std.specs.Prelude.{◌≡◌};
ghost use Rattle.body.specs.Asking.{Writes};
ghost use Rattle.body.specs.Lent.{view_by};
ghost use Rattle.body.specs.Written.{numbers_at};
ghost use Rattle.format.specs.Reading.{over};
ghost use Rattle.rows.specs.Table.{shape_for};
ghost use Rattle.table.specs.Bodies.{lines_in};

use crate::{Placed, Wanted, cells, packet, satellites};
use rows::shapes;
use table::Keys;

// The rows of a shape, by its number, that the satellites that are chosen have from a place on.
fn wanted(shape: usize, chosen: u64, at: usize) -> Wanted
    ensures { result ≡ record { shape = shape_for shape; chosen = chosen; at = at } }
{
    Wanted {
        shape: shapes::shape_of(shape),
        chosen,
        at,
    }
}

pub fn fill(
    ids: &[u8],
    masks: &[u64],
    strips: &[u16],
    placed: Placed,
    bytes: &[u8],
    rows: &mut [i32],
)
    requires { Writes ids.now masks.now strips.now placed bytes.now rows.old }
    ensures { rows.new ≡ over (numbers_at (lines_in (view_by ids.now masks.now strips.now) placed.body) bytes.now placed.at) rows.old }
{
    let body = placed.body;
    let at = placed.at;
    let keys = body.keys;
    let shape = body.shape;
    match keys {
        Keys::Satellites(chosen) => satellites::fill(
            ids,
            masks,
            wanted(shape, chosen, at),
            bytes,
            rows,
        ),
        Keys::Cells(chosen) => cells::fill(
            ids,
            masks,
            strips,
            wanted(shape, chosen, at),
            bytes,
            rows,
        ),
        Keys::Parts(parts) => packet::fill(parts, bytes, at, rows),
    }
}
