// A message, written: the last tests, 12 for the rows and 1, and only then its bits.
ghost use Rattle.std.specs.Prelude.{◌≡◌, true, ◌&&◌, ◌*◌, ◌≤◌, ◌<◌, eqb, length, ◌++◌};
ghost use Rattle.bits.specs.BitLists.{set_bytes, spell};
ghost use Rattle.format.specs.Writing.{rows_in, limit, bytes_after};
ghost use Rattle.holding.specs.Held.{view_of};
ghost use Rattle.holding.specs.Outlines.{whole_of};
ghost use Rattle.holding.specs.Pictures.{sound};
ghost use Rattle.fitting.specs.FitHeads.{number_fits};
ghost use Rattle.fitting.specs.Fits.{rows_fit};
ghost use Rattle.table.specs.Bodies.{lines_in};
ghost use Rattle.matching.specs.Values.{rows_valued};
ghost use Rattle.rows.specs.Shapes.{columns_in};
ghost use Rattle.rows.specs.Table.{shape_for};
ghost use Rattle.pens.specs.Pens.{spell_fields};
ghost use Rattle.writer.specs.Stages.{answered};
ghost use Rattle.writer.specs.Written.{plan_fields, Puts, AsksPlan, rows_of, planned, mask_right, masked};

use crate::plan::Plan;
use crate::planning::Asked;
use crate::room::limit;
use crate::{Writing, front};
use format::{Head, Refusal};
use holding::{Holding, Outline};
use matching::fits::values::values_fit;
use matching::fits::{Shaped, rows_fit};
use pens::number::{is, is_absent};
use pens::pen;
use putting::marks::select;
use putting::mask::{mask_bits, put_systems};
use putting::row::put_rows;
use putting::size::row_bits;
use rows::shape::Shape;
use rows::shapes;

// How many numbers a row has.
const ROW: usize = 8;

// Puts out what is planned: what the pen has gathered, the selection and the rows, in the plan's shape.
fn put(plan: Plan, s: Shape, rows: &[i32], count: usize, bytes: &mut [u8])
    requires { (s ≡ shape_for plan.body.shape) × Puts plan rows.now count bytes.old }
    ensures { bytes.new ≡ set_bytes bytes.old plan.pen.place (spell plan.pen.width plan.pen.gathered ++ spell_fields (plan_fields plan (rows_in count rows.now))) }
{
    let begun = pen::begin(bytes, plan.pen);
    let selected = select(bytes, begun, plan.chosen, plan.marked);
    let last = put_rows(bytes, selected, rows, count, s);
    pen::set(bytes, last.place, last.width, last.gathered);
}

// Whether rows by which a selection was told fit: they are all of them, and their values can be meant.
fn values_right(plan: Plan, s: Shape, rows: &[i32], count: usize) -> bool
    requires { (plan.body.shape < 4) × (s ≡ shape_for plan.body.shape) × (8 * count ≤ length rows.now) }
    ensures { result ≡ (eqb plan.told (8 * count) && rows_valued (columns_in (shape_for plan.body.shape)) (rows_in count rows.now)) }
{
    if plan.told != ROW * count {
        return false;
    }
    values_fit(s, rows, count)
}

// Whether the rows that are lent fit the lines that are planned for them.
fn rows_right(
    outline: Outline,
    masks: &[u64],
    strips: &[u16],
    plan: Plan,
    s: Shape,
    rows: &[i32],
) -> bool
    requires { AsksPlan (whole_of outline masks.now strips.now) plan rows.now (s ≡ shape_for plan.body.shape) }
    ensures { result ≡ rows_fit (lines_in (view_of (whole_of outline masks.now strips.now)) plan.body) (rows_of rows.now) }
{
    let count = rows.len() / ROW;
    if plan.keyed {
        return values_right(plan, s, rows, count);
    }
    let ids = outline.ids;
    let n = outline.count as usize;
    let body = plan.body;
    let shaped = Shaped { body, shape: s };
    rows_fit(&ids[..n], masks, strips, shaped, rows, count)
}

// A message with the rows that are lent, under a holding whose masks and strips are lent beside it.
pub fn with_rows(
    outline: Outline,
    masks: &[u64],
    strips: &[u16],
    plan: Plan,
    rows: &[i32],
    bytes: &mut [u8],
) -> Writing
    requires { AsksPlan (whole_of outline masks.now strips.now) plan rows.now (plan.pen.place ≤ limit bytes.old) }
    ensures value { result ≡ answered plan.pen.place (planned (view_of (whole_of outline masks.now strips.now)) plan (rows_of rows.now) bytes.old) }
    ensures bytes_after { bytes.new ≡ bytes_after (planned (view_of (whole_of outline masks.now strips.now)) plan (rows_of rows.now) bytes.old) bytes.old plan.pen.place }
{
    let count = rows.len() / ROW;
    let body = plan.body;
    let shape = shapes::shape_of(body.shape);
    if !rows_right(outline, masks, strips, plan, shape, rows) {
        return Writing::Refused(Refusal::Value);
    }
    let front = plan.pen;
    let bits = front.width + plan.marked + row_bits(shape, rows, count);
    if limit(bytes) - front.place < bits {
        return Writing::Refused(Refusal::Room);
    }
    put(plan, shape, rows, count, bytes);
    Writing::Done(front.place + bits)
}

// Whether a head fits a mask of so many systems, and there are no rows.
fn mask_fits(head: Head, systems: usize, count: usize) -> bool
    requires { systems ≤ 255 }
    ensures { result ≡ mask_right head systems count }
{
    let rest = is_absent(head.b) & (is_absent(head.c) & (count == 0));
    front::common_fits(head, front::MASK_EPOCH) & (is(head.a, systems as u64) & rest)
}

// How many bits a mask message has before its systems.
const MASK_FRONT: usize = 49;

// A mask message of what is held.
pub fn of_mask(
    outline: Outline,
    satellites: &[u64; Holding::SYSTEMS],
    strips: &[u16; Holding::SATELLITES],
    asked: Asked,
    bytes: &mut [u8],
) -> Writing
    requires { (sound (whole_of outline satellites.now strips.now) ≡ true) × (number_fits 4 asked.head.subtype ≡ true) × (asked.start ≤ limit bytes.old) }
    ensures value { result ≡ answered asked.start (masked (whole_of outline satellites.now strips.now) asked.head asked.count bytes.old asked.start) }
    ensures bytes_after { bytes.new ≡ bytes_after (masked (whole_of outline satellites.now strips.now) asked.head asked.count bytes.old asked.start) bytes.old asked.start }
{
    let head = asked.head;
    let start = asked.start;
    if !mask_fits(head, outline.count as usize, asked.count) {
        return Writing::Refused(Refusal::Value);
    }
    let bits = MASK_FRONT + mask_bits(outline, satellites);
    if limit(bytes) - start < bits {
        return Writing::Refused(Refusal::Room);
    }
    let begun = pen::begin(bytes, front::mask(head, start));
    let last = put_systems(outline, satellites, strips, bytes, begun);
    pen::set(bytes, last.place, last.width, last.gathered);
    Writing::Done(start + bits)
}
