// Which plan a message with rows has, by the kind of its sub type.
ghost use Rattle.std.specs.Prelude.{◌≡◌, cond, ◌*◌, ◌≤◌, length};
ghost use Rattle.format.specs.Writing.{rows_in};
ghost use Rattle.table.specs.Kinds.{OfTable, LaidOut};
ghost use Rattle.writer.specs.Plans.{packet_head, packet_plan};
ghost use Rattle.writer.specs.declared.planning.Planned.TheVariants.{Message, Never};
ghost use Rattle.writer.specs.Writings.{view_in, Slotted, selected_by, masked_plan, plan_for};

use crate::plan;
use crate::plan::Plan;
use format::Head;
use holding::Outline;
use pens::number::is_absent;
use putting::marks::{Selected, marked};
use table::{ALL, Kind, Layout};

// What is asked to be written: a head of a kind with so many rows, at a place.
#[derive(Clone, Copy)]
pub struct Asked {
    pub kind: Kind,
    pub head: Head,
    pub count: usize,
    pub start: usize,
}

// A plan, or none: the head does not fit.
#[derive(Clone, Copy)]
pub enum Planned {
    Message(Plan),
    Never,
}

// The satellites that a network selects: those that have rows, of cells or of their own; all of them without one.
fn selected(
    outline: Outline,
    masks: &[u64],
    strips: &[u16],
    cells: bool,
    asked: Asked,
    rows: &[i32],
) -> Selected
    requires { Slotted outline masks.now strips.now × (8 * asked.count ≤ length rows.now) }
    ensures { result ≡ selected_by cells (view_in outline masks.now strips.now) asked.head.c (rows_in asked.count rows.now) }
{
    let head = asked.head;
    if is_absent(head.c) {
        return Selected { word: ALL, told: 0 };
    }
    let ids = outline.ids;
    let n = outline.count as usize;
    marked(&ids[..n], masks, strips, cells, rows, asked.count)
}

// Under the mask.
fn masked(
    outline: Outline,
    masks: &[u64],
    strips: &[u16],
    layout: Layout,
    asked: Asked,
    rows: &[i32],
) -> Planned
    requires { Slotted outline masks.now strips.now × LaidOut layout × (8 * asked.count ≤ length rows.now) }
    ensures { result ≡ masked_plan (view_in outline masks.now strips.now) layout asked.head asked.start (rows_in asked.count rows.now) }
{
    let head = asked.head;
    if layout.flagged {
        if !plan::flagged_fits(head) {
            return Planned::Never;
        }
        let chosen = selected(outline, masks, strips, layout.cells, asked, rows);
        return Planned::Message(plan::flagged(
            head,
            layout,
            asked.start,
            chosen,
            outline.nsat as usize,
        ));
    }
    if !plan::alone_fits(head) {
        return Planned::Never;
    }
    Planned::Message(plan::alone(head, layout, asked.start))
}

// A packet's part.
fn packet(asked: Asked) -> Planned
    ensures { result ≡ cond (packet_head asked.head) (Message (packet_plan asked.head asked.start)) Never }
{
    if !plan::packet_fits(asked.head) {
        return Planned::Never;
    }
    Planned::Message(plan::packet(asked.head, asked.start))
}

// By the kind; a mask, and what is none of ours, have none.
pub fn of(outline: Outline, masks: &[u64], strips: &[u16], asked: Asked, rows: &[i32]) -> Planned
    requires { Slotted outline masks.now strips.now × OfTable asked.kind × (8 * asked.count ≤ length rows.now) }
    ensures { result ≡ plan_for asked.kind (view_in outline masks.now strips.now) asked.head asked.start (rows_in asked.count rows.now) }
{
    let kind = asked.kind;
    match kind {
        Kind::Other => Planned::Never,
        Kind::Mask => Planned::Never,
        Kind::Packet => packet(asked),
        Kind::Masked(layout) => masked(outline, masks, strips, layout, asked, rows),
    }
}
