// The table of sub types (document 01, "Message layouts"): what each is to the holding, over which keys its rows go and
// in which shape. Small numbers all of it, so that it costs nothing to hand on: a shape is its row in the table of shapes.
#![tactic(auto)]

ghost use Rattle.std.specs.Prelude.{◌≡◌, true, false};
ghost use Rattle.table.specs.declared.Kind.TheVariants.{Masked};
ghost use Rattle.table.specs.Kinds.{kind_for, keys_for};

use rows::shapes;

// Over which keys the rows of a body go: the satellites, or the cells of the satellites, that a selection chooses, the
// first satellite's bit being the highest of 64; or so many parts of a packet.
#[derive(Clone, Copy)]
pub enum Keys {
    Satellites(u64),
    Cells(u64),
    Parts(usize),
}

// Every satellite.
pub const ALL: u64 = 0xffff_ffff_ffff_ffff;

// A body is its keys and the shape of its rows.
#[derive(Clone, Copy)]
pub struct Body {
    pub keys: Keys,
    pub shape: usize,
}

// A sub type that is read under the mask: whether its rows go over cells, whether flags and perhaps a network with its
// selection stand before them, and their shape; with flags that is the first of four.
#[derive(Clone, Copy)]
pub struct Layout {
    pub cells: bool,
    pub flagged: bool,
    pub shape: usize,
}

// What a sub type is: none of ours, a mask, a packet's part, or one that is read under the mask.
#[derive(Clone, Copy)]
pub enum Kind {
    Other,
    Mask,
    Packet,
    Masked(Layout),
}

// Rows alone after the head.
fn alone(cells: bool, shape: usize) -> Kind
    ensures { result ≡ Masked (record { cells = cells; flagged = false; shape = shape }) }
{
    Kind::Masked(Layout {
        cells,
        flagged: false,
        shape,
    })
}

// Rows behind flags. (A function of its own: a line of the table is plainer with a word than with two truths.)
fn flagged(cells: bool, shape: usize) -> Kind
    ensures { result ≡ Masked (record { cells = cells; flagged = true; shape = shape }) }
{
    Kind::Masked(Layout {
        cells,
        flagged: true,
        shape,
    })
}

// The sub types whose number is said elsewhere, too: in a head, and to tell a mask.
pub const MASK: usize = 1;

pub const PACKET: usize = 10;

// The table.
#[tactic(auto, unfolding(crate::specs::Kinds::kind_for, crate::specs::Kinds::code_kinds))]
pub fn kind_of(n: usize) -> Kind
    ensures { result ≡ kind_for n }
{
    match n {
        MASK => Kind::Mask,
        2 => alone(false, shapes::ORBIT),
        3 => alone(false, shapes::CLOCK),
        4 => alone(true, shapes::CODE),
        5 => alone(true, shapes::PHASE),
        6 => flagged(true, shapes::BIASES),
        7 => alone(false, shapes::ACCURACY),
        PACKET => Kind::Packet,
        11 => flagged(false, shapes::NONE),
        _ => Kind::Other,
    }
}

// The rows over satellites or cells that a selection chooses.
pub fn over(cells: bool, chosen: u64) -> Keys
    ensures { result ≡ keys_for cells chosen }
{
    if cells {
        Keys::Cells(chosen)
    } else {
        Keys::Satellites(chosen)
    }
}
