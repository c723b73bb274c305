// A pen over the lent bytes: fields are gathered from a whole byte on, and 64 bits are set at once as soon as they are
// there. Only a message's first and last byte can hold bits of others, and those are set to what they are (document 01:
// "Bits outside the message keep their values").
ghost use Rattle.std.specs.Prelude.{◌≡◌, [], ◌∷◌};
ghost use Rattle.pens.specs.Pens.{pushed, set_by, inked_by, begun_by, Ready, Begins};

use bits::window::store_eight;
use bits::write::write_field;

// A number in so many bits.
#[derive(Clone, Copy)]
pub struct Field {
    pub width: usize,
    pub value: u64,
}

// What is gathered, as the low bits of a word, how many these are, and the place where they belong. What stands above
// them is shifted out before they are set.
#[derive(Clone, Copy)]
pub struct Pen {
    pub place: usize,
    pub width: usize,
    pub gathered: u64,
}

// As many bits as one setting takes.
pub const MOST: usize = 64;

// How many bits a byte has.
const BYTE: usize = 8;

// Sets what is gathered: the last setting of a message. By numbers: a pen would be handed over in memory, and be stored
// there for each field before.
pub fn set(bytes: &mut [u8], place: usize, width: usize, gathered: u64)
    requires { Ready (record { place = place; width = width; gathered = gathered }) [] bytes.old }
    ensures { bytes.new ≡ set_by (record { place = place; width = width; gathered = gathered }) bytes.old }
{
    let first = place / BYTE;
    let low = gathered % (1u64 << width);
    write_field(&mut bytes[first..], 0, width, low);
}

// A pen from the byte on in which its place lies: the bits before its place there come first, as they are.
pub fn begin(bytes: &[u8], pen: Pen) -> Pen
    requires { Begins pen [] bytes.now }
    ensures { result ≡ begun_by bytes.now pen }
{
    let skip = pen.place % BYTE;
    if skip == 0 {
        return pen;
    }
    let first = pen.place / BYTE;
    let before = (bytes[first] as u64) >> (BYTE - skip);
    Pen {
        place: pen.place - skip,
        width: skip + pen.width,
        gathered: (before << pen.width) + pen.gathered,
    }
}

// One field more. Where 64 bits are there, they are set, and the rest of the field is kept.
pub fn push(bytes: &mut [u8], pen: Pen, field: Field) -> Pen
    requires { Ready pen (field ∷ []) bytes.old }
    ensures value { result ≡ pushed pen field }
    ensures bytes_after { bytes.new ≡ inked_by pen field bytes.old }
{
    let width = field.width;
    let total = pen.width + width;
    if total < MOST {
        return Pen {
            place: pen.place,
            width: total,
            gathered: (pen.gathered << width) + field.value,
        };
    }
    let rest = total - MOST;
    let first = pen.place / BYTE;
    let full = (pen.gathered << (MOST - pen.width)) + (field.value >> rest);
    store_eight(&mut bytes[first..], full);
    Pen {
        place: pen.place + MOST,
        width: rest,
        gathered: field.value,
    }
}
