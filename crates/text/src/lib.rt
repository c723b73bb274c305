// Text into a lent line (document 01, "Saved mask and listing"): characters, digits and numbers from a place on.
#![tactic(auto)]

pub mod number;

ghost use Rattle.std.specs.Prelude.{◌≡◌, [], ◌∷◌, ◌+◌, ◌<◌, length};
ghost use Rattle.std.proofs.lemmas.List.Edits.{sets};

// The characters between fields, at a line's end, and for what isn't there.
pub const TAB: u8 = 9;

pub const LINE_FEED: u8 = 10;

pub const DASH: u8 = 45;

// One character; the place behind it.
pub fn put(line: &mut [u8], at: usize, c: u8) -> usize
    requires { at < length line.old }
    ensures value { result ≡ at + 1 }
    ensures line_after { line.new ≡ sets line.old at (c ∷ []) }
{
    line[at] = c;
    at + 1
}
