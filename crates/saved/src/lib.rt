// The saved holding (document 01, "Saved mask and listing"): one line of text, and the way back.
#![tactic(auto)]

mod candidate;
pub mod cells;
mod characters;
pub mod line;
pub mod systems;

ghost use Rattle.std.specs.Prelude.{◌≡◌};
ghost use Rattle.format.specs.Saved.{load, saving, buffer_after};
ghost use Rattle.holding.specs.Outlines.{whole_of};
ghost use Rattle.holding.specs.Pictures.{mask_of, lent_by};
ghost use Rattle.saved.specs.Loads.{loading_of, loading_by};
ghost use Rattle.saved.specs.Saves.{saving_by};

use format::Refusal;
use holding::{Holding, Outline};

// Whether a holding is loaded or the line is refused, and the holding. Not one `Result`: C is handed the empty holding beside
// a refusal, and the clauses of `load` and `load_parts` say so.
#[derive(Clone, Copy)]
pub struct Loading {
    pub answer: Result<(), Refusal>,
    pub holding: Holding,
}

// The same with the holding in parts: its masks and strips stand in arrays that are lent, as `load_parts` leaves them.
#[derive(Clone, Copy)]
pub struct LoadingParts {
    pub answer: Result<(), Refusal>,
    pub outline: Outline,
}

// A holding in parts as a line, from the lent buffer's first byte on; later bytes stay. How long the line is, or a refusal,
// which changes nothing.
pub fn save_parts(
    outline: Outline,
    satellites: &[u64; Holding::SYSTEMS],
    strips: &[u16; Holding::SATELLITES],
    line: &mut [u8],
) -> Result<usize, Refusal>
    ensures value { result ≡ saving_by (saving (lent_by (whole_of outline satellites.now strips.now)) line.old) }
    ensures line_after { line.new ≡ buffer_after (saving (lent_by (whole_of outline satellites.now strips.now)) line.old) (mask_of (whole_of outline satellites.now strips.now)) line.old }
{
    if !outline.is_sound(satellites, strips) {
        return Err(Refusal::Value);
    }
    if line.len() < line::line_long(outline, satellites) {
        return Err(Refusal::Room);
    }
    Ok(line::line_text(line, outline, satellites, strips))
}

// The same of a holding by value.
pub fn save(holding: Holding, line: &mut [u8]) -> Result<usize, Refusal>
    ensures value { result ≡ saving_by (saving (lent_by holding) line.old) }
    ensures line_after { line.new ≡ buffer_after (saving (lent_by holding) line.old) (mask_of holding) line.old }
{
    save_parts(
        holding.outline(),
        &holding.satellites,
        &holding.strips,
        line,
    )
}

// The holding that a line says, in parts: the one that it would say, if that is a holding and the line is its own. A form is
// told by its own line, so that no list of what can be wrong with a line is needed. Beside a refusal it is the empty one,
// whatever stood in the lent arrays.
pub fn load_parts(
    line: &[u8],
    satellites: &mut [u64; Holding::SYSTEMS],
    strips: &mut [u16; Holding::SATELLITES],
) -> LoadingParts
    ensures { loading_of result satellites.new strips.new ≡ loading_by (load line.now) }
{
    let outline = candidate::candidate(line, satellites, strips);
    if outline.is_sound(satellites, strips) {
        if line::is_own(outline, satellites, strips, line) {
            return LoadingParts {
                answer: Ok(()),
                outline,
            };
        }
    }
    *satellites = [0; Holding::SYSTEMS];
    *strips = [0; Holding::SATELLITES];
    LoadingParts {
        answer: Err(Refusal::Value),
        outline: Holding::empty().outline(),
    }
}

// The same with the holding by value.
pub fn load(line: &[u8]) -> Loading
    ensures { result ≡ loading_by (load line.now) }
{
    let mut satellites = [0; Holding::SYSTEMS];
    let mut strips = [0; Holding::SATELLITES];
    let parts = load_parts(line, &mut satellites, &mut strips);
    Loading {
        answer: parts.answer,
        holding: parts.outline.with(satellites, strips),
    }
}
