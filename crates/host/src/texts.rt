// Lines of text for a host written in C (docs/HOST.md): a holding saved and loaded, and the stretch that a line says.
ghost use Rattle.std.specs.Prelude.{◌≡◌};
ghost use Rattle.format.specs.Answers.{done, undone_at};
ghost use Rattle.format.specs.Listing.{line_says};
ghost use Rattle.format.specs.Saved.{load, saving, done_saving, buffer_after};
ghost use Rattle.holding.specs.Pictures.{mask_of, lent_by};
ghost use Rattle.passing.specs.Passing.{holding_in};
ghost use Rattle.saved.specs.Saves.{saving_by};
ghost use Rattle.host.specs.Texts.{done_handed, answer_loaded, loaded_to, taking, done_taking, stretch_after};

use format::{Refusal, number};
use holding::Holding;
use lines::said_by;
use lines::stretch::stretch_of;
use passing::give::holding_over;
use passing::{SIZE, take};
use saved::{load_parts, save_parts};

// What is done with a line: the answer's number, the start, and how long the saved line is, or the stretch in bits.
#[repr(C)]
#[derive(Clone, Copy)]
pub struct Done {
    pub answer: u64,
    pub place: usize,
    pub count: usize,
}

// A loaded holding: the answer's number, and the holding's bytes.
#[repr(C)]
#[derive(Clone, Copy)]
pub struct Loaded {
    pub answer: u64,
    pub holding: [u8; SIZE],
}

// The answer to what is done. (The C interface has a name for it and one for a message's, and crate `host_write` shares
// no crate of answers for C with this one: so each has its own.)
const DONE: u64 = 255;

// Where a line begins: the start that its answers name (document 01, "Answer numbers").
const START: usize = 0;

// What is done, and so long.
#[tactic(auto, unfolding(crate::specs::Texts::done_handed))]
fn finish(n: usize) -> Done
    ensures { result ≡ done_handed (done n) }
{
    Done {
        answer: DONE,
        place: START,
        count: n,
    }
}

// What is refused.
#[tactic(auto, unfolding(crate::specs::Texts::done_handed, format::specs::Answers::undone_at))]
fn refuse(refusal: Refusal) -> Done
    ensures { result ≡ done_handed (undone_at 0 refusal) }
{
    Done {
        answer: number(refusal),
        place: START,
        count: 0,
    }
}

// Saves the holding that lent bytes say, in parts.
fn saved_in(holding: &[u8], line: &mut [u8]) -> Result<usize, Refusal>
    ensures value { result ≡ saving_by (saving (lent_by (holding_in holding.now)) line.old) }
    ensures line_after { line.new ≡ buffer_after (saving (lent_by (holding_in holding.now)) line.old) (mask_of (holding_in holding.now)) line.old }
{
    if !take::passes(holding) {
        return Err(Refusal::Value);
    }
    let satellites = take::satellites(holding);
    let strips = take::strips(holding);
    let outline = take::outline(holding);
    save_parts(outline, &satellites, &strips, line)
}

// Saves a holding as a line, its line feed too.
pub fn hundurzek_save(holding: &[u8], line: &mut [u8]) -> Done
    ensures value { result ≡ done_handed (done_saving (saving (lent_by (holding_in holding.now)) line.old)) }
    ensures line_after { line.new ≡ buffer_after (saving (lent_by (holding_in holding.now)) line.old) (mask_of (holding_in holding.now)) line.old }
{
    match saved_in(holding, line) {
        Ok(n) => finish(n),
        Err(refusal) => refuse(refusal),
    }
}

// The number of the answer to loading.
#[tactic(auto, unfolding(crate::specs::Texts::answer_loaded))]
fn load_number(answer: Result<(), Refusal>) -> u64
    ensures { result ≡ answer_loaded answer }
{
    match answer {
        Ok(()) => DONE,
        Err(refusal) => number(refusal),
    }
}

// Loads the holding that a saved line says; the empty one where it says none.
pub fn hundurzek_load(line: &[u8]) -> Loaded
    ensures { result ≡ loaded_to (load line.now) }
{
    let mut satellites = [0u64; Holding::SYSTEMS];
    let mut strips = [0u16; Holding::SATELLITES];
    let loading = load_parts(line, &mut satellites, &mut strips);
    let mut holding = [0u8; SIZE];
    holding_over(&mut holding, loading.outline, &satellites, &strips);
    Loaded {
        answer: load_number(loading.answer),
        holding,
    }
}

// How many bits a byte has.
const BYTE: usize = 8;

// Takes the stretch that a line of the listing's input says.
pub fn hundurzek_line(line: &[u8], bytes: &mut [u8]) -> Done
    ensures value { result ≡ done_handed (done_taking (taking (line_says line.now) bytes.old)) }
    ensures bytes_after { bytes.new ≡ stretch_after (taking (line_says line.now) bytes.old) bytes.old }
{
    let Some(said) = said_by(line) else {
        return refuse(Refusal::Value);
    };
    if bytes.len() < said.bits.div_ceil(BYTE) {
        return refuse(Refusal::Room);
    }
    stretch_of(line, said.first, said.bits, bytes);
    finish(said.bits)
}
