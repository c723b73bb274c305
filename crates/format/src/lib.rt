// What a reader or a writer answers. The numbers of document 01, "Answer numbers", are those of
// specs/Answers.antt.
#![tactic(auto)]

ghost use Rattle.std.specs.Prelude.{◌≡◌};
ghost use Rattle.format.specs.Answers.{number_of};

// A head of eight numbers; -32768 is absent. It passes to C as it is.
#[repr(C)]
#[derive(Clone, Copy)]
pub struct Head {
    pub subtype: i32,
    pub epoch: i32,
    pub interval: i32,
    pub indicator: i32,
    pub iod: i32,
    pub a: i32,
    pub b: i32,
    pub c: i32,
}

// Why there is no message, by the names of document 01.
#[derive(Clone, Copy)]
pub enum Refusal {
    Room,
    Place,
    Short,
    Number,
    SubType,
    NoMask,
    OtherIssue,
    System,
    Reserved,
    Size,
    Network,
    Value,
    Changed,
}

// Document 01's number of a refusal.
#[tactic(auto, unfolding(crate::specs::Answers::number_of))]
pub fn number(r: Refusal) -> u64
    ensures { result ≡ number_of r }
{
    match r {
        Refusal::Room => 1,
        Refusal::Place => 2,
        Refusal::Short => 3,
        Refusal::Number => 4,
        Refusal::SubType => 5,
        Refusal::NoMask => 6,
        Refusal::OtherIssue => 7,
        Refusal::System => 8,
        Refusal::Reserved => 9,
        Refusal::Size => 10,
        Refusal::Network => 11,
        Refusal::Value => 12,
        Refusal::Changed => 13,
    }
}

// What isn't there, in a head or a row.
pub const ABSENT: i32 = -32768;

// The most bits of a stretch: 30 data parts of 1,695.
pub const STRETCH: usize = 50850;

// How many numbers a row buffer must have: 256 rows of eight.
pub const ROOM: usize = 2048;

// What reading answers: a message with its head, the place after it and its row count; idle; or a refusal, with how
// many bits were missing where it is short and else 0.
#[derive(Clone, Copy)]
pub enum Answer {
    Message(Head, usize, usize),
    Idle,
    Refused(Refusal, usize),
}
