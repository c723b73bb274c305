// A message written for a host in C (docs/HOST.md): head and rows as numbers, the bits into lent bytes. Not in crate
// `host`: what reader and writer both call would then be one function, and reading take more (docs/DECISIONS.md 68).
#![tactic(auto)]

ghost use Rattle.std.specs.Prelude.{◌≡◌, ◌≤◌, length, get_or};
ghost use Rattle.format.specs.Answers.{done, undone_at};
ghost use Rattle.format.specs.Rows.{absent};
ghost use Rattle.format.specs.Writing.{writing, done_writing, bytes_after};
ghost use Rattle.holding.specs.Pictures.{lent_by};
ghost use Rattle.passing.specs.Passing.{holding_in};
ghost use Rattle.host_write.specs.Writes.{head_in, without_holding, written_handed};

use format::{ABSENT, Head, Refusal, number};
use passing::take::{passes, said};
use writer::Writing;
use writer::room::limit;

// What is written: the answer's number, the place after the message or the start asked for, the message's length in bits.
#[repr(C)]
#[derive(Clone, Copy)]
pub struct Done {
    pub answer: u64,
    pub place: usize,
    pub count: usize,
}

// The answer to what is done.
const DONE: u64 = 255;

// A number of those lent; absent where fewer are.
fn number_at(numbers: &[i32], i: usize) -> i32
    ensures { result ≡ get_or numbers.now i absent }
{
    if i < numbers.len() {
        return numbers[i];
    }
    ABSENT
}

// How many numbers a head has.
const HEAD: usize = 8;

// Eight numbers and more: the first eight as a head.
fn whole_head(numbers: &[i32]) -> Head
    requires { 8 ≤ length numbers.now }
    ensures { result ≡ head_in numbers.now }
{
    Head {
        subtype: numbers[0],
        epoch: numbers[1],
        interval: numbers[2],
        indicator: numbers[3],
        iod: numbers[4],
        a: numbers[5],
        b: numbers[6],
        c: numbers[7],
    }
}

// The first eight numbers as a head, however many are lent: that a host lends them all is tested once.
fn head_in(numbers: &[i32]) -> Head
    ensures { result ≡ head_in numbers.now }
{
    if numbers.len() >= HEAD {
        return whole_head(numbers);
    }
    Head {
        subtype: number_at(numbers, 0),
        epoch: number_at(numbers, 1),
        interval: number_at(numbers, 2),
        indicator: number_at(numbers, 3),
        iod: number_at(numbers, 4),
        a: number_at(numbers, 5),
        b: number_at(numbers, 6),
        c: number_at(numbers, 7),
    }
}

// What is written from a start on, up to a place.
fn written(start: usize, place: usize) -> Done
    requires { start ≤ place }
    ensures { result ≡ written_handed start (done place) }
{
    Done {
        answer: DONE,
        place,
        count: place - start,
    }
}

// What is refused.
fn refused(start: usize, refusal: Refusal) -> Done
    ensures { result ≡ written_handed start (undone_at start refusal) }
{
    Done {
        answer: number(refusal),
        place: start,
        count: 0,
    }
}

// What is answered where the bytes say no holding: 2 comes before 12 (document 01, "Writer").
fn no_holding(bytes: &[u8], start: usize) -> Done
    ensures { result ≡ written_handed start (done_writing start (without_holding bytes.now start)) }
{
    if start > limit(bytes) {
        return refused(start, Refusal::Place);
    }
    refused(start, Refusal::Value)
}

// Writes one message. Bytes that say no holding are refused before one is made of them.
pub fn hundurzek_write(
    holding: &[u8],
    head: &[i32],
    rows: &[i32],
    count: usize,
    bytes: &mut [u8],
    start: usize,
) -> Done
    ensures value { result ≡ written_handed start (done_writing start (writing (lent_by (holding_in holding.now)) (head_in head.now) rows.now count bytes.old start)) }
    ensures bytes_after { bytes.new ≡ bytes_after (writing (lent_by (holding_in holding.now)) (head_in head.now) rows.now count bytes.old start) bytes.old start }
{
    if !passes(holding) {
        return no_holding(bytes, start);
    }
    let held = said(holding);
    let asked = head_in(head);
    let end = writer::write(held, asked, rows, count, bytes, start);
    match end {
        Writing::Done(place) => written(start, place),
        Writing::Refused(refusal) => refused(start, refusal),
    }
}
