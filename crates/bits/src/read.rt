// Reading a field.
ghost use Rattle.std.specs.Prelude.{◌≡◌, ◌+◌, ◌-◌, ◌*◌, ◌/◌, ◌%◌, ◌^◌, ◌≤◌, ◌<◌};
ghost use Rattle.bits.specs.Places.{field};
ghost use Rattle.bits.specs.Short.{bits_of, short_by, widths_of};

use crate::window;

// The w bits after the first skip of a window.
pub fn cut(window: u64, skip: usize, w: usize) -> u64
    requires { skip + w < 64 }
    ensures { result ≡ window / 2 ^ (64 - skip - w) % 2 ^ w }
{
    (window << skip) >> 1 >> (63 - w)
}

// The window at byte i, whether or not eight bytes are left there. The bound is that of a place's byte.
pub fn window_at(bytes: &[u8], i: usize) -> u64
    requires { i < 2 ^ 61 }
    ensures { result ≡ field bytes.now (8 * i) 64 }
{
    if bytes.len() < i + 8 {
        return window::fewer(bytes, i);
    }
    window::eight(bytes, i)
}

// The number in w bits at a place.
pub fn read_field(bytes: &[u8], place: usize, w: usize) -> u64
    requires { w ≤ 56 }
    ensures { result ≡ field bytes.now place w }
{
    cut(window_at(bytes, place / 8), place % 8, w)
}

// How many bits lie between a place and the end: none where the place is past it.
pub fn bits_left(end: usize, place: usize) -> usize
    ensures { result ≡ end - place }
{
    if place < end { end - place } else { 0 }
}

// How many bits of a field are missing.
#[derive(Clone, Copy)]
pub struct Short {
    pub missing: usize,
}

// The widths of fields that stand one after the other: four at most, the later ones being 0 where there are fewer.
#[derive(Clone, Copy)]
pub struct Widths {
    pub first: usize,
    pub second: usize,
    pub third: usize,
    pub fourth: usize,
}

// By how much the first of them is short that is, where fewer bits are left than they have.
pub fn short_by(w: Widths, left: usize) -> usize
    requires { left < bits_of (widths_of w) }
    ensures { result ≡ short_by (widths_of w) left }
{
    if left < w.first {
        return w.first - left;
    }
    let second = left - w.first;
    if second < w.second {
        return w.second - second;
    }
    let third = second - w.second;
    if third < w.third {
        return w.third - third;
    }
    w.fourth - (third - w.third)
}
