// The part of a byte string that holds a range of its bits.
ghost use Rattle.std.specs.Prelude.{◌≡◌, ◌*◌, ◌≤◌, length};
ghost use Rattle.bits.specs.Parts.{start_of, count_of, IsPart};

// The byte at which it begins, that with the range's first bit; 0 for an empty range.
pub fn begins(from: usize, to: usize) -> usize
    ensures { result ≡ start_of from to }
{
    if from < to { from / 8 } else { 0 }
}

// How many bytes it has, up to that with the range's last bit; none for an empty range.
pub fn counts(from: usize, to: usize) -> usize
    ensures { result ≡ count_of from to }
{
    if from < to {
        (to - 1) / 8 + 1 - from / 8
    } else {
        0
    }
}

// The part itself, of the caller's own string.
pub fn part(bytes: &[u8], from: usize, to: usize) -> &[u8]
    requires { to ≤ 8 * length bytes.now }
    ensures { IsPart bytes.entry result from to }
{
    let first = begins(from, to);
    let past = first + counts(from, to);
    &bytes[first..past]
}
