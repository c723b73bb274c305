// The bits that a line of input says, as bytes: at the line's own front, or in another buffer.
ghost use Rattle.std.specs.Prelude.{◌≡◌, true, ◌+◌, ◌/◌, ◌≤◌, ◌<◌, length, take, drop};
ghost use Rattle.std.proofs.lemmas.List.Edits.{sets};
ghost use Rattle.format.specs.Listing.{bytes_said};
ghost use Rattle.format.specs.Text.{digit_char, char_digit, hex_bits};
ghost use Rattle.lines.specs.Digits.{hex_says};

// What a digit says, without a branch: the digits from A on stand 64 and more behind 0, one place before what they say.
fn four(c: u8) -> u8
    requires { (char_digit c < 16) × (digit_char (char_digit c) ≡ c) }
    ensures value { result ≡ char_digit c }
    ensures upper_bound { result < 16 }
{
    c % 16 + 9 * (c / 64)
}

// The n bits that the digits from a place on say, as bytes from the line's first on: two digits to a byte.
pub fn stretch_in(line: &mut [u8], first: usize, n: usize)
    requires { (n ≤ 50850) × (first + (n + 3) / 4 ≤ length line.old) × (hex_says n (take ((n + 3) / 4) (drop first line.old)) ≡ true) }
    ensures { line.new ≡ sets line.old 0 (bytes_said (take n (hex_bits (take ((n + 3) / 4) (drop first line.old))))) }
{
    let digits = n.div_ceil(4);
    let pairs = digits / 2;
    for i in 0..pairs {
        let from = first + 2 * i;
        line[i] = four(line[from]) * 16 + four(line[from + 1]);
    }
    if digits % 2 == 1 {
        line[pairs] = four(line[first + 2 * pairs]) * 16;
    }
}

// The same bits as bytes into another buffer, from its first byte on. A loop of its own: a function for both would be
// lent one buffer to read and one to write, and in place these are the same.
pub fn stretch_of(line: &[u8], first: usize, n: usize, bytes: &mut [u8])
    requires { (n ≤ 50850) × (first + (n + 3) / 4 ≤ length line.now) × (hex_says n (take ((n + 3) / 4) (drop first line.now)) ≡ true) × ((n + 7) / 8 ≤ length bytes.old) }
    ensures { bytes.new ≡ sets bytes.old 0 (bytes_said (take n (hex_bits (take ((n + 3) / 4) (drop first line.now))))) }
{
    let digits = n.div_ceil(4);
    let pairs = digits / 2;
    for i in 0..pairs {
        let from = first + 2 * i;
        bytes[i] = four(line[from]) * 16 + four(line[from + 1]);
    }
    if digits % 2 == 1 {
        bytes[pairs] = four(line[first + 2 * pairs]) * 16;
    }
}
