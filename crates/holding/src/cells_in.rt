// How many cells the satellites have, by their strips: four strips are counted at a time, as one number.
ghost use Rattle.std.specs.Prelude.{◌≡◌, true, ◌+◌, ◌≤◌, length, take, drop};
ghost use Rattle.holding.specs.Building.{ones_in};
ghost use Rattle.holding.specs.Testing.{empty_strips};

use crate::joined::joined;
use crate::set_places;

// The cells of four satellites from one on.
fn cells_of_four(strips: &[u16], i: usize) -> usize
    requires { i + 4 ≤ length strips.now }
    ensures { (result ≡ ones_in (take 4 (drop i strips.now))) × (result ≤ 64) }
{
    set_places::count(joined(strips[i], strips[i + 1], strips[i + 2], strips[i + 3]))
}

// The cells of the first n satellites, behind whose strips none is used.
pub fn cells_in(strips: &[u16], n: usize) -> usize
    requires { (length strips.now ≡ 64) × (n ≤ 64) × (empty_strips (drop n strips.now) ≡ true) }
    ensures { result ≡ ones_in (take n strips.now) }
{
    let mut cells = 0;
    let mut k = 0;
    while 4 * k < n {
        cells += cells_of_four(strips, 4 * k);
        k += 1;
    }
    cells
}
