// How far rows fit the lines of a packet's part (document 01, "What is handed out"), numbered from 1 in the signal
// column.
ghost use Rattle.std.specs.Prelude.{◌≡◌, ◌≤◌};
ghost use Rattle.format.specs.Messages.{packet_lines};
ghost use Rattle.matching.specs.Matching.{matched_at};

use crate::fits::{Matched, line};
use format::ABSENT;
use rows::row::Key;
use rows::shapes;

pub fn reach(parts: usize, rows: &[i32]) -> Matched
    requires { parts ≤ 4 }
    ensures { result ≡ matched_at (packet_lines 1 parts) rows.now 0 }
{
    let s = shapes::packet();
    let mut i = 0;
    let mut k = 0;
    while i < parts {
        i += 1;
        let key = Key {
            system: ABSENT,
            satellite: ABSENT,
            signal: i as i32,
        };
        if !line::fits(rows, k, key, s) {
            return Matched::Not;
        }
        k += 8;
    }
    Matched::To(k)
}
