// Rows of a packet's part (document 01, "What is handed out"), numbered from 1 in the signal column.
ghost use Rattle.std.specs.Prelude.{◌≡◌};
ghost use Rattle.body.specs.Written.{numbers_at, Room};
ghost use Rattle.format.specs.Messages.{packet_lines};
ghost use Rattle.format.specs.Reading.{over};

use format::ABSENT;
use rows::row::Key;
use rows::{row, shape, shapes};

pub fn fill(parts: usize, bytes: &[u8], at: usize, rows: &mut [i32])
    requires { Room (packet_lines 1 parts) bytes.now at rows.old }
    ensures { rows.new ≡ over (numbers_at (packet_lines 1 parts) bytes.now at) rows.old }
{
    let s = shapes::packet();
    let width = shape::width(s);
    let mut place = at;
    for i in 0..parts {
        let k = 8 * i;
        let key = Key {
            system: ABSENT,
            satellite: ABSENT,
            signal: (i + 1) as i32,
        };
        row::wide(&mut rows[k..k + 8], key, bytes, place, s);
        place += width;
    }
}
