// What C calls of crate `host` (docs/HOST.md, include/hundurzek.h): each function has the clauses of the one that it
// calls.
#![tactic(auto)]

ghost use Rattle.std.specs.Prelude.{◌≡◌};
ghost use Rattle.format.specs.Listing.{line_says};
ghost use Rattle.format.specs.Reading.{rows_after};
ghost use Rattle.format.specs.Saved.{load, saving, done_saving, buffer_after};
ghost use Rattle.holding.specs.Pictures.{mask_of, lent_by};
ghost use Rattle.passing.specs.Passing.{holding_in};
ghost use Rattle.host.specs.Handing.{handed, holding_bytes, host_outcome, host_walk, walked_to, walk_bytes, emptied, emptied_number};
ghost use Rattle.host.specs.Texts.{done_handed, loaded_to, taking, done_taking, stretch_after};

use host::texts::{Done, Loaded};
use host::{Handed, Walked};

// Makes the empty holding.
#[unsafe(no_mangle)]
pub extern "C" fn hundurzek_empty(holding: &mut [u8]) -> u64
    ensures value { result ≡ emptied_number holding.old }
    ensures holding_after { holding.new ≡ emptied holding.old }
{
    host::hundurzek_empty(holding)
}

// Reads one message.
#[unsafe(no_mangle)]
pub extern "C" fn hundurzek_read(
    holding: &mut [u8],
    bytes: &[u8],
    end: usize,
    start: usize,
    rows: &mut [i32],
) -> Handed
    ensures value { result ≡ handed start (host_outcome holding.old bytes.now end start rows.old) }
    ensures holding_after { holding.new ≡ holding_bytes (host_outcome holding.old bytes.now end start rows.old) holding.old }
    ensures rows_after { rows.new ≡ rows_after (host_outcome holding.old bytes.now end start rows.old) rows.old }
{
    host::hundurzek_read(holding, bytes, end, start, rows)
}

// Reads a whole stretch, from place 0 until idle or a refusal.
#[unsafe(no_mangle)]
pub extern "C" fn hundurzek_walk(
    holding: &mut [u8],
    bytes: &[u8],
    end: usize,
    rows: &mut [i32],
) -> Walked
    ensures value { result ≡ walked_to (host_walk holding.old bytes.now end rows.old) }
    ensures holding_after { holding.new ≡ walk_bytes (host_walk holding.old bytes.now end rows.old) holding.old }
    ensures rows_after { rows.new ≡ (host_walk holding.old bytes.now end rows.old).rows }
{
    host::hundurzek_walk(holding, bytes, end, rows)
}

// Saves a holding as a line, its line feed too.
#[unsafe(no_mangle)]
pub extern "C" fn hundurzek_save(holding: &[u8], line: &mut [u8]) -> Done
    ensures value { result ≡ done_handed (done_saving (saving (lent_by (holding_in holding.now)) line.old)) }
    ensures line_after { line.new ≡ buffer_after (saving (lent_by (holding_in holding.now)) line.old) (mask_of (holding_in holding.now)) line.old }
{
    host::texts::hundurzek_save(holding, line)
}

// Loads the holding that a saved line says; the empty one where it says none.
#[unsafe(no_mangle)]
pub extern "C" fn hundurzek_load(line: &[u8]) -> Loaded
    ensures { result ≡ loaded_to (load line.now) }
{
    host::texts::hundurzek_load(line)
}

// Takes the stretch that a line of the listing's input says.
#[unsafe(no_mangle)]
pub extern "C" fn hundurzek_line(line: &[u8], bytes: &mut [u8]) -> Done
    ensures value { result ≡ done_handed (done_taking (taking (line_says line.now) bytes.old)) }
    ensures bytes_after { bytes.new ≡ stretch_after (taking (line_says line.now) bytes.old) bytes.old }
{
    host::texts::hundurzek_line(line, bytes)
}
