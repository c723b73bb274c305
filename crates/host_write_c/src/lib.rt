// What C calls of crate `host_write` (docs/HOST.md, include/hundurzek.h), with the clauses of the function called. An
// archive of its own, as `host_write` is a crate of its own.
#![tactic(auto)]

ghost use Rattle.std.specs.Prelude.{◌≡◌};
ghost use Rattle.format.specs.Writing.{writing, done_writing, bytes_after};
ghost use Rattle.holding.specs.Pictures.{lent_by};
ghost use Rattle.passing.specs.Passing.{holding_in};
ghost use Rattle.host_write.specs.Writes.{head_in, written_handed};

use host_write::Done;

// Writes one message.
#[unsafe(no_mangle)]
pub extern "C" fn hundurzek_write(
    holding: &[u8],
    head: &[i32],
    rows: &[i32],
    count: usize,
    bytes: &mut [u8],
    start: usize,
) -> Done
    ensures value { result ≡ written_handed start (done_writing start (writing (lent_by (holding_in holding.now)) (head_in head.now) rows.now count bytes.old start)) }
    ensures bytes_after { bytes.new ≡ bytes_after (writing (lent_by (holding_in holding.now)) (head_in head.now) rows.now count bytes.old start) bytes.old start }
{
    host_write::hundurzek_write(holding, head, rows, count, bytes, start)
}
