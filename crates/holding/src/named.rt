// Whether a system is named already.
ghost use Rattle.std.specs.Prelude.{◌≡◌, ◌≤◌, length, take};
ghost use Rattle.format.specs.Messages.{named};

// Whether an ID is among the first count.
pub fn named_in(ids: &[u8], count: usize, id: u8) -> bool
    requires { count ≤ length ids.now }
    ensures { result ≡ named id (take count ids.now) }
{
    let mut i = 0;
    while i < count {
        if id == ids[i] {
            return true;
        }
        i += 1;
    }
    false
}
