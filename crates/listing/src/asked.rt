// What the program's arguments ask for.
ghost use Rattle.std.specs.Prelude.{◌≡◌, ◌+◌, true, take, Ok, IfOk};
ghost use Rattle.format.specs.Saved.{load};
ghost use Rattle.holding.specs.Pictures.{sound};
ghost use Rattle.saved.specs.Loads.{loading_by};

use holding::Holding;
use std::env::FillError;
use std::error::Error;
use std::fmt;
use std::rt::Env;
use text::LINE_FEED;

// Whether the listing is shown, and the holding to start from.
#[derive(Clone, Copy)]
pub struct Asked {
    pub shown: bool,
    pub holding: Holding,
}

// The second argument is no saved line: document 01's number of that, and what it means.
#[derive(Clone, Copy, Debug, PartialEq, Eq)]
pub struct NoSavedMask;

impl fmt::Display for NoSavedMask {
    fn fmt<W: fmt::Write>(&self, f: &mut fmt::Formatter<W>) -> fmt::Result {
        write!(f, "12: no saved mask")
    }
}

impl Error for NoSavedMask {}

// The holding of the saved line that a buffer begins with, its line feed put behind it.
fn from_line(buffer: &mut [u8], n: usize) -> Result<Holding, NoSavedMask>
    ensures sound { IfOk result (λ h. sound h ≡ true) }
    ensures loaded { IfOk result (λ h. loading_by (load (take (n + 1) buffer.new)) ≡ record { answer = Ok tt; holding = h }) }
{
    if n >= buffer.len() {
        return Err(NoSavedMask);
    }
    buffer[n] = LINE_FEED;
    let loading = saved::load(&buffer[..n + 1]);
    loading.answer.map_err(|_| NoSavedMask)?;
    Ok(loading.holding)
}

// Whether the first argument asks for the listing: it does unless it begins as `save` does, and where it is missing,
// empty or longer than the buffer.
fn asks_listing(env: &impl Env, buffer: &mut [u8]) -> bool {
    match env.arg(1, buffer) {
        Ok(n) => n == 0 || buffer[0] != b's',
        Err(_) => true,
    }
}

// The arguments, bytes of any kind, read into a buffer. A saved line that is longer than the buffer is none.
pub fn arguments(env: &impl Env, buffer: &mut [u8]) -> Result<Asked, NoSavedMask>
    ensures { IfOk result (λ asked. sound asked.holding ≡ true) }
{
    let shown = asks_listing(env, buffer);
    let holding = match env.arg(2, buffer) {
        Ok(n) => from_line(buffer, n)?,
        Err(FillError::NotPresent) => Holding::empty(),
        Err(FillError::TooLong) => return Err(NoSavedMask),
    };
    Ok(Asked { shown, holding })
}
