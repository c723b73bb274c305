// Strips joined to one number, to be tested or counted at once.
ghost use Rattle.std.specs.Prelude.{◌≡◌};
ghost use Rattle.holding.specs.Testing.{four};

// Four strips, the first one lowest: LLVM makes it one load where they are neighbours.
pub fn joined(a: u16, b: u16, c: u16, d: u16) -> u64
    ensures { result ≡ four a b c d }
{
    (((d as u64) * 0x1_0000 + (c as u64)) * 0x1_0000 + (b as u64)) * 0x1_0000 + (a as u64)
}
