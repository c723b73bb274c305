// The held mask, by value.
#![tactic(auto)]

pub mod assigned;
pub mod cells_in;
pub mod joined;
pub mod named;
pub mod same;
pub mod set_places;
pub mod strips_empty;
pub mod strips_fit;
pub mod testing;

ghost use Rattle.std.specs.Prelude.{◌≡◌, ◌<◌, length};
ghost use Rattle.format.specs.Masks.{nothing};
ghost use Rattle.holding.specs.Building.{with_system};
ghost use Rattle.holding.specs.Outlines.{outline_of, whole_of};
ghost use Rattle.holding.specs.Pictures.{picture_of, sound};

// What is held, as specs/Pictures.antt pictures it: a slot for each system in the order sent (its ID, its
// satellite and signal masks with place 0 as the highest of their 40 and 16 bits, its cell flag); for each
// satellite over all systems its strip of the cell mask, the signals that count for it at their own places; how
// many satellites and cells there are. What is not used is zero. The order leaves no gap, which makes each copy shorter
// and an outline 32 bytes. `held` and `iod` are two, and no Option: what is lent says both (docs/HOST.md), and an issue
// beside nothing held is refused (`sound`).
#[derive(Clone, Copy)]
pub struct Holding {
    pub held: bool,
    pub iod: u8,
    pub count: u8,
    pub nsat: u8,
    pub ids: [u8; Holding::SYSTEMS],
    pub flags: [bool; Holding::SYSTEMS],
    pub signals: [u16; Holding::SYSTEMS],
    pub ncell: usize,
    pub satellites: [u64; Holding::SYSTEMS],
    pub strips: [u16; Holding::SATELLITES],
}

// What is held but for its masks and strips, which are lent beside it: a struct cannot be lent, and by value the whole of
// it would be a copy for each function that it goes to.
#[derive(Clone, Copy)]
pub struct Outline {
    pub held: bool,
    pub iod: u8,
    pub count: u8,
    pub nsat: u8,
    pub ids: [u8; Holding::SYSTEMS],
    pub flags: [bool; Holding::SYSTEMS],
    pub signals: [u16; Holding::SYSTEMS],
    pub ncell: usize,
}

impl Outline {
    // Whether it is sound with these masks and strips.
    pub fn is_sound(
        self,
        satellites: &[u64; Holding::SYSTEMS],
        strips: &[u16; Holding::SATELLITES],
    ) -> bool
        ensures { result ≡ sound (whole_of self satellites.now strips.now) }
    {
        self.fits(satellites, strips)
    }

    fn fits(self, satellites: &[u64], strips: &[u16]) -> bool
        requires { (length satellites.now ≡ 5) × (length strips.now ≡ 64) }
        ensures { result ≡ sound (whole_of self satellites.now strips.now) }
    {
        let count = self.count as usize;
        if !testing::issue_fits(self.held, self.iod, count) {
            return false;
        }
        if count > Holding::SYSTEMS {
            return false;
        }
        let ids = self.ids;
        let signals = self.signals;
        let flags = self.flags;
        testing::slots_fit(
            &ids,
            satellites,
            &signals,
            &flags,
            strips,
            count,
            self.nsat as usize,
            self.ncell,
        )
    }

    // A new mask replaces what was held, whole; its masks and strips stand where the old ones did.
    pub fn adopt(mut self, new: Outline) -> Self
        ensures { result ≡ new }
    {
        self = new;
        self
    }

    // The holding that it is with these masks and strips.
    pub fn with(
        self,
        satellites: [u64; Holding::SYSTEMS],
        strips: [u16; Holding::SATELLITES],
    ) -> Holding
        ensures { result ≡ whole_of self satellites strips }
    {
        let ids = self.ids;
        let flags = self.flags;
        let signals = self.signals;
        Holding {
            held: self.held,
            iod: self.iod,
            ids,
            flags,
            signals,
            count: self.count,
            nsat: self.nsat,
            ncell: self.ncell,
            satellites,
            strips,
        }
    }
}

impl Holding {
    // Document 01's limits: systems, whose IDs are below it; satellites and cells over all of them.
    pub const SYSTEMS: usize = 5;

    pub const SATELLITES: usize = 64;

    pub const CELLS: usize = 256;

    // The widths of a system's satellite mask and of its signal mask.
    pub const SATELLITE_MASK: usize = 40;

    pub const SIGNAL_MASK: usize = 16;

    // A fresh receiver's holding.
    pub fn empty() -> Self
        ensures { result ≡ picture_of nothing }
    {
        Self {
            held: false,
            iod: 0,
            count: 0,
            ids: [0; Self::SYSTEMS],
            satellites: [0; Self::SYSTEMS],
            signals: [0; Self::SYSTEMS],
            flags: [false; Self::SYSTEMS],
            strips: [0; Self::SATELLITES],
            nsat: 0,
            ncell: 0,
        }
    }

    // Whether it is empty or what a good mask message makes: any other value of the struct, down to a set bit in
    // an element that is not used, is not.
    pub fn is_sound(self) -> bool
        ensures { result ≡ sound self }
    {
        let satellites = self.satellites;
        let strips = self.strips;
        let outline = self.outline();
        outline.is_sound(&satellites, &strips)
    }

    // All of it but its masks and strips.
    pub fn outline(self) -> Outline
        ensures { result ≡ outline_of self }
    {
        let ids = self.ids;
        let flags = self.flags;
        let signals = self.signals;
        Outline {
            held: self.held,
            iod: self.iod,
            ids,
            flags,
            signals,
            count: self.count,
            nsat: self.nsat,
            ncell: self.ncell,
        }
    }

    // With the slot of one more system, whose strips are there.
    pub fn with_system(mut self, id: u8, satellites: u64, signals: u16, flag: bool) -> Self
        requires { self.count < 5 }
        ensures { result ≡ with_system self id satellites signals flag }
    {
        let i = self.count as usize;
        self.ids[i] = id;
        self.satellites[i] = satellites;
        self.signals[i] = signals;
        self.flags[i] = flag;
        self.count = (i + 1) as u8;
        self
    }
}
