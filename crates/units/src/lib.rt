// Seconds and TU, the two units of time. Only `Tu::from` leads from one to the other, and nothing leads back.
#![tactic(auto)]

ghost use Rattle.std.specs.Prelude.{◌≡◌};
ghost use Rattle.units.specs.Units.{in_tu, in_clock};

// Key lifetimes.
#[derive(Clone, Copy, PartialEq, Eq, PartialOrd, Ord)]
pub struct Seconds(pub u32);

// Deadlines, ends and clock readings: 1,024 microseconds each.
#[derive(Clone, Copy, PartialEq, Eq, PartialOrd, Ord)]
pub struct Tu(pub u64);

// The highest clock reading, 2^48.
pub const CLOCK_LIMIT: Tu = Tu(0x1_0000_0000_0000);

// So many seconds in TU, rounded down.
impl From<Seconds> for Tu {
    ghost from_gives = { λ s t. t ≡ in_tu s };

    fn from(s: Seconds) -> Tu {
        Tu(s.0 as u64 * 15625 / 16)
    }
}

impl Tu {
    // Whether a clock can read this.
    pub fn in_clock(self) -> bool
        ensures { result ≡ in_clock self }
    {
        self <= CLOCK_LIMIT
    }
}
