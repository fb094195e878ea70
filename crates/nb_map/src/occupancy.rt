//! How full a map is, as a look at it tells.
ghost use Rattle.std.specs.Prelude.{◌≡◌, ◌*◌, ◌/◌, ◌<◌, ◌↔◌, IsTrue, max};

/// The most slots that a look at how full a map is looks at.
pub const SAMPLE: usize = 1024;

/// The golden ratio of `2^32`. Its multiples are spread over any power of two, the small ones too:
/// Knuth's multiplicative hashing.
pub(crate) const SPREAD: usize = 2_654_435_769;

/// How full the top table of a map is: what `Map::occupancy` answers.
///
/// A slot is taken once and for ever: a removed key keeps its slot. Where the last table is full,
/// new keys are refused; and long before, the calls get slow, of keys that aren't there most of
/// all. So a program makes a new map of the keys that are there before the last table is two thirds
/// full.
#[derive(Clone, Copy, Debug, PartialEq, Eq, Drop)]
pub struct Occupancy {
    /// Which table was looked at: the top one, which also `Map::generation` answers.
    pub table: u32,
    /// Whether it is the map's last table. If not, the map grows in time.
    pub is_last: bool,
    /// How many slots were looked at: [`SAMPLE`], or all of a smaller table.
    pub looked: u32,
    /// How many of these were taken.
    pub taken: u32,
}

impl Occupancy {
    /// How many of a hundred slots are taken, rounded down.
    pub fn percent(&self) -> u64
        ensures { result ≡ 100 * self.now.taken / max self.now.looked 1 }
    {
        100 * u64::from(self.taken) / u64::from(self.looked.max(1))
    }

    /// Whether it is time for a new map: more than two thirds of the last table are taken.
    pub fn should_renew(&self) -> bool
        ensures { IsTrue result ↔ (IsTrue self.now.is_last
            × (2 * self.now.looked < 3 * self.now.taken)) }
    {
        self.is_last && 2 * u64::from(self.looked) < 3 * u64::from(self.taken)
    }
}
