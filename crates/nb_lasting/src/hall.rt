//! What the guests of a map share.
ghost use Rattle.std.specs.Prelude.{max, ◌*◌, ◌≡◌, ◌≤◌};
ghost use Rattle.nb_lasting.specs.declared.shapes.TheConstants.{LEAST_ANEW};

use crate::shared::{LaneView, Lanes, Opened};
use atomic_table::Table;
use nb_map::Handle;
use std::alloc::Global;
use std::sync::atomic::AtomicU64;

/// The lanes, how often the map was made anew, and for how many keys it is made anew at least.
#[derive(Drop)]
pub(crate) struct Hall {
    pub(crate) table: Table<Option<Handle>, LaneView, Opened, Lanes, Global>,
    pub(crate) renewals: AtomicU64,
    pub(crate) least: usize,
    pub(crate) alloc: Global,
    ghost words: { table.shared.table_id.words ≡ 8 * table.shared.key.seats },
    ghost slots: { table.shared.table_id.slots ≡ table.shared.key.seats },
    ghost anew: { least ≡ max table.shared.key.keys LEAST_ANEW },
    ghost some: { 1 ≤ table.shared.key.seats },
    ghost few: { table.shared.key.seats ≤ 256 },
}
