//! What a handle of an ended map stands for.
ghost use Rattle.std.specs.Prelude.{◌≡◌, ◌≤◌, IfSome, length};
ghost use Rattle.std.specs.FinMap as map;
ghost use Rattle.nb_map.specs.Ending.{map_left};
ghost use Rattle.nb_ffi.specs.Entries.{AreEntries, written_over};

use crate::codes::{E_OUT_OF_MEMORY, E_ROOM, OK};
use nb_core::{Key, Num};
use nb_map::Ended;
use std::alloc::Global;

/// A key of an ended map, with its number.
#[repr(C)]
#[derive(Clone, Copy)]
pub struct MapEntry {
    pub key: u64,
    pub number: u64,
}

/// A place for what is left of a map. It is made before the map is ended, so that its end takes no
/// memory.
#[derive(Drop)]
pub struct EndedMap {
    pub(crate) ended: Option<Ended>,
}

impl EndedMap {
    /// `Ended::size`.
    pub(crate) fn size(&self) -> u64
        ensures { IfSome self.now.ended (λ end. result
            ≡ length (map.entries (map_left end))) }
    {
        match &self.ended {
            Some(ended) => ended.size(),
            None => 0,
        }
    }

    /// `Ended::get`.
    pub(crate) fn get(&self, key: Key) -> Option<Num>
        ensures { IfSome self.now.ended (λ end. result ≡ map.get (map_left end) key) }
    {
        match &self.ended {
            Some(ended) => ended.get(key),
            None => None,
        }
    }

    /// `Ended::entries`, written into the room for them.
    pub(crate) fn entries(&self, alloc: Global, room: &mut [MapEntry]) -> i32
        ensures { IfSome self.now.ended (λ end. AreEntries result room.old room.new
            (map.entries (map_left end))) }
    {
        let Some(ended) = &self.ended else {
            return E_ROOM;
        };
        let Ok(entries) = ended.entries(alloc) else {
            return E_OUT_OF_MEMORY;
        };
        if entries.len() > room.len() {
            return E_ROOM;
        }
        write_entries(&entries, room);
        OK
    }
}

/// Writes entries into the room for them; what is behind stays.
pub(crate) fn write_entries(entries: &[(Key, Num)], room: &mut [MapEntry])
    requires fits { length entries.now ≤ length room.old }
    ensures { room.new ≡ written_over entries.now room.old }
{
    for i in 0..entries.len() {
        let entry = entries[i];
        room[i] = MapEntry {
            key: entry.0.get(),
            number: entry.1.get(),
        };
    }
}
