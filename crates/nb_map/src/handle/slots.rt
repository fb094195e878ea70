//! The calls of a handle at a slot that is known to be its key's, in a map of one table.
ghost use Rattle.std.specs.Prelude.{max, ◌<◌, ◌≡◌};
ghost use Rattle.nb_core.specs.Plans.{generations_of, size_of};
ghost use Rattle.nb_core.specs.declared.calls.Call.TheVariants as call;
ghost use Rattle.nb_map.specs.Handles.{KeepsRest};
ghost use Rattle.nb_map.specs.Slots.{HasFoundKey, HasGotAt, HasMadeLooks, KeyHasSlot, HasWrittenAt};

use crate::faults::PutFault;
use crate::handle::Handle;
use nb_core::{Change, Key, Num, Reply, Want};

impl Handle {
    /// Which key has this slot of the first table: `Map::key_at`. A slot stays its key's.
    #[inline(always)]
    pub fn key_at(&mut self, slot: usize) -> Option<Key>
        requires slot { slot < size_of self.old.map.chain.shape 0 }
        ensures found { HasFoundKey self.old.map slot self.old.seat self.new.seat result }
        ensures rest { KeepsRest self.old self.new }
    {
        self.shared.map.key_at(&mut self.seat, slot)
    }

    /// What the map, which has one table, has at the key of a slot: `Map::get_at`.
    #[inline(always)]
    pub fn get_at(&mut self, slot: usize, key: Key) -> Option<Num>
        requires one { generations_of self.old.map.chain.shape ≡ 1 }
        requires slot { KeyHasSlot self.old.map self.old.seat slot key }
        ensures got { HasGotAt self.old.map slot key self.old.seat self.new.seat result }
        ensures rest { KeepsRest self.old self.new }
    {
        self.shared.map.get_at(&mut self.seat, slot, key)
    }

    /// `put_if_match` of the key of a slot, in a map of one table: `Map::put_if_match_at`, which
    /// waits for nobody. No tries count as one.
    #[inline(always)]
    pub fn put_if_match_at(
        &mut self,
        slot: usize,
        key: Key,
        want: Want,
        change: Change,
        tries: u32,
    ) -> Result<Reply, PutFault>
        requires one { generations_of self.old.map.chain.shape ≡ 1 }
        requires slot { KeyHasSlot self.old.map self.old.seat slot key }
        ensures wrote { HasWrittenAt self.old.map slot key (call.Write key want change)
            self.old.seat self.new.seat (max tries 1) result }
        ensures rest { KeepsRest self.old self.new }
    {
        self.shared
            .map
            .put_if_match_at(&mut self.seat, slot, key, want, change, tries.max(1))
    }

    /// Brings a key's home slot near: `Map::look_ahead`.
    #[inline(always)]
    pub fn look_ahead(&mut self, key: Key)
        ensures looked { HasMadeLooks self.old.map self.old.seat self.new.seat 1 }
        ensures rest { KeepsRest self.old self.new }
    {
        self.shared.map.look_ahead(&mut self.seat, key);
    }
}
