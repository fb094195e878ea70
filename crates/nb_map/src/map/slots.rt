//! Calls at a slot that is known to be its key's, in a map of one table, and the looks before them.
//! They search for nothing.
ghost use Rattle.std.specs.Prelude.{◌<◌, ◌≡◌, ◌≤◌};
ghost use Rattle.nb_core.specs.Plans.{generations_of, size_of};
ghost use Rattle.nb_core.specs.declared.calls.Call.TheVariants as call;
ghost use Rattle.nb_map.specs.Maps.{IsMine};
ghost use Rattle.nb_map.specs.Slots.{HasFoundKey, HasGotAt, HasMadeLooks, KeyHasSlot, HasWrittenAt};

use crate::faults::PutFault;
use crate::map::{Map, Seat};
use crate::steps::there::{get_there, key_of, write_there};
use nb_core::{Call, Change, Key, Num, Reply, Want};

impl Map {
    /// Which key has this slot of the first table, by one load; none, where it has no key yet. A
    /// slot stays its key's.
    #[inline(always)]
    pub fn key_at(&self, seat: &mut Seat, slot: usize) -> Option<Key>
        requires own { IsMine self.now seat.old }
        requires slot { slot < size_of self.now.chain.shape 0 }
        ensures { HasFoundKey self.now slot seat.old seat.new result }
    {
        key_of(self.chain.load_key(&mut seat.chain, 0, slot, None))
    }

    /// What the map, which has one table, has at the key of a slot: a `get` of one load.
    #[inline(always)]
    pub fn get_at(&self, seat: &mut Seat, slot: usize, key: Key) -> Option<Num>
        requires own { IsMine self.now seat.old }
        requires one { generations_of self.now.chain.shape ≡ 1 }
        requires slot { KeyHasSlot self.now seat.old slot key }
        ensures { HasGotAt self.now slot key seat.old seat.new result }
    {
        get_there(&self.chain, &mut seat.chain, key, slot)
    }

    /// `put_if_match` of the key of a slot, in a map of one table: a load, and one exchange for each
    /// try, where the condition holds and something is changed.
    #[inline(always)]
    pub fn put_if_match_at(
        &self,
        seat: &mut Seat,
        slot: usize,
        key: Key,
        want: Want,
        change: Change,
        tries: u32,
    ) -> Result<Reply, PutFault>
        requires own { IsMine self.now seat.old }
        requires one { generations_of self.now.chain.shape ≡ 1 }
        requires slot { KeyHasSlot self.now seat.old slot key }
        requires some { 1 ≤ tries }
        ensures { HasWrittenAt self.now slot key (call.Write key want change) seat.old seat.new tries
            result }
    {
        let call = Call::Write { key, want, change };
        let reply = write_there(&self.chain, &mut seat.chain, &call, slot, tries)?;
        self.count(&mut seat.count, &change, &reply);
        Ok(reply)
    }

    /// Loads the key word of the key's home slot in the table that the seat remembers, and ignores
    /// what it holds. Afterwards that slot is near, so that a call of the key needn't wait for the
    /// memory. It pays where some other calls are made in between.
    #[inline(always)]
    pub fn look_ahead(&self, seat: &mut Seat, key: Key)
        requires own { IsMine self.now seat.old }
        ensures { HasMadeLooks self.now seat.old seat.new 1 }
    {
        self.look_at(seat, &[key]);
    }
}
