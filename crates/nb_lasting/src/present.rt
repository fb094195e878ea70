//! The map that is there at present, and how it is made anew.
ghost use Rattle.std.specs.FinMap as numbers;
ghost use Rattle.std.specs.Prelude.{Err, IfErr, IfOk, OnErr, OnOk, max, ◌≡◌, ◌≤◌};
ghost use Rattle.nb_core.specs.declared.calls.Call.TheVariants as call;
ghost use Rattle.nb_map.specs.Ending.{map_left};
ghost use Rattle.nb_map.specs.Entries.{AreEntriesOf};
ghost use Rattle.nb_lasting.specs.Lasting.{Finds, HasSlots, IsGreatest, IsMadeOn, IsNewKey, IsRefusedFor};
ghost use Rattle.nb_lasting.specs.declared.faults.GrowFault.TheVariants as fault;
ghost use Rattle.nb_lasting.specs.declared.shapes.TheConstants.{LEAST_ANEW};
ghost use Rattle.nb_lasting.specs.inside.Present.{IsAlone, IsFresh, IsRefusedHere, content, keys_in};

use crate::faults::{GrowFault, WriteFault};
use crate::shapes::{LEAST, LEAST_ANEW, shape_for};
use nb_core::{Change, Key, Num, OutOfMemory, Reply, Want};
use nb_map::{Ended, Handle, PutFault, RenewFault};
use std::alloc::Global;
use std::sync::Wait;

/// A map with one seat.
#[derive(Drop)]
pub(crate) struct Present {
    pub(crate) handle: Handle,
    /// How many more keys may come before it is time for a new map.
    pub(crate) left: usize,
    /// For how many keys it is made anew at least.
    pub(crate) least: usize,
    pub(crate) alloc: Global,
}

impl Present {
    /// An empty map with room for so many keys.
    pub(crate) fn open(alloc: Global, keys: usize) -> Result<Present, OutOfMemory>
        ensures alone { IfOk result (λ present. IsAlone present.handle) }
        ensures empty { IfOk result (λ present. content present.handle ≡ numbers.empty) }
        ensures room { IfOk result (λ present. HasSlots keys present.handle.map.chain.shape) }
        ensures least { IfOk result (λ present. present.least ≡ max keys LEAST_ANEW) }
    {
        let handle = Handle::open(alloc, shape_for(keys, 1))?;
        handle.known();
        Ok(Present {
            handle,
            left: keys.max(LEAST),
            least: keys.max(LEAST_ANEW),
            alloc,
        })
    }

    /// What it has at a key.
    pub(crate) fn get(&mut self, key: Key) -> Option<Num>
        requires alone { IsAlone self.old.handle }
        ensures alone { IsAlone self.new.handle }
        ensures got { Finds (call.Get key) (content self.old.handle) (content self.new.handle)
            result }
    {
        self.handle.get(key)
    }

    /// How many keys it has.
    pub(crate) fn size(&mut self) -> Result<u64, OutOfMemory>
        requires alone { IsAlone self.old.handle }
        ensures alone { IsAlone self.new.handle }
        ensures kept { content self.new.handle ≡ content self.old.handle }
        ensures size { IfOk result (λ size. size ≡ keys_in self.old.handle) }
    {
        match self.handle.settle(self.alloc) {
            Ok(size) => Ok(size),
            Err(_) => Err(OutOfMemory),
        }
    }

    /// All its entries.
    pub(crate) fn entries(&mut self) -> Result<Vec<(Key, Num)>, OutOfMemory>
        requires alone { IsAlone self.old.handle }
        ensures alone { IsAlone self.new.handle }
        ensures kept { content self.new.handle ≡ content self.old.handle }
        ensures entries { IfOk result (λ entries. AreEntriesOf (content self.old.handle)
            entries.items) }
    {
        match self.handle.entries(self.alloc) {
            Ok(entries) => Ok(entries),
            Err(_) => Err(OutOfMemory),
        }
    }

    /// What is left of it.
    pub(crate) fn close<R: Wait>(self, rt: &R) -> Ended
        requires alone { IsAlone self.handle }
        ensures { map_left result ≡ content self.handle }
    {
        match self.handle.close(rt) {
            Ok(ended) => ended,
            Err(_) => unreachable!(),
        }
    }

    /// A new map goes on with what this one has, with room for as many keys again, and for the
    /// fewest.
    pub(crate) fn renew(&mut self) -> Result<(), GrowFault>
        requires alone { IsAlone self.old.handle }
        ensures alone { IsAlone self.new.handle }
        ensures kept { content self.new.handle ≡ content self.old.handle }
        ensures fresh { OnOk result (IsFresh self.new.handle) }
        ensures slots { OnOk result (HasSlots self.old.least self.new.handle.map.chain.shape) }
        ensures full { result ≡ Err fault.Full → IsGreatest (content self.old.handle) }
    {
        let least = self.least;
        let size = self.size()? as usize;
        let keys = size.saturating_mul(2).max(least);
        self.renew_for(keys)?;
        self.left = keys - size;
        Ok(())
    }

    /// The same with room for so many keys.
    fn renew_for(&mut self, keys: usize) -> Result<(), GrowFault>
        requires alone { IsAlone self.old.handle }
        requires room { keys_in self.old.handle ≤ keys }
        ensures alone { IsAlone self.new.handle }
        ensures kept { content self.new.handle ≡ content self.old.handle }
        ensures fresh { OnOk result (IsFresh self.new.handle) }
        ensures slots { OnOk result (HasSlots keys self.new.handle.map.chain.shape) }
        ensures full { result ≡ Err fault.Full → IsGreatest (content self.old.handle) }
    {
        match self.handle.renew(self.alloc, shape_for(keys, 1)) {
            Ok(()) => {
                self.handle.known();
                Ok(())
            }
            Err(RenewFault::Full) => Err(GrowFault::Full),
            Err(_) => Err(GrowFault::OutOfMemory),
        }
    }

    /// Makes one write on the map that is there.
    fn write_here(&mut self, key: Key, want: &Want, change: &Change) -> Result<Reply, PutFault>
        requires alone { IsAlone self.old.handle }
        ensures alone { IsAlone self.new.handle }
        ensures wrote { IfOk result (IsMadeOn (call.Write key want.now change.now)
            (content self.old.handle) (content self.new.handle)) }
        ensures kept { OnErr result (content self.new.handle ≡ content self.old.handle) }
        ensures refused { IfErr result
            (IsRefusedHere (call.Write key want.now change.now) self.old.handle) }
    {
        self.handle.put_if_match(key, *want, *change, 1)
    }

    /// Makes one write, and where that finds no room for its key, on a new map.
    pub(crate) fn write(
        &mut self,
        key: Key,
        want: &Want,
        change: &Change,
    ) -> Result<Reply, WriteFault>
        requires alone { IsAlone self.old.handle }
        ensures alone { IsAlone self.new.handle }
        ensures wrote { IfOk result (IsMadeOn (call.Write key want.now change.now)
            (content self.old.handle) (content self.new.handle)) }
        ensures kept { OnErr result (content self.new.handle ≡ content self.old.handle) }
        ensures refused { IfErr result (IsRefusedFor (call.Write key want.now change.now)
            (content self.old.handle)) }
    {
        match self.write_here(key, want, change) {
            Ok(reply) => Ok(reply),
            Err(PutFault::ValueRange) => Err(WriteFault::ValueRange),
            Err(PutFault::Contended) => unreachable!(),
            Err(PutFault::Full) => self.write_anew(key, want, change),
        }
    }

    /// Makes the map anew, and the write on the new map.
    fn write_anew(&mut self, key: Key, want: &Want, change: &Change) -> Result<Reply, WriteFault>
        requires alone { IsAlone self.old.handle }
        requires new_key { IsNewKey (call.Write key want.now change.now) (content self.old.handle) }
        ensures alone { IsAlone self.new.handle }
        ensures wrote { IfOk result (IsMadeOn (call.Write key want.now change.now)
            (content self.old.handle) (content self.new.handle)) }
        ensures kept { OnErr result (content self.new.handle ≡ content self.old.handle) }
        ensures refused { IfErr result (IsRefusedFor (call.Write key want.now change.now)
            (content self.old.handle)) }
    {
        self.renew()?;
        match self.write_here(key, want, change) {
            Ok(reply) => Ok(reply),
            Err(PutFault::ValueRange) => Err(WriteFault::ValueRange),
            Err(PutFault::Contended) => unreachable!(),
            Err(PutFault::Full) => Err(WriteFault::Full),
        }
    }
}
