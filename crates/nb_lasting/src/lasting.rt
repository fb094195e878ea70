//! A map without an end.
ghost use Rattle.std.specs.FinMap as numbers;
ghost use Rattle.std.specs.Prelude.{IfErr, IfOk, OnErr, length, ◌≡◌, ◌≢◌, true};
ghost use Rattle.nb_core.specs.Calls.{Fills, overflows};
ghost use Rattle.nb_core.specs.declared.calls.Call.TheVariants as call;
ghost use Rattle.nb_map.specs.Ending.{map_left};
ghost use Rattle.nb_map.specs.Entries.{AreEntriesOf};
ghost use Rattle.nb_map.specs.NamedCalls.{add_of, put_if_absent_of, put_of, remove_if_of, remove_of, replace_if_of, replace_of};
ghost use Rattle.nb_lasting.specs.Lasting.{Finds, IsMadeOn, IsRefusedFor, Matches, as_write_fault};

use crate::faults::{GrowFault, WriteFault};
use crate::present::Present;
use nb_core::{Change, Key, Num, OutOfMemory, Reply, Want};
use nb_map::Ended;
use std::alloc::Global;
use std::marker::Model;
use std::sync::Wait;

/// A map without an end, which a contract sees as a finite map. Its calls wait for nobody, but for
/// `close`.
#[derive(Drop)]
pub struct Lasting {
    present: Present,
}

impl Model for Lasting {
    ghost use Rattle.nb_core.specs.Log.{Numbers};

    ghost Value = { Numbers };

    ghost use Rattle.std.specs.FinMap.{code};
    ghost use Rattle.std.specs.Coded.{coded_ℕ};

    ghost coded = { code coded_ℕ coded_ℕ };

    ghost use Rattle.nb_lasting.specs.inside.Present.{IsAlone, content};

    ghost view = { λ s. content s.present.handle };

    ghost invariant = { λ s. IsAlone s.present.handle };
}

/// How many new keys come before a map is made anew for which memory was refused.
const LATER: usize = 1024;

impl Lasting {
    /// An empty map, which has room for about so many keys before it is made anew for the first
    /// time.
    pub fn open(alloc: Global, keys: usize) -> Result<Lasting, OutOfMemory>
        ensures { IfOk result (λ lasting. lasting ≡ numbers.empty) }
    {
        let present = Present::open(alloc, keys)?;
        Ok(Lasting { present })
    }

    /// What the map has at a key.
    pub fn get(&mut self, key: Key) -> Option<Num>
        ensures { Finds (call.Get key) self.old self.new result }
    {
        self.present.get(key)
    }

    /// Changes what the map has at a key, where the condition holds of it, and replies what it had.
    /// It takes memory only for a new key, and then the time of a whole renewal now and then.
    pub fn put_if_match(
        &mut self,
        key: Key,
        want: Want,
        change: Change,
    ) -> Result<Reply, WriteFault>
        ensures wrote { IfOk result (IsMadeOn (call.Write key want change) self.old self.new) }
        ensures refused { IfErr result (IsRefusedFor (call.Write key want change) self.old) }
        ensures kept { OnErr result (self.new ≡ self.old) }
    {
        self.renew_in_time();
        let reply = self.present.write(key, &want, &change)?;
        if reply.before.is_none() {
            self.present.left = self.present.left.saturating_sub(1);
        }
        Ok(reply)
    }

    /// Where it is time for a new map, and there is memory, the map is made anew.
    fn renew_in_time(&mut self)
        ensures { self.new ≡ self.old }
    {
        if self.present.left == 0 && self.present.renew().is_err() {
            self.present.left = LATER;
        }
    }

    /// A write that puts no sum. It answers what was there.
    fn set(&mut self, key: Key, want: Want, change: Change) -> Result<Option<Num>, GrowFault>
        requires no_sum { overflows (call.Write key want change) self.old ≢ true }
        ensures wrote { IfOk result (Finds (call.Write key want change) self.old self.new) }
        ensures refused { IfErr result (λ fault. IsRefusedFor (call.Write key want change) self.old
            (as_write_fault fault)) }
        ensures kept { OnErr result (self.new ≡ self.old) }
    {
        match self.put_if_match(key, want, change) {
            Ok(reply) => Ok(reply.before),
            Err(WriteFault::Full) => Err(GrowFault::Full),
            Err(WriteFault::OutOfMemory) => Err(GrowFault::OutOfMemory),
            Err(WriteFault::ValueRange) => unreachable!(),
        }
    }

    /// A write that puts no sum, and no number at an absent key: nothing refuses it.
    fn change(&mut self, key: Key, want: Want, change: Change) -> Reply
        requires no_sum { overflows (call.Write key want change) self.old ≢ true }
        requires fills_none { Fills (call.Write key want change) → ⊥ }
        ensures { IsMadeOn (call.Write key want change) self.old self.new result }
    {
        match self.put_if_match(key, want, change) {
            Ok(reply) => reply,
            Err(_) => unreachable!(),
        }
    }

    /// Puts a number at a key, and answers what was there.
    pub fn put(&mut self, key: Key, number: Num) -> Result<Option<Num>, GrowFault>
        ensures wrote { IfOk result (Finds (put_of key number) self.old self.new) }
        ensures refused { IfErr result (λ fault. IsRefusedFor (put_of key number) self.old
            (as_write_fault fault)) }
        ensures kept { OnErr result (self.new ≡ self.old) }
    {
        number.known();
        self.set(key, Want::Any, Change::Put(number))
    }

    /// Puts a number at a key that has none, and answers what was there.
    pub fn put_if_absent(&mut self, key: Key, number: Num) -> Result<Option<Num>, GrowFault>
        ensures wrote { IfOk result (Finds (put_if_absent_of key number) self.old self.new) }
        ensures refused { IfErr result (λ fault. IsRefusedFor (put_if_absent_of key number) self.old
            (as_write_fault fault)) }
        ensures kept { OnErr result (self.new ≡ self.old) }
    {
        number.known();
        self.set(key, Want::Absent, Change::Put(number))
    }

    /// Raises the number at a key, an absent one counting as 0, and answers what was there.
    pub fn add(&mut self, key: Key, number: Num) -> Result<Option<Num>, WriteFault>
        ensures wrote { IfOk result (Finds (add_of key number) self.old self.new) }
        ensures refused { IfErr result (IsRefusedFor (add_of key number) self.old) }
        ensures kept { OnErr result (self.new ≡ self.old) }
    {
        let reply = self.put_if_match(key, Want::Any, Change::Add(number))?;
        Ok(reply.before)
    }

    /// Puts a number at a key that has one, and answers what was there.
    pub fn replace(&mut self, key: Key, number: Num) -> Option<Num>
        ensures { Finds (replace_of key number) self.old self.new result }
    {
        number.known();
        self.change(key, Want::Present, Change::Put(number)).before
    }

    /// Puts a number in place of this one, and answers whether it did.
    pub fn replace_if(&mut self, key: Key, old: Num, new: Num) -> bool
        ensures { Matches (replace_if_of key old new) self.old self.new result }
    {
        new.known();
        self.change(key, Want::Equal(old), Change::Put(new)).matched
    }

    /// Takes out a key, and answers what was there.
    pub fn remove(&mut self, key: Key) -> Option<Num>
        ensures { Finds (remove_of key) self.old self.new result }
    {
        self.change(key, Want::Any, Change::Remove).before
    }

    /// Takes out a key that has this number, and answers whether it did.
    pub fn remove_if(&mut self, key: Key, number: Num) -> bool
        ensures { Matches (remove_if_of key number) self.old self.new result }
    {
        self.change(key, Want::Equal(number), Change::Remove)
            .matched
    }

    /// How many keys the map has. It takes memory for four vectors of one seat.
    pub fn size(&mut self) -> Result<u64, OutOfMemory>
        ensures size { IfOk result (λ size. size ≡ length (numbers.entries self.old)) }
        ensures kept { self.new ≡ self.old }
    {
        self.present.size()
    }

    /// All entries of the map, each key once, in no order. It takes memory for them.
    pub fn entries(&mut self) -> Result<Vec<(Key, Num)>, OutOfMemory>
        ensures entries { IfOk result (λ entries. AreEntriesOf self.old entries.items) }
        ensures kept { self.new ≡ self.old }
    {
        self.present.entries()
    }

    /// What is left of the map: all that it has. It takes no memory, and waits only until nobody
    /// else has a reference to the last of its maps, as nobody has.
    pub fn close<R: Wait>(self, rt: &R) -> Ended
        ensures { map_left result ≡ self }
    {
        let Lasting { present } = self;
        present.close(rt)
    }
}
