//! A guest of a map without an end.
ghost use Rattle.std.specs.FinMap as numbers;
ghost use Rattle.std.specs.Prelude.{IfErr, IfOk, [], length, ℕ, ◌+◌, ◌≡◌, ◌≢◌, ◌≤◌};
ghost use Rattle.nb_core.specs.Calls.{Fills};
ghost use Rattle.nb_core.specs.Log.{IsReplayed, log_of, map_of_log, reply_at};
ghost use Rattle.nb_core.specs.declared.calls.Call.TheVariants as call;
ghost use Rattle.nb_map.specs.NamedCalls.{add_of, put_if_absent_of, put_of, remove_if_of, remove_of, replace_if_of, replace_of};
ghost use Rattle.nb_lasting.specs.Guests.{GuestHasCalled, GuestHasFound, GuestHasMatched, GuestHasRead, GuestHasReplied, GuestHasWorked, GuestIsRefused, HasLookedBy, HasLookedInTime, HasTriedUntilDone, calls_left, left_with};
ghost use Rattle.nb_lasting.specs.Holding.{HasTriedOnAs, IsIdleGuest};
ghost use Rattle.nb_lasting.specs.Lasting.{IsNewKey, as_write_fault};
ghost use Rattle.nb_lasting.specs.Tries.{HasTriedAlone};
ghost use Rattle.nb_lasting.specs.Visits.{AreBack, AreBackSeen, HasCountedByAll, HasGoneRound};
ghost use Rattle.nb_lasting.specs.inside.Guests.{GuestHasTried, HasTriedFirst, HasWrittenHere, NeverOverflows, with_calls_left};

use crate::counting::count_through;
use crate::faults::{GrowFault, WriteFault};
use crate::hall::Hall;
use crate::renewing::{renew_through, write_or_renew};
use crate::shared::Token;
use crate::through::{get_through, look_through, write_through};
use nb_core::{Change, Key, Num, OutOfMemory, Reply, Want};
use nb_map::{Occupancy, PutFault};
use std::alloc::Global;
use std::marker::Model;
use std::sync::atomic::Ordering;
use std::sync::{Arc, Wait};

/// One thread's way to a map without an end. Contracts see it as its number, the log that it knows,
/// and an account of the handles that it took. A guest that makes no call holds up nobody.
#[derive(Drop)]
pub struct Guest {
    pub(crate) hall: Arc<Hall, Global>,
    pub(crate) token: Token,
    pub(crate) lane: usize,
    /// How many more new keys may come before it looks whether the map is crowded.
    pub(crate) left: u32,
}

impl Model for Guest {
    ghost use Rattle.nb_lasting.specs.Guests.{GuestOf};

    ghost Value = { GuestOf };

    ghost use Rattle.nb_lasting.specs.inside.Guests.{IsGuest, guest_of};

    ghost view = { guest_of };

    ghost invariant = { IsGuest };
}

/// After how many new keys of a guest it looks whether the map is crowded.
pub(crate) const LOOK_AFTER: u32 = 1024;

impl Guest {
    /// Its number, from 0 on.
    pub fn number(&self) -> usize
        ensures { result ≡ self.now.number }
    {
        self.lane
    }

    /// Reminds a proof that the log that it knows is replayed: so a guest that makes no call has
    /// called nothing. It does nothing.
    pub fn known(&self)
        ensures { IsReplayed self.now.log }
    {
        let _ = &self.token;
    }

    /// Its token alone.
    pub(crate) fn into_token(self) -> Token
        ensures table { result.table_id ≡ self.of.id }
        ensures idle { IsIdleGuest self.number result.me }
        ensures seen { log_of result.me.0.seen ≡ self.log }
    {
        let Guest { token, .. } = self;
        token
    }

    /// What the map has at a key, by one `get` of its handle. It waits while another has that, to
    /// renew the map or to count it.
    pub fn get<R: Wait>(&mut self, rt: &R, key: Key) -> Option<Num>
        ensures of { self.new.of ≡ self.old.of }
        ensures replied { GuestHasReplied (call.Get key) self.old self.new
            (reply_at (call.Get key) result) }
        ensures read { GuestHasRead key self.old self.new result }
    {
        get_through(rt, &self.hall, &mut self.token, self.lane, key)
    }

    /// Changes what the map has at a key, where the condition holds of it, and replies what it had.
    /// It is one write by its handle, unless the map is full. Once in 1,024 writes at most it looks
    /// first whether the map is crowded. It takes memory only for a new key, and then the time of a
    /// whole renewal now and then.
    pub fn put_if_match<R: Wait>(
        &mut self,
        rt: &R,
        key: Key,
        want: Want,
        change: Change,
    ) -> Result<Reply, WriteFault>
        ensures of { self.new.of ≡ self.old.of }
        ensures wrote { IfOk result
            (GuestHasReplied (call.Write key want change) self.old self.new) }
        ensures refused { IfErr result
            (GuestIsRefused (call.Write key want change) self.old self.new) }
        ensures worked { GuestHasWorked (call.Write key want change) self.old self.new }
    {
        self.renew_in_time(rt);
        let reply = self.write(rt, key, &want, &change)?;
        self.count(&reply);
        Ok(reply)
    }

    /// Makes a write: by taking its handle once, unless the map is full, or others come first.
    fn write<R: Wait>(
        &mut self,
        rt: &R,
        key: Key,
        want: &Want,
        change: &Change,
    ) -> Result<Reply, WriteFault>
        ensures wrote { IfOk result
            (GuestHasReplied (call.Write key want.now change.now) self.old self.new) }
        ensures refused { IfErr result
            (GuestIsRefused (call.Write key want.now change.now) self.old self.new) }
        ensures once { HasTriedUntilDone (call.Write key want.now change.now) self.old self.new }
        ensures left { self.new.left ≡ self.old.left }
    {
        match self.try_write(rt, key, want, change) {
            Ok(Some(reply)) => Ok(reply),
            Ok(None) => self.write_on(rt, key, want, change),
            Err(fault) => Err(fault),
        }
    }

    /// Tries to make a write, until it is made or refused.
    fn write_on<R: Wait>(
        &mut self,
        rt: &R,
        key: Key,
        want: &Want,
        change: &Change,
    ) -> Result<Reply, WriteFault>
        ensures wrote { IfOk result
            (GuestHasReplied (call.Write key want.now change.now) self.old self.new) }
        ensures refused { IfErr result
            (GuestIsRefused (call.Write key want.now change.now) self.old self.new) }
        ensures once { HasTriedUntilDone (call.Write key want.now change.now) self.old self.new }
        ensures left { self.new.left ≡ self.old.left }
    {
        self.known();
        for _ in rt.forever() {
            if let Some(reply) = self.try_write(rt, key, want, change)? {
                return Ok(reply);
            }
        }
        unreachable!()
    }

    /// A call that found no number brings the next look nearer.
    fn count(&mut self, reply: &Reply)
        ensures { self.new ≡ with_calls_left (left_with reply.now self.old.left) self.old }
    {
        // Guests may lie side by side: no store where none is needed.
        if reply.before.is_none() {
            self.set_left(self.left.saturating_sub(1));
        }
    }

    /// Sets how many more calls may come before the next look.
    fn set_left(&mut self, left: u32)
        ensures { self.new ≡ with_calls_left left self.old }
    {
        self.left = left;
    }

    /// Makes a write, or else the map anew, where that is full; or others come first.
    fn try_write<R: Wait>(
        &mut self,
        rt: &R,
        key: Key,
        want: &Want,
        change: &Change,
    ) -> Result<Option<Reply>, WriteFault>
        ensures tried { GuestHasTried (call.Write key want.now change.now) self.old self.new
            result }
        ensures first { HasTriedFirst (call.Write key want.now change.now) self.old self.new
            result }
        ensures left { self.new.left ≡ self.old.left }
    {
        match self.write_here(rt, key, want, change) {
            Ok(reply) => Ok(Some(reply)),
            Err(PutFault::ValueRange) => Err(WriteFault::ValueRange),
            Err(PutFault::Contended) => Ok(None),
            Err(PutFault::Full) => self.write_or_renew(rt, key, want, change),
        }
    }

    /// Makes a write that found the map full, if it has room by now, or else the map anew.
    fn write_or_renew<R: Wait>(
        &mut self,
        rt: &R,
        key: Key,
        want: &Want,
        change: &Change,
    ) -> Result<Option<Reply>, WriteFault>
        requires new_key { IsNewKey (call.Write key want.now change.now) (map_of_log self.old.log) }
        ensures tried { GuestHasTried (call.Write key want.now change.now) self.old self.new
            result }
        ensures on { HasTriedOnAs (call.Write key want.now change.now) self.old.number
            self.old.of self.old.account self.new.account result }
        ensures left { self.new.left ≡ self.old.left }
    {
        write_or_renew(
            rt,
            &self.hall,
            &mut self.token,
            self.lane,
            key,
            want,
            change,
        )
    }

    /// Makes a write on the map that is there.
    fn write_here<R: Wait>(
        &mut self,
        rt: &R,
        key: Key,
        want: &Want,
        change: &Change,
    ) -> Result<Reply, PutFault>
        ensures wrote { HasWrittenHere (call.Write key want.now change.now) self.old self.new
            result }
        ensures visited { HasTriedAlone (call.Write key want.now change.now) self.old.number
            self.old.account self.new.account result }
        ensures left { self.new.left ≡ self.old.left }
    {
        write_through(
            rt,
            &self.hall,
            &mut self.token,
            self.lane,
            key,
            want,
            change,
        )
    }

    /// How many keys the map has, exactly, at one moment while others call. It waits for each
    /// guest's call, as a renewal does, and takes memory for some vectors of as many handles as
    /// there are guests.
    pub fn size<R: Wait>(&mut self, rt: &R) -> Result<u64, OutOfMemory>
        ensures of { self.new.of ≡ self.old.of }
        ensures called { GuestHasCalled self.old self.new [] }
        ensures round { HasGoneRound self.old.of (AreBackSeen self.old.number) self.old.account
            self.new.account }
        ensures counted { IfOk result
            (HasCountedByAll self.old.number self.old.of self.old.account self.new.account) }
        ensures size { IfOk result (λ size.
            size ≡ length (numbers.entries (map_of_log self.new.log))) }
        ensures left { self.new.left ≡ self.old.left }
    {
        count_through(rt, &self.hall, &mut self.token, self.lane)
    }

    /// How often the map was made anew so far, by any guest. No clause says so: no contract can
    /// tell what a number holds that threads share beside the map.
    pub fn renewals(&self) -> u64 {
        self.hall.renewals.load(Ordering::SeqCst)
    }

    /// How full the map is.
    fn look<R: Wait>(&mut self, rt: &R) -> Occupancy
        ensures called { GuestHasCalled self.old self.new [] }
        ensures looked { HasLookedBy self.old self.new.account result }
        ensures left { self.new.left ≡ self.old.left }
    {
        look_through(rt, &self.hall, &mut self.token, self.lane)
    }

    /// Makes the map anew where it is crowded, and there is memory. It looks now and then.
    fn renew_in_time<R: Wait>(&mut self, rt: &R)
        ensures called { GuestHasCalled self.old self.new [] }
        ensures same { self.old.left ≢ 0 → self.new ≡ self.old }
        ensures due { self.old.left ≡ 0 → HasLookedInTime self.old self.new }
        ensures left { self.new.left ≡ calls_left self.old.left }
    {
        if self.left > 0 {
            return;
        }
        self.set_left(LOOK_AFTER);
        let renewals = self.hall.renewals.load(Ordering::SeqCst);
        let found = self.look(rt);
        if found.should_renew() {
            self.renew(rt, renewals);
        }
    }

    /// Makes the map anew, with room for twice the keys that it has, if there is memory, and unless it
    /// was made anew since there were so many renewals.
    fn renew<R: Wait>(&mut self, rt: &R, renewals: u64)
        ensures called { GuestHasCalled self.old self.new [] }
        ensures round { HasGoneRound self.old.of (AreBack self.old.of self.old.number) self.old.account
            self.new.account }
        ensures left { self.new.left ≡ self.old.left }
    {
        // Where memory is refused the map goes on, and a write that finds it full tries again.
        let _ = renew_through(rt, &self.hall, &mut self.token, self.lane, renewals);
    }

    /// A write that puts no sum. It answers what was there.
    fn set<R: Wait>(
        &mut self,
        rt: &R,
        key: Key,
        want: Want,
        change: Change,
    ) -> Result<Option<Num>, GrowFault>
        requires no_sum { NeverOverflows (call.Write key want change) }
        ensures of { self.new.of ≡ self.old.of }
        ensures wrote { IfOk result
            (GuestHasFound (call.Write key want change) self.old self.new) }
        ensures refused { IfErr result (λ fault. GuestIsRefused (call.Write key want change)
            self.old self.new (as_write_fault fault)) }
        ensures worked { GuestHasWorked (call.Write key want change) self.old self.new }
    {
        match self.put_if_match(rt, key, want, change) {
            Ok(reply) => Ok(reply.before),
            Err(WriteFault::Full) => Err(GrowFault::Full),
            Err(WriteFault::OutOfMemory) => Err(GrowFault::OutOfMemory),
            Err(WriteFault::ValueRange) => unreachable!(),
        }
    }

    /// A write that puts no sum, and no number at an absent key: nothing refuses it.
    fn change<R: Wait>(&mut self, rt: &R, key: Key, want: Want, change: Change) -> Reply
        requires no_sum { NeverOverflows (call.Write key want change) }
        requires fills_none { Fills (call.Write key want change) → ⊥ }
        ensures of { self.new.of ≡ self.old.of }
        ensures replied { GuestHasReplied (call.Write key want change) self.old self.new result }
        ensures worked { GuestHasWorked (call.Write key want change) self.old self.new }
    {
        match self.put_if_match(rt, key, want, change) {
            Ok(reply) => reply,
            Err(_) => unreachable!(),
        }
    }

    /// Puts a number at a key, and answers what was there.
    pub fn put<R: Wait>(&mut self, rt: &R, key: Key, number: Num) -> Result<Option<Num>, GrowFault>
        ensures of { self.new.of ≡ self.old.of }
        ensures wrote { IfOk result (GuestHasFound (put_of key number) self.old self.new) }
        ensures refused { IfErr result (λ fault. GuestIsRefused (put_of key number)
            self.old self.new (as_write_fault fault)) }
        ensures worked { GuestHasWorked (put_of key number) self.old self.new }
    {
        number.known();
        self.set(rt, key, Want::Any, Change::Put(number))
    }

    /// Puts a number at a key that has none, and answers what was there.
    pub fn put_if_absent<R: Wait>(
        &mut self,
        rt: &R,
        key: Key,
        number: Num,
    ) -> Result<Option<Num>, GrowFault>
        ensures of { self.new.of ≡ self.old.of }
        ensures wrote { IfOk result
            (GuestHasFound (put_if_absent_of key number) self.old self.new) }
        ensures refused { IfErr result (λ fault. GuestIsRefused (put_if_absent_of key number)
            self.old self.new (as_write_fault fault)) }
        ensures worked { GuestHasWorked (put_if_absent_of key number) self.old self.new }
    {
        number.known();
        self.set(rt, key, Want::Absent, Change::Put(number))
    }

    /// Raises the number at a key, an absent one counting as 0, and answers what was there.
    pub fn add<R: Wait>(&mut self, rt: &R, key: Key, number: Num) -> Result<Option<Num>, WriteFault>
        ensures of { self.new.of ≡ self.old.of }
        ensures wrote { IfOk result (GuestHasFound (add_of key number) self.old self.new) }
        ensures refused { IfErr result (GuestIsRefused (add_of key number) self.old self.new) }
        ensures worked { GuestHasWorked (add_of key number) self.old self.new }
    {
        let reply = self.put_if_match(rt, key, Want::Any, Change::Add(number))?;
        Ok(reply.before)
    }

    /// Puts a number at a key that has one, and answers what was there.
    pub fn replace<R: Wait>(&mut self, rt: &R, key: Key, number: Num) -> Option<Num>
        ensures of { self.new.of ≡ self.old.of }
        ensures found { GuestHasFound (replace_of key number) self.old self.new result }
        ensures worked { GuestHasWorked (replace_of key number) self.old self.new }
    {
        number.known();
        self.change(rt, key, Want::Present, Change::Put(number))
            .before
    }

    /// Puts a number in place of this one, and answers whether it did.
    pub fn replace_if<R: Wait>(&mut self, rt: &R, key: Key, old: Num, new: Num) -> bool
        ensures of { self.new.of ≡ self.old.of }
        ensures matched { GuestHasMatched (replace_if_of key old new) self.old self.new result }
        ensures worked { GuestHasWorked (replace_if_of key old new) self.old self.new }
    {
        new.known();
        self.change(rt, key, Want::Equal(old), Change::Put(new))
            .matched
    }

    /// Takes out a key, and answers what was there.
    pub fn remove<R: Wait>(&mut self, rt: &R, key: Key) -> Option<Num>
        ensures of { self.new.of ≡ self.old.of }
        ensures found { GuestHasFound (remove_of key) self.old self.new result }
        ensures worked { GuestHasWorked (remove_of key) self.old self.new }
    {
        self.change(rt, key, Want::Any, Change::Remove).before
    }

    /// Takes out a key that has this number, and answers whether it did.
    pub fn remove_if<R: Wait>(&mut self, rt: &R, key: Key, number: Num) -> bool
        ensures of { self.new.of ≡ self.old.of }
        ensures matched { GuestHasMatched (remove_if_of key number) self.old self.new result }
        ensures worked { GuestHasWorked (remove_if_of key number) self.old self.new }
    {
        self.change(rt, key, Want::Equal(number), Change::Remove)
            .matched
    }
}
