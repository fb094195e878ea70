//! What a typed map asks of its map of numbers.
ghost use Rattle.std.specs.Prelude.{◌≡◌};
ghost use Rattle.nb_map.specs.Handles.{HandleOf, handle_on};
ghost use Rattle.nb_map.specs.NamedCalls.{exchange_of, put_if_absent_of, put_of, replace_of};
ghost use Rattle.nb_map.specs.Progress.{Tries, Unlimited};
ghost use Rattle.nb_map.specs.Promises.{Found, HasGot, HasWritten, found_or_full, replied_or_refused};
ghost use Rattle.nb_long.specs.Numbers.{HasCalled, IsSeated};

use nb_core::{Key, Num, Reply};
use nb_map::{Full, Handle, Map, PutFault, Seat};
use std::sync::Wait;

/// What a put answers: the number that was there.
type Put = Result<Option<Num>, Full>;

/// What an exchange answers.
type Exchange = Result<Reply, PutFault>;

/// A map of numbers, as it is called by what has a seat of it. Contracts see the two as a handle of
/// the map.
pub(crate) trait Numbers {
    /// What has the seat.
    type Caller;

    ghost handle: { Self → Self.Caller → HandleOf };

    /// `Map::get`.
    fn get(&self, caller: &mut Self::Caller, key: Key) -> Option<Num>
        requires own { IsSeated (handle self.now caller.old) }
        ensures { HasCalled (λ m before after. HasGot m key before after result)
            (handle self.now caller.old) (handle self.now caller.new) };

    /// `Map::put`.
    fn put<R: Wait>(&self, rt: &R, caller: &mut Self::Caller, key: Key, number: Num) -> Put
        requires own { IsSeated (handle self.now caller.old) }
        ensures { HasCalled (λ m before after. HasWritten m (put_of key number) before after
            Unlimited (found_or_full result)) (handle self.now caller.old)
            (handle self.now caller.new) };

    /// `Map::put_if_absent`.
    fn put_if_absent<R: Wait>(
        &self,
        rt: &R,
        caller: &mut Self::Caller,
        key: Key,
        number: Num,
    ) -> Put
        requires own { IsSeated (handle self.now caller.old) }
        ensures { HasCalled (λ m before after. HasWritten m (put_if_absent_of key number)
            before after Unlimited (found_or_full result)) (handle self.now caller.old)
            (handle self.now caller.new) };

    /// `Map::replace`.
    fn replace<R: Wait>(
        &self,
        rt: &R,
        caller: &mut Self::Caller,
        key: Key,
        number: Num,
    ) -> Option<Num>
        requires own { IsSeated (handle self.now caller.old) }
        ensures { HasCalled (λ m before after. HasWritten m (replace_of key number) before after
            Unlimited (Found result)) (handle self.now caller.old)
            (handle self.now caller.new) };

    /// `Map::compare_exchange`, with one try.
    fn compare_exchange(
        &self,
        caller: &mut Self::Caller,
        key: Key,
        old: Option<Num>,
        new: Option<Num>,
    ) -> Exchange
        requires own { IsSeated (handle self.now caller.old) }
        ensures { HasCalled (λ m before after. HasWritten m (exchange_of key old new)
            before after (Tries 1) (replied_or_refused result)) (handle self.now caller.old)
            (handle self.now caller.new) };
}

/// The map of the handle that it is called by.
pub(crate) struct ByHandle;

impl Numbers for ByHandle {
    type Caller = Handle;

    ghost handle = { λ _ handle. handle };

    fn get(&self, handle: &mut Handle, key: Key) -> Option<Num> {
        handle.get(key)
    }

    fn put<R: Wait>(&self, rt: &R, handle: &mut Handle, key: Key, number: Num) -> Put {
        handle.put(rt, key, number)
    }

    fn put_if_absent<R: Wait>(&self, rt: &R, handle: &mut Handle, key: Key, number: Num) -> Put {
        handle.put_if_absent(rt, key, number)
    }

    fn replace<R: Wait>(&self, rt: &R, handle: &mut Handle, key: Key, number: Num) -> Option<Num> {
        handle.replace(rt, key, number)
    }

    fn compare_exchange(
        &self,
        handle: &mut Handle,
        key: Key,
        old: Option<Num>,
        new: Option<Num>,
    ) -> Exchange {
        handle.compare_exchange(key, old, new, 1)
    }
}

impl Numbers for Map {
    type Caller = Seat;

    ghost handle = { handle_on };

    fn get(&self, seat: &mut Seat, key: Key) -> Option<Num> {
        self.get(seat, key)
    }

    fn put<R: Wait>(&self, rt: &R, seat: &mut Seat, key: Key, number: Num) -> Put {
        self.put(rt, seat, key, number)
    }

    fn put_if_absent<R: Wait>(&self, rt: &R, seat: &mut Seat, key: Key, number: Num) -> Put {
        self.put_if_absent(rt, seat, key, number)
    }

    fn replace<R: Wait>(&self, rt: &R, seat: &mut Seat, key: Key, number: Num) -> Option<Num> {
        self.replace(rt, seat, key, number)
    }

    fn compare_exchange(
        &self,
        seat: &mut Seat,
        key: Key,
        old: Option<Num>,
        new: Option<Num>,
    ) -> Exchange {
        self.compare_exchange(seat, key, old, new, 1)
    }
}
