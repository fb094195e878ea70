//! What makes calls: a seat of a map ([`MapSeat`](crate::seats::MapSeat)), a handle of one, or a guest of
//! a map without an end.

use crate::draws::{BATCH, Pick, by_turns, number_of, percent_of};
use crate::faults::WorkFault;
use crate::random::Random;
use crate::workloads::Mix;
use nb_core::{Key, Num};
use nb_lasting::Guest;
use nb_map::Handle;
use std::sync::Wait;

/// What makes the calls of a thread.
#[derive(Clone, Copy)]
pub(crate) enum By {
    /// A seat of a map.
    Seat,
    /// A handle of a map.
    Handle,
    /// A guest of a map without an end.
    Guest,
}

impl By {
    /// The one of a name.
    pub(crate) fn named(name: &str) -> Option<By> {
        match name {
            "seat" => Some(By::Seat),
            "handle" => Some(By::Handle),
            "guest" => Some(By::Guest),
            _ => None,
        }
    }
}

/// One thread's way to a map, of which a call asks for nothing.
pub(crate) trait Caller {
    /// What the map has at a key.
    fn get<R: Wait>(&mut self, rt: &R, key: Key) -> Option<Num>;

    /// Puts a number at a key, if there is room for the key.
    fn put<R: Wait>(&mut self, rt: &R, key: Key, number: Num) -> Result<(), WorkFault>;

    /// Takes out a key.
    fn remove<R: Wait>(&mut self, rt: &R, key: Key);

    /// Makes a batch of calls at the keys that `pick` picks. It answers the sum of what the gets read.
    /// Each kind of keys has a loop of its own, which doesn't ask for the kind.
    fn draw_batch<R: Wait, P: Pick>(
        &mut self,
        rt: &R,
        random: &mut Random,
        mix: Mix,
        pick: &P,
    ) -> Result<u64, WorkFault> {
        let removals_from = mix.gets.wrapping_add(mix.puts);
        let mut row = *random;
        let mut sum = 0u64;
        for turn in 0..BATCH {
            let drawn = row.draw();
            let key = pick.key(turn, drawn);
            let percent = percent_of(drawn);
            if percent < mix.gets {
                sum = sum.wrapping_add(self.get(rt, key).map_or(0, Num::get));
            } else if percent < removals_from {
                self.put(rt, key, number_of(drawn))?;
            } else {
                self.remove(rt, key);
            }
        }
        *random = row;
        Ok(sum)
    }

    /// Makes a batch of puts at one key, by turns of two numbers.
    fn put_batch<R: Wait>(&mut self, rt: &R, key: Key) -> Result<u64, WorkFault> {
        for round in 0..BATCH {
            self.put(rt, key, by_turns(round))?;
        }
        Ok(0)
    }
}

impl Caller for Handle {
    #[inline(always)]
    fn get<R: Wait>(&mut self, _rt: &R, key: Key) -> Option<Num> {
        Handle::get(self, key)
    }

    #[inline(always)]
    fn put<R: Wait>(&mut self, rt: &R, key: Key, number: Num) -> Result<(), WorkFault> {
        match Handle::put(self, rt, key, number) {
            Ok(_) => Ok(()),
            Err(_) => Err(WorkFault::Full),
        }
    }

    #[inline(always)]
    fn remove<R: Wait>(&mut self, rt: &R, key: Key) {
        Handle::remove(self, rt, key);
    }
}

impl Caller for Guest {
    #[inline(always)]
    fn get<R: Wait>(&mut self, rt: &R, key: Key) -> Option<Num> {
        Guest::get(self, rt, key)
    }

    #[inline(always)]
    fn put<R: Wait>(&mut self, rt: &R, key: Key, number: Num) -> Result<(), WorkFault> {
        match Guest::put(self, rt, key, number) {
            Ok(_) => Ok(()),
            Err(_) => Err(WorkFault::OutOfMemory),
        }
    }

    #[inline(always)]
    fn remove<R: Wait>(&mut self, rt: &R, key: Key) {
        Guest::remove(self, rt, key);
    }
}
