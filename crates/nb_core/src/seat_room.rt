//! Room for the seats of a map, which is reserved when the map is made.
ghost use Rattle.std.specs.Prelude.{IfOk, [], vec_capacity, ◌≡◌, ◌≤◌};

use crate::shapes::{FEW_SEATS, MAX_SEATS};
use std::alloc::{AllocError as OutOfMemory, Global};
use std::marker::Model;
use std::sync::Mutex;

/// Room in which seats are gathered later without memory. Contracts see how many it has room for at
/// least.
///
/// Threads share it with the map. A vector for seats can't be shared by threads, and a lock that
/// holds one can. What a lock holds is known only by its type, so room comes in two sizes.
#[derive(Drop)]
pub struct SeatRoom<T> {
    kept: Kept<T>,
}

impl<T> Model for SeatRoom<T> {
    ghost use Rattle.std.specs.Prelude.{ℕ};

    ghost Value = { ℕ };

    ghost use Rattle.nb_core.specs.Rooms.{room_in};

    ghost view = { λ room. room_in room.kept };
}

#[derive(Drop)]
enum Kept<T> {
    Few(Mutex<Reserved<T, FEW_SEATS>>),
    Many(Mutex<Reserved<T, MAX_SEATS>>),
}

/// An empty vector with room for `N`.
#[derive(Drop)]
struct Reserved<T, const N: usize> {
    gathered: Vec<T>,
    ghost none: { gathered.items ≡ [] },
    ghost room: { N ≤ vec_capacity gathered },
}

impl<T, const N: usize> Reserved<T, N> {
    fn new(alloc: Global) -> Result<Reserved<T, N>, OutOfMemory> {
        let gathered = Vec::with_capacity(alloc, N)?;
        Ok(Reserved { gathered })
    }
}

impl<T> SeatRoom<T> {
    /// Room for so many. It takes memory for 8 of them, or for 256 if they are more than 8.
    pub fn new(alloc: Global, seats: usize) -> Result<SeatRoom<T>, OutOfMemory>
        requires { seats ≤ MAX_SEATS }
        ensures { IfOk result (λ room. seats ≤ room) }
    {
        let kept = if seats <= FEW_SEATS {
            Kept::Few(Mutex::new(Reserved::new(alloc)?))
        } else {
            Kept::Many(Mutex::new(Reserved::new(alloc)?))
        };
        Ok(SeatRoom { kept })
    }

    /// The empty vector. It takes no memory.
    pub fn into_vec(self) -> Vec<T>
        ensures empty { result.items ≡ [] }
        ensures room { self ≤ vec_capacity result }
    {
        match self.kept {
            Kept::Few(lock) => lock.into_inner().gathered,
            Kept::Many(lock) => lock.into_inner().gathered,
        }
    }
}
