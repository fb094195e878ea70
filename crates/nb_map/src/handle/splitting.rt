//! The seats of a handle are split off, as handles of their own, and joined again.
ghost use Rattle.std.specs.Arc.{arc_value};
ghost use Rattle.std.specs.Prelude.{All, List, map, IfErr, IfOk, Err, [], length, true, is_ok, ◌++◌, ◌+◌, ◌<◌, ◌^◌, ◌∷◌, ◌↔◌, ◌≡◌};
ghost use Rattle.nb_map.specs.Handles.{HandleOf, IsWhole, all_seats, handle_on, seats_of};
ghost use Rattle.nb_map.specs.declared.faults.SplitFault.TheVariants as fault;

use crate::faults::SplitFault;
use crate::handle::{Handle, Shared};
use nb_core::OutOfMemory;
use std::alloc::Global;
use std::sync::Arc;

impl Handle {
    /// How many seats the handle holds.
    pub fn seats(&self) -> usize
        ensures count { result ≡ length (seats_of self.now) }
        ensures fits { result < 2 ^ 63 }
    {
        self.reserve.len() + 1
    }

    /// Whether the handle holds all seats of its map.
    pub fn is_whole(&self) -> bool
        ensures { (result ≡ true) ↔ IsWhole self.now }
    {
        self.seats() == self.shape().seats()
    }

    /// A handle of its own for the last seat in reserve, for another thread. It takes no memory.
    pub fn split(&mut self) -> Result<Handle, SplitFault>
        ensures split { IfOk result (λ other. (self.old.reserve ≡ self.new.reserve ++ other.seat ∷ [])
            × (other ≡ handle_on self.old.map other.seat)) }
        ensures same { (self.new.map ≡ self.old.map) × (self.new.seat ≡ self.old.seat) }
        ensures refused { IfErr result (λ _. self.new ≡ self.old) }
        ensures no_seat { (result ≡ Err fault.NoSeat) ↔ (self.old.reserve ≡ []) }
    {
        if self.reserve.len() == 0 {
            return Err(SplitFault::NoSeat);
        }
        let Ok(shared) = Arc::try_clone(&self.shared) else {
            return Err(SplitFault::OutOfMemory);
        };
        let Some((seat, reserve)) = self.reserve.split_last() else {
            unreachable!();
        };
        Ok(Handle {
            shared,
            seat,
            reserve,
        })
    }

    /// Takes all seats of another handle of the map into the reserve. It takes no memory. It is
    /// refused only where the two hold 2^63 seats or more.
    pub fn join(&mut self, other: Handle) -> Result<(), Handle>
        requires one { other.map ≡ self.old.map }
        ensures joined { IfOk result (λ done. self.new.reserve ≡ self.old.reserve ++ seats_of other) }
        ensures same { (self.new.map ≡ self.old.map) × (self.new.seat ≡ self.old.seat) }
        ensures back { IfErr result (λ back. (back ≡ other) × (self.new ≡ self.old)) }
        ensures few { length (seats_of self.old) + length (seats_of other) < 2 ^ 63
            → is_ok result ≡ true }
    {
        let Handle {
            shared,
            seat,
            reserve,
        } = other;
        match self.reserve.join(seat, reserve) {
            Ok(()) => Ok(()),
            Err((seat, reserve)) => Err(Handle {
                shared,
                seat,
                reserve,
            }),
        }
    }

    /// A handle for each seat: this one, with its own seat, and behind it one for each seat of its
    /// reserve, in order. It takes memory for two vectors. Where that is refused, the handle comes
    /// back.
    pub fn split_all(self, alloc: Global) -> Result<Vec<Handle>, Handle>
        ensures split { IfOk result (λ handles. handles.items
            ≡ map (handle_on self.map) (seats_of self)) }
        ensures one { IfOk result (λ handles. All (λ handle. handle.map ≡ self.map) handles.items) }
        ensures back { IfErr result (λ back. back ≡ self) }
    {
        let Ok(mut handles) = Vec::with_capacity(alloc, self.seats()) else {
            return Err(self);
        };
        let Ok(mut clones) = clones(alloc, &self.shared, self.reserve.len()) else {
            return Err(self);
        };
        let Handle {
            shared,
            seat,
            mut reserve,
        } = self;
        while let Some(shared) = clones.pop() {
            let Some((seat, reserve)) = reserve.split_last() else {
                unreachable!();
            };
            handles.push_reserved(Handle {
                shared,
                seat,
                reserve,
            });
        }
        handles.push_reserved(Handle {
            shared,
            seat,
            reserve,
        });
        handles.reverse();
        Ok(handles)
    }

    /// Takes all seats of other handles of the map into the reserve, one handle's after another's:
    /// `join`. Where one is refused, it comes back with those behind it.
    pub fn join_all(&mut self, others: Vec<Handle>) -> Result<(), Vec<Handle>>
        requires one { All (λ other. other.map ≡ self.old.map) others.items }
        ensures joined { IfOk result (λ done. self.new.reserve
            ≡ self.old.reserve ++ all_seats others.items) }
        ensures same { (self.new.map ≡ self.old.map) × (self.new.seat ≡ self.old.seat) }
        ensures back { IfErr result (λ back. (joined : List HandleOf)
            × (others.items ≡ joined ++ back.items)
            × (self.new.reserve ≡ self.old.reserve ++ all_seats joined)) }
        ensures few { length (seats_of self.old) + length (all_seats others.items) < 2 ^ 63
            → is_ok result ≡ true }
    {
        let mut others = others;
        others.reverse();
        while let Some(other) = others.pop() {
            if let Err(other) = self.join(other) {
                others.push_reserved(other);
                others.reverse();
                return Err(others);
            }
        }
        Ok(())
    }
}

/// So many more references to what the handles of a map share.
fn clones(
    alloc: Global,
    shared: &Arc<Shared, Global>,
    count: usize,
) -> Result<Vec<Arc<Shared, Global>>, OutOfMemory>
    ensures count { IfOk result (λ clones. length clones.items ≡ count) }
    ensures same { IfOk result (λ clones. All (λ clone. arc_value clone ≡ arc_value shared.now)
        clones.items) }
{
    let mut clones = Vec::with_capacity(alloc, count)?;
    for _ in 0..count {
        clones.push_reserved(Arc::try_clone(shared)?);
    }
    Ok(clones)
}
