//! The seats of a handle are split off, as handles of their own, and joined again.
ghost use Rattle.std.specs.Prelude.{All, Err, List, IfErr, IfOk, [], is_ok, length, map, true, ◌++◌, ◌+◌, ◌<◌, ◌^◌, ◌∷◌, ◌↔◌, ◌≡◌};
ghost use Rattle.nb_map.specs.declared.faults.SplitFault.TheVariants as fault;
ghost use Rattle.nb_set.specs.Handles.{HandleOf, IsWhole, all_seats, handle_on, seats_of};

use crate::handle::Handle;
use nb_map::SplitFault;
use std::alloc::Global;

impl Handle {
    /// How many seats the handle holds.
    pub fn seats(&self) -> usize
        ensures count { result ≡ length (seats_of self.now) }
        ensures fits { result < 2 ^ 63 }
    {
        self.map.seats()
    }

    /// Whether the handle holds all seats of its set.
    pub fn is_whole(&self) -> bool
        ensures { (result ≡ true) ↔ IsWhole self.now }
    {
        self.map.is_whole()
    }

    /// A handle of its own for the last seat in reserve, for another thread. It takes no memory.
    pub fn split(&mut self) -> Result<Handle, SplitFault>
        ensures split { IfOk result (λ other. (self.old.reserve ≡ self.new.reserve ++ other.seat ∷ [])
            × (other ≡ handle_on self.old.set other.seat)) }
        ensures same { (self.new.set ≡ self.old.set) × (self.new.seat ≡ self.old.seat) }
        ensures refused { IfErr result (λ _. self.new ≡ self.old) }
        ensures no_seat { (result ≡ Err fault.NoSeat) ↔ (self.old.reserve ≡ []) }
    {
        let map = self.map.split()?;
        Ok(Handle { map })
    }

    /// Takes all seats of another handle of the set into the reserve. It takes no memory. It is
    /// refused only where the two hold 2^63 seats or more.
    pub fn join(&mut self, other: Handle) -> Result<(), Handle>
        requires one { other.set ≡ self.old.set }
        ensures joined { IfOk result (λ done. self.new.reserve ≡ self.old.reserve ++ seats_of other) }
        ensures same { (self.new.set ≡ self.old.set) × (self.new.seat ≡ self.old.seat) }
        ensures back { IfErr result (λ back. (back ≡ other) × (self.new ≡ self.old)) }
        ensures few { length (seats_of self.old) + length (seats_of other) < 2 ^ 63
            → is_ok result ≡ true }
    {
        let Handle { map } = other;
        match self.map.join(map) {
            Ok(()) => Ok(()),
            Err(map) => Err(Handle { map }),
        }
    }

    /// A handle for each seat: this one, with its own seat, and behind it one for each seat of its
    /// reserve, in order. It takes memory for three vectors. Where that is refused, the handle comes
    /// back.
    pub fn split_all(self, alloc: Global) -> Result<Vec<Handle>, Handle>
        ensures split { IfOk result (λ handles. handles.items
            ≡ map (handle_on self.set) (seats_of self)) }
        ensures one { IfOk result (λ handles. All (λ handle. handle.set ≡ self.set) handles.items) }
        ensures back { IfErr result (λ back. back ≡ self) }
    {
        let Ok(mut handles) = Vec::with_capacity(alloc, self.seats()) else {
            return Err(self);
        };
        let Handle { map } = self;
        match map.split_all(alloc) {
            Ok(maps) => {
                for map in maps {
                    handles.push_reserved(Handle { map });
                }
                Ok(handles)
            }
            Err(map) => Err(Handle { map }),
        }
    }

    /// Takes all seats of other handles of the set into the reserve, one handle's after another's:
    /// `join`. Where one is refused, it comes back with those behind it.
    pub fn join_all(&mut self, others: Vec<Handle>) -> Result<(), Vec<Handle>>
        requires one { All (λ other. other.set ≡ self.old.set) others.items }
        ensures joined { IfOk result (λ done. self.new.reserve
            ≡ self.old.reserve ++ all_seats others.items) }
        ensures same { (self.new.set ≡ self.old.set) × (self.new.seat ≡ self.old.seat) }
        ensures back { IfErr result (λ back. (joined : List HandleOf)
            × (others.items ≡ joined ++ back.items)
            × (self.new.reserve ≡ self.old.reserve ++ all_seats joined)) }
        ensures few { length (seats_of self.old) + length (all_seats others.items) < 2 ^ 63
            → is_ok result ≡ true }
    {
        let mut others = others;
        others.reverse();
        while let Some(other) = others.pop() {
            if let Err(other) = self.join(other) {
                others.push_reserved(other);
                others.reverse();
                return Err(others);
            }
        }
        Ok(())
    }
}
