//! A typed map is made anew over its store: another map of numbers, of another shape, goes on with
//! its entries.
ghost use Rattle.std.specs.Prelude.{Err, IfErr, IfOk, ◌↔◌, ◌≡◌};
ghost use Rattle.nb_map.specs.declared.faults.RenewFault.TheVariants as fault;
ghost use Rattle.nb_long.specs.Handles.{IsWhole};
ghost use Rattle.nb_long.specs.Renewing.{HasRenewed, HasTooMany, IsKept};

use crate::handle::Handle;
use nb_core::Shape;
use nb_map::RenewFault;
use std::alloc::Global;

impl<V: Drop> Handle<V> {
    /// With all seats: the handle goes on over a new map of this shape, which has just the keys that
    /// the old one has, with their values. So the slots of removed keys are free again. The store is
    /// kept: no value is moved, stored again or dropped, and receipts stay good. It makes a walk, and
    /// a write for each key. It takes memory for the entries and for the new map, while the old one
    /// is still there. Where memory is refused, or the shape has too few slots, or a seat is missing,
    /// the handle is of the old map still. It waits for nobody.
    pub fn renew(&mut self, alloc: Global, shape: Shape) -> Result<(), RenewFault>
        ensures all { (result ≡ Err fault.NotAll) ↔ (IsWhole self.old → ⊥) }
        ensures renewed { IfOk result (λ done. HasRenewed shape self.old self.new) }
        ensures full { result ≡ Err fault.Full → HasTooMany shape self.old }
        ensures kept { IfErr result (λ _. IsKept self.old self.new) }
        ensures back { result ≡ Err fault.NotAll → self.new ≡ self.old }
    {
        self.map.renew(alloc, shape)
    }
}
