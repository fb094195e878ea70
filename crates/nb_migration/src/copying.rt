//! The copy of a frozen number to a core behind.
ghost use Rattle.std.specs.Prelude.{Option, Some, max, ℕ, ◌≡◌};
ghost use Rattle.nb_core.specs.Calls.{same_number};
ghost use Rattle.nb_core.specs.Plans.{generations_of};
ghost use Rattle.nb_map.specs.Handles.{KeepsRest};
ghost use Rattle.nb_map.specs.Promises.{HasGot};
ghost use Rattle.nb_migration.specs.Copying.{HasCopiedNumber, HasCopiedStill, HasMarkedAfter, after_mark, copied_as, copied_by};
ghost use Rattle.nb_migration.specs.Numbers.{frozen_of};
ghost use Rattle.nb_migration.specs.declared.copying.Copied.{Copied};

use crate::numbers::{Seen, UserNumber, seen_of};
use crate::settling::mark;
use crate::writes::CoreFault;
use nb_core::Key;
use nb_map::{FirstPut, Full, Handle};

/// What has become of a copy.
#[derive(Clone, Copy, Debug, PartialEq, Eq)]
pub enum Copied {
    /// The number has come: the key never had one there.
    Came,
    /// The key has a number there, or had one. So the number had come before.
    HadNumber,
    /// The key is closed there: the copy goes on behind, by `copy_on`.
    Closed,
    /// Other keys have all slots there, for good: the same.
    Full,
}

/// Copies a number that is frozen in the core before to this one, if the key never had a number
/// here: so no number that was removed comes back. It waits for nobody.
pub fn copy(target: &mut Handle, key: Key, number: UserNumber) -> Copied
    requires one { generations_of target.old.map.chain.shape ≡ 1 }
    ensures copied { HasCopiedNumber target.old.map key number target.old.seat target.new.seat result }
    ensures rest { KeepsRest target.old target.new }
{
    copied_as(target.put_if_new(key, number.plain()))
}

/// Goes on with a copy for which a core had no place, to one behind that. First it looks at the
/// source again: where the number isn't frozen there any more, the key has been settled, and
/// nothing is copied.
pub fn copy_on(
    source: &mut Handle,
    target: &mut Handle,
    key: Key,
    number: UserNumber,
) -> Option<Copied>
    requires one { generations_of target.old.map.chain.shape ≡ 1 }
    ensures copied { (found : Option ℕ)
        × HasGot source.old.map key source.old.seat source.new.seat found
        × HasCopiedStill (same_number found (Some (frozen_of number))) target.old.map key number
        target.old.seat target.new.seat result }
    ensures rest { KeepsRest source.old source.new × KeepsRest target.old target.new }
{
    if source.get(key) == Some(number.frozen()) {
        Some(copy(target, key, number))
    } else {
        None
    }
}

/// Copies a number that is frozen in its source, and then, where it has come or had come before,
/// closes the key there: `copy`, and then `mark`, whose refusal it answers. Where the core has no
/// place for the number, the source stays as it is.
pub fn copy_and_mark(
    source: &mut Handle,
    target: &mut Handle,
    key: Key,
    number: UserNumber,
    tries: u32,
) -> Result<Copied, CoreFault>
    requires one { generations_of target.old.map.chain.shape ≡ 1 }
    ensures copied { (copied : Copied)
        × HasCopiedNumber target.old.map key number target.old.seat target.new.seat copied
        × HasMarkedAfter copied source.old.map key number source.old.seat source.new.seat
        (max tries 1) result }
    ensures rest { KeepsRest source.old source.new × KeepsRest target.old target.new }
{
    let copied = copy(target, key, number);
    match copied {
        Copied::Came | Copied::HadNumber => {
            let marked = mark(source, key, number, tries);
            after_mark(copied, marked)
        }
        Copied::Closed | Copied::Full => Ok(copied),
    }
}

/// The answer of a copy after the mark.
fn after_mark(copied: Copied, marked: Result<Seen, CoreFault>) -> Result<Copied, CoreFault>
    ensures { result ≡ after_mark copied marked }
{
    match marked {
        Ok(_) => Ok(copied),
        Err(fault) => Err(fault),
    }
}

/// The answer of a copy.
fn copied_as(put: Result<FirstPut, Full>) -> Copied
    ensures { result ≡ copied_as put }
{
    match put {
        Ok(put) => copied_by(put),
        Err(_) => Copied::Full,
    }
}

/// The answer of a copy that isn't refused.
fn copied_by(put: FirstPut) -> Copied
    ensures { result ≡ copied_by put }
{
    match put {
        FirstPut::Put => Copied::Came,
        FirstPut::Found(there) if seen_of(Some(there)) == Seen::Closed => Copied::Closed,
        FirstPut::Found(_) | FirstPut::Removed => Copied::HadNumber,
    }
}
