//! A new map, with its handles at home, and the first token.
ghost use Rattle.std.specs.Prelude.{[], IfOk, Some, map, ◌*◌, ◌≡◌, ◌≤◌};
ghost use Rattle.nb_core.specs.declared.shapes.TheConstants.{MAX_SEATS};
ghost use Rattle.nb_lasting.specs.Shared.{first_lane_view};

use crate::shapes::shape_for;
use crate::shared::{LaneView, Lanes, Opened, SPACING, Token};
use atomic_table::Table;
use nb_core::OutOfMemory;
use nb_map::Handle;
use std::alloc::Global;

/// Each handle in a slot of its own.
fn housed(alloc: Global, handles: Vec<Handle>) -> Result<Vec<Option<Handle>>, OutOfMemory>
    ensures { IfOk result (λ slots. slots.items ≡ map Some handles.items) }
{
    let mut slots = Vec::with_capacity(alloc, handles.len())?;
    for handle in handles {
        slots.push_reserved(Some(handle));
    }
    Ok(slots)
}

/// A new map, with its handles at home, and the first token.
pub(crate) fn open_row(
    alloc: Global,
    opened: Opened,
) -> Result<
    (
        Table<Option<Handle>, LaneView, Opened, Lanes, Global>,
        Token,
    ),
    OutOfMemory,
>
    requires seats { (1 ≤ opened.seats) × (opened.seats ≤ MAX_SEATS) }
    ensures fits { IfOk result (λ made. (made.0.shared.table_id.words ≡ 8 * opened.seats)
        × (made.0.shared.table_id.slots ≡ opened.seats) × (made.0.shared.key ≡ opened)
        × (made.1.table_id ≡ made.0.shared.table_id)) }
    ensures first { IfOk result (λ made. made.1.me ≡ (first_lane_view opened, [])) }
{
    let handle = Handle::open(alloc, shape_for(opened.keys, opened.seats))?;
    let Ok(handles) = handle.split_all(alloc) else {
        return Err(OutOfMemory);
    };
    let slots = housed(alloc, handles)?;
    let words = vec![in alloc; 0; SPACING * opened.seats]?;
    match Table::new(alloc, words.as_slice(), slots, &opened) {
        Ok(made) => Ok(made),
        Err(_) => Err(OutOfMemory),
    }
}
