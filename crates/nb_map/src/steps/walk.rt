//! Walks over the keys of a map.
ghost use Rattle.std.specs.Prelude.{IfSome, None, [], ℕ, ◌*◌, ◌+◌, ◌-◌, ◌<◌, ◌≡◌, ◌≤◌};
ghost use Rattle.nb_core.specs.Plans.{generations_of, size_of};
ghost use Rattle.nb_core.specs.Tables.{HasSlot, IsInstalled, IsSlot};
ghost use Rattle.nb_core.specs.declared.calls.Call.TheVariants as call;
ghost use Rattle.nb_table.specs.Chains.{IsOwn, seen_by};
ghost use Rattle.nb_map.specs.Calling.{HasMade};
ghost use Rattle.nb_map.specs.Steps.{passing_steps, slots_ahead, slots_below, meeting_steps};
ghost use Rattle.nb_map.specs.Walks.{HasPassed, HasReached, IsBefore, IsFirstTable, IsPlace};
ghost use Rattle.nb_map.specs.declared.steps.walk.Place.TheVariants as walk_at;
ghost use Rattle.nb_map.specs.inside.Walking.{HasGone, IsEarlier, IsFirstOf};

use crate::steps::get::get_at;
use crate::steps::rung::{Below, Rung};
use crate::steps::search::{PathEnd, probe};
use nb_core::{Call, Key, KeyState, Num, Slot};
use nb_table::{Chain, ChainSeat};

/// A place of a walk.
#[derive(Clone, Copy)]
pub enum Place {
    /// A table, and a slot of it.
    Slot(u32, usize),
    /// The end.
    End,
}

/// How far a walk has come in one table: to this slot, or to the end of where it goes, and the key
/// and number that it has found just before.
#[derive(Clone, Copy)]
pub(crate) struct Stretch {
    to: usize,
    shown: Option<(Key, Num)>,
}

/// Takes a walk with this first table on to the next key that the map has, or to the end.
pub(crate) fn next_from(
    chain: &Chain,
    seat: &mut ChainSeat,
    first: u32,
    place: &mut Place,
) -> Option<(Key, Num)>
    requires own { IsOwn chain.now seat.old }
    requires first { IsFirstTable chain.now.shape seat.old first }
    requires place { IsPlace chain.now.shape (seen_by chain.now.shape seat.old) first place.old }
    ensures gone { HasGone chain.now.shape seat.old seat.new first place.old place.new result
        (passing_steps chain.now.shape place.old place.new) }
    ensures place { IsPlace chain.now.shape (seen_by chain.now.shape seat.new) first place.new }
    ensures ahead { IfSome result (λ pair. slots_ahead chain.now.shape place.new
        < slots_ahead chain.now.shape place.old) }
    ensures ended { result ≡ None → place.new ≡ walk_at.End }
{
    while let Place::Slot(g, from) = *place {
        let Stretch { to, shown } = next_in(chain, seat, first, g, from, chain.shape().size_of(g));
        *place = place_from(chain, seat, g, to);
        if shown.is_some() {
            return shown;
        }
    }
    None
}

/// Takes a walk on to the next key that the map has in the walk's first table before slot `end` of
/// it, or to that slot. A walk that is there, or beyond, stays where it is.
pub(crate) fn next_before(
    chain: &Chain,
    seat: &mut ChainSeat,
    first: u32,
    place: &mut Place,
    end: usize,
) -> Option<(Key, Num)>
    requires own { IsOwn chain.now seat.old }
    requires first { IsFirstTable chain.now.shape seat.old first }
    requires place { IsPlace chain.now.shape (seen_by chain.now.shape seat.old) first place.old }
    requires slot { end < size_of chain.now.shape first }
    ensures gone { HasGone chain.now.shape seat.old seat.new first place.old place.new result
        (passing_steps chain.now.shape place.old place.new) }
    ensures place { IsPlace chain.now.shape (seen_by chain.now.shape seat.new) first place.new }
    ensures ahead { IfSome result (λ pair. slots_ahead chain.now.shape place.new
        < slots_ahead chain.now.shape place.old) }
    ensures within { IsBefore (walk_at.Slot first end) place.new → place.new ≡ place.old }
    ensures ended { result ≡ None → HasReached (walk_at.Slot first end) place.new }
{
    let Place::Slot(g, from) = *place else {
        return None;
    };
    if g > first || from >= end {
        return None;
    }
    let Stretch { to, shown } = next_in(chain, seat, first, first, from, end);
    *place = Place::Slot(first, to);
    shown
}

/// Slot `i` of table `g` as a place, or, where `i` is the table's end, the place that comes next.
fn place_from(chain: &Chain, seat: &mut ChainSeat, g: u32, i: usize) -> Place
    requires own { IsOwn chain.now seat.old }
    requires table { g < generations_of chain.now.shape }
    requires installed { IsInstalled (seen_by chain.now.shape seat.old) g }
    requires within { i ≤ size_of chain.now.shape g }
    ensures made { (k : ℕ) → HasMade chain.now.shape (call.Get k) seat.old seat.new [] 1 }
    ensures passed { (first : ℕ) → HasPassed chain.now.shape seat.old seat.new first
        (walk_at.Slot g i) result None }
    ensures place { (first : ℕ) → first ≤ g
        → IsPlace chain.now.shape (seen_by chain.now.shape seat.new) first result }
    ensures slots { slots_ahead chain.now.shape result
        ≤ slots_ahead chain.now.shape (walk_at.Slot g i) }
{
    if i < chain.shape().size_of(g) {
        return Place::Slot(g, i);
    }
    if g + 1 == chain.shape().generations() {
        return Place::End;
    }
    if chain.load_next(seat, g, None) {
        Place::Slot(g + 1, 0)
    } else {
        Place::End
    }
}

/// Takes a walk on in table `g`, from slot `from`, to the next key that the map has before slot
/// `end` of it, or to that: one load for each slot, and one more for a number.
fn next_in(
    chain: &Chain,
    seat: &mut ChainSeat,
    first: u32,
    g: u32,
    from: usize,
    end: usize,
) -> Stretch
    requires own { IsOwn chain.now seat.old }
    requires first { IsFirstTable chain.now.shape seat.old first }
    requires table { g < generations_of chain.now.shape }
    requires behind { first ≤ g }
    requires some { from < end }
    requires within { end ≤ size_of chain.now.shape g }
    ensures gone { HasGone chain.now.shape seat.old seat.new first (walk_at.Slot g from)
        (walk_at.Slot g result.to) result.shown
        ((result.to - from) * meeting_steps chain.now.shape) }
    ensures onward { from < result.to }
    ensures within { result.to ≤ end }
    ensures whole { result.shown ≡ None → result.to ≡ end }
{
    for i in from..end {
        if let Some(key) = first_seen(chain, seat, first, g, i) {
            let value = chain.shape().value_place(g, i);
            if let Some(number) = get_at(chain, seat, key, Slot { g, i, value }) {
                return Stretch {
                    to: i + 1,
                    shown: Some((key, number)),
                };
            }
        }
    }
    Stretch {
        to: end,
        shown: None,
    }
}

/// The key of slot `i` of table `g`, where a walk hasn't met it in an earlier table: by one load in
/// the walk's first table.
#[inline]
fn first_seen(chain: &Chain, seat: &mut ChainSeat, first: u32, g: u32, i: usize) -> Option<Key>
    requires own { IsOwn chain.now seat.old }
    requires first { IsFirstTable chain.now.shape seat.old first }
    requires slot { IsSlot chain.now.shape g i }
    requires behind { first ≤ g }
    ensures made { (k : ℕ) → HasMade chain.now.shape (call.Get k) seat.old seat.new []
        (1 + slots_below chain.now.shape g) }
    ensures first { IsFirstOf chain.now.shape seat.new first g i result }
{
    match chain.load_key(seat, g, i, None) {
        KeyState::Claimed(key) => {
            if is_earlier(chain, seat, first, g, key) {
                None
            } else {
                Some(key)
            }
        }
        _ => None,
    }
}

/// Whether a key that has a slot in table `g` has one in a table before it, from table `first` on.
#[tactic(auto, using(nb_core::proofs::Theorems::linked))]
fn is_earlier(chain: &Chain, seat: &mut ChainSeat, first: u32, g: u32, key: Key) -> bool
    requires own { IsOwn chain.now seat.old }
    requires first { IsFirstTable chain.now.shape seat.old first }
    requires table { g < generations_of chain.now.shape }
    requires behind { first ≤ g }
    requires slot { HasSlot chain.now.shape (seen_by chain.now.shape seat.old) g key }
    ensures made { HasMade chain.now.shape (call.Get key) seat.old seat.new []
        (slots_below chain.now.shape g) }
    ensures earlier { IsEarlier chain.now.shape (seen_by chain.now.shape seat.new)
        first g key result }
{
    for f in first..g {
        let rung = Rung {
            g: f,
            from: 0,
            below: Below::Passed,
        };
        if let PathEnd::Slot(_) = probe(chain, seat, &Call::Get { key }, rung) {
            return true;
        }
    }
    false
}
