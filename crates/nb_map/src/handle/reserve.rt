//! Seats in reserve.
ghost use Rattle.std.specs.Prelude.{is_ok, true, vec_capacity, ◌+◌, ◌<◌, ◌^◌, IfErr, IfOk, MatchOption, List, Option, [], length, ◌++◌, ◌∷◌, ◌≡◌, ◌≤◌};
ghost use Rattle.nb_map.specs.Maps.{SeatOf};

use crate::map::Seat;
use nb_core::OutOfMemory;
use std::alloc::Global;
use std::collections::LinkedList;
use std::marker::Model;
use std::mem;

/// Nodes of a list, with a seat in each, or none.
type Nodes = LinkedList<Option<Seat>, Global>;

/// Seats in reserve. They are in nodes of a list that has one more, an empty one in front: the node
/// of the seat that the handle calls with. So each seat brings a node, and joining takes no memory.
#[derive(Drop)]
pub(crate) struct Reserve {
    nodes: Nodes,
}

impl Model for Reserve {
    ghost use Rattle.std.specs.Prelude.{List};
    ghost use Rattle.nb_map.specs.Maps.{SeatOf};

    ghost Value = { List SeatOf };

    ghost use Rattle.nb_map.specs.inside.Reserves.{IsReserve, seats_in};

    ghost view = { λ reserve. seats_in reserve.nodes };

    ghost invariant = { IsReserve };
}

impl Reserve {
    /// The first one of these seats, and the others in reserve.
    pub(crate) fn new(alloc: Global, seats: Vec<Seat>) -> Result<(Seat, Reserve), OutOfMemory>
        requires some { 1 ≤ length seats.items }
        ensures { IfOk result (λ made. seats.items ≡ made.0 ∷ made.1) }
    {
        let mut seats = seats.into_iter();
        let Some(own) = seats.next() else {
            unreachable!();
        };
        let mut nodes = LinkedList::new(alloc);
        nodes.push_back(None)?;
        for seat in seats {
            nodes.push_back(Some(seat))?;
        }
        Ok((own, Reserve { nodes }))
    }

    /// How many seats there are.
    pub(crate) fn len(&self) -> usize
        ensures count { result ≡ length self.now }
        ensures fits { result + 1 < 2 ^ 63 }
    {
        self.nodes.len() - 1
    }

    /// The last seat, and a reserve of none, in its node.
    pub(crate) fn split_last(&mut self) -> Option<(Seat, Reserve)>
        ensures { MatchOption result ((self.old ≡ []) × (self.new ≡ []))
            (λ last. (self.old ≡ self.new ++ last.0 ∷ []) × (last.1 ≡ [])) }
    {
        let count = self.len();
        if count == 0 {
            return None;
        }
        let Ok(mut nodes) = self.nodes.split_off(count) else {
            unreachable!();
        };
        match exchanged(&mut nodes, None) {
            Some(seat) => Some((seat, Reserve { nodes })),
            None => unreachable!(),
        }
    }
}

impl Reserve {
    /// Takes a seat and a reserve behind these seats. It takes no memory, and fails only where they
    /// would be 2^63 together.
    pub(crate) fn join(&mut self, seat: Seat, other: Reserve) -> Result<(), (Seat, Reserve)>
        ensures joined { IfOk result (λ done. self.new ≡ self.old ++ seat ∷ other) }
        ensures back { IfErr result (λ back. (self.new ≡ self.old) × (back.0 ≡ seat)
            × (back.1 ≡ other)) }
        ensures few { length self.old + length other + 2 < 2 ^ 63 → is_ok result ≡ true }
    {
        let Reserve { mut nodes } = other;
        let _ = exchanged(&mut nodes, Some(seat));
        if self.nodes.append(&mut nodes).is_ok() {
            return Ok(());
        }
        match exchanged(&mut nodes, None) {
            Some(seat) => Err((seat, Reserve { nodes })),
            None => unreachable!(),
        }
    }

    /// All seats in a vector that has room for them, behind the handle's own; and their nodes.
    pub(crate) fn gathered(self, own: Seat, room: Vec<Seat>) -> (Vec<Seat>, Nodes)
        requires empty { room.items ≡ [] }
        requires room { length self < vec_capacity room }
        ensures seats { result.0.items ≡ own ∷ self }
        ensures nodes { length result.1 ≡ length self + 1 }
    {
        let Reserve { mut nodes } = self;
        let mut seats = room;
        seats.push_reserved(own);
        refilled(&mut nodes, None);
        for _ in 1..nodes.len() {
            let Some(seat) = turned(&mut nodes, None) else {
                unreachable!();
            };
            seats.push_reserved(seat);
        }
        (seats, nodes)
    }

    /// The first one of these seats, and the others in reserve, in nodes for all of them.
    pub(crate) fn spread(seats: Vec<Seat>, nodes: Nodes) -> (Seat, Reserve)
        requires some { 1 ≤ length seats.items }
        requires nodes { length nodes ≡ length seats.items }
        ensures { seats.items ≡ result.0 ∷ result.1 }
    {
        let mut nodes = nodes;
        let mut seats = seats.into_iter();
        let Some(own) = seats.next() else {
            unreachable!();
        };
        refilled(&mut nodes, None);
        for seat in seats {
            refilled(&mut nodes, Some(seat));
        }
        (own, Reserve { nodes })
    }
}

/// What the first node has, in whose place it gets this.
fn exchanged(nodes: &mut Nodes, new: Option<Seat>) -> Option<Seat>
    requires some { 1 ≤ length nodes.old }
    ensures { (rest : List (Option SeatOf)) × (nodes.old ≡ result ∷ rest) × (nodes.new ≡ new ∷ rest) }
{
    let Some(first) = nodes.front_mut() else {
        unreachable!();
    };
    mem::replace(first, new)
}

/// The same, and the first node comes to the end.
fn turned(nodes: &mut Nodes, new: Option<Seat>) -> Option<Seat>
    requires some { 1 ≤ length nodes.old }
    ensures { (rest : List (Option SeatOf)) × (nodes.old ≡ result ∷ rest)
        × (nodes.new ≡ rest ++ new ∷ []) }
{
    let _ = nodes.len();
    let first = exchanged(nodes, new);
    let Ok(mut turned) = nodes.split_off(1) else {
        unreachable!();
    };
    let Ok(()) = turned.append(nodes) else {
        unreachable!();
    };
    *nodes = turned;
    first
}

/// The same, without what the first node had.
fn refilled(nodes: &mut Nodes, new: Option<Seat>)
    requires some { 1 ≤ length nodes.old }
    ensures { (first : Option SeatOf) × (rest : List (Option SeatOf)) × (nodes.old ≡ first ∷ rest)
        × (nodes.new ≡ rest ++ new ∷ []) }
{
    let _ = turned(nodes, new);
}
