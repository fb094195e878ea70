//! What the seats of a chain know, and the rule that the words keep.
ghost use Rattle.std.specs.Prelude.{ℕ, List, []};
ghost use Rattle.nb_core.specs.Plans.{Plan};
ghost use Rattle.nb_core.specs.declared.events.Event.{Event};
ghost use Rattle.nb_table.specs.Brands.{no_plan};

use atomic_table::{Join, Play, Split, TableRule};
use nb_core::{Event, Shape};
use std::collections::LinkedList;
use std::marker::{Brand, PhantomData};

/// What a seat has seen, the newest event first; how many steps it has made; and which of all steps
/// on the chain was its last one, or 0 before its first. No value of it is made.
pub struct Part {
    pub number: usize,
    pub seen: LinkedList<Event>,
    pub steps: u64,
    pub last_step: u64,
}

/// What one token knows: of one seat in normal use, and lists that it was told of.
pub struct View {
    pub parts: LinkedList<Part>,
    pub told: LinkedList<LinkedList<Event>>,
}

pub(crate) struct Chained;

impl TableRule<(), View, Shape> for Chained {
    ghost use Rattle.nb_table.specs.Views.{IsChained, first_view};

    ghost holds = { IsChained };

    ghost first = { λ plan. first_view plan.seats };
}

/// The events of a step, by the word that it finds.
pub(crate) trait Told {
    ghost shape: { Plan };

    ghost events: { ℕ → List Event };
}

impl Told for Brand {
    ghost shape = { no_plan };

    ghost events = { λ found. [] };
}

pub(crate) struct Move<B> {
    told: PhantomData<B>,
}

impl<B: Told> Play<(), View> for Move<B> {
    ghost use Rattle.nb_table.specs.Views.{Moves};

    ghost then = { λ step. Moves B.shape B.events step.word };
}

/// A load of the top word by a token that has the parts of all seats.
pub(crate) struct Settle<B> {
    told: PhantomData<B>,
}

impl<B: Told> Play<(), View> for Settle<B> {
    ghost use Rattle.nb_table.specs.Together.{Settles};

    ghost then = { λ step. Settles B.shape };
}

/// The first part goes to a new token.
pub(crate) struct Deal;

impl Split<View> for Deal {
    ghost use Rattle.nb_table.specs.Views.{first_part, other_parts};

    ghost left = { other_parts };

    ghost right = { first_part };
}

/// A new token is told of what the token knows, which keeps its parts.
pub(crate) struct Note;

impl Split<View> for Note {
    ghost use Rattle.nb_table.specs.Views.{noted};

    ghost left = { λ view. view };

    ghost right = { noted };
}

pub(crate) struct Learn;

impl Join<View> for Learn {
    ghost use Rattle.nb_table.specs.Views.{joined_views, spent_view};

    ghost both = { joined_views };

    ghost spent = { spent_view };
}
