//! What the seats of a counter know, and the rule that the stripes keep.
ghost use Rattle.std.specs.Prelude.{ℕ, [], ◌++◌, take, drop};

use atomic_table::{Join, Play, Split, TableRule};
use std::collections::LinkedList;
use std::marker::{Brand, PhantomData};

/// How far apart two stripes lie, in words: 64 bytes, so that no two of them share a line of a
/// processor's cache.
pub const SPREAD: usize = 8;

/// What a seat has added, and how many adding steps and how many steps it has made. Contracts alone
/// speak of it: no value of it is made.
pub struct Tally {
    pub number: usize,
    pub added: i64,
    pub adds: u64,
    pub steps: u64,
}

/// What one token knows: one tally in normal use, all of them while seats are made or gathered.
pub(crate) type Tallies = LinkedList<Tally>;

/// How many stripes and seats a counter has.
#[derive(Clone, Copy)]
pub struct Size {
    pub stripes: usize,
    pub seats: usize,
}

/// The rule between any two steps: each stripe is the sum of what the seats that it serves have
/// added, and the words between two stripes are 0.
pub(crate) struct Stripes;

impl TableRule<(), Tallies, Size> for Stripes {
    ghost use Rattle.nb_count.specs.Tallies.{AreSums, new_tallies};

    ghost holds = { AreSums };

    ghost first = { λ size. new_tallies size.seats };
}

/// A step that adds to a stripe.
pub(crate) struct Adds;

impl Play<(), Tallies> for Adds {
    ghost use Rattle.nb_count.specs.Tallies.{HasAdded};

    ghost then = { HasAdded };
}

/// A step that changes no word.
pub(crate) struct Looks;

impl Play<(), Tallies> for Looks {
    ghost use Rattle.nb_count.specs.Tallies.{HasLooked};

    ghost then = { HasLooked };
}

/// How many stripes the counter of a step has.
pub(crate) trait Striped {
    ghost stripes: { ℕ };
}

impl Striped for Brand {
    ghost stripes = { 0 };
}

/// A load by a token that has all tallies.
pub(crate) struct Sums<B> {
    told: PhantomData<B>,
}

impl<B: Striped> Play<(), Tallies> for Sums<B> {
    ghost use Rattle.nb_count.specs.Tallies.{HasSummed};

    ghost then = { HasSummed B.stripes };
}

/// The first tally goes to a new token.
pub(crate) struct Deal;

impl Split<Tallies> for Deal {
    ghost left = { λ tallies. drop 1 tallies };

    ghost right = { λ tallies. take 1 tallies };
}

pub(crate) struct Gather;

impl Join<Tallies> for Gather {
    ghost both = { λ tallies others. tallies ++ others };

    ghost spent = { [] };
}
