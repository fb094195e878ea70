//! Where a call has come to on its way up the tables, and what it comes to there.
ghost use Rattle.std.specs.Prelude.{◌≡◌};
ghost use Rattle.nb_map.specs.inside.Climbing.{rung_at};

use crate::faults::PutFault;
use nb_core::Reply;

/// What a call knows of the table below the one that it has come to.
#[derive(Clone, Copy)]
pub(crate) enum Below {
    /// It is complete, or there is none.
    Complete,
    /// The call's key has a slot in it.
    HasKey,
    /// The call's key is passed in it.
    Passed,
}

/// Where a call has come to: a table, a distance on its key's path there, behind slots of other
/// keys, and what it knows of the table below.
#[derive(Clone, Copy)]
pub(crate) struct Rung {
    pub(crate) g: u32,
    pub(crate) from: usize,
    pub(crate) below: Below,
}

impl Rung {
    /// Where a call begins in table `g`, if the table below it is complete.
    #[inline(always)]
    pub(crate) fn at(g: u32) -> Rung
        ensures { result ≡ rung_at g }
    {
        Rung {
            g,
            from: 0,
            below: Below::Complete,
        }
    }
}

/// What a call comes to in a table.
#[derive(Clone, Copy)]
pub(crate) enum Visit {
    /// It is made, and this is its reply.
    Told(Reply),
    /// It is refused, and has made nothing.
    Refused(PutFault),
    /// It goes on in the next table, and knows this of the table that it leaves.
    Above(Below),
}
