//! Looks at a sample of a table's slots.
ghost use Rattle.std.specs.Prelude.{[], if◌then◌else◌, ◌<◌, ◌≡◌, ◌≤◌};
ghost use Rattle.nb_core.specs.Plans.{generations_of, size_of};
ghost use Rattle.nb_core.specs.Tables.{IsSlot};
ghost use Rattle.nb_table.specs.Chains.{Extended, Grown, IsOwn, seen_by};
ghost use Rattle.nb_map.specs.Fullness as full;
ghost use Rattle.nb_map.specs.Fullness.{is_taken};

use crate::occupancy::{SAMPLE, SPREAD};
use nb_core::Shape;
use nb_table::{Chain, ChainSeat};

/// How many slots of table `g` are looked at.
pub(crate) fn sample_size(shape: &Shape, g: u32) -> usize
    requires table { g < generations_of shape.now }
    ensures size { result ≡ full.sample_size shape.now g }
    ensures few { result ≤ SAMPLE }
{
    shape.size_of(g).min(SAMPLE)
}

/// Which slot of table `g` is looked at in block `j`.
fn sampled(shape: &Shape, g: u32, j: usize) -> usize
    requires table { g < generations_of shape.now }
    requires block { j < full.sample_size shape.now g }
    ensures slot { result ≡ full.sampled shape.now g j }
    ensures in_table { result < size_of shape.now g }
{
    let block = shape.size_of(g) / sample_size(shape, g);
    j * block + j * SPREAD % block
}

/// 1 if a slot is taken, and 0 if it is empty: by one load.
fn look(chain: &Chain, seat: &mut ChainSeat, g: u32, i: usize) -> u32
    requires own { IsOwn chain.now seat.old }
    requires slot { IsSlot chain.now.shape g i }
    ensures grows { Extended chain.now.shape seat.old seat.new [] 1 }
    ensures found { result ≡ (if is_taken ((seen_by chain.now.shape seat.new).key g i) then 1
        else 0) }
{
    u32::from(!chain.load_key_word(seat, g, i, None).is_empty())
}

/// How many slots of the sample of table `g` are taken: one load for each.
pub(crate) fn taken_in(chain: &Chain, seat: &mut ChainSeat, g: u32) -> u32
    requires own { IsOwn chain.now seat.old }
    requires table { g < generations_of chain.now.shape }
    ensures grown { Grown chain.now.shape seat.old seat.new []
        (full.sample_size chain.now.shape g) }
    ensures least { full.taken_in chain.now.shape (seen_by chain.now.shape seat.old) g ≤ result }
    ensures most { result ≤ full.taken_in chain.now.shape (seen_by chain.now.shape seat.new) g }
{
    let mut taken = 0;
    for j in 0..sample_size(chain.shape(), g) {
        let i = sampled(chain.shape(), g, j);
        taken += look(chain, seat, g, i);
    }
    taken
}
