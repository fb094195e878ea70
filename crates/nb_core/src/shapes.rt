//! The shape of a chain of tables.
ghost use Rattle.std.specs.Prelude.{◌≡◌, ◌/◌, ◌-◌, ◌^◌, ◌<◌, ◌≤◌, All, IfOk, Result, length};
ghost use Rattle.std.specs.Result.{result_and};
ghost use Rattle.nb_core.specs.declared.shapes.ShapeFault.{ShapeFault};
ghost use Rattle.std.specs.List.Sorted.{IsNonDecreasing};
ghost use Rattle.nb_core.specs.Plans.{
  IsChunk,
  IsPlan,
  Plan,
  base_of,
  checked_chunk,
  checked_exponents,
  checked_plan,
  checked_reprobes,
  checked_shape,
  generations_of,
  header_place,
  header_number,
  key_place,
  limit_of,
  plan,
  seated,
  size_of,
  slots_in,
  value_place,
  word_count,
};
ghost use Rattle.nb_core.specs.Paths.{IsPathIn};
ghost use Rattle.nb_core.specs.Tables.{chunk_of, path_slot};

mod churn;
mod keys;
mod wide;

use crate::numbers::Key;
use crate::slot_paths::Path;
use std::marker::Model;
use thiserror::Error;

/// Why numbers make no shape.
#[derive(Clone, Copy, Debug, PartialEq, Eq, Hash, Error)]
pub enum ShapeFault {
    #[error("bits out of range")]
    Bits,
    #[error("number of tables out of range")]
    Generations,
    #[error("number of seats out of range")]
    Seats,
    #[error("number of stripes out of range")]
    Stripes,
    #[error("a table smaller than the one before it")]
    Plan,
    #[error("reprobe limit out of range")]
    Reprobes,
    #[error("chunk out of range")]
    Chunk,
    #[error("number of keys out of range")]
    Keys,
    #[error("too many slots")]
    Slots,
}

/// The most tables of a chain.
pub const MAX_GENERATIONS: usize = 16;

/// The greatest exponent: a table has `2^28` slots at most.
pub const MAX_EXPONENT: u32 = 28;

/// The most slots of all tables of a chain together. They take 16 GiB.
pub const MAX_SLOTS: usize = 1 << 30;

/// The most seats of a chain.
pub const MAX_SEATS: usize = 256;

/// The most stripes of a counter.
pub const MAX_STRIPES: usize = 256;

/// The greatest exponent that [`Shape::with_plan`] takes.
pub const SMALL_EXPONENT: u32 = 19;

/// The most seats that [`Shape::new`] and [`Shape::with_plan`] take.
pub const FEW_SEATS: usize = 8;

/// The most stripes that [`Shape::new`] and [`Shape::with_plan`] take.
pub const FEW_STRIPES: usize = 8;

/// The most keys that [`Shape::for_keys`] makes room for, 178,956,970: the largest table has half as
/// many slots again.
pub const MOST_KEYS: usize = (1 << 29) / 3;

/// The most slots that are handed out for copying at once, where a shape asks for nothing else.
const CHUNK: u16 = 8;

/// The most slots that a shape may ask for.
const MAX_CHUNK: u32 = 1024;

/// The most stripes of a shape for many seats. A size is the sum of all stripes, so more of them make
/// it slower to tell.
const SHARED_STRIPES: usize = 16;

/// The chunk of a shape for keys that come and go.
const LARGE_CHUNK: u32 = 64;

/// The index of the top word, of any chain.
pub const TOP_INDEX: usize = 0;

/// The next word of a table with no next one, as all words are at first.
pub const NOT_INSTALLED: u64 = 0;

/// The next word of a table that has a next one.
pub const INSTALLED: u64 = 1;

/// The words that a table begins with, by what they tell.
#[derive(Clone, Copy, Debug, PartialEq, Eq, Hash)]
pub enum HeaderWord {
    /// Whether there is a table above: 1, or else 0.
    Next,
    /// How many of its slots were handed out for copying.
    Take,
    /// How many of its slots were counted as finished.
    Done,
}

/// The shape of a chain of tables: how many slots each table has, how many seats may call, and over
/// how many stripes a size is counted. A contract sees its plan. It takes no memory, and it answers
/// in a few instructions: it keeps where each table begins, and
/// its last slot.
#[derive(Clone, Copy, Debug, PartialEq, Eq, Hash)]
pub struct Shape {
    exponents: [u8; MAX_GENERATIONS],
    /// The last slot of each table, whose digits mask a key's home.
    lasts: [u32; MAX_GENERATIONS],
    bases: [u32; MAX_GENERATIONS],
    words: u32,
    reprobes: u32,
    chunk: u16,
    generations: u8,
    seats: u16,
    stripes: u16,
}

impl Model for Shape {
    ghost use Rattle.nb_core.specs.Plans.{Plan};

    ghost Value = { Plan };

    ghost use Rattle.nb_core.specs.Layout.{IsInside, inside_of, plan_of};
    ghost use Rattle.std.proofs.Common.{sym};

    ghost view = { plan_of };

    ghost invariant = { IsInside };

    ghost inverse = { inside_of };

    ghost inverse_ok = { λ a h. sym h.fields };
}

impl Shape {
    /// Tables that double: `2^bits` slots in the first, and `generations` of them. `bits` is from 2
    /// to 12, and the other numbers are from 1 to 8. This form is settled and stays as it is;
    /// [`Shape::of_tables`] makes these tables too.
    pub fn new(
        bits: u32,
        generations: u32,
        seats: usize,
        stripes: usize,
    ) -> Result<Shape, ShapeFault>
        ensures { result ≡ checked_shape bits generations seats stripes }
    {
        if !(2..=12).contains(&bits) {
            return Err(ShapeFault::Bits);
        }
        if !(1..=8).contains(&generations) {
            return Err(ShapeFault::Generations);
        }
        let mut exponents = [0; 8];
        for g in 0..generations {
            exponents[g as usize] = bits + g;
        }
        Self::seated(&exponents[..generations as usize], seats, stripes)
    }

    /// The shape of these tables, unless its seats or its stripes are wrong.
    fn seated(exponents: &[u32], seats: usize, stripes: usize) -> Result<Shape, ShapeFault>
        requires tables { (1 ≤ length exponents.now) × (length exponents.now ≤ MAX_GENERATIONS) }
        requires sizes { All (λ e. (2 ≤ e) × (e ≤ MAX_EXPONENT)) exponents.now }
        requires never_fall { IsNonDecreasing exponents.now }
        requires slots { slots_in exponents.now ≤ MAX_SLOTS }
        ensures { result ≡ seated exponents.now seats stripes }
    {
        if !(1..=FEW_SEATS).contains(&seats) {
            return Err(ShapeFault::Seats);
        }
        if !(1..=FEW_STRIPES).contains(&stripes) {
            return Err(ShapeFault::Stripes);
        }
        Ok(Self::laid_out(exponents, seats as u16, stripes as u16))
    }

    /// The shape of these tables, seats and stripes.
    fn laid_out(exponents: &[u32], seats: u16, stripes: u16) -> Shape
        requires tables { (1 ≤ length exponents.now) × (length exponents.now ≤ MAX_GENERATIONS) }
        requires sizes { All (λ e. (2 ≤ e) × (e ≤ MAX_EXPONENT)) exponents.now }
        requires never_fall { IsNonDecreasing exponents.now }
        requires slots { slots_in exponents.now ≤ MAX_SLOTS }
        requires seats { (1 ≤ seats) × (seats ≤ MAX_SEATS) }
        requires stripes { (1 ≤ stripes) × (stripes ≤ MAX_STRIPES) }
        ensures { result ≡ plan exponents.now seats stripes }
    {
        let mut kept = [0; MAX_GENERATIONS];
        let mut lasts = [0; MAX_GENERATIONS];
        let mut bases = [0; MAX_GENERATIONS];
        let mut words = 1;
        for (g, exponent) in exponents.iter().enumerate() {
            kept[g] = *exponent as u8;
            lasts[g] = (1 << *exponent) - 1;
            bases[g] = words;
            words += 3 + (2 << *exponent);
        }
        Shape {
            exponents: kept,
            lasts,
            bases,
            words,
            reprobes: u32::MAX,
            chunk: CHUNK,
            generations: exponents.len() as u8,
            seats,
            stripes,
        }
    }

    /// A table of `2^e` slots for each exponent: 1 to 16 exponents from 2 to 19, none below the one
    /// before it. There are 1 to 8 seats and stripes. This form is settled and stays as it is;
    /// [`Shape::of_tables`] makes these tables too, and larger ones.
    pub fn with_plan(exponents: &[u32], seats: usize, stripes: usize) -> Result<Shape, ShapeFault>
        ensures { result ≡ checked_plan exponents.now seats stripes }
    {
        check_exponents(exponents, SMALL_EXPONENT)?;
        Self::seated(exponents, seats, stripes)
    }

    /// The same with a reprobe limit: a table that isn't the last takes no new key past so many
    /// slots of the key's path, nor past `2 + size / 4` of them; it grows instead. The limit is 1
    /// at least. A small one keeps paths short, and has tables grow while they are emptier. The
    /// idea is `reprobe_limit` of high-scale-lib.
    pub fn with_reprobe_limit(self, reprobes: u32) -> Result<Shape, ShapeFault>
        ensures { result ≡ checked_reprobes self reprobes }
    {
        if reprobes < 1 {
            return Err(ShapeFault::Reprobes);
        }
        Ok(Shape { reprobes, ..self })
    }

    /// The same with larger or smaller chunks: at most so many slots are handed out for copying at
    /// once, a power of two from 4 to 1024. Who brings a new key to a table that grows helps to
    /// copy all of it, a chunk at a time: large chunks take fewer steps, and small ones share the
    /// work among more threads.
    pub fn with_chunk(self, slots: u32) -> Result<Shape, ShapeFault>
        ensures { result ≡ checked_chunk self slots }
    {
        if !(4..=MAX_CHUNK).contains(&slots) || !slots.is_power_of_two() {
            return Err(ShapeFault::Chunk);
        }
        Ok(Shape {
            chunk: slots as u16,
            ..self
        })
    }

    /// How many tables there are.
    pub fn generations(&self) -> u32
        ensures { result ≡ generations_of self.now }
    {
        u32::from(self.generations)
    }

    /// How many seats may call.
    pub fn seats(&self) -> usize
        ensures number { result ≡ self.now.seats }
        ensures plan { IsPlan self.now }
    {
        usize::from(self.seats)
    }

    /// Over how many stripes a size is counted.
    pub fn stripes(&self) -> usize
        ensures { result ≡ self.now.stripes }
    {
        usize::from(self.stripes)
    }

    /// How many slots table `g` has, a power of two.
    pub fn size_of(&self, g: u32) -> usize
        requires { g < generations_of self.now }
        ensures size { result ≡ size_of self.now g }
        ensures few { result ≤ 2 ^ MAX_EXPONENT }
    {
        1 << self.exponents[g as usize]
    }

    /// The last slot of table `g`.
    fn last_of(&self, g: u32) -> usize
        requires { g < generations_of self.now }
        ensures last { result ≡ size_of self.now g - 1 }
        ensures few { size_of self.now g ≤ 2 ^ MAX_EXPONENT }
    {
        self.lasts[g as usize] as usize
    }

    /// How many slots of table `g` are handed out for copying at once: a chunk, or all of a smaller
    /// table.
    pub fn chunk_of(&self, g: u32) -> usize
        requires { g < generations_of self.now }
        ensures chunk { result ≡ chunk_of self.now g }
        ensures power { IsChunk result }
    {
        self.size_of(g).min(usize::from(self.chunk))
    }

    /// How many chunks table `g` is handed out in.
    pub fn chunks_of(&self, g: u32) -> usize
        requires { g < generations_of self.now }
        ensures { result ≡ size_of self.now g / chunk_of self.now g }
    {
        self.size_of(g) >> self.chunk_of(g).trailing_zeros()
    }

    /// How many slots of its path in table `g` a key that has no slot in the table below may be
    /// claimed in: `2 + size / 4` or the reprobe limit, whichever is smaller, and in the last table
    /// all.
    pub fn limit_of(&self, g: u32) -> usize
        requires { g < generations_of self.now }
        ensures { result ≡ limit_of self.now g }
    {
        let size = self.size_of(g);
        let generations = self.generations();
        if g + 1 == generations {
            size
        } else {
            (2 + size / 4).min(self.reprobes as usize)
        }
    }

    /// The slot at a distance on the path of a key in table `g`, which begins at the key's home
    /// slot.
    pub fn path_slot(&self, g: u32, key: Key, distance: usize) -> usize
        requires table { g < generations_of self.now }
        requires near { distance < size_of self.now g }
        ensures slot { result ≡ path_slot self.now g key distance }
        ensures in_table { result < size_of self.now g }
    {
        (key.get() as usize).wrapping_add(distance) & self.last_of(g)
    }

    /// The path of a key in table `g`: for a search, which then need not ask the shape again.
    #[inline]
    pub fn path(&self, g: u32, key: Key) -> Path
        requires { g < generations_of self.now }
        ensures { IsPathIn self.now g key result }
    {
        Path {
            g,
            key,
            last: self.lasts[g as usize],
            base: self.bases[g as usize],
        }
    }

    /// The place of header word `h` of table `g` among the chain's words: 0 is next, 1 is take, 2 is
    /// done.
    pub fn header_place(&self, g: u32, h: usize) -> usize
        requires table { g < generations_of self.now }
        requires header { h < 3 }
        ensures { result ≡ header_place self.now g h }
    {
        self.bases[g as usize] as usize + h
    }

    /// The same of a header word by its name.
    pub fn header_word_place(&self, g: u32, word: HeaderWord) -> usize
        requires { g < generations_of self.now }
        ensures { result ≡ header_place self.now g (header_number word) }
    {
        self.header_place(g, word as usize)
    }

    /// The place of the key word of slot `i` of table `g`.
    pub fn key_place(&self, g: u32, i: usize) -> usize
        requires table { g < generations_of self.now }
        requires slot { i < size_of self.now g }
        ensures { result ≡ key_place self.now g i }
    {
        self.bases[g as usize] as usize + 3 + 2 * i
    }

    /// The place of the value word of slot `i` of table `g`, behind its key word.
    pub fn value_place(&self, g: u32, i: usize) -> usize
        requires table { g < generations_of self.now }
        requires slot { i < size_of self.now g }
        ensures { result ≡ value_place self.now g i }
    {
        self.bases[g as usize] as usize + 4 + 2 * i
    }

    /// How many words a chain of this shape has.
    pub fn words(&self) -> usize
        ensures { result ≡ word_count self.now }
    {
        self.words as usize
    }
}

/// Refuses exponents, unless there are 1 to 16 from 2 to the largest, none below the one before it.
fn check_exponents(exponents: &[u32], largest: u32) -> Result<(), ShapeFault>
    ensures first { (passed : Result Plan ShapeFault)
        → checked_exponents largest exponents.now passed ≡ result_and result passed }
    ensures tables { IfOk result (λ _. (1 ≤ length exponents.now)
        × (length exponents.now ≤ MAX_GENERATIONS)) }
    ensures sizes { IfOk result (λ _. All (λ e. (2 ≤ e) × (e ≤ largest)) exponents.now) }
    ensures never_fall { IfOk result (λ _. IsNonDecreasing exponents.now) }
{
    if !(1..=MAX_GENERATIONS).contains(&exponents.len()) {
        return Err(ShapeFault::Generations);
    }
    if !exponents.iter().all(|e| (2..=largest).contains(e)) {
        return Err(ShapeFault::Bits);
    }
    if !exponents.is_sorted() {
        return Err(ShapeFault::Plan);
    }
    Ok(())
}
