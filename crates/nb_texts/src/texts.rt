//! Texts one behind another, which only grow.
ghost use Rattle.std.specs.Prelude.{◌≡◌, ◌↔◌, ◌++◌, ◌∷◌, [], IfOk, IsTrue, MatchOption, None, OnErr, OnOk, Some, drop, length, slice_get, sum_by};
ghost use Rattle.nb_texts.specs.Lines.{text_of_lines};

use nb_core::OutOfMemory;
use std::alloc::Global;
use std::marker::Model;

/// Where a text stands among the bytes.
#[derive(Clone, Copy)]
pub(crate) struct Place {
    pub(crate) start: usize,
    pub(crate) end: usize,
}

/// Texts, each with the place at which it was put. A contract sees their list.
#[derive(Drop)]
pub struct Texts {
    bytes: Vec<u8>,
    places: Vec<Place>,
}

impl Model for Texts {
    ghost use Rattle.std.specs.Prelude.{ℕ, List};
    ghost use Rattle.nb_texts.specs.Places.{AreLaidOut, texts_at};

    ghost Value = { List (List ℕ) };

    ghost view = { λ texts. texts_at texts.bytes.items texts.places.items };

    ghost invariant = { λ texts. AreLaidOut texts.bytes.items texts.places.items };
}

impl Texts {
    pub fn new(alloc: Global) -> Texts
        ensures { result ≡ [] }
    {
        Texts {
            bytes: Vec::new(alloc),
            places: Vec::new(alloc),
        }
    }

    /// How many there are.
    pub fn len(&self) -> usize
        ensures { result ≡ length self.now }
    {
        self.places.len()
    }

    /// How many bytes they have.
    pub fn bytes(&self) -> usize
        ensures { result ≡ sum_by length self.now }
    {
        self.bytes.len()
    }

    /// Takes room for so many bytes, and so many texts, so that those that come don't move the others.
    pub fn reserve(&mut self, bytes: usize, texts: usize) -> Result<(), OutOfMemory>
        ensures { self.new ≡ self.old }
    {
        self.bytes.reserve(bytes)?;
        self.places.reserve(texts)?;
        Ok(())
    }

    /// Puts a text behind the others.
    pub fn push(&mut self, text: &[u8]) -> Result<(), OutOfMemory>
        ensures put { OnOk result (self.new ≡ self.old ++ text.now ∷ []) }
        ensures kept { OnErr result (self.new ≡ self.old) }
    {
        self.places.reserve(1)?;
        let start = self.bytes.len();
        self.bytes.extend_from_slice(text)?;
        let end = self.bytes.len();
        self.places.push_reserved(Place { start, end });
        Ok(())
    }

    /// Whether this text is at a place.
    pub fn is_at(&self, place: usize, text: &[u8]) -> bool
        ensures { IsTrue result ↔ (slice_get self.now place ≡ Some text.now) }
    {
        if place >= self.places.len() {
            return false;
        }
        let Place { start, end } = self.places[place];
        &self.bytes[start..end] == text
    }

    /// The text at a place.
    pub fn get(&self, place: usize) -> Option<&[u8]>
        ensures { MatchOption result (slice_get self.now place ≡ None)
            (λ text. slice_get self.now place ≡ Some text.now) }
    {
        let Place { start, end } = *self.places.get(place)?;
        Some(&self.bytes[start..end])
    }

    /// The text of those from a place on, each with a newline.
    pub fn text_from(&self, alloc: Global, first: usize) -> Result<Vec<u8>, OutOfMemory>
        ensures { IfOk result (λ text. text.items ≡ text_of_lines (drop first self.now)) }
    {
        let mut text = Vec::new(alloc);
        for place in first..self.places.len() {
            let Place { start, end } = self.places[place];
            text.extend_from_slice(&self.bytes[start..end])?;
            text.push(b'\n')?;
        }
        Ok(text)
    }
}
