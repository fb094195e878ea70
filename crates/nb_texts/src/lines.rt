//! The next line of a text.
ghost use Rattle.std.specs.Prelude.{◌≡◌, ◌≢◌, ◌<◌, ◌≤◌, ◌⊎◌, [], ◌∷◌, ◌++◌, length};
ghost use Rattle.nb_texts.specs.Lines.{lines_in};
ghost use Rattle.nb_texts.specs.Sources.{IsCutBehind};

use memchr::memchr;

/// The first line of a text that isn't empty, without its newline, and what comes behind that.
pub fn split_line(text: &[u8]) -> (&[u8], &[u8])
    requires some { text.now ≢ [] }
    ensures line { lines_in text.now ≡ result.0.now ∷ lines_in result.1.now }
    ensures behind { (text.now ≡ result.0.now ++ 10 ∷ result.1.now)
        ⊎ ((text.now ≡ result.0.now) × (result.1.now ≡ [])) }
    ensures shorter { length result.1.now < length text.now }
{
    match memchr(b'\n', text) {
        Some(end) => (&text[..end], &text[end + 1..]),
        None => (text, &[]),
    }
}

/// A text in two, of which the first one ends behind the first newline from a place on.
pub(crate) fn split_text(text: &[u8], at: usize) -> (&[u8], &[u8])
    requires within { at ≤ length text.now }
    ensures lines { lines_in text.now ≡ lines_in result.0.now ++ lines_in result.1.now }
    ensures cut { IsCutBehind at text.now result.0.now result.1.now }
{
    match memchr(b'\n', &text[at..]) {
        Some(more) => text.split_at(at + more + 1),
        None => (text, &[]),
    }
}
