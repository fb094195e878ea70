//! The lines of a text.
ghost use Rattle.std.specs.Prelude.{◌≡◌, ◌≢◌, ◌++◌, ◌∷◌, [], ℕ, List, length};
ghost use Rattle.std.specs.Iterator.{at_most};

/// A line without the carriage return that comes before its newline: it is part of the line's end.
fn without_return(line: &[u8]) -> &[u8]
    ensures cut { (text : List ℕ) → line.now ≡ text ++ 13 ∷ [] → result.now ≡ text }
    ensures kept { ((text : List ℕ) → line.now ≢ text ++ 13 ∷ []) → result.now ≡ line.now }
{
    match line {
        [text @ .., b'\r'] => text,
        _ => line,
    }
}

/// The lines of a text, each without its end: a newline, or a carriage return and a newline. A text
/// that ends with a newline has no line behind it.
#[derive(Drop)]
pub struct Lines<'a> {
    rest: &'a [u8],
}

impl<'a> Lines<'a> {
    pub fn new(text: &'a [u8]) -> Lines<'a> {
        Lines { rest: text }
    }
}

impl<'a> Iterator for Lines<'a> {
    type Item = &'a [u8];

    ghost remaining = { λ lines. at_most (length lines.rest.now) };

    fn next(&mut self) -> Option<&'a [u8]> {
        if self.rest.is_empty() {
            return None;
        }
        match self.rest.iter().position(|byte| *byte == b'\n') {
            Some(end) => {
                let (line, rest) = self.rest.split_at(end);
                self.rest = &rest[1..];
                Some(without_return(line))
            }
            None => {
                let line = self.rest;
                self.rest = &[];
                Some(line)
            }
        }
    }
}
