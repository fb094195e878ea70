//! Rows in the order of their lines, or of their counts.
ghost use Rattle.std.specs.List.Sorted.{IsPermutation, IsSorted};
ghost use Rattle.nb_tally.specs.Sorting.{count_cmp, row_cmp};

use nb_texts::Row;
use std::alloc::Global;
use std::cmp::Reverse;

/// How many bytes are one number.
const WORD: usize = 8;

/// Sorts rows by their counts, the greatest first, and rows of one count by their first coming.
pub(crate) fn sort_by_count(rows: &mut [Row<'_>])
    ensures same { IsPermutation rows.old rows.new }
    ensures sorted { IsSorted count_cmp rows.new }
{
    rows.sort_unstable_by_key(|row| (Reverse(row.times), row.place));
}

/// Sorts rows by their lines. To compare two lines takes long, since each is somewhere else in
/// memory. So, where there is memory for it, numbers that stand beside one another are compared
/// first: the sixteen bytes of each line behind what all lines begin with. What is left for the sort
/// by lines is in order then.
pub(crate) fn sort_by_line(alloc: Global, rows: &mut [Row<'_>])
    ensures same { IsPermutation rows.old rows.new }
    ensures sorted { IsSorted row_cmp rows.new }
{
    let first = shared(rows);
    let second = first.saturating_add(WORD);
    let _ = rows.sort_by_cached_key(alloc, |row| {
        (
            word_at(row.line, first),
            word_at(row.line, second),
            row.line,
        )
    });
    rows.sort_unstable();
}

/// How many bytes all lines begin with alike.
fn shared(rows: &[Row<'_>]) -> usize {
    let Some(first) = rows.first() else {
        return 0;
    };
    let mut alike = first.line;
    for row in rows {
        alike = shared_by(alike, row.line);
    }
    alike.len()
}

/// What a line begins with as another one does.
fn shared_by<'a>(line: &'a [u8], other: &[u8]) -> &'a [u8] {
    for at in 0..line.len() {
        if at >= other.len() || line[at] != other[at] {
            return &line[..at];
        }
    }
    line
}

/// The eight bytes of a line from this one on as a number, with zeros behind the line's end.
fn word_at(line: &[u8], from: usize) -> u64 {
    if line.len() <= from {
        return 0;
    }
    match &line[from..] {
        [a, b, c, d, e, f, g, h, ..] => u64::from_be_bytes([*a, *b, *c, *d, *e, *f, *g, *h]),
        few => last_word(few),
    }
}

/// The last bytes of a line as a number.
fn last_word(bytes: &[u8]) -> u64 {
    let mut word = 0;
    for at in 0..WORD {
        let byte = bytes.get(at).copied().unwrap_or(0);
        word = word << 8 | u64::from(byte);
    }
    word
}
