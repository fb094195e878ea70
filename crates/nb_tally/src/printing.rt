//! Printing, in the form of `uniq -c`.
ghost use Rattle.std.specs.Io.KnownBytes.{Appends};
ghost use Rattle.std.specs.List.Sorted.{IsPermutation, IsSorted};
ghost use Rattle.std.specs.Prelude.{◌≡◌, ◌+◌, ◌-◌, ◌^◌, ◌⊎◌, IfErr, IfOk, OnOk, min};
ghost use Rattle.nb_lines.specs.declared.faults.ProgramFault.TheVariants as fault;
ghost use Rattle.nb_tally.specs.Printed.{HasPrintedCounts, count_line, number_column, row_line, text_of_counts, text_of_rows};
ghost use Rattle.nb_tally.specs.Sorting.{HasOrdered, HasOrderedCounts, count_cmp, row_cmp, times_cmp};
ghost use Rattle.nb_tally.specs.declared.options.Order.TheVariants as order;

use crate::counting::Count;
use crate::options::{LineOptions, Order};
use crate::sorting::{sort_by_count, sort_by_line};
use itoa::Buffer;
use nb_lines::ProgramFault;
use nb_texts::Row;
use std::alloc::Global;
use std::cmp::Reverse;
use std::io;
use std::io::{BufWriter, Write};

/// What stands before a number of no digits, so that numbers end alike.
const SPACES: &[u8] = b"       ";

/// Puts the counts into the order in which they are printed: ascending by number or, where only
/// the most frequent numbers are asked for, these first, and equally frequent ones by number.
fn sort(counts: &mut Vec<Count>, top: Option<u64>)
    ensures { HasOrderedCounts top counts.old.items counts.new.items }
{
    match top {
        None => counts.sort_unstable(),
        Some(top) => {
            sort_by_times(counts.as_mut_slice());
            counts.truncate(top as usize);
        }
    }
}

/// Sorts counts by how often their numbers came, the greatest first, and equal ones by number.
fn sort_by_times(counts: &mut [Count])
    ensures same { IsPermutation counts.old counts.new }
    ensures sorted { IsSorted times_cmp counts.new }
{
    counts.sort_unstable_by_key(|count| (Reverse(count.times), count.number));
}

/// Prints the counts that are asked for, in the order that is asked for. Answers the writer.
pub(crate) fn print_counts<W: Write + Drop>(
    alloc: Global,
    writer: W,
    counts: Vec<Count>,
    top: Option<u64>,
) -> Result<W, ProgramFault>
    ensures printed { IfOk result (λ after.
        HasPrintedCounts top counts.items (W.contents writer) (W.contents after)) }
    ensures errors { IfErr result (λ told. (told ≡ fault.OutOfMemory) ⊎ (told ≡ fault.Write)) }
{
    let mut counts = counts;
    sort(&mut counts, top);
    print(alloc, writer, counts.as_slice())
}

/// Prints a line for each count. Answers the writer.
fn print<W: Write + Drop>(alloc: Global, writer: W, counts: &[Count]) -> Result<W, ProgramFault>
    ensures printed { IfOk result (λ after.
        Appends (W.contents writer) (W.contents after) (text_of_counts counts.now)) }
    ensures errors { IfErr result (λ told. (told ≡ fault.OutOfMemory) ⊎ (told ≡ fault.Write)) }
{
    let mut buffered = BufWriter::new(alloc, writer).map_err(|_| ProgramFault::OutOfMemory)?;
    print_to(&mut buffered, counts).map_err(|_| ProgramFault::Write)?;
    buffered.into_inner().map_err(|_| ProgramFault::Write)
}

/// The same, to a writer that may hold back what it is given.
fn print_to<W: Write>(writer: &mut W, counts: &[Count]) -> io::Result<()>
    ensures { OnOk result (Appends (W.contents writer.old) (W.contents writer.new)
        (text_of_counts counts.now)) }
{
    for count in counts {
        print_count(writer, *count)?;
    }
    writer.flush()
}

/// Prints the line of a count.
fn print_count<W: Write>(writer: &mut W, count: Count) -> io::Result<()>
    ensures { OnOk result (Appends (W.contents writer.old) (W.contents writer.new)
        (count_line count)) }
{
    print_times(writer, count.times)?;
    let mut digits = Buffer::new();
    writer.write_all(digits.format(count.number).as_bytes())?;
    writer.write_all(b"\n")
}

/// Puts the rows of lines into the order that is asked for, and leaves as many as are.
pub(crate) fn sort_rows(alloc: Global, rows: &mut Vec<Row<'_>>, options: &LineOptions)
    ensures { HasOrdered options.now.order options.now.top rows.old.items rows.new.items }
{
    put_in_order(alloc, rows.as_mut_slice(), options);
    if let Some(top) = options.top {
        rows.truncate(top as usize);
    }
}

/// Puts the rows of lines into the order that is asked for. Under a limit of memory none is taken for
/// that.
fn put_in_order(alloc: Global, rows: &mut [Row<'_>], options: &LineOptions)
    ensures same { IsPermutation rows.old rows.new }
    ensures by_count { options.now.order ≡ order.Count → IsSorted count_cmp rows.new }
    ensures by_line { options.now.order ≡ order.Line → IsSorted row_cmp rows.new }
    ensures as_first { options.now.order ≡ order.First → rows.new ≡ rows.old }
{
    match options.order {
        Order::Count => sort_by_count(rows),
        Order::Line if options.limit.is_some() => rows.sort_unstable(),
        Order::Line => sort_by_line(alloc, rows),
        Order::First => {}
    }
}

/// Prints a line for each row. Where lines were missed, so many times at most, it has two numbers: how
/// often its line came at least, and how often at most. Answers the writer.
pub(crate) fn print_rows<W: Write + Drop>(
    alloc: Global,
    writer: W,
    rows: &[Row<'_>],
    missed: Option<u64>,
) -> Result<W, ProgramFault>
    ensures printed { IfOk result (λ after.
        Appends (W.contents writer) (W.contents after) (text_of_rows missed rows.now)) }
    ensures errors { IfErr result (λ told. (told ≡ fault.OutOfMemory) ⊎ (told ≡ fault.Write)) }
{
    let mut buffered = BufWriter::new(alloc, writer).map_err(|_| ProgramFault::OutOfMemory)?;
    print_rows_to(&mut buffered, rows, missed).map_err(|_| ProgramFault::Write)?;
    buffered.into_inner().map_err(|_| ProgramFault::Write)
}

/// The same, to a writer that may hold back what it is given.
fn print_rows_to<W: Write>(writer: &mut W, rows: &[Row<'_>], missed: Option<u64>) -> io::Result<()>
    ensures { OnOk result (Appends (W.contents writer.old) (W.contents writer.new)
        (text_of_rows missed rows.now)) }
{
    for row in rows {
        print_row(writer, row, missed)?;
    }
    writer.flush()
}

/// Prints the line of a row.
fn print_row<W: Write>(writer: &mut W, row: &Row<'_>, missed: Option<u64>) -> io::Result<()>
    ensures { OnOk result (Appends (W.contents writer.old) (W.contents writer.new)
        (row_line missed row.now)) }
{
    print_times(writer, row.times)?;
    if let Some(missed) = missed {
        print_times(writer, most_of(row.times, missed))?;
    }
    writer.write_all(row.line)?;
    writer.write_all(b"\n")
}

/// Prints a number and a space.
fn print_times<W: Write>(writer: &mut W, times: u64) -> io::Result<()>
    ensures { OnOk result (Appends (W.contents writer.old) (W.contents writer.new)
        (number_column times)) }
{
    let mut digits = Buffer::new();
    let digits = digits.format(times);
    writer.write_all(&SPACES[digits.len().min(SPACES.len())..])?;
    writer.write_all(digits.as_bytes())?;
    writer.write_all(b" ")
}

/// How often a line came at most that came so often at least, and was missed so many times at most.
/// No line comes more often than a word can tell.
fn most_of(times: u64, missed: u64) -> u64
    ensures { result ≡ min (times + missed) (2 ^ 64 - 1) }
{
    times.saturating_add(missed)
}
