//! The fields of lines, of which one may be counted in place of the line.
ghost use Rattle.std.specs.Prelude.{◌≡◌, ◌<◌, IfOk, OnOk, map};
ghost use Rattle.nb_texts.specs.Lines.{lines_in};
ghost use Rattle.nb_tally.specs.Fields.{counted_of, field};

use memchr::memchr;
use nb_core::OutOfMemory;
use nb_texts::split_line;

/// A column of a table: the field of each line that has this number, from 1 on.
#[derive(Clone, Copy)]
pub(crate) struct Column {
    pub(crate) number: usize,
    /// The byte between two fields.
    pub(crate) delimiter: u8,
}

impl Column {
    /// Its field of a line, and an empty one where the line has fewer.
    fn field_of(self, line: &[u8]) -> &[u8]
        ensures { result.now ≡ field self line.now }
    {
        let mut rest = line;
        let mut number = self.number;
        while number > 1 {
            match memchr(self.delimiter, rest) {
                Some(end) => rest = &rest[end + 1..],
                None => return &[],
            }
            number -= 1;
        }
        match memchr(self.delimiter, rest) {
            Some(end) => &rest[..end],
            None => rest,
        }
    }
}

/// What is counted of a block of lines: the block itself or, in place of what is in the room, its
/// fields of a column, each with a newline.
pub(crate) fn counted_in<'a>(
    column: Option<Column>,
    block: &'a [u8],
    room: &'a mut Vec<u8>,
) -> Result<&'a [u8], OutOfMemory>
    ensures { IfOk result (λ counted. lines_in counted.now ≡ counted_of column (lines_in block.now)) }
{
    match column {
        None => Ok(block),
        Some(column) => {
            put_fields(column, block, room)?;
            Ok(room.as_slice())
        }
    }
}

/// The fields of a column, each with a newline, in place of what is in the room.
fn put_fields(column: Column, block: &[u8], room: &mut Vec<u8>) -> Result<(), OutOfMemory>
    ensures { OnOk result (lines_in room.new.items ≡ map (field column) (lines_in block.now)) }
{
    room.clear();
    let mut rest = block;
    while !rest.is_empty() {
        let (line, next) = split_line(rest);
        room.extend_from_slice(column.field_of(line))?;
        room.push(b'\n')?;
        rest = next;
    }
    Ok(())
}
