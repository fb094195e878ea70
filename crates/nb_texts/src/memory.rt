//! How much memory is kept for lines.
ghost use Rattle.std.specs.Prelude.{◌≡◌, ◌+◌, ◌*◌, ◌^◌, ◌<◌, ◌≤◌, ◌↔◌, IfErr, IfOk, IsOk, IsOkUnless, IsTrue, MatchOption, OnErr};
ghost use Rattle.nb_lines.specs.declared.faults.ProgramFault.TheVariants as fault;
ghost use Rattle.nb_texts.specs.Memory.{bytes_of_load};

use nb_lines::ProgramFault;

/// How many bytes a word of a map takes.
const WORD: usize = 8;

/// Lines: how many, and how many bytes they have.
#[derive(Clone, Copy)]
pub struct Load {
    pub lines: usize,
    pub bytes: usize,
}

/// How many bytes may be kept for lines, of which each takes its own and so many more.
#[derive(Clone, Copy)]
pub struct MemoryLimit {
    pub bytes: usize,
    pub each: usize,
}

/// How far an input was taken.
#[derive(Clone, Copy)]
pub struct Taken {
    /// How many lines, from the first one on.
    pub lines: u64,
    /// Whether that is all of them.
    pub is_whole: bool,
}

impl Taken {
    pub const NOTHING: Taken = Taken {
        lines: 0,
        is_whole: false,
    };

    /// So many lines more.
    pub fn with(self, lines: usize) -> Result<Taken, ProgramFault>
        ensures more { IfOk result (λ taken. (taken.lines ≡ self.lines + lines)
            × (taken.is_whole ≡ self.is_whole)) }
        ensures range { OnErr result (2 ^ 64 ≤ self.lines + lines) }
        ensures errors { IsOkUnless result fault.TooOften }
    {
        match self.lines.checked_add(lines as u64) {
            Some(lines) => Ok(Taken { lines, ..self }),
            None => Err(ProgramFault::TooOften),
        }
    }

    /// The fault that tells that memory ended before the input did, if it did.
    pub fn ended(self) -> Result<(), ProgramFault>
        ensures whole { IsOk result ↔ IsTrue self.is_whole }
        ensures part { IfErr result (λ told. told ≡ fault.MemoryLimit self.lines) }
    {
        if self.is_whole {
            Ok(())
        } else {
            Err(ProgramFault::MemoryLimit(self.lines))
        }
    }
}

/// How many bytes a limit leaves beside what is kept, a block of new lines, and a map of so many words.
/// Nothing, where they take more.
pub(crate) fn left_beside(
    limit: MemoryLimit,
    kept: Load,
    block: Load,
    words: usize,
) -> Option<usize>
    ensures { MatchOption result
        (limit.bytes < bytes_of_load limit.each kept + 8 * words + bytes_of_load limit.each block)
        (λ left. left + (bytes_of_load limit.each kept + 8 * words + bytes_of_load limit.each block)
        ≡ limit.bytes) }
{
    let left = less(limit.bytes, limit.each, kept)?;
    let left = less(left, limit.each, block)?;
    left.checked_sub(words.checked_mul(WORD)?)
}

/// So many bytes less those that lines take.
fn less(bytes: usize, each: usize, load: Load) -> Option<usize>
    ensures { MatchOption result (bytes < bytes_of_load each load)
        (λ left. left + bytes_of_load each load ≡ bytes) }
{
    let more = each.checked_mul(load.lines)?;
    bytes.checked_sub(load.bytes)?.checked_sub(more)
}
