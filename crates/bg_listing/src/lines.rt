//! Lines that are counted.
ghost use Rattle.std.specs.Prelude.{◌≡◌, List, ℕ, Result, IsErrOf, length};
ghost use Rattle.bg_listing.specs.Limits.{greatest_number};
ghost use Rattle.bg_listing.specs.Combinators.{behind, line, each};
ghost use Rattle.bg_listing.specs.Reading as reading;
ghost use Rattle.bg_listing.specs.Lines.{Bad, count_at, section_at};
ghost use Rattle.bg_listing.specs.Answers.{GivesLines, GivesOrFails};

use crate::bytes::skip;
use crate::fault::{BAD_LINE, LineFault, NotThere, TOO_MANY};
use crate::number::number;
use bg_lists::Rows;
use std::alloc::Global;

/// What a line is read as.
pub(crate) trait Row: Drop + Sized {
    /// What is known where such a line is read.
    type Context;

    /// The reading function of one line.
    ghost row_at: { Self.Context → List ℕ → Result (Self × List ℕ) Bad };

    fn read_row<'a>(
        alloc: Global,
        context: &Self::Context,
        bytes: &'a [u8],
    ) -> Result<(Self, &'a [u8]), LineFault>
        ensures { GivesLines (λ x. (x.0, x.1.now)) result (row_at context.now bytes.now) };
}

/// A line with the number of the lines behind it, and these lines.
#[tactic(auto, unfolding(crate::specs::Lines::section_at))]
pub(crate) fn section<'a, R: Row>(
    alloc: Global,
    context: &R::Context,
    bytes: &'a [u8],
    word: &[u8],
    most: u32,
) -> Result<(Rows<R>, &'a [u8]), LineFault>
    ensures { GivesLines (λ x. (x.0, x.1.now)) result (section_at most word.now (R.row_at context.now) bytes.now) }
{
    let (count, rest) = count(bytes, word, most)?;
    let (rows, rest) = rows::<R>(alloc, context, count, rest)?;
    Ok((Rows::try_from_vec(rows)?, rest))
}

/// That many lines.
fn rows<'a, R: Row>(
    alloc: Global,
    context: &R::Context,
    count: u32,
    bytes: &'a [u8],
) -> Result<(Vec<R>, &'a [u8]), LineFault>
    ensures { GivesLines (λ x. (x.0.items, x.1.now)) result (each (R.row_at context.now) count bytes.now) }
{
    let mut rows = Vec::new(alloc);
    let mut rest = bytes;
    for _ in 0..count {
        let (row, behind) = R::read_row(alloc, context, rest)?;
        rows.push(row)?;
        rest = behind;
    }
    Ok((rows, rest))
}

/// A line of the word and a number that is at most `most`. Takes no memory.
#[tactic(auto, unfolding(crate::specs::Lines::count_at))]
pub(crate) fn count<'a>(
    bytes: &'a [u8],
    word: &[u8],
    most: u32,
) -> Result<(u32, &'a [u8]), LineFault>
    ensures counted { GivesLines (λ x. (x.0, x.1.now)) result (count_at most word.now bytes.now) }
    ensures memory { ¬ IsErrOf result LineFault.OutOfMemory }
{
    let left = bytes.len();
    match count_line(bytes, word) {
        Ok((count, rest)) => {
            if count <= most {
                Ok((count, rest))
            } else {
                Err(LineFault::Bad {
                    code: TOO_MANY,
                    left,
                })
            }
        }
        Err(NotThere) => Err(LineFault::Bad {
            code: BAD_LINE,
            left,
        }),
    }
}

fn count_line<'a>(bytes: &'a [u8], word: &[u8]) -> Result<(u32, &'a [u8]), NotThere>
    ensures { GivesOrFails (λ x. (x.0, x.1.now)) result (behind word.now (line (reading.number_at greatest_number)) bytes.now) }
{
    let rest = skip(bytes, word)?;
    number_line(rest)
}

/// A number and the line feed.
pub(crate) fn number_line(bytes: &[u8]) -> Result<(u32, &[u8]), NotThere>
    ensures { GivesOrFails (λ x. (x.0, x.1.now)) result (line (reading.number_at greatest_number) bytes.now) }
{
    let (number, rest) = number(bytes)?;
    let rest = skip(rest, b"\n")?;
    Ok((number, rest))
}
