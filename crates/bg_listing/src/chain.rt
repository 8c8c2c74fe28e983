//! Lists with a separator in front of each item and a closing byte at their end.
ghost use Rattle.std.specs.Prelude.{◌≡◌, List, ℕ, Result, length};
ghost use Rattle.bg_listing.specs.Answers.{GivesPart};
ghost use Rattle.bg_listing.specs.Combinators.{next, chain};

use crate::fault::PartFault;
use std::alloc::Global;

/// What a chain is made of.
pub(crate) trait Piece: Drop + Sized {
    /// The reading function of one of them.
    ghost piece_at: { List ℕ → Result (Self × List ℕ) (Unit {0}) };

    fn read(alloc: Global, bytes: &[u8]) -> Result<(Self, &[u8]), PartFault>
        ensures { GivesPart (λ x. (x.0, x.1.now)) result (piece_at bytes.now) };
}

/// The pieces up to the closing byte, and the bytes behind it.
pub(crate) fn read_chain<P: Piece>(
    alloc: Global,
    closing_byte: u8,
    separator: u8,
    bytes: &[u8],
) -> Result<(Vec<P>, &[u8]), PartFault>
    ensures { GivesPart (λ x. (x.0.items, x.1.now)) result (chain closing_byte separator P.piece_at bytes.now) }
{
    let mut pieces = Vec::new(alloc);
    let mut rest = bytes;
    for _ in 0..bytes.len() {
        let (piece, behind) = read_next::<P>(alloc, closing_byte, separator, rest)?;
        match piece {
            None => return Ok((pieces, behind)),
            Some(piece) => pieces.push(piece)?,
        }
        rest = behind;
    }
    Err(PartFault::NotThere)
}

/// The piece behind a separator, or none behind the closing byte.
#[tactic(auto, unfolding(crate::specs::Combinators::next))]
fn read_next<P: Piece>(
    alloc: Global,
    closing_byte: u8,
    separator: u8,
    bytes: &[u8],
) -> Result<(Option<P>, &[u8]), PartFault>
    ensures { GivesPart (λ x. (x.0, x.1.now)) result (next closing_byte separator P.piece_at bytes.now) }
{
    match bytes.split_first() {
        None => Err(PartFault::NotThere),
        Some((first, rest)) => {
            if *first == closing_byte {
                Ok((None, rest))
            } else if *first == separator {
                let (piece, rest) = P::read(alloc, rest)?;
                Ok((Some(piece), rest))
            } else {
                Err(PartFault::NotThere)
            }
        }
    }
}
