//! Texts between quotes.
ghost use Rattle.std.specs.Prelude.{◌≡◌, ◌<◌, ◌==◌, length, slice_index};
ghost use Rattle.bg_text.specs.Pieces.{IsPiece};

use crate::fault::{BAD_BYTE, OPEN_STRING};
use crate::piece::Piece;
use crate::runs::{inside_count, text_byte_count};
use crate::token::TokenKind;

/// The text whose opening quote stands in front. It ends at the next quote, which stands on the same line.
pub(crate) fn text(bytes: &[u8]) -> Piece
    requires some { 0 < length bytes.now }
    requires quote { slice_index bytes.now 0 ≡ 34 }
    ensures { IsPiece bytes.now result }
{
    let (_, behind) = bytes.split_at(1);
    let inside = inside_count(behind);
    let good = text_byte_count(behind);
    if is_quote_at(behind, inside) {
        if good < inside {
            Piece::Bad(BAD_BYTE, 1 + good)
        } else {
            Piece::Token(TokenKind::Text, good + 2)
        }
    } else {
        Piece::Bad(OPEN_STRING, 0)
    }
}

/// Whether a quote stands at that place.
fn is_quote_at(bytes: &[u8], at: usize) -> bool
    ensures { result ≡ (slice_index bytes.now at == 34) }
{
    at < bytes.len() && bytes[at] == b'"'
}
