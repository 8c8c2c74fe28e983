//! The tokens of a text.
ghost use Rattle.std.specs.Prelude.{◌≡◌, ◌<◌, ◌^◌, ◌-◌, length, IfOk, IfErr, List};
ghost use Rattle.bg_text.specs.declared.token.Token.{Token as TokenValue};
ghost use Rattle.bg_text.specs.Tokens.{AreTokens};
ghost use Rattle.bg_text.specs.Answers.{IsLexFault};

use crate::fault::LexFault;
use crate::piece::{Piece, piece_of};
use crate::token::Token;
use std::alloc::Global;

/// The tokens of the whole text, in order. `Bad` comes exactly where the text has none, with its first refusal.
/// One pass, linear in the text; takes memory for the tokens alone.
pub fn tokens(alloc: Global, bytes: &[u8]) -> Result<Vec<Token>, LexFault>
    requires { length bytes.now < 2 ^ 32 - 1 }
    ensures tokens { IfOk result (λ tokens. AreTokens bytes.now tokens.items) }
    ensures once { IfOk result (λ tokens. (others : List TokenValue) → AreTokens bytes.now others → others ≡ tokens.items) }
    ensures fault { IfErr result (λ fault. IsLexFault bytes.now fault) }
{
    let mut tokens = Vec::new(alloc);
    let mut at = 0;
    while at < bytes.len() {
        let (_, rest) = bytes.split_at(at);
        match piece_of(rest) {
            Piece::Gap(size) => at += size,
            Piece::Token(kind, size) => {
                let start = at as u32;
                at += size;
                let end = at as u32;
                tokens.push(Token { kind, start, end })?;
            }
            Piece::Bad(code, apart) => {
                let offset = (at + apart) as u32;
                return Err(LexFault::Bad { code, offset });
            }
        }
    }
    Ok(tokens)
}
