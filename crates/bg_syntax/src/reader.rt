//! The two steps of reading: to ask the table which alternative comes, and to take a token.
ghost use Rattle.std.specs.Prelude.{◌≡◌, ◌+◌, ◌<◌, ◌≤◌, ℕ, List, [], ◌∷◌, length, drop, MatchResult, IfErr, slice_index_or};
ghost use Rattle.bg_grammar.specs.Grammar.{taken};
ghost use Rattle.bg_grammar.specs.Plan.{row};
ghost use Rattle.bg_grammar.specs.Machine.{look};
ghost use Rattle.bg_syntax.specs.Numbers.{kind_number, symbol_number};
ghost use Rattle.bg_syntax.specs.Plan.{plan};
ghost use Rattle.bg_syntax.specs.Models.{kinds};
ghost use Rattle.bg_syntax.specs.Reading.{wants, wants_token, Moves, Fails, Chooses};

use crate::fault::SyntaxFault;
use crate::symbol::Symbol;
use crate::table::ROWS;
use bg_base::limits::MOST_LEVELS;
use bg_text::{Token, TokenKind};
use std::alloc::Global;

/// What the reading functions share: the tokens, few enough to be numbered by 32 bits.
#[derive(Drop)]
pub struct Reader<'a> {
    pub alloc: Global,
    pub tokens: &'a [Token],
    ghost few: { length tokens.now < 4294967295 },
}

fn number(kind: TokenKind) -> usize
    ensures is { result ≡ kind_number kind }
    ensures below { result < 45 }
{
    kind as usize
}

fn place(symbol: Symbol) -> usize
    ensures is { result ≡ symbol_number symbol }
    ensures below { result < 58 }
{
    symbol as usize
}

// The kind of a token, or the end of input.
fn kind_at(tokens: &[Token], at: usize) -> usize
    requires { at ≤ length tokens.now }
    ensures is { result ≡ look plan (drop at (kinds tokens.now)) }
    ensures below { result < 46 }
{
    if at < tokens.len() {
        number(tokens[at].kind)
    } else {
        45
    }
}

fn entry(symbol: Symbol, kind: usize) -> u8
    requires { kind < 46 }
    ensures { result ≡ slice_index_or (row plan (symbol_number symbol)) kind 0 }
{
    ROWS[place(symbol)][kind]
}

impl Reader<'_> {
    /// The alternative that the table has for the symbol at this token, counted from 0.
    pub fn choose(&self, at: usize, symbol: Symbol) -> Result<u8, SyntaxFault>
        requires { at ≤ length self.now.tokens.now }
        ensures { MatchResult result (λ way. Chooses self.now.tokens.now at symbol way) (λ fault. (depth : ℕ) → Fails self.now.tokens.now at (wants depth symbol) fault) }
    {
        let found = entry(symbol, kind_at(self.tokens, at));
        if found == 0 {
            return Err(SyntaxFault::Unexpected { token: at as u32 });
        }
        Ok(found - 1)
    }

    /// Takes a token of this kind, which stands so deep.
    pub fn take(&self, at: &mut usize, depth: u32, kind: TokenKind) -> Result<u32, SyntaxFault>
        requires { at.old ≤ length self.now.tokens.now }
        ensures read { MatchResult result (λ token. Moves self.now.tokens.now at.old (wants_token depth kind) (taken (kind_number kind) depth token ∷ []) at.new)
            (λ fault. Fails self.now.tokens.now at.old (wants_token depth kind) fault) }
        ensures ahead { MatchResult result (λ token. at.new ≡ at.old + 1) (λ fault. Unit {0}) }
    {
        let here = kind_at(self.tokens, *at);
        let token = *at as u32;
        if here != number(kind) {
            return Err(SyntaxFault::Unexpected { token });
        }
        if depth > MOST_LEVELS {
            return Err(SyntaxFault::TooDeep { token });
        }
        *at += 1;
        Ok(token)
    }
}
