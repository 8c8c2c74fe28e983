//! The text of a model, its tokens, and the names that are visible.
ghost use Rattle.std.specs.Prelude.{◌≡◌, ◌-◌, drop, take, slice_get};
ghost use Rattle.std.specs.Option.{option_copied};
ghost use Rattle.bg_values.specs.Scopes as definition;

use crate::names::NameTable;
use bg_text::Token;
use std::marker::Model;

/// The text of a model, its tokens, and the names that are visible in its arithmetic.
#[derive(Drop)]
pub struct Scope<'a> {
    pub bytes: &'a [u8],
    pub tokens: &'a [Token],
    pub names: &'a NameTable<()>,
}

impl<'a> Model for Scope<'a> {
    ghost use Rattle.bg_values.specs.Scopes.{ScopeParts};

    ghost Value = { ScopeParts };

    ghost view = { λ scope. record { bytes = scope.bytes.now; tokens = scope.tokens.now; names = scope.names.now } };
}

impl Scope<'_> {
    ghost use Rattle.std.specs.Prelude.{◌≡◌};
    ghost use Rattle.bg_values.specs.Scopes.{spelling};

    /// The bytes of the token with that number; no bytes where there is no such token. Takes constant time.
    pub fn spelling(&self, token: u32) -> &[u8]
        ensures { result.now ≡ spelling self.now token }
    {
        match find(self.tokens, token) {
            Some(found) => piece(self.bytes, found.start, found.end),
            None => &[],
        }
    }
}

/// The token with that number.
fn find(tokens: &[Token], token: u32) -> Option<&Token>
    ensures { option_copied result ≡ slice_get tokens.now token }
{
    tokens.get(token as usize)
}

/// The bytes from `start` to before `end`, as far as they are there.
fn piece(bytes: &[u8], start: u32, end: u32) -> &[u8]
    ensures { result.now ≡ take (end - start) (drop start bytes.now) }
{
    let behind = from(bytes, start as usize);
    let count = end.saturating_sub(start) as usize;
    &behind[..count.min(behind.len())]
}

/// The bytes from `start` on.
fn from(bytes: &[u8], start: usize) -> &[u8]
    ensures { result.now ≡ drop start bytes.now }
{
    &bytes[start.min(bytes.len())..]
}
