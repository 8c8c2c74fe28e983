//! The names and the numbers that tokens spell.
ghost use Rattle.std.specs.Prelude.{◌≡◌, ◌∷◌, length};
ghost use Rattle.bg_code.specs.Lowering.{tokens_of};
ghost use Rattle.bg_terms.specs.Trees as definition;
ghost use Rattle.bg_values.specs.Operands.{GivesList};
ghost use Rattle.bg_values.specs.Outcome.{Gives};

use crate::Visible;
use bg_base::{Ident, is_ident};
use bg_lists::Rows;
use bg_trees::names::{SynMoreLowItem, SynNameList, SynNames, SynNumber};
use bg_values::{Cause, Refusal, Stop, number_at, number_token};
use std::alloc::Global;

/// The identifier that the token spells, or `Unexpected` (31). Linear in the token.
pub fn word_at(alloc: Global, visible: &Visible, token: u32) -> Result<Ident, Stop>
    ensures { Gives result (definition.word_at visible.now token) }
{
    let bytes = visible.scope.spelling(token);
    if is_ident(bytes) {
        Ok(Ident::from_bytes(alloc, bytes)?)
    } else {
        Err(Stop::refuse(Cause::Unexpected, token))
    }
}

/// The identifiers of a list, in order. Linear in their tokens.
pub(crate) fn listed_words(
    alloc: Global,
    visible: &Visible,
    list: &SynNameList,
) -> Result<Rows<Ident>, Stop>
    ensures { Gives result (definition.words_at visible.now (definition.listed_tokens list.now)) }
{
    let words = match list {
        SynNameList::Way1(first, more) => words_from(alloc, visible, *first, more.as_slice())?,
        SynNameList::Way2 => Vec::new(alloc),
    };
    Ok(Rows::try_from_vec(words)?)
}

/// The identifiers of a token and of those behind it.
fn words_from(
    alloc: Global,
    visible: &Visible,
    first: u32,
    more: &[SynMoreLowItem],
) -> Result<Vec<Ident>, Stop>
    ensures { GivesList result (definition.words_at visible.now (first ∷ tokens_of more.now)) }
{
    let mut words = Vec::with_capacity(alloc, 1 + more.len())?;
    words.push(word_at(alloc, visible, first)?)?;
    for item in more {
        words.push(word_at(alloc, visible, item.part2)?)?;
    }
    Ok(words)
}

/// The names of ports.
pub(crate) fn ports_at(
    alloc: Global,
    visible: &Visible,
    tree: &SynNames,
) -> Result<Rows<Ident>, Stop>
    ensures { Gives result (definition.words_at visible.now (definition.ports_of tree.now)) }
{
    match tree {
        SynNames::Way1(_, list, _) => listed_words(alloc, visible, list),
        SynNames::Way2 => Ok(Rows::from_vec(Vec::new(alloc))),
    }
}

/// How many names of ports there are.
pub(crate) fn port_count(tree: &SynNames) -> usize
    ensures { result ≡ length (definition.ports_of tree.now) }
{
    match tree {
        SynNames::Way1(_, list, _) => listed_count(list),
        SynNames::Way2 => 0,
    }
}

fn listed_count(list: &SynNameList) -> usize
    ensures { result ≡ length (definition.listed_tokens list.now) }
{
    match list {
        SynNameList::Way1(_, more) => 1 + more.len(),
        SynNameList::Way2 => 0,
    }
}

/// The number of places that a token spells, or `Unexpected` (31).
pub(crate) fn width_at(visible: &Visible, tree: &SynNumber) -> Result<u64, Refusal>
    ensures { result ≡ definition.width_at visible.now tree.now }
{
    let number = number_at(&visible.scope, number_token(tree))?;
    Ok(number.unsigned_abs())
}
