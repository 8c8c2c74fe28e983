//! Places, names and links.
ghost use Rattle.std.specs.Prelude.{◌≡◌};
ghost use Rattle.bg_base.specs.Spelling.{is_lower_case, is_upper_case};
ghost use Rattle.bg_listing.specs.Limits.{begins};
ghost use Rattle.bg_listing.specs.Answers.{GivesPart, GivesOrFails};
ghost use Rattle.bg_listing.specs.Reading as reading;

use crate::bytes::{skip, word_bytes};
use crate::fault::{NotThere, PartFault};
use crate::number::number;
use bg_base::{Ident, InnerRow, Link, Name, Place};
use std::alloc::Global;

#[tactic(auto, unfolding(crate::specs::Reading::place_at))]
pub(crate) fn place(bytes: &[u8]) -> Result<(Place, &[u8]), NotThere>
    ensures { GivesOrFails (λ x. (x.0, x.1.now)) result (reading.place_at bytes.now) }
{
    match bytes {
        [b'n', rest @ ..] => {
            let (node, rest) = number(rest)?;
            Ok((Place::Node(node), rest))
        }
        [b'r', rest @ ..] => {
            let (region, rest) = number(rest)?;
            Ok((Place::Region(region), rest))
        }
        _ => Err(NotThere),
    }
}

#[tactic(auto, unfolding(crate::specs::Reading::name_at))]
pub(crate) fn name(alloc: Global, bytes: &[u8]) -> Result<(Name, &[u8]), PartFault>
    ensures { GivesPart (λ x. (x.0, x.1.now)) result (reading.name_at bytes.now) }
{
    match bytes {
        [] => Err(PartFault::NotThere),
        [b'@', rest @ ..] => {
            let (node, rest) = number(rest)?;
            let rest = skip(rest, b".")?;
            let (index, rest) = number(rest)?;
            Ok((Name::Port(node, index), rest))
        }
        [b'~', rest @ ..] => {
            let (edge, rest) = number(rest)?;
            Ok((Name::Opened(edge), rest))
        }
        [_, ..] => {
            let (word, rest) = lower_word(alloc, bytes)?;
            Ok((Name::Plain(word), rest))
        }
    }
}

#[tactic(auto, unfolding(crate::specs::Reading::link_at))]
pub(crate) fn link(alloc: Global, bytes: &[u8]) -> Result<(Link, &[u8]), PartFault>
    ensures { GivesPart (λ x. (x.0, x.1.now)) result (reading.link_at bytes.now) }
{
    match bytes {
        [b'#', rest @ ..] => {
            let (edge, rest) = number(rest)?;
            Ok((Link::Edge(edge), rest))
        }
        [b'=', rest @ ..] => {
            let (name, rest) = name(alloc, rest)?;
            Ok((Link::Outer(name), rest))
        }
        _ => Err(PartFault::NotThere),
    }
}

#[tactic(auto, unfolding(crate::specs::Reading::inner_at))]
pub(crate) fn inner(alloc: Global, bytes: &[u8]) -> Result<(InnerRow, &[u8]), PartFault>
    ensures { GivesPart (λ x. (x.0, x.1.now)) result (reading.inner_at bytes.now) }
{
    let (name, rest) = name(alloc, bytes)?;
    let rest = skip(rest, b" ")?;
    let (link, rest) = link(alloc, rest)?;
    Ok((InnerRow { name, link }, rest))
}

/// A word that begins with a lower-case letter.
#[tactic(auto, using(crate::proofs::Numbers::lower_is_ident), unfolding(crate::specs::Reading::word_at))]
fn lower_word(alloc: Global, bytes: &[u8]) -> Result<(Ident, &[u8]), PartFault>
    ensures { GivesPart (λ x. (x.0, x.1.now)) result (reading.word_at is_lower_case bytes.now) }
{
    let (word, rest) = word_bytes(bytes);
    if begins_lower(word) {
        Ok((Ident::from_bytes(alloc, word)?, rest))
    } else {
        Err(PartFault::NotThere)
    }
}

/// A word that begins with an upper-case letter.
#[tactic(auto, using(crate::proofs::Numbers::upper_is_ident), unfolding(crate::specs::Reading::word_at))]
pub(crate) fn upper_word(alloc: Global, bytes: &[u8]) -> Result<(Ident, &[u8]), PartFault>
    ensures { GivesPart (λ x. (x.0, x.1.now)) result (reading.word_at is_upper_case bytes.now) }
{
    let (word, rest) = word_bytes(bytes);
    if begins_upper(word) {
        Ok((Ident::from_bytes(alloc, word)?, rest))
    } else {
        Err(PartFault::NotThere)
    }
}

fn begins_lower(word: &[u8]) -> bool
    ensures { result ≡ begins is_lower_case word.now }
{
    match word.split_first() {
        None => false,
        Some((first, _)) => matches!(*first, b'a'..=b'z'),
    }
}

fn begins_upper(word: &[u8]) -> bool
    ensures { result ≡ begins is_upper_case word.now }
{
    match word.split_first() {
        None => false,
        Some((first, _)) => matches!(*first, b'A'..=b'Z'),
    }
}
