//! The reader of the line of an entry.
ghost use Rattle.std.specs.Prelude.{◌≡◌, ◌<◌, ◌≤◌, ◌-◌, ◌^◌, length, IfOk, IfSome};
ghost use Rattle.bg_listing.specs.Limits.{greatest_number};
ghost use Rattle.bg_listing.specs.Combinators.{after};
ghost use Rattle.bg_listing.specs.Reading.{number_at};
ghost use Rattle.bg_listing.specs.Answers.{Finds};
ghost use Rattle.bg_journal.specs.JournalReading.{most_images};
ghost use Rattle.bg_journal.specs.EntryReading as reading;

use bg_base::limits::MOST_EXPRESSION_NODES;
use bg_base::{Entry, Map};
use bg_listing::read_number;
use bg_lists::{Mem, Rows};
use std::alloc::Global;

/// The greatest number, as in listings.
const GREATEST: u32 = 2_147_483_647;

/// The most numbers of a map.
const MOST_IMAGES: u32 = MOST_EXPRESSION_NODES;

/// The entry whose line stands in front, and the bytes behind the line; `None` where none stands there. Linear in the
/// line, up to what is not of its form.
#[tactic(auto, unfolding(crate::specs::EntryReading::entry_at))]
pub(crate) fn entry(alloc: Global, bytes: &[u8]) -> Mem<Option<(Entry, &[u8])>>
    requires { length bytes.now < 2 ^ 32 - 1 }
    ensures entry { IfOk result (λ found. Finds (λ x. (x.0, x.1.now)) found (reading.entry_at bytes.now)) }
    ensures left { IfOk result (λ found. IfSome found (λ x. length x.1.now ≤ length bytes.now)) }
{
    match head(bytes) {
        None => Ok(None),
        Some((worker, rule, rest)) => match map(alloc, rest)? {
            None => Ok(None),
            Some((map, rest)) => Ok(Some((Entry { worker, rule, map }, rest))),
        },
    }
}

/// The worker and the rule with what stands in front of them, and the bytes behind them.
#[tactic(auto, unfolding(crate::specs::EntryReading::head_at))]
fn head(bytes: &[u8]) -> Option<(u32, u32, &[u8])>
    requires { length bytes.now < 2 ^ 32 - 1 }
    ensures head { Finds (λ x. ((x.0, x.1), x.2.now)) result (reading.head_at bytes.now) }
    ensures left { IfSome result (λ x. length x.2.now ≤ length bytes.now) }
{
    let rest = behind(bytes, b"step ")?;
    let (worker, rest) = number(rest)?;
    let rest = behind(rest, b" ")?;
    let (rule, rest) = number(rest)?;
    Some((worker, rule, rest))
}

/// The map up to the line feed, and the bytes behind it.
#[tactic(auto, unfolding(crate::specs::EntryReading::map_at))]
fn map(alloc: Global, bytes: &[u8]) -> Mem<Option<(Map, &[u8])>>
    requires { length bytes.now < 2 ^ 32 - 1 }
    ensures map { IfOk result (λ found. Finds (λ x. (x.0, x.1.now)) found (reading.map_at bytes.now)) }
    ensures left { IfOk result (λ found. IfSome found (λ x. length x.1.now ≤ length bytes.now)) }
{
    match images(alloc, bytes)? {
        None => Ok(None),
        Some((images, rest)) => {
            if 0 < images.len() {
                Ok(Some((Rows::from_vec(images), rest)))
            } else {
                Ok(None)
            }
        }
    }
}

/// All numbers up to the line feed, and the bytes behind it; `None` where one is not of its form, or there are more than
/// a map has.
#[tactic(auto, unfolding(crate::specs::EntryReading::images_at))]
fn images(alloc: Global, bytes: &[u8]) -> Mem<Option<(Vec<u32>, &[u8])>>
    requires { length bytes.now < 2 ^ 32 - 1 }
    ensures images { IfOk result (λ found. Finds (λ x. (x.0.items, x.1.now)) found (reading.images_at bytes.now)) }
    ensures few { IfOk result (λ found. IfSome found (λ x. length x.0.items ≤ most_images)) }
    ensures left { IfOk result (λ found. IfSome found (λ x. length x.1.now ≤ length bytes.now)) }
{
    let mut images = Vec::new(alloc);
    let mut rest = bytes;
    for _ in 0..MOST_IMAGES + 1 {
        let Some((image, behind)) = image(rest) else {
            return Ok(None);
        };
        match image {
            None => return Ok(Some((images, behind))),
            Some(image) => images.push(image)?,
        }
        rest = behind;
    }
    Ok(None)
}

/// The next number of a map behind its space, or none behind the line feed.
#[tactic(auto, unfolding(bg_listing::specs::Combinators::next))]
fn image(bytes: &[u8]) -> Option<(Option<u32>, &[u8])>
    requires { length bytes.now < 2 ^ 32 - 1 }
    ensures image { Finds (λ x. (x.0, x.1.now)) result (reading.image_at bytes.now) }
    ensures left { IfSome result (λ x. length x.1.now ≤ length bytes.now) }
{
    match bytes.split_first() {
        None => None,
        Some((first, rest)) => {
            if *first == b'\n' {
                Some((None, rest))
            } else if *first == b' ' {
                let (image, rest) = number(rest)?;
                Some((Some(image), rest))
            } else {
                None
            }
        }
    }
}

/// The number that the whole run of digits in front spells, and the bytes behind it.
fn number(bytes: &[u8]) -> Option<(u32, &[u8])>
    requires { length bytes.now < 2 ^ 32 - 1 }
    ensures number { Finds (λ x. (x.0, x.1.now)) result (number_at greatest_number bytes.now) }
    ensures left { IfSome result (λ x. length x.1.now ≤ length bytes.now) }
{
    match read_number(bytes, 0, GREATEST) {
        None => None,
        Some((number, end)) => {
            let (_, rest) = bytes.split_at(end as usize);
            Some((number, rest))
        }
    }
}

/// The bytes behind the word, where it stands in front.
pub(crate) fn behind<'a>(bytes: &'a [u8], word: &[u8]) -> Option<&'a [u8]>
    ensures word { Finds (λ rest. rest.now) result (after word.now bytes.now) }
    ensures left { IfSome result (λ rest. length rest.now ≤ length bytes.now) }
{
    bytes.strip_prefix(word)
}
