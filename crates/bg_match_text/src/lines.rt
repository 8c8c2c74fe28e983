//! The lines of rules, of maps and of images.
ghost use Rattle.std.specs.Prelude.{◌≡◌, ◌++◌, codes, OnOk, OnErr};
ghost use Rattle.std.specs.Fmt.{decimal};
ghost use Rattle.bg_listing.specs.Spelling as spelling;
ghost use Rattle.bg_match_text.specs.Counts.{excess_line};
ghost use Rattle.bg_match_text.specs.MatchText as listing;

use bg_listing::{write_label, write_number, write_numbers, write_size};
use bg_lists::Mem;
use bg_rules::Rule;
use std::alloc::Global;

/// Appends the line of the rule with that number, whose redex has so many occurrences. After an error `out` is
/// unchanged.
pub(crate) fn write_rule_line(
    alloc: Global,
    number: u32,
    rule: &Rule,
    count: usize,
    out: &mut Vec<u8>,
) -> Mem<()>
    ensures ok { OnOk result (out.new.items ≡ out.old.items ++ listing.matched_rule_line number rule.now count) }
    ensures err { OnErr result (out.new.items ≡ out.old.items) }
{
    let mut text = Vec::new(alloc);
    put_rule_line(alloc, number, rule, count, &mut text)?;
    out.extend_from_slice(text.as_slice())?;
    Ok(())
}

fn put_rule_line(
    alloc: Global,
    number: u32,
    rule: &Rule,
    count: usize,
    out: &mut Vec<u8>,
) -> Mem<()>
    ensures { OnOk result (out.new.items ≡ out.old.items ++ listing.matched_rule_line number rule.now count) }
{
    put_rule_name(alloc, number, rule, out)?;
    put_class_and_count(alloc, rule, count, out)?;
    Ok(())
}

fn put_rule_name(alloc: Global, number: u32, rule: &Rule, out: &mut Vec<u8>) -> Mem<()>
    ensures { OnOk result (out.new.items ≡ out.old.items ++ (codes "rule " ++ (decimal number ++ (codes " " ++ spelling.label_text rule.now.label)))) }
{
    out.extend_from_slice(b"rule ")?;
    write_number(alloc, number, out)?;
    out.push(b' ')?;
    write_label(alloc, rule.label(), out)
}

fn put_class_and_count(alloc: Global, rule: &Rule, count: usize, out: &mut Vec<u8>) -> Mem<()>
    ensures { OnOk result (out.new.items ≡ out.old.items ++ (codes " class " ++ (decimal rule.now.class ++ (codes " count " ++ (decimal count ++ codes "\n"))))) }
{
    out.extend_from_slice(b" class ")?;
    write_number(alloc, rule.class(), out)?;
    out.extend_from_slice(b" count ")?;
    write_size(alloc, count, out)?;
    out.push(b'\n')?;
    Ok(())
}

/// Appends the line that tells that the rule with this number has more occurrences than `most`. Fails only where there is
/// no memory, and then `out` is unchanged. Costs the time of the line.
pub fn write_excess_line(
    alloc: Global,
    number: u32,
    rule: &Rule,
    most: u32,
    out: &mut Vec<u8>,
) -> Mem<()>
    ensures ok { OnOk result (out.new.items ≡ out.old.items ++ excess_line number rule.now most) }
    ensures err { OnErr result (out.new.items ≡ out.old.items) }
{
    let mut text = Vec::new(alloc);
    put_excess_line(alloc, number, rule, most, &mut text)?;
    out.extend_from_slice(text.as_slice())?;
    Ok(())
}

#[tactic(auto, unfolding(crate::specs::Counts::excess_line))]
fn put_excess_line(alloc: Global, number: u32, rule: &Rule, most: u32, out: &mut Vec<u8>) -> Mem<()>
    ensures { OnOk result (out.new.items ≡ out.old.items ++ excess_line number rule.now most) }
{
    out.extend_from_slice(b"too many ")?;
    write_number(alloc, number, out)?;
    out.push(b' ')?;
    write_label(alloc, rule.label(), out)?;
    out.push(b' ')?;
    write_number(alloc, most, out)?;
    out.push(b'\n')?;
    Ok(())
}

/// The line of a map, behind what is there. After an error the bytes behind are of no use.
pub(crate) fn put_map(alloc: Global, map: &[u32], out: &mut Vec<u8>) -> Mem<()>
    ensures { OnOk result (out.new.items ≡ out.old.items ++ listing.occurrence_line map.now) }
{
    match map.split_first() {
        None => {
            out.push(b'\n')?;
            Ok(())
        }
        Some((first, others)) => {
            write_number(alloc, *first, out)?;
            write_numbers(alloc, others, out)
        }
    }
}

/// The line of the images of edges, behind what is there. After an error the bytes behind are of no use.
pub(crate) fn put_images(alloc: Global, images: &[u32], out: &mut Vec<u8>) -> Mem<()>
    ensures { OnOk result (out.new.items ≡ out.old.items ++ listing.images_line images.now) }
{
    out.extend_from_slice(b"images")?;
    write_numbers(alloc, images, out)
}
