//! What is written of a rule.
ghost use Rattle.std.specs.Prelude.{◌≡◌, length, take, All, OnOk, OnErr};
ghost use Rattle.bg_base.specs.Bigraph.{IsValidUnder};
ghost use Rattle.bg_match_text.specs.Appending.{Appends};
ghost use Rattle.bg_match_text.specs.MatchText.{IsRuleText, AreOccurrenceTexts};
ghost use Rattle.bg_rules.specs.Decomposition.{Occurs};
ghost use Rattle.bg_rules.specs.Occurrences.{AreOccurrences};

use crate::lines::write_rule_line;
use crate::occurrence::write_occurrence;
use bg_base::{Big, Map, Signature};
use bg_lists::{Mem, OutOfMemory};
use bg_rules::{Pattern, Rule};
use std::alloc::Global;

/// Appends the line of the rule with that number, and a line for each of these maps, which are all occurrences of its
/// redex in the host, in dictionary order; where occurrences are explained each map's line has the decomposition of the
/// host there behind it (Milner, chapter 8). Fails only where there is no memory, and then `out` is unchanged. Costs time
/// in proportion to the text and, where occurrences are explained, the time of `split` for each map. Holds the text once,
/// beside three times the text of one occurrence.
pub fn write_rule(
    alloc: Global,
    signature: &Signature,
    host: &Big,
    number: u32,
    rule: &Rule,
    maps: &[Map],
    explain: bool,
    out: &mut Vec<u8>,
) -> Mem<()>
    requires fits { IsValidUnder signature.now host.now }
    requires all { AreOccurrences host.now rule.now.redex maps.now }
    ensures ok { OnOk result (Appends (IsRuleText signature.now host.now explain number rule.now) out.old.items out.new.items) }
    ensures err { OnErr result (out.new.items ≡ out.old.items) }
{
    let length = out.len();
    match put_rule(alloc, signature, host, number, rule, maps, explain, out) {
        Ok(()) => Ok(()),
        Err(OutOfMemory) => {
            out.truncate(length);
            Err(OutOfMemory)
        }
    }
}

/// The line of the rule and its occurrences. After an error what was in `out` is still there.
fn put_rule(
    alloc: Global,
    signature: &Signature,
    host: &Big,
    number: u32,
    rule: &Rule,
    maps: &[Map],
    explain: bool,
    out: &mut Vec<u8>,
) -> Mem<()>
    requires fits { IsValidUnder signature.now host.now }
    requires all { AreOccurrences host.now rule.now.redex maps.now }
    ensures text { OnOk result (Appends (IsRuleText signature.now host.now explain number rule.now) out.old.items out.new.items) }
    ensures kept { OnErr result (take (length out.old.items) out.new.items ≡ out.old.items) }
{
    write_rule_line(alloc, number, rule, maps.len(), out)?;
    put_maps(alloc, signature, host, rule.redex(), maps, explain, out)?;
    Ok(())
}

/// The occurrences at these maps, in order. After an error what was in `out` is still there.
fn put_maps(
    alloc: Global,
    signature: &Signature,
    host: &Big,
    redex: &Pattern,
    maps: &[Map],
    explain: bool,
    out: &mut Vec<u8>,
) -> Mem<()>
    requires fits { IsValidUnder signature.now host.now }
    requires occur { All (Occurs host.now redex.now) maps.now }
    ensures text { OnOk result (Appends (AreOccurrenceTexts signature.now host.now redex.now explain maps.now) out.old.items out.new.items) }
    ensures kept { OnErr result (take (length out.old.items) out.new.items ≡ out.old.items) }
{
    for map in maps {
        write_occurrence(alloc, signature, host, redex, map.as_slice(), explain, out)?;
    }
    Ok(())
}
