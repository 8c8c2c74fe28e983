//! The listing of a rule, behind what is there. After an error the bytes behind are of no use.
ghost use Rattle.std.specs.Prelude.{◌≡◌, ◌++◌, codes, All, OnOk};
ghost use Rattle.std.specs.List.{flat_map};
ghost use Rattle.bg_base.specs.Bigraph.{IsValidUnder};
ghost use Rattle.bg_listing.specs.Spelling as spelling;
ghost use Rattle.bg_rules.specs.declared.condition.Condition.{Condition as ConditionValue};
ghost use Rattle.bg_show_text.specs.SystemText as listing;

use bg_base::Signature;
use bg_listing::{write_big, write_count, write_label, write_number, write_numbers, write_size};
use bg_lists::Mem;
use bg_rules::{Condition, Rule, Side};
use std::alloc::Global;

/// The rule with that number.
pub(crate) fn put_rule(
    alloc: Global,
    signature: &Signature,
    number: usize,
    rule: &Rule,
    out: &mut Vec<u8>,
) -> Mem<()>
    requires redex_fits { IsValidUnder signature.now rule.now.redex }
    requires reactum_fits { IsValidUnder signature.now rule.now.reactum }
    requires conditions_fit { All (λ (condition : ConditionValue). IsValidUnder signature.now condition.pattern) rule.now.conditions }
    ensures { OnOk result (out.new.items ≡ out.old.items ++ listing.rule_text signature.now number rule.now) }
{
    put_rule_line(alloc, number, rule, out)?;
    put_redex(alloc, signature, rule, out)?;
    put_reactum(alloc, signature, rule, out)?;
    put_map(alloc, rule, out)?;
    put_condition_section(alloc, signature, rule, out)?;
    Ok(())
}

#[tactic(auto, unfolding(crate::specs::SystemText::rule_line))]
fn put_rule_line(alloc: Global, number: usize, rule: &Rule, out: &mut Vec<u8>) -> Mem<()>
    ensures { OnOk result (out.new.items ≡ out.old.items ++ listing.rule_line number rule.now) }
{
    out.extend_from_slice(b"rule ")?;
    write_size(alloc, number, out)?;
    out.push(b' ')?;
    write_label(alloc, rule.label(), out)?;
    out.extend_from_slice(b" class ")?;
    write_number(alloc, rule.class(), out)?;
    out.push(b'\n')?;
    Ok(())
}

fn put_redex(alloc: Global, signature: &Signature, rule: &Rule, out: &mut Vec<u8>) -> Mem<()>
    requires { IsValidUnder signature.now rule.now.redex }
    ensures { OnOk result (out.new.items ≡ out.old.items ++ (codes "redex\n" ++ spelling.big_text signature.now rule.now.redex)) }
{
    out.extend_from_slice(b"redex\n")?;
    write_big(alloc, signature, rule.redex().big(), out)
}

fn put_reactum(alloc: Global, signature: &Signature, rule: &Rule, out: &mut Vec<u8>) -> Mem<()>
    requires { IsValidUnder signature.now rule.now.reactum }
    ensures { OnOk result (out.new.items ≡ out.old.items ++ (codes "reactum\n" ++ spelling.big_text signature.now rule.now.reactum)) }
{
    out.extend_from_slice(b"reactum\n")?;
    write_big(alloc, signature, rule.reactum(), out)
}

fn put_map(alloc: Global, rule: &Rule, out: &mut Vec<u8>) -> Mem<()>
    ensures { OnOk result (out.new.items ≡ out.old.items ++ listing.instantiation_line rule.now.map) }
{
    out.extend_from_slice(b"map")?;
    write_numbers(alloc, rule.map(), out)
}

/// The number of conditions, and the conditions in order.
fn put_condition_section(
    alloc: Global,
    signature: &Signature,
    rule: &Rule,
    out: &mut Vec<u8>,
) -> Mem<()>
    requires { All (λ (condition : ConditionValue). IsValidUnder signature.now condition.pattern) rule.now.conditions }
    ensures { OnOk result (out.new.items ≡ out.old.items ++ spelling.section_text (codes "conditions ") (listing.condition_text signature.now) rule.now.conditions) }
{
    let conditions = rule.conditions();
    write_count(alloc, b"conditions ", conditions.len(), out)?;
    put_conditions(alloc, signature, conditions, out)?;
    Ok(())
}

fn put_conditions(
    alloc: Global,
    signature: &Signature,
    conditions: &[Condition],
    out: &mut Vec<u8>,
) -> Mem<()>
    requires { All (λ (condition : ConditionValue). IsValidUnder signature.now condition.pattern) conditions.now }
    ensures { OnOk result (out.new.items ≡ out.old.items ++ flat_map (listing.condition_text signature.now) conditions.now) }
{
    for condition in conditions {
        put_condition(alloc, signature, condition, out)?;
    }
    Ok(())
}

#[tactic(auto, unfolding(crate::specs::SystemText::condition_text))]
fn put_condition(
    alloc: Global,
    signature: &Signature,
    condition: &Condition,
    out: &mut Vec<u8>,
) -> Mem<()>
    requires { IsValidUnder signature.now condition.now.pattern }
    ensures { OnOk result (out.new.items ≡ out.old.items ++ listing.condition_text signature.now condition.now) }
{
    put_sign(condition.positive, out)?;
    out.push(b' ')?;
    put_side(condition.side, out)?;
    out.push(b'\n')?;
    write_big(alloc, signature, condition.pattern.big(), out)
}

fn put_sign(positive: bool, out: &mut Vec<u8>) -> Mem<()>
    ensures { OnOk result (out.new.items ≡ out.old.items ++ listing.sign_text positive) }
{
    out.push(if positive { b'+' } else { b'-' })?;
    Ok(())
}

fn put_side(side: Side, out: &mut Vec<u8>) -> Mem<()>
    ensures { OnOk result (out.new.items ≡ out.old.items ++ listing.side_text side) }
{
    match side {
        Side::Ctx => out.extend_from_slice(b"ctx")?,
        Side::Param => out.extend_from_slice(b"param")?,
    }
    Ok(())
}
