//! Whether an occurrence of a rule's redex is enabled.
ghost use Rattle.std.specs.Prelude.{◌≡◌, ◌↔◌, IfOk, IsTrue};
ghost use Rattle.bg_base.specs.Bigraph.{IsGround};
ghost use Rattle.bg_rules.specs.Decomposition.{Occurs};
ghost use Rattle.bg_rules.specs.declared.condition.Side.TheVariants.{Ctx, Param};
ghost use Rattle.bg_cond.specs.Conditions.{OccursSomewhere, HoldsIn, IsEnabled, HoldsAt};

use crate::listed::occurs_somewhere;
use crate::pieces::{context_piece, parameter_piece};
use bg_base::Big;
use bg_lists::Mem;
use bg_match::HostIndex;
use bg_rules::{Condition, Host, Pattern, Rule, Side};
use std::alloc::Global;

/// Whether the rule is enabled at nodes where its redex occurs: whether the pattern of each positive condition occurs in
/// the piece on its side, and that of each other one does not. Costs, for each condition up to the first that fails, the
/// piece on its side, and an index of it and a walk up to the first occurrence of the pattern in it.
pub fn enabled(alloc: Global, host: &Host, rule: &Rule, map: &[u32]) -> Mem<bool>
    requires occurs { Occurs host.now.big rule.now.redex map.now }
    ensures { IfOk result (λ answer. IsTrue answer ↔ IsEnabled host.now rule.now map.now) }
{
    let (_big, _redex) = (host.big(), rule.redex());
    for condition in rule.conditions() {
        if !holds(alloc, host, rule, map, condition)? {
            return Ok(false);
        }
    }
    Ok(true)
}

/// Whether the condition holds in the piece on its side.
fn holds(alloc: Global, host: &Host, rule: &Rule, map: &[u32], condition: &Condition) -> Mem<bool>
    requires occurs { Occurs host.now.big rule.now.redex map.now }
    ensures { IfOk result (λ answer. IsTrue answer ↔ HoldsAt host.now rule.now.redex map.now condition.now) }
{
    match condition.side {
        Side::Ctx => holds_in_context(alloc, host, rule, map, condition),
        Side::Param => holds_in_parameter(alloc, host, rule, map, condition),
    }
}

/// Whether the condition, which asks of the context, holds.
fn holds_in_context(
    alloc: Global,
    host: &Host,
    rule: &Rule,
    map: &[u32],
    condition: &Condition,
) -> Mem<bool>
    requires occurs { Occurs host.now.big rule.now.redex map.now }
    requires side { condition.now.side ≡ Ctx }
    ensures { IfOk result (λ answer. IsTrue answer ↔ HoldsAt host.now rule.now.redex map.now condition.now) }
{
    let (_big, _redex) = (host.big(), rule.redex());
    let piece = context_piece(alloc, host, rule, map)?;
    let answer = holds_in(alloc, &piece, condition)?;
    Ok(answer)
}

/// Whether the condition, which asks of the parameter, holds.
fn holds_in_parameter(
    alloc: Global,
    host: &Host,
    rule: &Rule,
    map: &[u32],
    condition: &Condition,
) -> Mem<bool>
    requires occurs { Occurs host.now.big rule.now.redex map.now }
    requires side { condition.now.side ≡ Param }
    ensures { IfOk result (λ answer. IsTrue answer ↔ HoldsAt host.now rule.now.redex map.now condition.now) }
{
    let (_big, _redex) = (host.big(), rule.redex());
    let piece = parameter_piece(alloc, host, rule, map)?;
    let answer = holds_in(alloc, &piece, condition)?;
    Ok(answer)
}

/// Whether the condition holds in the piece.
fn holds_in(alloc: Global, piece: &Big, condition: &Condition) -> Mem<bool>
    requires ground { IsGround piece.now }
    ensures { IfOk result (λ answer. IsTrue answer ↔ HoldsIn piece.now condition.now) }
{
    let occurs = occurs_in(alloc, piece, &condition.pattern)?;
    Ok(occurs == condition.positive)
}

/// Whether the pattern occurs in the piece.
fn occurs_in(alloc: Global, piece: &Big, pattern: &Pattern) -> Mem<bool>
    requires ground { IsGround piece.now }
    ensures { IfOk result (λ answer. IsTrue answer ↔ OccursSomewhere piece.now pattern.now) }
{
    let indexed = HostIndex::of(alloc, piece)?;
    let occurs = occurs_somewhere(alloc, &indexed, pattern)?;
    Ok(occurs)
}
