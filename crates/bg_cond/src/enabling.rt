//! Whether a rule is enabled, where its conditions are asked of the whole host.
ghost use Rattle.std.specs.Prelude.{◌↔◌, IfOk, IsTrue};
ghost use Rattle.bg_rules.specs.Decomposition.{Occurs};
ghost use Rattle.bg_cond.specs.Conditions.{IsEnabled, IsEnabledSomewhere};
ghost use Rattle.bg_cond.specs.Lists.{AreListsOfConditions};
ghost use Rattle.bg_cond.specs.Sides.{LooksForNodes};

use crate::holding::all_hold;
use crate::listed::{Listed, lists_for};
use bg_lists::Mem;
use bg_match::{NumberedHost, Walk};
use bg_rules::Rule;
use std::alloc::Global;

/// Whether the rule is enabled at nodes where its redex occurs.
pub(crate) fn is_enabled_at<H: NumberedHost>(
    alloc: Global,
    host: &H,
    rule: &Rule,
    lists: &[Option<Listed>],
    map: &[u32],
) -> Mem<bool>
    requires occurs { Occurs (H.state host.now).big rule.now.redex map.now }
    requires looks { LooksForNodes rule.now }
    requires lists { AreListsOfConditions (H.big host.now) rule.now.conditions lists.now }
    ensures { IfOk result (λ answer. IsTrue answer ↔ IsEnabled (H.state host.now) rule.now map.now) }
{
    host.keeps();
    let enabled = all_hold(alloc, host, map, rule.conditions(), lists)?;
    Ok(enabled)
}

/// Whether the rule is enabled anywhere. Goes through the occurrences of its redex up to the first at which it is.
pub(crate) fn is_enabled_somewhere<H: NumberedHost>(
    alloc: Global,
    host: &H,
    rule: &Rule,
) -> Mem<bool>
    requires looks { LooksForNodes rule.now }
    ensures { IfOk result (λ answer. IsTrue answer ↔ IsEnabledSomewhere (H.state host.now) rule.now) }
{
    let lists = lists_for(alloc, host, rule)?;
    let enabled = is_enabled_by(alloc, host, rule, lists.as_slice())?;
    Ok(enabled)
}

/// Whether the rule is enabled anywhere, where the lists are those of its conditions.
fn is_enabled_by<H: NumberedHost>(
    alloc: Global,
    host: &H,
    rule: &Rule,
    lists: &[Option<Listed>],
) -> Mem<bool>
    requires looks { LooksForNodes rule.now }
    requires lists { AreListsOfConditions (H.big host.now) rule.now.conditions lists.now }
    ensures { IfOk result (λ answer. IsTrue answer ↔ IsEnabledSomewhere (H.state host.now) rule.now) }
{
    host.keeps();
    let mut walk = Walk::new(alloc, host, rule.redex())?;
    while let Some(map) = walk.next()? {
        if is_enabled_at(alloc, host, rule, lists, map.as_slice())? {
            return Ok(true);
        }
    }
    Ok(false)
}
