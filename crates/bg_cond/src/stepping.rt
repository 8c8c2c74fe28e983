//! Taking a step.
ghost use Rattle.std.specs.Prelude.{◌≡◌, IfOk, OnOk, OnErr, IsErrOf};
ghost use Rattle.bg_cond.specs.Steps.{IsLegal, LeadsTo, IsTooLarge};
ghost use Rattle.bg_index.specs.Causes.{AreCauses};

use bg_base::Step;
use bg_index::{Causes, IndexedHost};
use bg_react::react;
use bg_rules::{Host, ReactFault, System};
use std::alloc::Global;

/// Takes a legal step: the host becomes what the rule of the step makes of it at the nodes of its map. It refuses with
/// `Full` where that passes a limit of a host; at a refusal the host stays as it was. Costs what `react` of `bg_react`
/// costs.
pub fn take_step(
    alloc: Global,
    host: &mut Host,
    system: &System,
    step: &Step,
) -> Result<(), ReactFault>
    requires { IsLegal host.old system.now.rules step.now }
    ensures leads { OnOk result (LeadsTo host.old system.now.rules step.now host.new) }
    ensures full { IsErrOf result ReactFault.Full → IsTooLarge host.old system.now.rules step.now }
    ensures kept { OnErr result (host.new ≡ host.old) }
{
    let rule = &system.rules()[step.rule as usize];
    react(alloc, host, rule, step.map.as_slice())
}

/// Takes a legal step in place, and tells why nodes are touched: the host becomes what [`take_step`] makes of it, and it
/// refuses, and stays, as there. Costs what `react_telling_causes` of `bg_index` costs.
pub fn take_step_in_place(
    alloc: Global,
    host: &mut IndexedHost,
    system: &System,
    step: &Step,
) -> Result<Causes, ReactFault>
    requires { IsLegal host.old system.now.rules step.now }
    ensures leads { OnOk result (LeadsTo host.old system.now.rules step.now host.new) }
    ensures causes { IfOk result (AreCauses host.old.big host.new.big) }
    ensures full { IsErrOf result ReactFault.Full → IsTooLarge host.old system.now.rules step.now }
    ensures kept { OnErr result (host.new ≡ host.old) }
{
    let rule = &system.rules()[step.rule as usize];
    host.react_telling_causes(alloc, rule, step.map.as_slice())
}
