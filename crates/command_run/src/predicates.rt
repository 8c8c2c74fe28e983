//! Which predicates hold of a host.
ghost use Rattle.std.specs.Prelude.{◌≡◌, ◌↔◌, IfOk, IsTrue};
ghost use Rattle.bg_cond.specs.Conditions.{OccursSomewhere};
ghost use Rattle.command_run.specs.RunText.{AreTold};

use bg_cond::occurs_somewhere;
use bg_lists::{Mem, OutOfMemory};
use bg_match::HostIndex;
use bg_rules::{Host, Predicate};
use rayon::prelude::*;
use std::alloc::Global;
use std::thread::Threads;

/// For each predicate whether its pattern occurs in the host, in the order of the predicates. They are asked by as many
/// threads at once as `rayon` makes, the calling one among them; where one of them finds no memory there is none for the
/// whole. Costs an index of the host and for each predicate a walk up to its first occurrence.
pub(crate) fn truths_of<R: Threads + Sync>(
    rt: &R,
    alloc: Global,
    host: &Host,
    predicates: &[Predicate],
) -> Mem<Vec<bool>>
    ensures { IfOk result (λ truths. AreTold host.now.big predicates.now truths.items) }
{
    let indexed = HostIndex::of(alloc, host.big())?;
    let indexed = &indexed;
    predicates
        .par_iter()
        .with_min_len(1)
        .map(
            |predicate: &Predicate| -> Mem<bool>
                ensures { IfOk result (λ truth. IsTrue truth ↔ OccursSomewhere indexed.entry.now predicate.entry.now.pattern) }
            { holds_in(alloc, indexed, predicate) },
        )
        .collect::<Result<Vec<bool>, OutOfMemory>>(rt, alloc)?
}

/// Whether the pattern of the predicate occurs in the host.
fn holds_in<'a>(alloc: Global, host: &HostIndex<'a>, predicate: &Predicate) -> Mem<bool>
    ensures { IfOk result (λ truth. IsTrue truth ↔ OccursSomewhere host.now predicate.now.pattern) }
{
    let _big = host.host();
    let truth = occurs_somewhere(alloc, host, &predicate.pattern)?;
    Ok(truth)
}
