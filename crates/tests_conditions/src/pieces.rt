//! The pieces of a host at an occurrence, and whether the rule is enabled there. What conditions find in pieces is shown by
//! `run`.
ghost use Rattle.bg_rules.specs.Decomposition.{Occurs};

use crate::models::{first_rule, system_of};
use bg_base::Big;
use bg_cond::{context_piece, enabled, parameter_piece};
use bg_lists::{Mem, OutOfMemory};
use bg_match::embeds;
use bg_rules::{Host, Rule, System};
use std::alloc::Global;

/// How many nodes, edges and outer names a piece has.
type Counts = (u32, u32, u32);

/// A model with one rule, the nodes at which its redex occurs, what the parameter piece and the context piece have, and
/// whether the rule is enabled there.
const CASES: [(&str, &[u32], Counts, Counts, bool); 3] = [
    // An edge with its points in the redex and the parameter, and one with all points in the context.
    (
        "ctrl Room = 0; ctrl Bell = 1; atomic ctrl Lamp = 1; atomic ctrl Guard = 0; \
         big s = Room./e (Bell{e}.(Lamp{e} | Guard)) | /f (Lamp{f} | Lamp{f}); \
         react r = Bell{x}.id --> Bell{x}.id if !Guard in ctx; begin brs init s; rules = [ {r} ]; end",
        &[1],
        (2, 0, 1),
        (4, 1, 0),
        true,
    ),
    // An edge with a point in the redex and one in the context.
    (
        "atomic ctrl A = 1; atomic ctrl B = 1; big s = /e (A{e} | B{e}); \
         react r = A{x} --> A{x} if !(/y B{y}) in ctx; begin brs init s; rules = [ {r} ]; end",
        &[0],
        (0, 0, 0),
        (2, 0, 1),
        true,
    ),
    // Two regions of a redex in one place, where two holes are then.
    (
        "ctrl Box = 0; ctrl A = 0; ctrl B = 0; atomic ctrl D = 0; big s = Box.(A.D | B.1); \
         react r = A.id || B.id --> A.id || B.id if Box.1 in ctx; begin brs init s; rules = [ {r} ]; end",
        &[1, 3],
        (1, 0, 0),
        (3, 0, 0),
        false,
    ),
];

fn counts_of(piece: &Big) -> Counts {
    (piece.nodes.len(), piece.edges.len(), piece.outer.len())
}

/// What the parameter piece has.
fn parameter_counts(alloc: Global, host: &Host, rule: &Rule, nodes: &[u32]) -> Mem<Counts>
    requires occurs { Occurs host.now.big rule.now.redex nodes.now }
{
    let piece = parameter_piece(alloc, host, rule, nodes)?;
    Ok(counts_of(&piece))
}

/// What the context piece has.
fn context_counts(alloc: Global, host: &Host, rule: &Rule, nodes: &[u32]) -> Mem<Counts>
    requires occurs { Occurs host.now.big rule.now.redex nodes.now }
{
    let piece = context_piece(alloc, host, rule, nodes)?;
    Ok(counts_of(&piece))
}

/// What the pieces have at the occurrence, and whether the rule is enabled there.
fn found_at(alloc: Global, host: &Host, rule: &Rule, nodes: &[u32]) -> Mem<(Counts, Counts, bool)> {
    if !embeds(host.big(), rule.redex(), nodes) {
        return Err(OutOfMemory);
    }
    let parameter = parameter_counts(alloc, host, rule, nodes)?;
    let context = context_counts(alloc, host, rule, nodes)?;
    let enabled = enabled(alloc, host, rule, nodes)?;
    Ok((parameter, context, enabled))
}

/// What the pieces have at the occurrence of the system's rule, and whether that is enabled there.
fn found(alloc: Global, system: &System, nodes: &[u32]) -> Mem<(Counts, Counts, bool)> {
    let rule = first_rule(system)?;
    found_at(alloc, system.init(), rule, nodes)
}

/// What the pieces have at the occurrence of the model's rule, and whether that is enabled there.
fn found_in(alloc: Global, model: &str, nodes: &[u32]) -> Mem<(Counts, Counts, bool)> {
    let system = system_of(alloc, model)?;
    found(alloc, &system, nodes)
}

#[test]
fn pieces_have_holes_and_opened_edges(rt: HostRuntime) -> Mem<()> {
    for &(model, nodes, parameter, context, enabled) in CASES.iter() {
        let found = found_in(rt.alloc(), model, nodes)?;
        assert!(rt; found == (parameter, context, enabled), "{model}");
    }
    Ok(())
}
