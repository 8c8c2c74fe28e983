//! Solid bigraphs and those that are not, and rules that are refused.
ghost use Rattle.std.specs.Prelude.{◌≡◌, [], IfOk};
ghost use Rattle.bg_base.specs.Bigraph.{IsValid};
ghost use Rattle.bg_rules.specs.Rules.{IsNumberedFromZero};

use crate::made::{big_of, label, plain_name};
use bg_algebra::{atom, ion};
use bg_base::{Big, Label, Map};
use bg_lists::{Duplicate, Mem, OutOfMemory, Rows};
use bg_rules::{Pattern, Rule, RuleFault, first_unsolid, unsolid_clause};
use std::alloc::Global;

/// The controls of these cases by number: A without ports, K with one.
const A: u32 = 0;

const K: u32 = 3;

/// Bigraphs, and the least clause of a solid bigraph that fails.
const SOLID: [(&str, Option<u8>); 12] = [
    // a node with a site in it
    (
        "bigraph 1\nsites 1\nn0\ninner 0\nouter 0\nedges 0\nnodes 1\n0 A r0\n",
        None,
    ),
    // a region without a node
    (
        "bigraph 1\nsites 0\ninner 0\nouter 0\nedges 0\nnodes 0\n",
        Some(1),
    ),
    // the last of three regions without a node
    (
        "bigraph 3\nsites 1\nr2\ninner 0\nouter 0\nedges 0\nnodes 2\n0 A r0\n1 A r1\n",
        Some(1),
    ),
    // a region without a node, and a name without a point
    (
        "bigraph 1\nsites 1\nr0\ninner 0\nouter 1\nx\nedges 0\nnodes 0\n",
        Some(1),
    ),
    // a name without a point
    (
        "bigraph 1\nsites 0\ninner 0\nouter 1\nx\nedges 0\nnodes 1\n0 A r0\n",
        Some(2),
    ),
    // a name without a point, beside one that has one
    (
        "bigraph 1\nsites 0\ninner 0\nouter 2\nx\ny\nedges 0\nnodes 1\n0 K r0 =y\n",
        Some(2),
    ),
    // two sites in a node
    (
        "bigraph 1\nsites 2\nn0\nn0\ninner 0\nouter 0\nedges 0\nnodes 1\n0 A r0\n",
        Some(3),
    ),
    // two sites in a region, with one in a node between them
    (
        "bigraph 1\nsites 3\nr0\nn0\nr0\ninner 0\nouter 0\nedges 0\nnodes 1\n0 A r0\n",
        Some(3),
    ),
    // a site in a region
    (
        "bigraph 1\nsites 1\nr0\ninner 0\nouter 0\nedges 0\nnodes 1\n0 A r0\n",
        Some(4),
    ),
    // no node
    (
        "bigraph 0\nsites 0\ninner 0\nouter 0\nedges 0\nnodes 0\n",
        Some(5),
    ),
    // a name that no user writes
    (
        "bigraph 1\nsites 0\ninner 0\nouter 1\n~3\nedges 0\nnodes 1\n0 K r0 =~3\n",
        Some(6),
    ),
    // an inner name
    (
        "bigraph 1\nsites 0\ninner 1\nx =x\nouter 1\nx\nedges 0\nnodes 1\n0 K r0 =x\n",
        Some(6),
    ),
];

/// Whether that is the least clause that fails, by both calls.
fn fails_first(alloc: Global, text: &str, clause: Option<u8>) -> Mem<bool> {
    let big = big_of(alloc, text)?;
    Ok(first_unsolid(&big) == clause && unsolid_clause(alloc, &big)? == clause)
}

#[test]
fn the_least_clause_is_named(rt: HostRuntime) -> Mem<()> {
    for &(text, clause) in SOLID.iter() {
        assert!(rt; fails_first(rt.alloc(), text, clause)?, "{text}");
    }
    Ok(())
}

/// A node without ports, with a site in it.
#[tactic(auto, unfolding(bg_base::specs::Elementary::ion, bg_base::specs::Elementary::counted))]
fn room(alloc: Global) -> Mem<Big>
    ensures valid { IfOk result IsValid }
    ensures numbered { IfOk result IsNumberedFromZero }
    ensures no_edges { IfOk result (λ big. big.edges ≡ []) }
{
    let big = ion(alloc, A, 0, &[])?;
    Ok(big)
}

/// A node, its port tied to x.
#[tactic(auto, unfolding(bg_base::specs::Elementary::atom, bg_base::specs::Elementary::counted))]
fn tied(alloc: Global) -> Mem<Big>
    ensures valid { IfOk result IsValid }
    ensures numbered { IfOk result IsNumberedFromZero }
{
    let names = [plain_name(alloc, "x")?];
    let big = atom(alloc, K, 0, names.as_slice())?;
    Ok(big)
}

/// The pattern that is a room.
fn room_pattern(alloc: Global) -> Mem<Pattern> {
    match Pattern::new(room(alloc)?) {
        Ok(pattern) => Ok(pattern),
        Err(_fault) => Err(OutOfMemory),
    }
}

/// How many nodes the copy of a pattern has.
fn nodes_of_copy(alloc: Global, pattern: &Pattern) -> Mem<u32> {
    let copy = pattern.copy(alloc)?;
    Ok(copy.big().nodes.len())
}

#[test]
fn the_copy_of_a_pattern_is_a_pattern(rt: HostRuntime) -> Mem<()> {
    let pattern = room_pattern(rt.alloc())?;
    assert!(rt; nodes_of_copy(rt.alloc(), &pattern)? == 1);
    Ok(())
}

/// The map with these entries.
fn map_of(alloc: Global, entries: &[u32]) -> Mem<Map> {
    Rows::try_from_vec(Vec::from_slice(alloc, entries)?)
}

/// The number of the refusal of the rule of these parts, where there is memory for them; 0 where it is taken.
fn refusal_of(
    alloc: Global,
    label: Mem<Label>,
    redex: Mem<Pattern>,
    reactum: Mem<Big>,
    map: Mem<Map>,
) -> Mem<u8>
    requires valid { IfOk reactum IsValid }
    requires numbered { IfOk reactum IsNumberedFromZero }
{
    match (label, redex, reactum, map) {
        (Ok(label), Ok(redex), Ok(reactum), Ok(map)) => {
            let conditions = Rows::from_vec(Vec::new(alloc));
            Ok(number_of(Rule::new(label, redex, reactum, map, conditions, 0)))
        }
        _ => Err(OutOfMemory),
    }
}

fn number_of(made: Result<Rule, RuleFault>) -> u8 {
    match made {
        Ok(_rule) => 0,
        Err(fault) => fault.number(),
    }
}

/// The number of the refusal of a rule whose redex is a room, with that reactum and that map.
fn refusal_with(alloc: Global, reactum: Mem<Big>, entries: &[u32]) -> Mem<u8>
    requires valid { IfOk reactum IsValid }
    requires numbered { IfOk reactum IsNumberedFromZero }
{
    refusal_of(
        alloc,
        label(alloc, "r"),
        room_pattern(alloc),
        reactum,
        map_of(alloc, entries),
    )
}

#[test]
fn sides_have_the_same_names_and_a_map_leads_to_sites(rt: HostRuntime) -> Mem<()> {
    let alloc = rt.alloc();
    assert!(rt; refusal_with(alloc, room(alloc), &[0])? == 0);
    assert!(rt; refusal_with(alloc, tied(alloc), &[])? == 47);
    assert!(rt; refusal_with(alloc, room(alloc), &[1])? == 48);
    assert!(rt; refusal_with(alloc, room(alloc), &[])? == 48);
    Ok(())
}
