//! What a decomposition makes.
ghost use Rattle.std.specs.Prelude.{◌≡◌, [], length, IfOk};
ghost use Rattle.bg_base.specs.Bigraph.{IsValid};
ghost use Rattle.bg_base.specs.Composition.{FacesAgree, SupportsApart};
ghost use Rattle.bg_base.specs.Composition as composition;
ghost use Rattle.bg_base.specs.Elementary as elementary;
ghost use Rattle.bg_base.specs.Products as product;
ghost use Rattle.bg_base.specs.Translation as renaming;
ghost use Rattle.bg_algebra.specs.Laws.{Apart};
ghost use Rattle.bg_rules.specs.Decomposition.{AreNew, frame};
ghost use Rattle.bg_decompose.specs.Joining.{IsJoinable, recomposed_from};

use crate::Decomposition;
use bg_algebra::{AlgebraFault, compose, identity, rename, tensor};
use bg_base::Big;
use bg_lists::{Mem, OutOfMemory};
use bg_rules::Pattern;
use std::alloc::Global;

/// The bigraph that a decomposition makes: the context, with the pattern at the nodes of the map and at the edges of
/// the images in it, with the parameter in the pattern (Milner, chapters 3 and 8). It refuses only for want of memory.
/// Costs time n log n in the size of the three, and memory in proportion to it.
pub fn join(alloc: Global, parts: &Decomposition, pattern: &Pattern) -> Mem<Big>
    requires joinable { IsJoinable pattern.now parts.now.map parts.now.context parts.now.images parts.now.parameter }
    ensures value { IfOk result (λ whole. whole ≡ recomposed_from pattern.now parts.now.map parts.now.context parts.now.images parts.now.parameter) }
    ensures valid { IfOk result IsValid }
{
    let whole = recompose(
        alloc,
        &parts.context,
        pattern.big(),
        &parts.map,
        &parts.images,
        &parts.parameter,
    )?;
    Ok(whole)
}

/// The context, with the middle at these nodes and edges in it, with the parameter in the middle: as [`join`] does it with
/// a pattern, with any valid bigraph in its place, such as the reactum of a rule. It refuses only for want of memory. Costs time
/// n log n in the size of the three, and memory in proportion to it.
pub fn recompose(
    alloc: Global,
    context: &Big,
    middle: &Big,
    nodes: &[u32],
    edges: &[u32],
    parameter: &Big,
) -> Mem<Big>
    requires middle_valid { IsValid middle.now }
    requires joinable { IsJoinable middle.now nodes.now context.now edges.now parameter.now }
    ensures value { IfOk result (λ whole. whole ≡ recomposed_from middle.now nodes.now context.now edges.now parameter.now) }
    ensures valid { IfOk result IsValid }
{
    let frame = frame_of(alloc, middle, nodes, edges, parameter)?;
    let inside = composed(alloc, &frame, parameter)?;
    let whole = composed(alloc, context, &inside)?;
    Ok(whole)
}

/// The bigraph at these nodes and edges, beside the identity on the parameter's names.
fn frame_of(alloc: Global, middle: &Big, nodes: &[u32], edges: &[u32], parameter: &Big) -> Mem<Big>
    requires middle_valid { IsValid middle.now }
    requires parameter_valid { IsValid parameter.now }
    requires nodes_new { AreNew nodes.now (length middle.now.nodes) }
    requires edges_new { AreNew edges.now (length middle.now.edges) }
    requires apart { Apart (renaming.rename middle.now nodes.now edges.now) (elementary.identity 0 parameter.now.outer) }
    ensures value { IfOk result (λ made. made ≡ frame middle.now nodes.now edges.now parameter.now.outer) }
    ensures valid { IfOk result IsValid }
{
    let renamed = rename(alloc, middle, nodes, edges)?;
    let names = identity(alloc, 0, parameter.outer.as_slice())?;
    let made = beside(alloc, &renamed, &names)?;
    Ok(made)
}

/// The tensor product with a bigraph without places, where nothing is in both.
fn beside(alloc: Global, big: &Big, names: &Big) -> Mem<Big>
    requires big_valid { IsValid big.now }
    requires names_valid { IsValid names.now }
    requires no_regions { names.now.regions ≡ 0 }
    requires no_sites { names.now.sites ≡ [] }
    requires apart { Apart big.now names.now }
    ensures value { IfOk result (λ whole. whole ≡ product.tensor big.now names.now) }
    ensures valid { IfOk result IsValid }
{
    let _sites = big.sites.len();
    let _regions = big.regions;
    match tensor(alloc, big, names) {
        Ok(whole) => Ok(whole),
        Err(AlgebraFault::OutOfMemory) => Err(OutOfMemory),
        Err(_) => unreachable!(),
    }
}

/// The composition, where it is defined.
fn composed(alloc: Global, upper: &Big, lower: &Big) -> Mem<Big>
    requires upper_valid { IsValid upper.now }
    requires lower_valid { IsValid lower.now }
    requires faces { FacesAgree upper.now lower.now }
    requires apart { SupportsApart upper.now lower.now }
    ensures value { IfOk result (λ whole. whole ≡ composition.compose upper.now lower.now) }
    ensures valid { IfOk result IsValid }
{
    match compose(alloc, upper, lower) {
        Ok(whole) => Ok(whole),
        Err(AlgebraFault::OutOfMemory) => Err(OutOfMemory),
        Err(_) => unreachable!(),
    }
}
