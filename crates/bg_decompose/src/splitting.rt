//! The decomposition of a host at an occurrence.
ghost use Rattle.std.specs.Prelude.{◌≡◌, List, IfOk};
ghost use Rattle.bg_base.specs.declared.signature.Control.{Control};
ghost use Rattle.bg_base.specs.Bigraph.{IsValid, IsValidUnder};
ghost use Rattle.bg_rules.specs.Decomposition.{Decomposes, Occurs};
ghost use Rattle.bg_rules.specs.Images.{AreListed};
ghost use Rattle.bg_decompose.specs.Cuts.{IsCut};

use crate::Decomposition;
use crate::context::{context_of, images_of};
use crate::marks::{Sides, sides_of};
use crate::parameter::{parameter_of, site_table};
use bg_base::Big;
use bg_lists::{Mem, Rows, copies};
use bg_rules::Pattern;
use std::alloc::Global;

/// The one decomposition of the host where the pattern occurs at the nodes of the map: node `k` of the pattern, in the
/// order of its rows, at the host node with number `map[k]` (Milner, chapter 8). The context and the parameter fit each
/// signature that the host fits. It refuses only for want of memory.
///
/// For a host of `n` nodes, edges and ports and a pattern of `k` nodes, `p` ports and `m` edges, outer names and
/// regions it costs time `n log n`, however deep the host is, and `m * (k + p)`; and memory in proportion to the host
/// and the pattern.
pub fn split(alloc: Global, host: &Big, pattern: &Pattern, map: &[u32]) -> Mem<Decomposition>
    requires occurs { Occurs host.now pattern.now map.now }
    ensures map { IfOk result (λ parts. parts.map ≡ map.now) }
    ensures decomposes { IfOk result (λ parts. Decomposes host.now pattern.now map.now parts.context parts.images parts.parameter) }
    ensures context_fits { (signature : List Control) → IsValidUnder signature host.now → IfOk result (λ parts. IsValidUnder signature parts.context) }
    ensures parameter_fits { (signature : List Control) → IsValidUnder signature host.now → IfOk result (λ parts. IsValidUnder signature parts.parameter) }
{
    let parts = cut(alloc, host, pattern.big(), map)?;
    Ok(parts)
}

/// The parts of the host.
fn cut(alloc: Global, host: &Big, pattern: &Big, map: &[u32]) -> Mem<Decomposition>
    requires valid { IsValid host.now }
    requires listed { AreListed host.now pattern.now map.now }
    ensures map { IfOk result (λ parts. parts.map ≡ map.now) }
    ensures cut { IfOk result (λ parts. IsCut host.now pattern.now map.now parts.context parts.images parts.parameter) }
{
    let images = images_of(alloc, host, pattern, map, &pattern.edges)?;
    let Sides { outside, inside } = sides_of(alloc, host, map)?;
    let table = site_table(alloc, pattern, map, pattern.sites.as_slice())?;
    let parameter = parameter_of(alloc, &table, pattern.sites.len(), inside.as_slice())?;
    let context = context_of(
        alloc,
        host,
        pattern,
        map,
        images.as_slice(),
        outside,
        inside.as_slice(),
    )?;
    Ok(Decomposition {
        map: Rows::try_from_vec(copies(alloc, map)?)?,
        images: Rows::try_from_vec(images)?,
        context,
        parameter,
    })
}
