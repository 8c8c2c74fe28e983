//! Nesting: one bigraph in the sites of another, with outer names shared.
ghost use Rattle.std.specs.Prelude.{◌≡◌, ◌↔◌, ◌+◌, ◌<◌, ◌^◌, List, [], ◌∷◌, length, IfOk, IfErr, OnOk, IsErrOf, Contains};
ghost use Rattle.bg_base.specs.declared.signature.Control.{Control};
ghost use Rattle.bg_base.specs.Bigraph.{IsValid, IsValidUnder};
ghost use Rattle.bg_base.specs.Composition.{SupportsApart};
ghost use Rattle.bg_base.specs.Products as product;

use crate::composition::whole;
use crate::conditions::{has_no_inner, supports_apart, widths_agree};
use crate::products::parallel_whole;
use crate::{AlgebraFault, identity};
use bg_base::Big;
use bg_lists::Mem;
use std::alloc::Global;

/// The nesting of `g` in `f` (Milner, chapter 3): `g` lies in the sites of `f`, which has no inner names, and an outer
/// name that both have is one name. It is the composition of `f`, beside the identity on the outer names of `g`, with
/// `g`. It refuses, in this order: `HasInnerNames`, number 17, where `f` has an inner name; `WidthsDiffer`, number 15,
/// where `g` has not as many regions as `f` has sites; `SupportMeets`, number 12, where a node or an edge is in both.
/// Costs as [`crate::compose`] does.
pub fn nest(alloc: Global, f: &Big, g: &Big) -> Result<Big, AlgebraFault>
    requires f_valid { IsValid f.now }
    requires g_valid { IsValid g.now }
    requires regions { f.now.regions + g.now.regions < 2 ^ 32 }
    requires sites { length f.now.sites + length g.now.sites < 2 ^ 32 }
    ensures product { IfOk result (λ whole. whole ≡ product.nest f.now g.now) }
    ensures defined { OnOk result ((f.now.inner ≡ []) × (g.now.regions ≡ length f.now.sites) × SupportsApart f.now g.now) }
    ensures inner_names { IsErrOf result AlgebraFault.HasInnerNames ↔ ¬ (f.now.inner ≡ []) }
    ensures widths { IsErrOf result AlgebraFault.WidthsDiffer ↔ ((f.now.inner ≡ []) × ¬ (g.now.regions ≡ length f.now.sites)) }
    ensures supports { IsErrOf result AlgebraFault.SupportMeets
        ↔ ((f.now.inner ≡ []) × (g.now.regions ≡ length f.now.sites) × ¬ SupportsApart f.now g.now) }
    ensures no_other { IfErr result (λ fault. Contains (AlgebraFault.HasInnerNames ∷ AlgebraFault.WidthsDiffer ∷ AlgebraFault.SupportMeets ∷ AlgebraFault.OutOfMemory ∷ []) fault) }
    ensures valid { IfOk result IsValid }
    ensures fits { (signature : List Control) → IsValidUnder signature f.now → IsValidUnder signature g.now
        → IfOk result (IsValidUnder signature) }
{
    if !has_no_inner(f) {
        return Err(AlgebraFault::HasInnerNames);
    }
    if !widths_agree(f, g) {
        return Err(AlgebraFault::WidthsDiffer);
    }
    if !supports_apart(f, g) {
        return Err(AlgebraFault::SupportMeets);
    }
    Ok(nested(alloc, f, g)?)
}

/// The nesting where it is defined.
fn nested(alloc: Global, f: &Big, g: &Big) -> Mem<Big>
    requires f_valid { IsValid f.now }
    requires g_valid { IsValid g.now }
    requires regions { f.now.regions < 2 ^ 32 }
    requires sites { length f.now.sites < 2 ^ 32 }
    requires no_inner { f.now.inner ≡ [] }
    requires widths { g.now.regions ≡ length f.now.sites }
    requires apart { SupportsApart f.now g.now }
    ensures { IfOk result (λ whole. whole ≡ product.nest f.now g.now) }
{
    let names = identity(alloc, 0, g.outer.as_slice())?;
    let frame = parallel_whole(alloc, &names, f)?;
    whole(alloc, &frame, g)
}
