//! Products of concrete bigraphs: side by side, with names apart or shared, and in one region.
ghost use Rattle.std.specs.Prelude.{◌≡◌, ◌↔◌, ◌+◌, ◌<◌, ◌^◌, List, [], ◌∷◌, length, IfOk, IfErr, OnOk, IsErrOf, IsTrue, Contains};
ghost use Rattle.bg_base.specs.declared.signature.Control.{Control};
ghost use Rattle.bg_base.specs.Bigraph.{IsValid, IsValidUnder};
ghost use Rattle.bg_base.specs.Composition.{SupportsApart};
ghost use Rattle.bg_base.specs.Products.{InnerApart, OuterApart};
ghost use Rattle.bg_base.specs.Products as product;

use crate::AlgebraFault;
use crate::conditions::{inner_apart, outer_apart, supports_apart};
use crate::halves::{controls_of_both, joined};
use crate::regions::in_one_region;
use bg_base::Big;
use bg_link::share_links;
use bg_lists::Mem;
use bg_place::tensor_places;
use std::alloc::Global;

/// The tensor product of two valid bigraphs (Milner, chapter 2): `f` and `g` side by side. The regions of `g` come
/// after those of `f`, and so do its sites; no name is in both. It refuses, in this order: `NamesMeet`, number 13,
/// where an inner name is in both or an outer name is in both; `SupportMeets`, number 12, where a node or an edge is in
/// both. The regions of both, and the sites of both, are to be fewer than 32 bits can number. Costs time n log n in the
/// size of both, and memory in proportion to it.
pub fn tensor(alloc: Global, f: &Big, g: &Big) -> Result<Big, AlgebraFault>
    requires f_valid { IsValid f.now }
    requires g_valid { IsValid g.now }
    requires regions { f.now.regions + g.now.regions < 2 ^ 32 }
    requires sites { length f.now.sites + length g.now.sites < 2 ^ 32 }
    ensures product { IfOk result (λ whole. whole ≡ product.tensor f.now g.now) }
    ensures defined { OnOk result ((InnerApart f.now g.now × OuterApart f.now g.now) × SupportsApart f.now g.now) }
    ensures names { IsErrOf result AlgebraFault.NamesMeet ↔ ¬ (InnerApart f.now g.now × OuterApart f.now g.now) }
    ensures supports { IsErrOf result AlgebraFault.SupportMeets ↔ ((InnerApart f.now g.now × OuterApart f.now g.now) × ¬ SupportsApart f.now g.now) }
    ensures no_other { IfErr result (λ fault. Contains (AlgebraFault.NamesMeet ∷ AlgebraFault.SupportMeets ∷ AlgebraFault.OutOfMemory ∷ []) fault) }
    ensures valid { IfOk result IsValid }
    ensures fits { (signature : List Control) → IsValidUnder signature f.now → IsValidUnder signature g.now
        → IfOk result (IsValidUnder signature) }
{
    if !names_apart(f, g) {
        return Err(AlgebraFault::NamesMeet);
    }
    if !supports_apart(f, g) {
        return Err(AlgebraFault::SupportMeets);
    }
    Ok(tensor_whole(alloc, f, g)?)
}

/// Whether no inner name and no outer name is in both.
fn names_apart(f: &Big, g: &Big) -> bool
    requires f_valid { IsValid f.now }
    ensures { IsTrue result ↔ (InnerApart f.now g.now × OuterApart f.now g.now) }
{
    inner_apart(f, g) && outer_apart(f, g)
}

/// The tensor product where it is defined.
fn tensor_whole(alloc: Global, f: &Big, g: &Big) -> Mem<Big>
    requires f_valid { IsValid f.now }
    requires g_valid { IsValid g.now }
    requires regions { f.now.regions + g.now.regions < 2 ^ 32 }
    requires sites { length f.now.sites + length g.now.sites < 2 ^ 32 }
    requires inner { InnerApart f.now g.now }
    requires outer { OuterApart f.now g.now }
    requires apart { SupportsApart f.now g.now }
    ensures { IfOk result (λ whole. whole ≡ product.tensor f.now g.now) }
{
    let whole = parallel_whole(alloc, f, g)?;
    Ok(whole)
}

/// The parallel product of two valid bigraphs (Milner, chapter 3): `f` and `g` side by side as in the tensor product,
/// where an outer name that both have is one name.
/// It refuses, in this order: `InnerNamesMeet`, number 14, where an inner name is in both; `SupportMeets`, number 12,
/// where a node or an edge is in both. The regions of both, and the sites of both, are to be fewer than 32 bits can
/// number. Costs time n log n in the size of both, and memory in proportion to it.
pub fn parallel(alloc: Global, f: &Big, g: &Big) -> Result<Big, AlgebraFault>
    requires f_valid { IsValid f.now }
    requires g_valid { IsValid g.now }
    requires regions { f.now.regions + g.now.regions < 2 ^ 32 }
    requires sites { length f.now.sites + length g.now.sites < 2 ^ 32 }
    ensures product { IfOk result (λ whole. whole ≡ product.parallel f.now g.now) }
    ensures defined { OnOk result (InnerApart f.now g.now × SupportsApart f.now g.now) }
    ensures names { IsErrOf result AlgebraFault.InnerNamesMeet ↔ ¬ InnerApart f.now g.now }
    ensures supports { IsErrOf result AlgebraFault.SupportMeets ↔ (InnerApart f.now g.now × ¬ SupportsApart f.now g.now) }
    ensures no_other { IfErr result (λ fault. Contains (AlgebraFault.InnerNamesMeet ∷ AlgebraFault.SupportMeets ∷ AlgebraFault.OutOfMemory ∷ []) fault) }
    ensures valid { IfOk result IsValid }
    ensures fits { (signature : List Control) → IsValidUnder signature f.now → IsValidUnder signature g.now
        → IfOk result (IsValidUnder signature) }
{
    if !inner_apart(f, g) {
        return Err(AlgebraFault::InnerNamesMeet);
    }
    if !supports_apart(f, g) {
        return Err(AlgebraFault::SupportMeets);
    }
    Ok(parallel_whole(alloc, f, g)?)
}

/// The parallel product where it is defined: its places and its links, joined.
pub(crate) fn parallel_whole(alloc: Global, f: &Big, g: &Big) -> Mem<Big>
    requires f_valid { IsValid f.now }
    requires g_valid { IsValid g.now }
    requires regions { f.now.regions + g.now.regions < 2 ^ 32 }
    requires sites { length f.now.sites + length g.now.sites < 2 ^ 32 }
    requires inner { InnerApart f.now g.now }
    requires apart { SupportsApart f.now g.now }
    ensures { IfOk result (λ whole. whole ≡ product.parallel f.now g.now) }
{
    let places = tensor_places(alloc, f, g)?;
    let links = share_links(alloc, f, g)?;
    let controls = controls_of_both(alloc, &f.nodes, &g.nodes)?;
    joined(alloc, places, links, controls.as_slice())
}

/// The merge product of two valid bigraphs (Milner, chapter 3): their parallel product with one region in place of all,
/// also where there was none. It refuses as [`parallel`] does, in the same order,
/// asks as much of their sizes, and costs as much.
pub fn merge(alloc: Global, f: &Big, g: &Big) -> Result<Big, AlgebraFault>
    requires f_valid { IsValid f.now }
    requires g_valid { IsValid g.now }
    requires regions { f.now.regions + g.now.regions < 2 ^ 32 }
    requires sites { length f.now.sites + length g.now.sites < 2 ^ 32 }
    ensures product { IfOk result (λ whole. whole ≡ product.merge f.now g.now) }
    ensures defined { OnOk result (InnerApart f.now g.now × SupportsApart f.now g.now) }
    ensures names { IsErrOf result AlgebraFault.InnerNamesMeet ↔ ¬ InnerApart f.now g.now }
    ensures supports { IsErrOf result AlgebraFault.SupportMeets ↔ (InnerApart f.now g.now × ¬ SupportsApart f.now g.now) }
    ensures no_other { IfErr result (λ fault. Contains (AlgebraFault.InnerNamesMeet ∷ AlgebraFault.SupportMeets ∷ AlgebraFault.OutOfMemory ∷ []) fault) }
    ensures valid { IfOk result IsValid }
    ensures fits { (signature : List Control) → IsValidUnder signature f.now → IsValidUnder signature g.now
        → IfOk result (IsValidUnder signature) }
{
    if !inner_apart(f, g) {
        return Err(AlgebraFault::InnerNamesMeet);
    }
    if !supports_apart(f, g) {
        return Err(AlgebraFault::SupportMeets);
    }
    Ok(merge_whole(alloc, f, g)?)
}

/// The merge product where it is defined.
fn merge_whole(alloc: Global, f: &Big, g: &Big) -> Mem<Big>
    requires f_valid { IsValid f.now }
    requires g_valid { IsValid g.now }
    requires regions { f.now.regions + g.now.regions < 2 ^ 32 }
    requires sites { length f.now.sites + length g.now.sites < 2 ^ 32 }
    requires inner { InnerApart f.now g.now }
    requires apart { SupportsApart f.now g.now }
    ensures { IfOk result (λ whole. whole ≡ product.merge f.now g.now) }
{
    let places = in_one_region(alloc, &tensor_places(alloc, f, g)?)?;
    let links = share_links(alloc, f, g)?;
    let controls = controls_of_both(alloc, &f.nodes, &g.nodes)?;
    joined(alloc, places, links, controls.as_slice())
}
