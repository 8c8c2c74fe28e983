//! Composition of concrete bigraphs.
ghost use Rattle.std.specs.Prelude.{◌≡◌, ◌↔◌, List, [], ◌∷◌, IfOk, IfErr, OnOk, IsErrOf, Contains};
ghost use Rattle.bg_base.specs.declared.signature.Control.{Control};
ghost use Rattle.bg_base.specs.Bigraph.{IsValid, IsValidUnder};
ghost use Rattle.bg_base.specs.Composition.{FacesAgree, SupportsApart, compose as composition};

use crate::AlgebraFault;
use crate::conditions::{faces_agree, supports_apart};
use crate::halves::{controls_of_both, joined};
use bg_base::Big;
use bg_link::compose_links;
use bg_lists::Mem;
use bg_place::compose_places;
use std::alloc::Global;

/// The composition of two valid bigraphs, `g` above and `f` below (Milner, chapter 2): what lies in region `j` of `f`
/// comes to lie where site `j` of `g` lies, and what is tied to outer name `y` of `f` is tied to the link of inner
/// name `y` of `g`. Nodes and edges keep their numbers; an edge stays even where nothing is tied to it.
/// It refuses, in this order: `FacesDiffer`, number 11, where `f` has not as many regions as `g` has sites or the outer
/// names of `f` are not the inner names of `g`; `SupportMeets`, number 12, where a node or an edge is in both.
/// Costs time n log n in the size of both and of the result, and memory in proportion to them. Each port of `f` gets a
/// copy of the name that its link becomes, so long names of `g` at many ports of `f` make a large result.
pub fn compose(alloc: Global, g: &Big, f: &Big) -> Result<Big, AlgebraFault>
    requires g_valid { IsValid g.now }
    requires f_valid { IsValid f.now }
    ensures composed { IfOk result (λ whole. whole ≡ composition g.now f.now) }
    ensures defined { OnOk result (FacesAgree g.now f.now × SupportsApart g.now f.now) }
    ensures faces { IsErrOf result AlgebraFault.FacesDiffer ↔ ¬ FacesAgree g.now f.now }
    ensures supports { IsErrOf result AlgebraFault.SupportMeets ↔ (FacesAgree g.now f.now × ¬ SupportsApart g.now f.now) }
    ensures no_other { IfErr result (λ fault. Contains (AlgebraFault.FacesDiffer ∷ AlgebraFault.SupportMeets ∷ AlgebraFault.OutOfMemory ∷ []) fault) }
    ensures valid { IfOk result IsValid }
    ensures fits { (signature : List Control) → IsValidUnder signature g.now → IsValidUnder signature f.now
        → IfOk result (IsValidUnder signature) }
{
    if !faces_agree(g, f) {
        return Err(AlgebraFault::FacesDiffer);
    }
    if !supports_apart(g, f) {
        return Err(AlgebraFault::SupportMeets);
    }
    Ok(whole(alloc, g, f)?)
}

/// The composition where it is defined: its places and its links, joined.
pub(crate) fn whole(alloc: Global, g: &Big, f: &Big) -> Mem<Big>
    requires g_valid { IsValid g.now }
    requires f_valid { IsValid f.now }
    requires faces { FacesAgree g.now f.now }
    requires apart { SupportsApart g.now f.now }
    ensures { IfOk result (λ whole. whole ≡ composition g.now f.now) }
{
    let places = compose_places(alloc, g, f)?;
    let links = compose_links(alloc, g, f)?;
    let controls = controls_of_both(alloc, &g.nodes, &f.nodes)?;
    joined(alloc, places, links, controls.as_slice())
}
