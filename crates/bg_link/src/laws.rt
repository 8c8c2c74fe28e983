//! Laws of links that a reader may rely on. A call does nothing.
ghost use Rattle.std.specs.Prelude.{◌≡◌, [], false};
ghost use Rattle.bg_base.specs.declared.names.Link.{Link as LinkOfPoint};
ghost use Rattle.bg_base.specs.declared.big.Big.{Big};
ghost use Rattle.bg_base.specs.Bigraph.{IsValid, has_link};
ghost use Rattle.bg_link.specs.Links as defined;

/// A link that is not there has no points.
pub fn links_not_there_are_empty()
    ensures { (big : Big) (link : LinkOfPoint) → IsValid big → has_link big link ≡ false
        → defined.points_of (defined.links_of big) link ≡ [] }
{}
