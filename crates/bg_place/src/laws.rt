//! Laws of places that a reader may rely on. A call does nothing.
ghost use Rattle.std.specs.Prelude.{◌≡◌, ◌≤◌, ◌+◌, ℕ, Some, length, [], false};
ghost use Rattle.bg_base.specs.declared.names.Place.{Place as PlaceOfNode};
ghost use Rattle.bg_base.specs.declared.names.Place.TheVariants.{Node, Region};
ghost use Rattle.bg_base.specs.declared.big.Big.{Big};
ghost use Rattle.bg_base.specs.Bigraph.{IsValid, has_place};
ghost use Rattle.bg_place.specs.Places as defined;

/// No climb is cut off: in a valid bigraph the nodes that are met from where a node lies are its ancestors, for every
/// number of moves that is at least the number of nodes.
pub fn climbs_reach_regions()
    ensures { (big : Big) → IsValid big → (node moves : ℕ) (place : PlaceOfNode) → defined.parent_of (defined.places_of big) node ≡ Some place
        → length big.nodes ≤ moves
        → defined.climb (defined.places_of big).parents moves place ≡ defined.ancestors_in (defined.places_of big).parents node }
{}

/// A place that is not there has no children and no sites.
pub fn places_not_there_are_empty()
    ensures children { (big : Big) (place : PlaceOfNode) → IsValid big → has_place big place ≡ false
        → defined.children_of (defined.places_of big) place ≡ [] }
    ensures sites { (big : Big) (place : PlaceOfNode) → IsValid big → has_place big place ≡ false
        → defined.child_sites_of (defined.places_of big) place ≡ [] }
{}

/// A node that lies in a region has depth 0; one that lies in a node is one deeper than that node.
pub fn depths_count_from_regions()
    ensures in_a_region { (big : Big) (node region : ℕ) → defined.parent_of (defined.places_of big) node ≡ Some (Region region)
        → defined.depth_of (defined.places_of big) node ≡ 0 }
    ensures in_a_node { (big : Big) → IsValid big → (node upper : ℕ) → defined.parent_of (defined.places_of big) node ≡ Some (Node upper)
        → defined.depth_of (defined.places_of big) node ≡ defined.depth_of (defined.places_of big) upper + 1 }
{}
