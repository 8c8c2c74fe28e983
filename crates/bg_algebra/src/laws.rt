//! The laws of the algebra (Milner, chapters 2 and 3), which a reader may rely on and other crates cite. A call does
//! nothing. They hold of rows with their numbers, as equalities. What numbers break: the products are not commutative,
//! since the sites and regions of the second operand come after those of the first.
ghost use Rattle.std.specs.Prelude.{◌≡◌, ◌+◌, ℕ, [], List, length, IsTrue, IsSome, IsNone, All};
ghost use Rattle.std.specs.List.{IsDistinct};
ghost use Rattle.std.specs.List.Sorted.{IsStrictlySortedBy};
ghost use Rattle.std.specs.Ordering.{nat_cmp, eq_by_cmp};
ghost use Rattle.bg_base.specs.declared.names.Name.{Name};
ghost use Rattle.bg_base.specs.declared.big.Big.{Big};
ghost use Rattle.bg_base.specs.Order.{name_cmp};
ghost use Rattle.bg_base.specs.Bigraph.{IsValid, outer_of, edge_of};
ghost use Rattle.bg_base.specs.Composition.{compose, inner_names, FacesAgree, SupportsApart};
ghost use Rattle.bg_base.specs.Elementary.{identity, empty, merger, barren, ion, atom};
ghost use Rattle.bg_base.specs.Translation.{rename};
ghost use Rattle.bg_base.specs.Products.{tensor, parallel, merge, nest, close, InnerApart, OuterApart};
ghost use Rattle.bg_algebra.specs.Closure.{closure, names_without};
ghost use Rattle.bg_algebra.specs.Frame.{is_plain, is_port, framed};
ghost use Rattle.bg_algebra.specs.Laws.{Apart};

/// Composition is associative where it is defined.
pub fn composition_is_associative()
    ensures { (h g f : Big) → IsValid h → IsValid g → IsValid f → FacesAgree h g → FacesAgree g f
        → SupportsApart h g → SupportsApart g f → SupportsApart h f
        → compose h (compose g f) ≡ compose (compose h g) f }
{}

/// Identities are neutral for composition, above and below.
pub fn identities_are_neutral()
    ensures above { (f : Big) → IsValid f → compose (identity f.regions f.outer) f ≡ f }
    ensures below { (f : Big) → IsValid f → compose f (identity (length f.sites) (inner_names f.inner)) ≡ f }
{}

/// The tensor product is associative where it is defined.
pub fn tensor_is_associative()
    ensures { (f g h : Big) → IsValid f → IsValid g → IsValid h → Apart f g → Apart f h → Apart g h
        → tensor f (tensor g h) ≡ tensor (tensor f g) h }
{}

/// The empty bigraph is neutral for the tensor product, on both sides.
pub fn empty_is_neutral()
    ensures left { (f : Big) → IsValid f → tensor empty f ≡ f }
    ensures right { (f : Big) → IsValid f → tensor f empty ≡ f }
{}

/// Composition and tensor product interchange: G over F, beside H over E.
pub fn composition_and_tensor_interchange()
    ensures { (g h f e : Big) → IsValid g → IsValid h → IsValid f → IsValid e → FacesAgree g f → FacesAgree h e → Apart g h → Apart f e
        → SupportsApart g f → SupportsApart g e → SupportsApart h f → SupportsApart h e
        → compose (tensor g h) (tensor f e) ≡ tensor (compose g f) (compose h e) }
{}

/// Where no outer name is in both, the tensor product is the parallel product.
pub fn tensor_is_parallel()
    ensures { (f g : Big) → IsValid f → IsValid g → OuterApart f g → tensor f g ≡ parallel f g }
{}

/// The merge product is a composition: the merger of all regions, beside the identity on the outer names, over the
/// parallel product. It holds of no regions too. The composition is defined wherever the product is.
pub fn merging_is_a_composition()
    ensures value { (f g : Big) → IsValid f → IsValid g → InnerApart f g → SupportsApart f g
        → merge f g ≡ compose (parallel (merger (f.regions + g.regions)) (identity 0 (parallel f g).outer)) (parallel f g) }
    ensures faces { (f g : Big) → IsValid f → IsValid g → InnerApart f g → SupportsApart f g
        → FacesAgree (parallel (merger (f.regions + g.regions)) (identity 0 (parallel f g).outer)) (parallel f g) }
    ensures supports { (f g : Big) → IsValid f → IsValid g → InnerApart f g → SupportsApart f g
        → SupportsApart (parallel (merger (f.regions + g.regions)) (identity 0 (parallel f g).outer)) (parallel f g) }
{}

/// Closing a name is a composition: the closure of the name, beside the identity on all else, over the bigraph. The
/// closure is valid, its product with the identity is defined, and so is the composition where `close` is: where the
/// name is an outer name and the edge is new.
pub fn closing_is_a_composition()
    ensures closure_valid { (name : Name) (edge : ℕ) → IsValid (closure name edge) }
    ensures value { (f : Big) (name : Name) (edge : ℕ) → IsValid f
        → close f name edge ≡ compose (tensor (identity f.regions (names_without name f.outer)) (closure name edge)) f }
    ensures parts { (f : Big) (name : Name) (edge : ℕ) → IsValid f
        → Apart (identity f.regions (names_without name f.outer)) (closure name edge) }
    ensures faces { (f : Big) (name : Name) (edge : ℕ) → IsValid f → IsSome (outer_of f.outer name)
        → FacesAgree (tensor (identity f.regions (names_without name f.outer)) (closure name edge)) f }
    ensures supports { (f : Big) (name : Name) (edge : ℕ) → IsValid f → IsNone (edge_of f.edges edge)
        → SupportsApart (tensor (identity f.regions (names_without name f.outer)) (closure name edge)) f }
{}

/// A barren region is neutral for the merge product, on both sides, of a bigraph with one region.
pub fn barren_is_neutral_for_merging()
    ensures right { (f : Big) → IsValid f → f.regions ≡ 1 → merge f barren ≡ f }
    ensures left { (f : Big) → IsValid f → f.regions ≡ 1 → merge barren f ≡ f }
{}

/// An ion with a barren region nested in it is an atom; names may repeat.
pub fn a_filled_ion_is_an_atom()
    ensures { (control node : ℕ) (names : List Name) → nest (ion control node names) barren ≡ atom control node names }
{}

/// A pattern without inner names and with plain outer names, renumbered, beside the identity on names of ports, is one
/// explicit bigraph.
pub fn frame_is_explicit()
    ensures { (pattern : Big) (nodes edges : List ℕ) (names : List Name) → IsValid pattern → pattern.inner ≡ []
        → All (λ name. IsTrue (is_plain name)) pattern.outer → length pattern.nodes ≡ length nodes → length pattern.edges ≡ length edges
        → IsDistinct (eq_by_cmp nat_cmp) nodes → IsDistinct (eq_by_cmp nat_cmp) edges
        → IsStrictlySortedBy name_cmp names → All (λ name. IsTrue (is_port name)) names
        → tensor (rename pattern nodes edges) (identity 0 names) ≡ framed pattern nodes edges names }
{}
