//! The theorem on which the engine stands, and what follows from it. A call does nothing.
ghost use Rattle.std.specs.Prelude.{◌≡◌, ◌↔◌, ◌++◌, ℕ, IsTrue, Some, List, length};
ghost use Rattle.bg_base.specs.declared.names.Place.TheVariants.{Node};
ghost use Rattle.bg_base.specs.declared.big.Big.{Big};
ghost use Rattle.bg_base.specs.Bigraph.{IsValid, IsGround};
ghost use Rattle.bg_base.specs.Composition.{compose, inner_names};
ghost use Rattle.bg_place.specs.Places.{places_of, is_within, is_ancestor};
ghost use Rattle.bg_rules.specs.Solid.{IsSolid, IsPattern, SolidClause, IsLeastUnsolid, unsolid_clause};
ghost use Rattle.bg_rules.specs.Decomposition.{frame, Decomposes, Occurs};
ghost use Rattle.bg_rules.specs.LocalConditions.{Meets, MeetsLocally};
ghost use Rattle.bg_rules.specs.Occurrences.{AreOccurrences};
ghost use Rattle.bg_rules.specs.Parting.{ArePartsOf};

/// Occurrences are the local conditions: a pattern occurs at some nodes of a ground host, that is, some context and
/// some discrete parameter compose with it to the host, exactly where these nodes meet the local conditions.
pub fn occurrences_are_local()
    ensures { (host pattern : Big) (nodes : List ℕ) → IsPattern pattern → IsGround host
        → (MeetsLocally host pattern nodes ↔ Occurs host pattern nodes) }
{}

/// There is one decomposition at most: two at the same nodes have one context, the same edges and one parameter.
pub fn decompositions_are_unique()
    ensures { (host pattern : Big) (nodes : List ℕ) (context other_context : Big) (edges other_edges : List ℕ) (parameter other_parameter : Big)
        → IsPattern pattern → IsGround host
        → Decomposes host pattern nodes context edges parameter → Decomposes host pattern nodes other_context other_edges other_parameter
        → (context ≡ other_context) × (edges ≡ other_edges) × (parameter ≡ other_parameter) }
{}

/// Of a pattern and a ground host there is a list of all occurrences, each once, in dictionary order; of any two
/// bigraphs there is one at most.
pub fn occurrences_have_one_list()
    ensures some { (host pattern : Big) → IsPattern pattern → IsGround host → (maps : List (List ℕ)) × AreOccurrences host pattern maps }
    ensures one { (host pattern : Big) (maps others : List (List ℕ)) → AreOccurrences host pattern maps → AreOccurrences host pattern others → maps ≡ others }
{}

/// What decomposes is ground: what lies in the context, that is the pattern with the parameter in it, and the host. The
/// context has the regions and the outer names of the host. Of a pattern the context has a site for each region, and an
/// inner name for each outer name, then one for each port of the parameter; the parameter has a region for each site.
pub fn a_decomposition_is_ground()
    ensures inside { (host pattern : Big) (nodes : List ℕ) (context : Big) (edges : List ℕ) (parameter : Big)
        → Decomposes host pattern nodes context edges parameter → IsGround (compose (frame pattern nodes edges parameter.outer) parameter) }
    ensures whole { (host pattern : Big) (nodes : List ℕ) (context : Big) (edges : List ℕ) (parameter : Big)
        → Decomposes host pattern nodes context edges parameter → IsGround host }
    ensures regions { (host pattern : Big) (nodes : List ℕ) (context : Big) (edges : List ℕ) (parameter : Big)
        → Decomposes host pattern nodes context edges parameter → context.regions ≡ host.regions }
    ensures outer { (host pattern : Big) (nodes : List ℕ) (context : Big) (edges : List ℕ) (parameter : Big)
        → Decomposes host pattern nodes context edges parameter → context.outer ≡ host.outer }
    ensures sites { (host pattern : Big) (nodes : List ℕ) (context : Big) (edges : List ℕ) (parameter : Big)
        → IsPattern pattern → Decomposes host pattern nodes context edges parameter → length context.sites ≡ pattern.regions }
    ensures names { (host pattern : Big) (nodes : List ℕ) (context : Big) (edges : List ℕ) (parameter : Big)
        → IsPattern pattern → Decomposes host pattern nodes context edges parameter
        → inner_names context.inner ≡ pattern.outer ++ parameter.outer }
    ensures parts { (host pattern : Big) (nodes : List ℕ) (context : Big) (edges : List ℕ) (parameter : Big)
        → IsPattern pattern → Decomposes host pattern nodes context edges parameter → parameter.regions ≡ length pattern.sites }
{}

/// Context, pattern and parameter are the parts of a host that decomposes. Each node of the host is in exactly one of
/// the three, the images being those of the pattern, and these have no other; each edge is one of the context or an
/// image. A node of the context has the row that it has in the host; the image of a node, and a node of the parameter,
/// have the control of that node, and the place and the links that the context gives to its own.
pub fn a_decomposition_parts_the_host()
    ensures { (host pattern : Big) (nodes : List ℕ) (context : Big) (edges : List ℕ) (parameter : Big) → IsPattern pattern
        → Decomposes host pattern nodes context edges parameter → ArePartsOf host pattern nodes context edges parameter }
{}

/// Going up from a node of a valid bigraph, what is met is the node itself and its proper ancestors.
pub fn meeting_is_ancestry()
    ensures within { (big : Big) (node other : ℕ) → IsValid big
        → (Meets big.nodes node (Node other) ↔ IsTrue (is_within (places_of big).parents node other)) }
    ensures above { (big : Big) (node other : ℕ) → IsValid big → (node ≡ other → ⊥)
        → (Meets big.nodes node (Node other) ↔ IsTrue (is_ancestor (places_of big) node other)) }
{}

/// A bigraph is solid exactly where each of the six clauses holds; the number that [`first_unsolid`](crate::first_unsolid)
/// and [`unsolid_clause`](crate::unsolid_clause) tell is that of the least clause that fails.
pub fn solid_clauses_have_numbers()
    ensures all { (big : Big) → (IsSolid big ↔ ((number : ℕ) → SolidClause big number)) }
    ensures least { (big : Big) (number : ℕ) → ((unsolid_clause big ≡ Some number) ↔ IsLeastUnsolid big number) }
{}
