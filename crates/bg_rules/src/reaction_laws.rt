//! The laws of instances and reactions (Milner, chapter 8). A call does nothing.
ghost use Rattle.std.specs.Prelude.{◌≡◌, ℕ, ◌<◌, ◌≤◌, ◌⊎◌, IsTrue, List, [], length, All};
ghost use Rattle.bg_lists.specs.Lists.{Mem};
ghost use Rattle.bg_base.specs.declared.names.Link.TheVariants.{Edge};
ghost use Rattle.bg_base.specs.declared.big.NodeRow.{NodeRow};
ghost use Rattle.bg_base.specs.declared.big.Big.{Big};
ghost use Rattle.bg_base.specs.declared.signature.Control.{Control};
ghost use Rattle.bg_base.specs.Bigraph.{IsValid, IsGround, IsValidUnder};
ghost use Rattle.bg_base.specs.Elementary.{counted};
ghost use Rattle.bg_base.specs.Translation.{node_numbers};
ghost use Rattle.bg_base.specs.Products.{has_point};
ghost use Rattle.bg_rules.specs.Decomposition.{IsParameter, Decomposes, Occurs};
ghost use Rattle.bg_rules.specs.Hosts.{IsHost};
ghost use Rattle.bg_rules.specs.Instantiation.{part, instantiate, next_after};
ghost use Rattle.bg_rules.specs.Limits.{IsWithinLimits};
ghost use Rattle.bg_rules.specs.Reaction.{HostState, IsNumbered, IsRecomposable, Reacts};
ghost use Rattle.bg_rules.specs.Rules.{RuleParts, IsRule};

/// Each node of a parameter is in the part under one of its regions, and under no other; a part has nothing else.
pub fn parts_of_a_parameter()
    ensures some_part { (parameter : Big) (row : NodeRow) → IsValid parameter → Mem row parameter.nodes
        → (region : ℕ) × (region < parameter.regions) × Mem row (part parameter region) }
    ensures one_part { (parameter : Big) (row : NodeRow) (region other : ℕ) → Mem row (part parameter region)
        → Mem row (part parameter other) → region ≡ other }
    ensures nothing_else { (parameter : Big) (row : NodeRow) (region : ℕ) → Mem row (part parameter region) → Mem row parameter.nodes }
{}

/// An instance of a parameter whose nodes are below the next number is a ground bigraph: no edge, the parameter's outer
/// names, and one region for each entry. Each of its nodes has a number of the parameter or a new one, below the number
/// that is next after it. Where the parameter is valid under a signature, the instance is.
pub fn instances_are_ground()
    ensures ground { (parameter : Big) (entries : List ℕ) (next : ℕ) → IsParameter parameter
        → All (λ (row : NodeRow). row.id < next) parameter.nodes → IsGround (instantiate parameter entries next) }
    ensures no_edges { (parameter : Big) (entries : List ℕ) (next : ℕ) → (instantiate parameter entries next).edges ≡ [] }
    ensures outer { (parameter : Big) (entries : List ℕ) (next : ℕ) → (instantiate parameter entries next).outer ≡ parameter.outer }
    ensures regions { (parameter : Big) (entries : List ℕ) (next : ℕ) → (instantiate parameter entries next).regions ≡ length entries }
    ensures numbers { (parameter : Big) (entries : List ℕ) (next : ℕ) → IsParameter parameter
        → All (λ (row : NodeRow). row.id < next) parameter.nodes
        → All (λ (row : NodeRow). Mem row.id (node_numbers parameter.nodes) ⊎ next ≤ row.id) (instantiate parameter entries next).nodes }
    ensures below { (parameter : Big) (entries : List ℕ) (next : ℕ) → IsParameter parameter
        → All (λ (row : NodeRow). row.id < next) parameter.nodes
        → All (λ (row : NodeRow). row.id < next_after parameter entries next) (instantiate parameter entries next).nodes }
    ensures fits { (signature : List Control) (parameter : Big) (entries : List ℕ) (next : ℕ) → IsParameter parameter
        → All (λ (row : NodeRow). row.id < next) parameter.nodes → IsValidUnder signature parameter
        → IsValidUnder signature (instantiate parameter entries next) }
{}

/// The instance that asks for each part once, in the order of the regions, is the parameter.
pub fn instance_of_all_is_the_parameter()
    ensures { (parameter : Big) (next : ℕ) → IsParameter parameter → All (λ (row : NodeRow). row.id < next) parameter.nodes
        → instantiate parameter (counted 0 parameter.regions) next ≡ parameter }
{}

/// A numbered host reacts by a rule at each occurrence of its redex, and to one result only: the operations that
/// recompose the host are defined, and the result is a numbered ground host again. Where the host and the reactum are
/// valid under a signature, the result is.
pub fn reactions_have_one_result()
    ensures some_result { (host : HostState) (rule : RuleParts) (nodes : List ℕ) → IsNumbered host → IsRule rule
        → Occurs host.big rule.redex nodes → (after : HostState) × Reacts host rule nodes after }
    ensures one_result { (host : HostState) (rule : RuleParts) (nodes : List ℕ) → IsNumbered host → IsRule rule
        → (after other : HostState) → Reacts host rule nodes after → Reacts host rule nodes other → after ≡ other }
    ensures defined { (host : HostState) (rule : RuleParts) (nodes : List ℕ) → IsNumbered host → IsRule rule
        → (context : Big) (edges : List ℕ) (parameter : Big) → Decomposes host.big rule.redex nodes context edges parameter
        → IsRecomposable host rule context parameter }
    ensures numbered { (host : HostState) (rule : RuleParts) (nodes : List ℕ) → IsNumbered host → IsRule rule
        → (after : HostState) → Reacts host rule nodes after → IsNumbered after }
    ensures fits { (signature : List Control) (host : HostState) (rule : RuleParts) (nodes : List ℕ) → IsNumbered host
        → IsRule rule → IsValidUnder signature host.big → IsValidUnder signature rule.reactum
        → (after : HostState) → Reacts host rule nodes after → IsValidUnder signature after.big }
{}

/// A reaction keeps the regions and the outer names of the host, its counters do not fall, and no edge of its result is
/// idle.
pub fn reactions_keep_the_face()
    ensures regions { (host : HostState) (rule : RuleParts) (nodes : List ℕ) (after : HostState) → Reacts host rule nodes after
        → after.big.regions ≡ host.big.regions }
    ensures outer { (host : HostState) (rule : RuleParts) (nodes : List ℕ) (after : HostState) → Reacts host rule nodes after
        → after.big.outer ≡ host.big.outer }
    ensures next_node { (host : HostState) (rule : RuleParts) (nodes : List ℕ) (after : HostState) → Reacts host rule nodes after
        → host.next_node ≤ after.next_node }
    ensures next_edge { (host : HostState) (rule : RuleParts) (nodes : List ℕ) (after : HostState) → Reacts host rule nodes after
        → host.next_edge ≤ after.next_edge }
    ensures edges_used { (host : HostState) (rule : RuleParts) (nodes : List ℕ) (after : HostState) → Reacts host rule nodes after
        → All (λ edge. IsTrue (has_point after.big (Edge edge))) after.big.edges }
{}

/// What a host becomes by a rule is a host again, where it is within the limits. That it is valid under the signature
/// of host and reactum is `fits` of [`reactions_have_one_result`].
pub fn reactions_lead_to_hosts()
    ensures { (before : HostState) (rule : RuleParts) (nodes : List ℕ) (after : HostState) → IsHost before → IsRule rule
        → Reacts before rule nodes after → IsWithinLimits after → IsHost after }
{}
