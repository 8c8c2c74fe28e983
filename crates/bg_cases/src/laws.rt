//! Why occurrences are defined as they are. A call does nothing.
ghost use Rattle.std.specs.Prelude.{◌≡◌, ◌↔◌, ℕ, List, []};
ghost use Rattle.bg_base.specs.declared.big.Big.{Big};
ghost use Rattle.bg_base.specs.Bigraph.{IsValid, IsGround};
ghost use Rattle.bg_base.specs.Elementary.{empty};
ghost use Rattle.bg_rules.specs.Solid.{IsPattern};
ghost use Rattle.bg_rules.specs.Decomposition.{IsParameter, Decomposes};
ghost use Rattle.bg_rules.specs.LocalConditions.{MeetsLocally};
ghost use Rattle.bg_cases.specs.Conditions.{LocalCondition, MeetsCondition, OnlyFails};
ghost use Rattle.bg_cases.specs.Clauses.{PatternClause, some_node_there, HasClause, OnlyLacks};
ghost use Rattle.bg_cases.specs.Parts.{OnlyRows};

/// The local conditions are these eight, and each is needed: for each there are a ground host, a pattern and nodes at which
/// all the others are met and it alone is not, and the pattern does not occur there.
pub fn each_local_condition_is_needed()
    ensures conditions { (host pattern : Big) (nodes : List ℕ)
        → (MeetsLocally host pattern nodes ↔ ((condition : LocalCondition) → MeetsCondition host pattern nodes condition)) }
    ensures needed { (condition : LocalCondition) → (host : Big) × (pattern : Big) × (nodes : List ℕ) × OnlyFails host pattern nodes condition }
{}

/// A pattern is a valid bigraph with these eight clauses, and each is needed but that there is a node: for each there is a
/// valid bigraph that meets all the others, and a ground host in which it has two decompositions at the same nodes, or
/// meets the local conditions where it does not occur.
pub fn each_clause_of_a_pattern_is_needed()
    ensures clauses { (big : Big) → (IsPattern big ↔ (IsValid big × ((clause : PatternClause) → HasClause big clause))) }
    ensures needed { (clause : PatternClause) → (clause ≡ some_node_there → ⊥)
        → (host : Big) × (pattern : Big) × (nodes : List ℕ) × OnlyLacks host pattern nodes clause }
{}

/// The empty bigraph has all clauses of a pattern but that there is a node. Each ground host has one decomposition by it:
/// the host is the context, and the parameter is empty.
pub fn the_empty_bigraph_decomposes_each_host_once()
    ensures clauses { (clause : PatternClause) → (clause ≡ some_node_there → ⊥) → HasClause empty clause }
    ensures some { (host : Big) → IsGround host → Decomposes host empty [] host [] empty }
    ensures one { (host context : Big) (edges : List ℕ) (parameter : Big) → Decomposes host empty [] context edges parameter
        → (context ≡ host) × (edges ≡ []) × (parameter ≡ empty) }
{}

/// That context and parameter are valid is needed: with a parameter that is not, or with a context that is not, all fits
/// together and makes a host row for row in which the pattern does not occur.
pub fn valid_parts_are_needed()
    ensures parameter { (host : Big) × (pattern : Big) × (nodes : List ℕ) × (context : Big) × (edges : List ℕ) × (parameter : Big)
        × IsValid context × (IsValid parameter → ⊥) × OnlyRows host pattern nodes context edges parameter }
    ensures context { (host : Big) × (pattern : Big) × (nodes : List ℕ) × (context : Big) × (edges : List ℕ) × (parameter : Big)
        × (IsValid context → ⊥) × IsParameter parameter × OnlyRows host pattern nodes context edges parameter }
{}
