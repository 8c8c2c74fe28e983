//! What the machine accepts, and where it stops.
ghost use Rattle.std.specs.Prelude.{◌≡◌, ◌<◌, ℕ, List, true};
ghost use Rattle.bg_grammar.specs.Grammar.{Grammar, GrammarStep, kinds_of, IsDerivation, IsSentence};
ghost use Rattle.bg_grammar.specs.Faults.{IsShallow, IsOnlyDerivation, unexpected, too_deep, IsOnlyFault};
ghost use Rattle.bg_grammar.specs.Plan.{Plan, rank, fits};
ghost use Rattle.bg_grammar.specs.Machine.{Accepts, start_of, StopsUnexpected, StopsDeep};
ghost use Rattle.bg_grammar.specs.Trees.{Trees, IsTree, steps_of, AreInTurn, IsOnlyTree};

/// The machine accepts exactly the sentences of the start that have no token too deep, each by the steps of its one
/// derivation.
pub fn the_machine_accepts()
    ensures sound { (g : Grammar) (p : Plan) (most : ℕ) (kinds : List ℕ) (steps : List GrammarStep) → fits g p ≡ true → Accepts g p most kinds steps
        → IsOnlyDerivation g p.start most kinds steps }
    ensures complete { (g : Grammar) (p : Plan) (most : ℕ) (kinds : List ℕ) (steps : List GrammarStep) → fits g p ≡ true → IsDerivation g p.start kinds steps
        → IsShallow most steps → Accepts g p most kinds steps }
{}

/// Where the machine stops stands the first fault: the token, or the end of input, that no sentence has there, or the
/// token that is too deep.
pub fn the_machine_stops()
    ensures at_unexpected { (g : Grammar) (p : Plan) (most : ℕ) (kinds : List ℕ) (t : ℕ) → fits g p ≡ true → StopsUnexpected g p most 0 kinds (start_of p) t
        → IsOnlyFault g p.start most kinds (unexpected t) }
    ensures at_too_deep { (g : Grammar) (p : Plan) (most : ℕ) (kinds : List ℕ) (t : ℕ) → fits g p ≡ true → StopsDeep g p most 0 kinds (start_of p) t
        → IsOnlyFault g p.start most kinds (too_deep t) }
{}

/// Each symbol with a rank has a sentence.
pub fn some_sentence_of_each_symbol()
    ensures { (g : Grammar) (p : Plan) (s : ℕ) → fits g p ≡ true → 0 < rank p s → (kinds : List ℕ) × IsSentence g s kinds }
{}

/// The steps of a tree determine the tree: two trees of one symbol with the same steps are equal, in each alternative,
/// each token and each part.
pub fn steps_determine_trees()
    ensures { (g : Grammar) (s depth : ℕ) (one other : Trees) → IsTree g s one → IsTree g s other → steps_of g depth one ≡ steps_of g depth other → one ≡ other }
{}

/// Derivations are trees: the steps of each derivation are those of exactly one tree of the symbol, and the steps of
/// each tree whose tokens are numbered in a row are a derivation.
pub fn derivations_are_trees()
    ensures one_tree { (g : Grammar) (s : ℕ) (kinds : List ℕ) (steps : List GrammarStep) → IsDerivation g s kinds steps → (tree : Trees) × IsOnlyTree g s steps tree }
    ensures in_turn { (g : Grammar) (s : ℕ) (kinds : List ℕ) (steps : List GrammarStep) → IsDerivation g s kinds steps → AreInTurn 0 steps }
    ensures each_tree { (g : Grammar) (s : ℕ) (tree : Trees) → IsTree g s tree → AreInTurn 0 (steps_of g 0 tree)
        → IsDerivation g s (kinds_of (steps_of g 0 tree)) (steps_of g 0 tree) }
{}
