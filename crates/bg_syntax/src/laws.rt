//! Typed trees are derivation trees, and their steps determine them.
ghost use Rattle.std.specs.Prelude.{◌≡◌, ℕ, List};
ghost use Rattle.bg_text.specs.declared.token.Token.{Token};
ghost use Rattle.bg_grammar.specs.Trees.{IsTree, steps_of};
ghost use Rattle.bg_syntax.specs.declared.symbol.Symbol.TheVariants as symbols;
ghost use Rattle.bg_trees.specs.declared.models.SynModel.{SynModel};
ghost use Rattle.bg_syntax.specs.Numbers.{symbol_number};
ghost use Rattle.bg_syntax.specs.Grammar.{grammar};
ghost use Rattle.bg_syntax.specs.ModelsSteps.{model_steps};
ghost use Rattle.bg_syntax.specs.Models.{IsTreeOf, tree_of};

/// A tree of a model is a derivation tree of `Model` by the grammar, and has its steps.
pub fn models_are_derivation_trees()
    ensures by_grammar { (model : SynModel) → IsTree grammar (symbol_number symbols.Model) (tree_of model) }
    ensures same_steps { (model : SynModel) (depth : ℕ) → steps_of grammar depth (tree_of model) ≡ model_steps model depth }
{}

/// The steps of a tree determine it: two trees with the same steps are the same in each alternative, token and part,
/// and differ at most in the addresses of boxes.
pub fn steps_determine_models()
    ensures { (depth : ℕ) (one other : SynModel) → model_steps one depth ≡ model_steps other depth → tree_of one ≡ tree_of other }
{}

/// Tokens determine the tree: two trees of the same tokens are the same in each alternative, token and part.
pub fn tokens_have_one_tree()
    ensures { (tokens : List Token) (one other : SynModel) → IsTreeOf tokens one → IsTreeOf tokens other → tree_of one ≡ tree_of other }
{}
