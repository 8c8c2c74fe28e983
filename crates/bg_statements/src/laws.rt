//! Laws of statements. A call does nothing.
ghost use Rattle.std.specs.Prelude.{◌≡◌, ◌<◌, ◌≤◌, ℕ, List, length, slice_get, Some, Ok};
ghost use Rattle.bg_base.specs.declared.big.Big.{Big};
ghost use Rattle.bg_base.specs.declared.labels.Label.{Label};
ghost use Rattle.bg_base.specs.declared.labels.Value.{Value};
ghost use Rattle.bg_base.specs.declared.signature.Control.{Control};
ghost use Rattle.bg_base.specs.declared.signature.Kind.{Kind};
ghost use Rattle.bg_machine.specs.declared.met.Met.{Met};
ghost use Rattle.bg_statements.specs.Defined.{Defined, visible_with};
ghost use Rattle.bg_statements.specs.Rules.{RuleExpression};
ghost use Rattle.bg_statements.specs.RuleValues.{Setting, whole_value};
ghost use Rattle.bg_statements.specs.Settings.{IsWholeValue};
ghost use Rattle.bg_statements.specs.Sound.{IsSound, nothing};
ghost use Rattle.bg_statements.specs.Statements.{with_control, with_bigraph, with_rule, with_parameter, with_statements};
ghost use Rattle.bg_statements.specs.Uses.{bigraph_used, defined_by, rule_used};
ghost use Rattle.bg_trees.specs.declared.expressions.SynE.{SynE};
ghost use Rattle.bg_trees.specs.declared.models.SynParamsItem.{SynParamsItem};
ghost use Rattle.bg_trees.specs.declared.models.SynStmtsItem.{SynStmtsItem};
ghost use Rattle.bg_trees.specs.declared.statements.SynBigraph.{SynBigraph};
ghost use Rattle.bg_trees.specs.declared.statements.SynControl.{SynControl};
ghost use Rattle.bg_trees.specs.declared.statements.SynParam.{SynParam};
ghost use Rattle.bg_trees.specs.declared.statements.SynReact.{SynReact};
ghost use Rattle.bg_terms.specs.Expansion.{expand, meanings_of};
ghost use Rattle.bg_terms.specs.Expressions.{Expression};
ghost use Rattle.bg_terms.specs.Read.{shapes_of};
ghost use Rattle.bg_terms.specs.Shapes.{FitsShapes};
ghost use Rattle.bg_terms.specs.Trees.{e_read};
ghost use Rattle.bg_terms.specs.Values.{Reached, value};
ghost use Rattle.bg_values.specs.declared.refusal.Cause.TheVariants.{UnknownName};
ghost use Rattle.bg_values.specs.Names.{NamedValue};
ghost use Rattle.bg_values.specs.Outcome.{refused};
ghost use Rattle.bg_values.specs.Scopes.{ScopeParts};

/// What statements define one after the other is sound, from nothing on: no word stands for two controls and no arity
/// is above 16; the signature is one, of these controls with some arguments; there are as many expressions as names, of
/// bigraphs and of rules, and each was read from a tree.
pub fn definitions_stay_sound()
    ensures none { IsSound nothing }
    ensures control { (text : ScopeParts) (kind : Kind) (tree : SynControl) (before after : Defined) → IsSound before
        → with_control text kind tree before ≡ Ok after → IsSound after }
    ensures bigraph { (text : ScopeParts) (tree : SynBigraph) (before after : Defined) → IsSound before
        → with_bigraph text tree before ≡ Ok after → IsSound after }
    ensures rule { (text : ScopeParts) (tree : SynReact) (before after : Defined) → IsSound before
        → with_rule text tree before ≡ Ok after → IsSound after }
    ensures statements { (text : ScopeParts) (items : List SynStmtsItem) (before after : Defined) → IsSound before
        → with_statements text items before ≡ Ok after → IsSound after }
    ensures parameter { (text : ScopeParts) (tree : SynParam) (before after : Defined) → IsSound before
        → with_parameter text tree before ≡ Ok after → IsSound after }
    ensures text { (text : ScopeParts) (statements : List SynStmtsItem) (parameters : List SynParamsItem) (d : Defined)
        → defined_by text statements parameters ≡ Ok d → IsSound d }
{}

/// Behind sound definitions a number that a name has is the number of an expression, so its use is what this expression
/// comes to, and is never refused for want of a definition; the use of a number that no name has is, with 41 at the place
/// of the use.
pub fn numbers_of_names_have_expressions()
    ensures bigraph { (d : Defined) → IsSound d → (number : ℕ) → number < length d.bigraphs
        → (e : Expression) × (slice_get d.expressions number ≡ Some e) }
    ensures rule { (d : Defined) → IsSound d → (number : ℕ) → number < length d.rules
        → (e : RuleExpression) × (slice_get d.rule_expressions number ≡ Some e) }
    ensures no_bigraph { (d : Defined) → IsSound d → (number : ℕ) → length d.bigraphs ≤ number
        → (at : ℕ) (values : List Value) (signature : List Control) → bigraph_used d at number values signature ≡ refused UnknownName at }
    ensures no_rule { (d : Defined) → IsSound d → (number : ℕ) → length d.rules ≤ number
        → (at : ℕ) (label : Label) (class : ℕ) (signature : List Control) → rule_used d at number label class signature ≡ refused UnknownName at }
{}

/// Behind sound definitions, the bigraph that an expression of the text comes to is valid under the signature reached,
/// whose controls are those of the text with some arguments.
pub fn expressions_fit_the_signature_reached()
    ensures { (d : Defined) → IsSound d → (text : ScopeParts) (formals : List (NamedValue (Unit {0}))) (tree : SynE) (expression : Expression)
        → (e_read tree).1 (visible_with text formals d) ≡ Ok expression
        → (env : List Value) (depth nodes edges terms : ℕ) (big : Big) (after : Reached)
        → value depth (expand (shapes_of d.controls) (meanings_of (shapes_of d.controls) d.expressions) env expression)
        (record { signature = d.signature; nodes = nodes; edges = edges; terms = terms }) ≡ Ok (big, after)
        → FitsShapes (shapes_of d.controls) after.signature big }
{}

/// The bigraph of a whole expression has its nodes, and its edges, numbered 0, 1, 2 and so on; it is valid, without
/// idle edges, and within the limits, and its outer names are names that a user wrote.
pub fn whole_values_are_numbered_from_zero()
    ensures { (s : Setting) (e : Expression) (met : Met) (big : Big) (after : Met) → whole_value s e met ≡ Ok (big, after) → IsWholeValue big }
{}
