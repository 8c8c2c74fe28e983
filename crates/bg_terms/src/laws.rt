//! Laws of expressions. A call does nothing.
ghost use Rattle.std.specs.Prelude.{◌≡◌, ◌≤◌, ◌+◌, ◌++◌, ◌∷◌, [], ℕ, true, List, All, IsTrue, length, is_none, Ok};
ghost use Rattle.bg_algebra.specs.Frame.{is_plain};
ghost use Rattle.bg_base.specs.Limits.{most_ports, most_expression_nodes, most_expression_edges, most_expression_places};
ghost use Rattle.bg_base.specs.declared.big.Big.{Big};
ghost use Rattle.bg_base.specs.declared.names.Name.{Name};
ghost use Rattle.bg_lists.specs.Lists.{Mem};
ghost use Rattle.bg_base.specs.declared.labels.Value.{Value};
ghost use Rattle.bg_base.specs.declared.signature.Control.{Control};
ghost use Rattle.bg_base.specs.Bigraph.{IsValid, IsValidUnder};
ghost use Rattle.bg_base.specs.Signatures.{IsSignature};
ghost use Rattle.bg_terms.specs.Arities.{HaveArities, AreOneByLabel};
ghost use Rattle.bg_terms.specs.Expressions.{Expression};
ghost use Rattle.bg_terms.specs.declared.shape.Shape.{Shape};
ghost use Rattle.bg_terms.specs.Expansion.{Meaning, expand, meanings_of, HasNoReference};
ghost use Rattle.bg_terms.specs.Closures.{StandsBehind, IsEvaluatedAt};
ghost use Rattle.bg_trees.specs.declared.expressions.SynE.{SynE};
ghost use Rattle.bg_values.specs.Names.{NamedValue, name_number};
ghost use Rattle.bg_terms.specs.declared.shape.ControlEntry.{ControlEntry};
ghost use Rattle.bg_terms.specs.Read.{shapes_of, IsRead, AreControls, AreRead, RefersBelow};
ghost use Rattle.bg_terms.specs.Trees.{Visible, e_read};
ghost use Rattle.bg_terms.specs.Shapes.{AreShapes, HasPorts, AreOfShapes, FitsShapes};
ghost use Rattle.bg_terms.specs.Terms as terms;
ghost use Rattle.bg_terms.specs.Terms.{Term};
ghost use Rattle.bg_terms.specs.Values.{Reached, value};
ghost use Rattle.bg_terms.specs.Order.{controls_of, AreInOrder};
ghost use Rattle.bg_terms.specs.Numbering.{symbols, closures, AreNumbered, AreEdgesWithin};

/// The nodes of what a term comes to have the numbers in a row from the first that is free, as many as the term has
/// control symbols.
pub fn nodes_are_numbered_in_a_row()
    ensures { (depth : ℕ) (term : Term) (before after : Reached) (big : Big) → value depth term before ≡ Ok (big, after)
        → AreNumbered before.nodes (symbols term) big after }
{}

/// The edges of what a term comes to have numbers from the first that is free on, below the one that lies as many
/// further as the term has closures, and that one is free next: a closure of a name that is not there leaves its number
/// out.
pub fn edges_lie_within_the_closures()
    ensures { (depth : ℕ) (term : Term) (before after : Reached) (big : Big) → value depth term before ≡ Ok (big, after)
        → AreEdgesWithin before.edges (closures term) big after }
{}

/// The nodes of what a term comes to stand in the order of its control symbols: looked up in the signature reached,
/// their labels are, row by row, those of the symbols. That signature begins with the one before.
pub fn nodes_stand_in_the_order_of_the_text()
    ensures { (depth : ℕ) (term : Term) (before after : Reached) (big : Big) → value depth term before ≡ Ok (big, after)
        → AreInOrder before.signature (controls_of term) big after.signature }
{}

/// A closure before which `count` others begin in the order of the text takes the edge number that lies so many behind
/// the first that is free: the evaluation of the term comes to it where that is the first free number, which `value`
/// gives a closure.
pub fn closures_take_edge_numbers_in_the_order_of_the_text()
    ensures { (depth : ℕ) (term : Term) (before after : Reached) (big : Big) → value depth term before ≡ Ok (big, after)
        → (count at : ℕ) (word : List ℕ) (inside : Term) → StandsBehind (terms.closure at word inside) count term
        → IsEvaluatedAt depth term before (terms.closure at word inside) (before.edges + count) }
{}

/// What a term comes to is a valid bigraph.
pub fn values_are_valid()
    ensures { (depth : ℕ) (term : Term) (before after : Reached) (big : Big) → value depth term before ≡ Ok (big, after) → IsValid big }
{}

/// The outer names of what a term comes to are names that a user wrote.
pub fn outer_names_of_values_are_plain()
    ensures { (depth : ℕ) (term : Term) (before after : Reached) (big : Big) → value depth term before ≡ Ok (big, after)
        → All (λ (name : Name). IsTrue (is_plain name)) big.outer }
{}

/// What a term comes to has at most 65,536 nodes, as many edges, as many regions and as many sites.
pub fn values_are_within_the_limits()
    ensures nodes { (depth : ℕ) (term : Term) (before after : Reached) (big : Big) → value depth term before ≡ Ok (big, after)
        → length big.nodes ≤ most_expression_nodes }
    ensures edges { (depth : ℕ) (term : Term) (before after : Reached) (big : Big) → value depth term before ≡ Ok (big, after)
        → length big.edges ≤ most_expression_edges }
    ensures places { (depth : ℕ) (term : Term) (before after : Reached) (big : Big) → value depth term before ≡ Ok (big, after)
        → (big.regions ≤ most_expression_places) × (length big.sites ≤ most_expression_places) }
{}

/// Where each control symbol has as many names as its control has ports, at most 16, and controls with the same label
/// are the same control, in the signature before and in the term: what the term comes to is valid under the signature
/// reached, which is a signature where the one before is.
pub fn values_fit_the_signature_reached()
    ensures fits { (depth : ℕ) (term : Term) (before after : Reached) (big : Big) → value depth term before ≡ Ok (big, after)
        → IsSignature before.signature → HaveArities term → AreOneByLabel (before.signature ++ controls_of term) → IsValidUnder after.signature big }
    ensures signature { (depth : ℕ) (term : Term) (before after : Reached) (big : Big) → value depth term before ≡ Ok (big, after)
        → IsSignature before.signature → HaveArities term → AreOneByLabel (before.signature ++ controls_of term) → IsSignature after.signature }
{}

/// Where no visible control has an arity above 16 and no word stands for two, and each control symbol of an expression
/// and of the definitions before it has as many names as its control has ports: what the expression comes to is valid
/// under the signature reached, and the controls of that signature are visible controls with some arguments, if those
/// before were.
pub fn values_of_expressions_fit_the_visible_controls()
    ensures { (shapes : List Shape) → AreShapes shapes
        → (definitions : List Expression) → ((e : Expression) → Mem e definitions → HasPorts shapes e)
        → (env : List Value) (expression : Expression) → HasPorts shapes expression
        → (depth : ℕ) (before after : Reached) (big : Big) → IsSignature before.signature → AreOfShapes shapes before.signature
        → value depth (expand shapes (meanings_of shapes definitions) env expression) before ≡ Ok (big, after)
        → FitsShapes shapes after.signature big }
{}

/// The expression that a tree is has at each control symbol as many names as its control has ports: of the controls
/// that were visible, and of more behind them.
pub fn expressions_of_trees_have_their_ports()
    ensures at_once { (tree : SynE) (visible : Visible) (expression : Expression) → (e_read tree).1 visible ≡ Ok expression
        → HasPorts (shapes_of visible.controls) expression }
    ensures later { (shapes others : List Shape) (expression : Expression) → HasPorts shapes expression → HasPorts (shapes ++ others) expression }
    ensures read { (shapes : List Shape) (expression : Expression) → IsRead shapes expression → HasPorts shapes expression }
{}

/// A control whose word is not in the table, with an arity of at most 16, may become visible: no word stands for two.
pub fn controls_become_visible_one_by_one()
    ensures none { AreControls [] }
    ensures more { (controls : List (NamedValue ControlEntry)) (word : List ℕ) (entry : ControlEntry) → AreControls controls
        → is_none (name_number word controls) ≡ true → entry.shape.word ≡ word → entry.shape.arity ≤ most_ports → AreControls (controls ++ (word, entry) ∷ []) }
    ensures shapes { (controls : List (NamedValue ControlEntry)) → AreControls controls → AreShapes (shapes_of controls) }
    ensures small { (controls : List (NamedValue ControlEntry)) → AreControls controls → All (λ (shape : Shape). shape.arity ≤ most_ports) (shapes_of controls) }
{}

/// What statements make visible in turn: nothing at first; then a control, whose word is not in the table and whose
/// arity is at most 16, or a definition that is read. An expression that was read stays one as controls follow.
pub fn definitions_are_read_one_by_one()
    ensures none { AreRead [] [] }
    ensures control { (controls : List (NamedValue ControlEntry)) (definitions : List Expression) (word : List ℕ) (entry : ControlEntry)
        → AreRead controls definitions → is_none (name_number word controls) ≡ true → entry.shape.word ≡ word → entry.shape.arity ≤ most_ports
        → AreRead (controls ++ (word, entry) ∷ []) definitions }
    ensures definition { (controls : List (NamedValue ControlEntry)) (definitions : List Expression) (expression : Expression)
        → AreRead controls definitions → IsRead (shapes_of controls) expression → AreRead controls (definitions ++ expression ∷ []) }
    ensures at_once { (tree : SynE) (visible : Visible) (expression : Expression) → (e_read tree).1 visible ≡ Ok expression
        → IsRead (shapes_of visible.controls) expression }
    ensures later { (shapes others : List Shape) (expression : Expression) → IsRead shapes expression → IsRead (shapes ++ others) expression }
{}

/// Where an expression and the definitions before it were each read from a tree under the first ones of the visible
/// controls: what the expression comes to is valid under the signature reached, and the controls of that signature are
/// visible controls with some arguments, if those before were; they stay so as controls follow.
pub fn values_of_trees_fit_the_visible_controls()
    ensures fits { (controls : List (NamedValue ControlEntry)) (definitions : List Expression) → AreRead controls definitions
        → (env : List Value) (expression : Expression) → IsRead (shapes_of controls) expression
        → (depth : ℕ) (before after : Reached) (big : Big) → IsSignature before.signature → AreOfShapes (shapes_of controls) before.signature
        → value depth (expand (shapes_of controls) (meanings_of (shapes_of controls) definitions) env expression) before ≡ Ok (big, after)
        → FitsShapes (shapes_of controls) after.signature big }
    ensures later { (shapes others : List Shape) (signature : List Control) → AreOfShapes shapes signature → AreOfShapes (shapes ++ others) signature }
{}

/// Controls and definitions that follow those which are there leave an expression its term, where its control symbols
/// are of controls that are there and its references to definitions that are there. Those of the expression of a tree
/// are.
pub fn expressions_keep_their_terms()
    ensures controls { (shapes others : List Shape) (definitions : List Expression) → ((e : Expression) → Mem e definitions → HasPorts shapes e)
        → (env : List Value) (expression : Expression) → HasPorts shapes expression
        → expand (shapes ++ others) (meanings_of (shapes ++ others) definitions) env expression
        ≡ expand shapes (meanings_of shapes definitions) env expression }
    ensures definitions { (shapes : List Shape) (definitions others : List Expression) (env : List Value) (expression : Expression)
        → RefersBelow (length definitions) expression
        → expand shapes (meanings_of shapes (definitions ++ others)) env expression
        ≡ expand shapes (meanings_of shapes definitions) env expression }
    ensures references { (tree : SynE) (visible : Visible) (expression : Expression) → (e_read tree).1 visible ≡ Ok expression
        → RefersBelow (length visible.bigraphs) expression }
{}

/// An expression without references expands to one term, whatever bigraphs are defined.
pub fn expressions_without_references_stand_alone()
    ensures { (shapes : List Shape) (meanings others : List Meaning) (env : List Value) (expression : Expression)
        → HasNoReference expression → expand shapes meanings env expression ≡ expand shapes others env expression }
{}
