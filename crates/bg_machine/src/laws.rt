//! Laws of the machine. A call does nothing.
ghost use Rattle.std.specs.Prelude.{◌≡◌, List, length, map};
ghost use Rattle.bg_base.specs.Bigraph.{IsValid};
ghost use Rattle.bg_base.specs.Elementary.{counted};
ghost use Rattle.bg_base.specs.Products.{lean};
ghost use Rattle.bg_base.specs.Translation.{node_numbers};
ghost use Rattle.bg_base.specs.declared.big.Big.{Big};
ghost use Rattle.bg_machine.specs.Whole.{whole};
ghost use Rattle.bg_base.specs.declared.labels.Value.{Value};
ghost use Rattle.bg_code.specs.Code.{code_of};
ghost use Rattle.bg_machine.specs.States.{State};
ghost use Rattle.bg_machine.specs.Machine.{run, running_of, comes_to};
ghost use Rattle.bg_terms.specs.declared.shape.Shape.{Shape};
ghost use Rattle.bg_terms.specs.Expansion.{expand, meanings_of};
ghost use Rattle.bg_terms.specs.Expressions.{Expression};

/// The code of an expression leaves on the stack what the expression's term comes to, where the definitions before it
/// stand as their codes, and the rest of the state as far as the term's evaluation has come; or it is refused as the
/// term is.
pub fn code_comes_to_the_value_of_its_expression()
    ensures { (shapes : List Shape) (definitions : List Expression) (env : List Value) (expression : Expression) (state : State)
        → run shapes (running_of shapes (map code_of definitions)) env (code_of expression) state
        ≡ comes_to state (expand shapes (meanings_of shapes definitions) env expression) }
{}

/// The nodes of a whole expression have the numbers that they had, and its edges are numbered 0, 1, 2 and so on.
pub fn edges_of_a_whole_expression_are_numbered_in_a_row()
    ensures nodes { (big : Big) → IsValid big → node_numbers (whole big).nodes ≡ node_numbers big.nodes }
    ensures edges { (big : Big) → (whole big).edges ≡ counted 0 (length (lean big).edges) }
{}
