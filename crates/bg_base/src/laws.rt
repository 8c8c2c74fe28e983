//! What the check of a bigraph names, and what comparisons tell.
ghost use Rattle.std.specs.Prelude.{◌≡◌, ℕ, Some, List};
ghost use Rattle.bg_base.specs.declared.big.Big.{Big};
ghost use Rattle.bg_base.specs.declared.check.Part.{Part};
ghost use Rattle.bg_base.specs.declared.signature.Control.{Control};
ghost use Rattle.bg_base.specs.Equality.{TellsTheSame, bigraphs_equal, signatures_equal};
ghost use Rattle.bg_base.specs.Faults.{fault_of};
ghost use Rattle.bg_base.specs.RowRules.{IsFirstFault};

/// The row that [`Big::check`](crate::Big::check) names breaks the rule of the code that it names and none of a lesser
/// code, and no row before it breaks any.
pub fn named_rows_are_first_faults()
    ensures { (signature : List Control) (big : Big) (part : Part) (row code : ℕ) → fault_of signature big ≡ Some (part, row, code)
        → IsFirstFault signature big part row code }
{}

/// `==` holds of two bigraphs exactly where they are the same, row by row.
pub fn equal_bigraphs_are_the_same()
    ensures { TellsTheSame bigraphs_equal }
{}

/// `==` holds of two signatures exactly where they have the same controls in the same order.
pub fn equal_signatures_are_the_same()
    ensures { TellsTheSame signatures_equal }
{}
