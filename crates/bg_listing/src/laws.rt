//! What acceptance and refusal of a listing mean of the whole text. A call does nothing.
ghost use Rattle.std.specs.Prelude.{◌≡◌, ◌<◌, ◌≤◌, ◌↔◌, ◌++◌, List, ℕ, Ok, Err, drop, IsTrue};
ghost use Rattle.bg_base.specs.declared.signature.Control.{Control};
ghost use Rattle.bg_base.specs.declared.big.Big.{Big};
ghost use Rattle.bg_base.specs.Signatures.{IsSignature};
ghost use Rattle.bg_listing.specs.declared.cursor.Cursor.{Cursor};
ghost use Rattle.bg_listing.specs.Spelling.{signature_text, big_text};
ghost use Rattle.bg_listing.specs.Limits.{IsReadableSignature, IsReadableBig};
ghost use Rattle.bg_listing.specs.Verdict.{IsAt, ListingRefusal, signature_verdict, big_verdict};
ghost use Rattle.bg_listing.specs.RowLines.{IsToldAtControl, IsToldAtRow};
ghost use Rattle.bg_listing.specs.Stops.{StopsAtLine, HasText, NoneFromLine, AreListed, listed_text, IsListed, is_settled};

/// The verdict on a text is a value exactly where the listing of that value, a signature or a bigraph within the
/// limits, stands at the cursor with this rest behind it.
pub fn accepted_texts_are_the_listings()
    ensures signatures { (bytes : List ℕ) (at : Cursor) (controls : List Control) (rest : List ℕ)
        → (signature_verdict bytes at ≡ Ok (controls, rest)) ↔ (IsReadableSignature controls × (drop at.offset bytes ≡ signature_text controls ++ rest)) }
    ensures bigraphs { (signature : List Control) → IsSignature signature → (bytes : List ℕ) (at : Cursor) (big : Big) (rest : List ℕ)
        → (big_verdict signature bytes at ≡ Ok (big, rest)) ↔ (IsReadableBig signature big × (drop at.offset bytes ≡ big_text signature big ++ rest)) }
{}

/// Where a text is refused, whatever the code and the line, no listing stands at the cursor, whatever follows it.
pub fn refused_texts_are_no_listings()
    ensures signatures { (bytes : List ℕ) (at : Cursor) (refusal : ListingRefusal) → signature_verdict bytes at ≡ Err refusal
        → (controls : List Control) (rest : List ℕ) → IsReadableSignature controls → ¬ (drop at.offset bytes ≡ signature_text controls ++ rest) }
    ensures bigraphs { (signature : List Control) → IsSignature signature → (bytes : List ℕ) (at : Cursor) (refusal : ListingRefusal) → big_verdict signature bytes at ≡ Err refusal
        → (big : Big) (rest : List ℕ) → IsReadableBig signature big → ¬ (drop at.offset bytes ≡ big_text signature big ++ rest) }
{}

/// A text is refused with code 1 or 2 exactly at the line at which it stops being a listing: the lines before it, from
/// the cursor on, begin the listing of some value within the limits, and no such listing begins with these lines and
/// that of the refusal, whatever follows them. Where the input ends in the line of the refusal, that line is all that
/// is left.
///
/// The value may break rules, as by a label that stands twice, and a bigraph may have the controls of any list: the
/// first pass asks for none of this, so the lines before need not begin the listing of a valid value.
pub fn a_text_stops_being_a_listing_at_its_refused_line()
    ensures signatures { (bytes : List ℕ) (at : Cursor) → IsAt bytes at → (line : ℕ)
        → ((code : ℕ) × (code ≤ 2) × (signature_verdict bytes at ≡ Err (code, line))) ↔ StopsAtLine signature_text AreListed bytes at line }
    ensures bigraphs { (signature : List Control) (bytes : List ℕ) (at : Cursor) → IsAt bytes at → (line : ℕ)
        → ((code : ℕ) × (code ≤ 2) × (big_verdict signature bytes at ≡ Err (code, line))) ↔ StopsAtLine listed_text IsListed bytes at line }
{}

/// Where a text is refused with another code, the listing of some value within the limits stands at the cursor.
pub fn a_text_that_breaks_a_rule_has_the_form_of_a_listing()
    ensures signatures { (bytes : List ℕ) (at : Cursor) (code line : ℕ) → 2 < code → signature_verdict bytes at ≡ Err (code, line)
        → HasText signature_text AreListed (drop at.offset bytes) }
    ensures bigraphs { (signature : List Control) (bytes : List ℕ) (at : Cursor) (code line : ℕ) → 2 < code → big_verdict signature bytes at ≡ Err (code, line)
        → HasText listed_text IsListed (drop at.offset bytes) }
{}

/// A text is refused with a code above 2 exactly where the listing of some value within the limits stands at the
/// cursor, and a row of it breaks a rule. The code is that of the first such row, and the line is this very row: behind
/// the lines of the listing that stand before the row, the text of the row is the whole line.
///
/// A row may name a control that the signature does not have. So the bigraph is listed under some list of controls, and
/// judged with the numbers that its controls have in the signature, by their labels.
pub fn a_broken_rule_is_told_at_the_line_of_its_row()
    ensures signatures { (bytes : List ℕ) (at : Cursor) (code line : ℕ)
        → ((2 < code) × (signature_verdict bytes at ≡ Err (code, line))) ↔ IsToldAtControl bytes at code line }
    ensures bigraphs { (signature : List Control) (bytes : List ℕ) (at : Cursor) (code line : ℕ)
        → ((2 < code) × (big_verdict signature bytes at ≡ Err (code, line))) ↔ IsToldAtRow signature bytes at code line }
{}

/// Where a text is refused with code 3, 5 or 9, no listing of a valid value begins with the lines from the cursor up to
/// and with that of the refusal, whatever follows them. Of a signature, the lines before begin the listing of one.
///
/// Of the codes 4, 6 and 7 this is not true. A row may name a place or a link that a later line has, a later line may
/// tell the control of the node that a row names, or lead from there to a region: the same lines up to the row, with
/// other lines behind them, can then be a listing. Nor need the lines before a row of a bigraph begin the listing of a
/// valid one: a site may name a node that is to come, where each control that may have children has a port, and there
/// is no edge and no outer name to tie it to.
pub fn no_listing_goes_on_from_a_settled_refusal()
    ensures signatures { (bytes : List ℕ) (at : Cursor) → IsAt bytes at → (code line : ℕ) → IsTrue (is_settled code) → signature_verdict bytes at ≡ Err (code, line)
        → StopsAtLine signature_text IsReadableSignature bytes at line }
    ensures bigraphs { (signature : List Control) → IsSignature signature → (bytes : List ℕ) (at : Cursor) → IsAt bytes at → (code line : ℕ) → IsTrue (is_settled code) → big_verdict signature bytes at ≡ Err (code, line)
        → NoneFromLine (big_text signature) (IsReadableBig signature) bytes at line }
{}
