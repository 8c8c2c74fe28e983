//! Laws of models. A call does nothing.
ghost use Rattle.std.specs.Prelude.{◌≡◌, ◌≢◌, ◌≤◌, ℕ, List, length, slice_get, Result, Ok, Err, Some};
ghost use Rattle.bg_elab.specs.declared.fault.Detail.{Detail};
ghost use Rattle.bg_elab.specs.declared.fault.ModelFault.{ModelFault};
ghost use Rattle.bg_elab.specs.declared.fault.ModelFault.TheVariants as faults;
ghost use Rattle.bg_elab.specs.Elaboration.{text_of};
ghost use Rattle.bg_elab.specs.Reading.{IsReading};
ghost use Rattle.bg_elab.specs.Spellings.{Spells, IsUnexpectedAt};
ghost use Rattle.bg_elab.specs.Systems.{elaborated};
ghost use Rattle.bg_rules.specs.Systems.{SystemParts, IsSystem};
ghost use Rattle.bg_syntax.specs.Models.{IsTreeOf};
ghost use Rattle.bg_trees.specs.declared.models.SynModel.{SynModel};
ghost use Rattle.bg_text.specs.declared.token.Token.{Token};
ghost use Rattle.bg_text.specs.Tokens.{AreTokens};
ghost use Rattle.bg_values.specs.declared.refusal.Refusal.{Refusal};
ghost use Rattle.bg_values.specs.Codes.{code};
ghost use Rattle.bg_values.specs.Scopes.{ScopeParts, spelling};

/// What a model comes to that is not refused is a system: what a run begins with is a host, each rule is a rule, and
/// the conditions and the predicates have patterns; all these bigraphs are valid under its signature; the class of each
/// rule is below the number of classes; and there are at most 4,096 rules and at most 4,096 predicates.
pub fn models_come_to_systems()
    ensures { (text : ScopeParts) (tree : SynModel) (parts : SystemParts) → elaborated text tree ≡ Ok parts → IsSystem parts }
{}

/// What a text describes is a system.
pub fn texts_describe_systems()
    ensures { (bytes : List ℕ) (system : SystemParts) → IsReading bytes (Ok system) → IsSystem system }
{}

/// Tokens determine what a model comes to: two trees of the same tokens come to the same system, or to the same
/// refusal.
pub fn tokens_come_to_one()
    ensures { (text : ScopeParts) (tokens : List Token) (one other : SynModel) → IsTreeOf tokens one → IsTreeOf tokens other
        → elaborated text one ≡ elaborated text other }
{}

/// A text has one reading: it describes one system, or it has one first refusal.
pub fn texts_have_one_reading()
    ensures { (bytes : List ℕ) (one other : Result SystemParts ModelFault) → IsReading bytes one → IsReading bytes other → one ≡ other }
{}

/// A refusal is at a byte of the text, or at its end.
pub fn refusals_are_inside()
    ensures { (bytes : List ℕ) (code : ℕ) (detail : Detail) (offset : ℕ) → IsReading bytes (Err (faults.Bad code detail offset)) → offset ≤ length bytes }
{}

/// A token of a text spells what its kind says: a word an identifier, a number one that is not above the greatest, a text
/// characters of texts between two quotes.
pub fn tokens_spell_their_kinds()
    ensures { (bytes : List ℕ) (tokens : List Token) (number : ℕ) (token : Token) → AreTokens bytes tokens → slice_get tokens number ≡ Some token
        → Spells token.kind (spelling (text_of bytes tokens) number) }
{}

/// What the tree of a text's tokens comes to is never refused as unexpected, by number 31: its tokens spell what the tree
/// says of them.
pub fn a_model_is_never_unexpected()
    ensures { (bytes : List ℕ) (tokens : List Token) (tree : SynModel) (refusal : Refusal) → AreTokens bytes tokens → IsTreeOf tokens tree
        → elaborated (text_of bytes tokens) tree ≡ Err refusal → code refusal.cause ≢ 31 }
{}

/// A text is refused as unexpected, by number 31, by the grammar alone: at the first token with which no model goes on,
/// or at the end of the text.
pub fn the_grammar_alone_is_unexpected()
    ensures { (bytes : List ℕ) (detail : Detail) (offset : ℕ) → IsReading bytes (Err (faults.Bad 31 detail offset)) → IsUnexpectedAt bytes offset }
{}
