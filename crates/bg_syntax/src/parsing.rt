//! The tree of a model.
ghost use Rattle.std.specs.Prelude.{◌≡◌, ◌<◌, ◌^◌, ◌-◌, length, IfOk, IfErr, List};
ghost use Rattle.bg_grammar.specs.Grammar.{GrammarStep};
ghost use Rattle.bg_syntax.specs.ModelsSteps.{model_steps};
ghost use Rattle.bg_syntax.specs.Models.{DerivesModel, IsTreeOf, IsSyntaxFault};

use crate::fault::SyntaxFault;
use crate::reader::Reader;
use bg_text::Token;
use bg_trees::models::SynModel;
use std::alloc::Global;

/// The tree of the tokens' derivation from `Model`. `Unexpected` and `TooDeep` come exactly where they have none
/// without tokens too deep, with their first fault. One pass, linear in the tokens; takes memory for the tree alone,
/// and a bounded depth of calls.
pub fn parse(alloc: Global, tokens: &[Token]) -> Result<SynModel, SyntaxFault>
    requires { length tokens.now < 2 ^ 32 - 1 }
    ensures tree { IfOk result (λ tree. IsTreeOf tokens.now tree) }
    ensures once { IfOk result (λ tree. (steps : List GrammarStep) → DerivesModel tokens.now steps → steps ≡ model_steps tree 0) }
    ensures fault { IfErr result (λ fault. IsSyntaxFault tokens.now fault) }
{
    let reader = Reader { alloc, tokens };
    let mut at = 0;
    let model = reader.model(&mut at, 0)?;
    if at < tokens.len() {
        return Err(SyntaxFault::Unexpected { token: at as u32 });
    }
    Ok(model)
}
