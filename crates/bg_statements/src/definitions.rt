//! What the statements of a model define.
use crate::rule_code::RuleCode;
use bg_base::Signature;
use bg_code::Operation;
use bg_lists::Rows;
use bg_terms::ControlEntry;
use bg_values::{NameTable, ParameterValues};
use std::alloc::Global;
use std::marker::Model;

/// What the statements of a model so far define: the controls, the bigraphs and the rules with the code of their
/// expressions, the parameters with their values, and the signature of the controls that have entered it. No arity is
/// above 16. All statements are those of one text: the codes keep the numbers of its tokens. The names that a text has
/// visible are not looked at. After a call that stops, what is kept is of no further use: a model ends there.
#[derive(Drop)]
pub(crate) struct Definitions {
    pub(crate) controls: NameTable<ControlEntry>,
    pub(crate) bigraphs: NameTable<u32>,
    pub(crate) codes: Vec<Rows<Operation>>,
    pub(crate) rules: NameTable<u32>,
    pub(crate) rule_codes: Vec<RuleCode>,
    pub(crate) parameters: NameTable<ParameterValues>,
    pub(crate) signature: Signature,
}

impl Model for Definitions {
    ghost use Rattle.bg_machine.specs.Calls.{AreSmall};
    ghost use Rattle.bg_statements.specs.Calls.{Kept};

    ghost Value = { Kept };

    ghost view = { λ definitions. record {
      controls = definitions.controls;
      bigraphs = definitions.bigraphs;
      codes = definitions.codes.items;
      rules = definitions.rules;
      rule_codes = definitions.rule_codes.items;
      parameters = definitions.parameters;
      signature = definitions.signature;
    } };

    ghost invariant = { λ definitions. AreSmall definitions.controls };
}

impl Definitions {
    ghost use Rattle.std.specs.Prelude.{◌≡◌, []};

    /// Nothing is defined. Takes no memory.
    #[tactic(auto, using(bg_machine::proofs::Small::none_small))]
    pub(crate) fn new(alloc: Global) -> Definitions
        ensures { result ≡ record { controls = []; bigraphs = []; codes = []; rules = []; rule_codes = []; parameters = []; signature = [] } }
    {
        Definitions {
            controls: NameTable::new(alloc),
            bigraphs: NameTable::new(alloc),
            codes: Vec::new(alloc),
            rules: NameTable::new(alloc),
            rule_codes: Vec::new(alloc),
            parameters: NameTable::new(alloc),
            signature: Signature::new(alloc),
        }
    }
}
