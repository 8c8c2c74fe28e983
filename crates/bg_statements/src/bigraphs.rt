//! Statements of bigraphs.
use crate::definitions::Definitions;
use crate::names::{check_new, formals_of};
use bg_base::Signature;
use bg_code::{Operation, Visible, code_of};
use bg_lists::Rows;
use bg_machine::{Met, evaluate};
use bg_trees::expressions::SynE;
use bg_trees::statements::SynBigraph;
use bg_values::{NameTable, Scope, Stop};
use std::alloc::Global;
use std::mem::replace;

impl Definitions {
    ghost use Rattle.std.specs.Prelude.{◌≡◌, IsNone};
    ghost use Rattle.bg_code.specs.Code.{code_of};
    ghost use Rattle.bg_code.specs.Lowering.{GivesOperations};
    ghost use Rattle.bg_statements.specs.Calls.{Defines, kept, kept_after};
    ghost use Rattle.bg_statements.specs.Defined.{Defined, visible_with};
    ghost use Rattle.bg_statements.specs.Statements as definition;
    ghost use Rattle.bg_terms.specs.Expressions.{Expression};
    ghost use Rattle.bg_terms.specs.Trees.{e_read};
    ghost use Rattle.bg_values.specs.Names.{name_number};
    ghost use Rattle.bg_values.specs.Outcome.{Goes};

    /// A bigraph. It refuses with the first cause: 42 at its name where it is there, 42 at a formal that repeats, then
    /// the names of its expression; where it has no formals, what its evaluation refuses. Linear in the statement,
    /// where it has formals; else it costs what `evaluate` costs.
    pub(crate) fn add_bigraph(
        &mut self,
        alloc: Global,
        text: &Scope,
        tree: &SynBigraph,
    ) -> Result<(), Stop>
        ensures { Defines result self.old self.new (definition.with_bigraph text.now tree.now) }
    {
        check_new(text, &self.bigraphs, tree.part1)?;
        let formals = formals_of(alloc, text, &tree.part2)?;
        let code = self.code_in(alloc, text, &formals, &tree.part4)?;
        self.add_code(alloc, text.spelling(tree.part1), formals.len(), code)
    }

    /// The code of an expression in which these formals are visible.
    fn code_in(
        &self,
        alloc: Global,
        text: &Scope,
        formals: &NameTable<()>,
        tree: &SynE,
    ) -> Result<Vec<Operation>, Stop>
        ensures { (d : Defined) → self.now ≡ kept d → GivesOperations result ((e_read tree.now).1 (visible_with text.now formals.now d)) }
    {
        let visible = Visible {
            scope: Scope {
                bytes: text.bytes,
                tokens: text.tokens,
                names: formals,
            },
            controls: &self.controls,
            bigraphs: &self.bigraphs,
        };
        code_of(alloc, &visible, tree)
    }

    /// A bigraph whose word is new, by the code of its expression.
    fn add_code(
        &mut self,
        alloc: Global,
        word: &[u8],
        formals: u32,
        code: Vec<Operation>,
    ) -> Result<(), Stop>
        requires new { IsNone (name_number word.now self.old.bigraphs) }
        ensures { (d : Defined) (e : Expression) → self.old ≡ kept d → code.items ≡ code_of e
            → Goes result self.new (kept_after (definition.with_expression word.now formals e d)) }
    {
        if formals == 0 {
            self.try_code(alloc, code.as_slice())?;
        }
        let code = Rows::try_from_vec(code)?;
        self.codes.push(code)?;
        self.bigraphs.add(alloc, word, formals)?;
        Ok(())
    }

    /// Evaluates an expression without formals, for its refusals and for the controls that enter the signature.
    fn try_code(&mut self, alloc: Global, code: &[Operation]) -> Result<(), Stop>
        ensures { (d : Defined) (e : Expression) → self.old ≡ kept d → code.now ≡ code_of e
            → Goes result self.new (kept_after (definition.tried 0 e d)) }
    {
        let signature = replace(&mut self.signature, Signature::new(alloc));
        let (_, met) = evaluate(
            alloc,
            &self.controls,
            self.codes.as_slice(),
            &[],
            code,
            Met::begun(signature),
        )?;
        self.signature = met.signature;
        Ok(())
    }
}
