//! Statements of controls.
ghost use Rattle.std.specs.Prelude.{◌≡◌, ◌≤◌, IfOk};
ghost use Rattle.bg_statements.specs.Statements as definition;
ghost use Rattle.bg_values.specs.Reading.{number_token};
ghost use Rattle.bg_base.specs.Limits.{most_ports};

use crate::definitions::Definitions;
use crate::names::{check_new, formals_of};
use bg_base::limits::MOST_PORTS;
use bg_base::{Ident, Kind, Value};
use bg_code::{Visible, word_at};
use bg_machine::enter;
use bg_terms::{ControlEntry, Shape};
use bg_trees::names::SynNumber;
use bg_trees::statements::SynControl;
use bg_values::{Cause, LimitWord, NameTable, Refusal, Scope, Stop, number_at, number_token};
use std::alloc::Global;

impl Definitions {
    ghost use Rattle.std.specs.Prelude.{◌≡◌, ◌≤◌, [], IsNone};
    ghost use Rattle.bg_statements.specs.Calls.{Defines, kept};
    ghost use Rattle.bg_statements.specs.Defined.{Defined, visible_with};
    ghost use Rattle.bg_statements.specs.Statements as definition;
    ghost use Rattle.bg_terms.specs.Trees.{word_at};
    ghost use Rattle.bg_values.specs.Names.{name_number};
    ghost use Rattle.bg_values.specs.Outcome.{Gives};

    /// A control of that kind. It refuses with the first cause: 42 at its name where it is there, 42 at a formal that
    /// repeats, 52 at the number where the arity is above 16, 52 at its name where it would be the 4,097th control of
    /// the signature, which it enters where it has no formals. Linear in the statement, but for a look-up in the
    /// signature.
    pub(crate) fn add_control(
        &mut self,
        alloc: Global,
        text: &Scope,
        kind: Kind,
        tree: &SynControl,
    ) -> Result<(), Stop>
        ensures { Defines result self.old self.new (definition.with_control text.now kind tree.now) }
    {
        check_new(text, &self.controls, tree.part1)?;
        let word = self.word_with(alloc, text, &NameTable::new(alloc), tree.part1)?;
        let formals = formals_of(alloc, text, &tree.part2)?;
        let arity = arity_at(text, &tree.part4)?;
        let shape = Shape { word, arity, kind };
        self.add_shape(
            alloc,
            text.spelling(tree.part1),
            tree.part1,
            formals.len(),
            shape,
        )
    }

    /// The identifier that a token spells.
    fn word_with(
        &self,
        alloc: Global,
        text: &Scope,
        formals: &NameTable<()>,
        token: u32,
    ) -> Result<Ident, Stop>
        ensures { (d : Defined) → self.now ≡ kept d → Gives result (word_at (visible_with text.now formals.now d) token) }
    {
        let visible = Visible {
            scope: Scope {
                bytes: text.bytes,
                tokens: text.tokens,
                names: formals,
            },
            controls: &self.controls,
            bigraphs: &self.bigraphs,
        };
        word_at(alloc, &visible, token)
    }

    /// A control whose word is new.
    #[tactic(auto, using(bg_machine::proofs::Small::small_more))]
    fn add_shape(
        &mut self,
        alloc: Global,
        word: &[u8],
        at: u32,
        formals: u32,
        shape: Shape,
    ) -> Result<(), Stop>
        requires small { shape.arity ≤ most_ports }
        requires new { IsNone (name_number word.now self.old.controls) }
        ensures { Defines result self.old self.new (definition.with_shape at word.now formals shape) }
    {
        if formals == 0 {
            let args: Vec<Value> = Vec::new(alloc);
            enter(alloc, at, &shape, args, &mut self.signature)?;
        }
        self.controls
            .add(alloc, word, ControlEntry { formals, shape })?;
        Ok(())
    }
}

/// The arity that a number says. Refuses what is above 16 as `TooLarge` arity (52).
fn arity_at(text: &Scope, tree: &SynNumber) -> Result<u32, Refusal>
    ensures value { result ≡ definition.arity_at text.now (number_token tree.now) }
    ensures small { IfOk result (λ arity. arity ≤ most_ports) }
{
    let token = number_token(tree);
    let number = number_at(text, token)?.unsigned_abs();
    if number > u64::from(MOST_PORTS) {
        return Err(Refusal::new(Cause::TooLarge(LimitWord::Arity), token));
    }
    Ok(number as u32)
}
