//! What the block of a model comes to.
ghost use Rattle.std.specs.Prelude.{◌≡◌, ◌+◌, ◌<◌, ◌≤◌, List, length, IfOk};
ghost use Rattle.bg_elab.specs.Blocks.{Block as BlockValue, Listed as ListedValue};
ghost use Rattle.bg_elab.specs.Calls.{IsBlockCode, MakesList, block_code, listed_code, listed_codes, reference_code, reference_codes};
ghost use Rattle.bg_elab.specs.References.{Reference as ReferenceValue};
ghost use Rattle.bg_elab.specs.Systems as definition;
ghost use Rattle.bg_statements.specs.Calls.{kept};
ghost use Rattle.bg_statements.specs.Defined.{Defined};
ghost use Rattle.bg_statements.specs.InTurn.{in_turn};
ghost use Rattle.bg_values.specs.Outcome.{Gives};
ghost use Rattle.bg_base.specs.Limits.{most_rules};

use crate::blocks::{Block, Listed};
use crate::choice;
use crate::references::Reference;
use bg_base::limits::MOST_RULES;
use bg_base::{Signature, Value};
use bg_lists::{Duplicate, Rows};
use bg_rules::{Host, Predicate, Rule, System};
use bg_statements::Uses;
use bg_values::{Cause, LimitWord, Refusal, Stop};
use std::alloc::Global;

/// The system that the block is, or its first refusal: `init`, the rules and the predicates are evaluated in this order.
/// Costs what the evaluation of each use costs.
pub(crate) fn system_of_block(alloc: Global, uses: &Uses, block: Block) -> Result<System, Stop>
    requires { IsBlockCode block }
    ensures { (d : Defined) (b : BlockValue) → uses.now ≡ kept d → block ≡ block_code b → Gives result (definition.block_valued d b) }
{
    let first = uses.signature().copy(alloc)?;
    let (init, second) = init_of(alloc, uses, &block.init, first)?;
    let (rules, third) = rules_of(alloc, uses, block.rules.as_slice(), second)?;
    let (preds, last) = predicates_of(alloc, uses, block.preds.as_slice(), third)?;
    Ok(System::new(last, init, rules, block.classes, preds))
}

/// What a run begins with, and the signature then reached.
fn init_of(
    alloc: Global,
    uses: &Uses,
    init: &Reference,
    signature: Signature,
) -> Result<(Host, Signature), Stop>
    ensures { (d : Defined) (r : ReferenceValue) → uses.now ≡ kept d → init.now ≡ reference_code r → signature ≡ d.signature → Gives result (definition.init_valued d r) }
{
    let values = init.arguments.values(alloc, &[])?;
    uses.host(alloc, init.at, init.number, values.as_slice(), signature)
}

/// Refuses where there are 4,096 already.
fn check_room(limit: LimitWord, at: u32, count: usize) -> Result<(), Refusal>
    ensures room { result ≡ definition.room_at limit at count }
    ensures few { IfOk result (λ _. count < most_rules) }
{
    if count < MOST_RULES {
        Ok(())
    } else {
        Err(Refusal::new(Cause::TooLarge(limit), at))
    }
}

// ---- rules

/// The rules of all references, in turn, and the signature then reached.
fn rules_of(
    alloc: Global,
    uses: &Uses,
    references: &[Listed],
    signature: Signature,
) -> Result<(Rows<Rule>, Signature), Stop>
    ensures { (d : Defined) (ls : List ListedValue) → uses.now ≡ kept d → references.now ≡ listed_codes ls → Gives result (definition.rules_valued d ls signature) }
{
    let mut rules = Vec::new(alloc);
    let reached = add_all_rules(alloc, uses, references, &mut rules, signature)?;
    let rows = Rows::try_from_vec(rules)?;
    Ok((rows, reached))
}

/// Adds the rules of all references, in turn; gives the signature then reached.
fn add_all_rules(
    alloc: Global,
    uses: &Uses,
    references: &[Listed],
    rules: &mut Vec<Rule>,
    signature: Signature,
) -> Result<Signature, Stop>
    ensures { (d : Defined) (ls : List ListedValue) → uses.now ≡ kept d → references.now ≡ listed_codes ls → MakesList result rules.new.items (in_turn (definition.with_rules d) ls (rules.old.items, signature)) }
{
    let mut reached = signature;
    for listed in references {
        let next = add_rules(alloc, uses, listed, rules, reached)?;
        reached = next;
    }
    Ok(reached)
}

/// Adds the rules that a reference stands for, one for each choice of values for the parameters that occur in it; gives
/// the signature then reached.
fn add_rules(
    alloc: Global,
    uses: &Uses,
    listed: &Listed,
    rules: &mut Vec<Rule>,
    signature: Signature,
) -> Result<Signature, Stop>
    ensures { (d : Defined) (l : ListedValue) → uses.now ≡ kept d → listed.now ≡ listed_code l → MakesList result rules.new.items (definition.with_rules d l (rules.old.items, signature)) }
{
    let mut reached = signature;
    let mut number = 0;
    while let Some(values) = choice(alloc, listed.reference.lists.as_slice(), number)? {
        let next = add_rule(alloc, uses, listed, values.as_slice(), rules, reached)?;
        reached = next;
        number += 1;
    }
    Ok(reached)
}

/// Adds the rule that a reference is for a choice of values; gives the signature then reached.
fn add_rule(
    alloc: Global,
    uses: &Uses,
    listed: &Listed,
    choice: &[Value],
    rules: &mut Vec<Rule>,
    signature: Signature,
) -> Result<Signature, Stop>
    ensures made { (d : Defined) (l : ListedValue) → uses.now ≡ kept d → listed.now ≡ listed_code l → MakesList result rules.new.items (definition.with_rule d l choice.now (rules.old.items, signature)) }
    ensures one_more { IfOk result (λ _. length rules.new.items ≡ length rules.old.items + 1) }
    ensures few { IfOk result (λ _. length rules.new.items ≤ most_rules) }
{
    let reference = &listed.reference;
    check_room(LimitWord::Rules, reference.at, rules.len())?;
    let label = reference.label(alloc, choice)?;
    let (rule, reached) = uses.rule(
        alloc,
        reference.at,
        reference.number,
        label,
        listed.class,
        signature,
    )?;
    rules.push(rule)?;
    Ok(reached)
}

// ---- predicates

/// The predicates of all references, in turn, and the signature then reached.
fn predicates_of(
    alloc: Global,
    uses: &Uses,
    references: &[Reference],
    signature: Signature,
) -> Result<(Rows<Predicate>, Signature), Stop>
    ensures { (d : Defined) (rs : List ReferenceValue) → uses.now ≡ kept d → references.now ≡ reference_codes rs → Gives result (definition.predicates_valued d rs signature) }
{
    let mut preds = Vec::new(alloc);
    let reached = add_all_predicates(alloc, uses, references, &mut preds, signature)?;
    let rows = Rows::try_from_vec(preds)?;
    Ok((rows, reached))
}

/// Adds the predicates of all references, in turn; gives the signature then reached.
fn add_all_predicates(
    alloc: Global,
    uses: &Uses,
    references: &[Reference],
    preds: &mut Vec<Predicate>,
    signature: Signature,
) -> Result<Signature, Stop>
    ensures { (d : Defined) (rs : List ReferenceValue) → uses.now ≡ kept d → references.now ≡ reference_codes rs → MakesList result preds.new.items (in_turn (definition.with_predicates d) rs (preds.old.items, signature)) }
{
    let mut reached = signature;
    for reference in references {
        let next = add_predicates(alloc, uses, reference, preds, reached)?;
        reached = next;
    }
    Ok(reached)
}

/// Adds the predicates that a reference stands for, one for each choice of values for the parameters that occur in it;
/// gives the signature then reached.
fn add_predicates(
    alloc: Global,
    uses: &Uses,
    reference: &Reference,
    preds: &mut Vec<Predicate>,
    signature: Signature,
) -> Result<Signature, Stop>
    ensures { (d : Defined) (r : ReferenceValue) → uses.now ≡ kept d → reference.now ≡ reference_code r → MakesList result preds.new.items (definition.with_predicates d r (preds.old.items, signature)) }
{
    let mut reached = signature;
    let mut number = 0;
    while let Some(values) = choice(alloc, reference.lists.as_slice(), number)? {
        let next = add_predicate(alloc, uses, reference, values.as_slice(), preds, reached)?;
        reached = next;
        number += 1;
    }
    Ok(reached)
}

/// Adds the predicate that a reference is for a choice of values; gives the signature then reached.
fn add_predicate(
    alloc: Global,
    uses: &Uses,
    reference: &Reference,
    choice: &[Value],
    preds: &mut Vec<Predicate>,
    signature: Signature,
) -> Result<Signature, Stop>
    ensures made { (d : Defined) (r : ReferenceValue) → uses.now ≡ kept d → reference.now ≡ reference_code r → MakesList result preds.new.items (definition.with_predicate d r choice.now (preds.old.items, signature)) }
    ensures one_more { IfOk result (λ _. length preds.new.items ≡ length preds.old.items + 1) }
    ensures few { IfOk result (λ _. length preds.new.items ≤ most_rules) }
{
    check_room(LimitWord::Preds, reference.at, preds.len())?;
    let label = reference.label(alloc, choice)?;
    let (predicate, reached) = uses.predicate(
        alloc,
        reference.at,
        reference.number,
        label,
        signature,
    )?;
    preds.push(predicate)?;
    Ok(reached)
}
