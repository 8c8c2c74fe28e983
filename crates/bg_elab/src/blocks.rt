//! The block of a model, with its names looked up.
ghost use Rattle.std.specs.Prelude.{◌≡◌, ◌+◌, ◌<◌, nat_lt, length, IfOk};
ghost use Rattle.bg_elab.specs.Blocks as definition;
ghost use Rattle.bg_elab.specs.Calls.{Adds, AddsClasses, block_code, classes_code, listed_codes, reference_codes};
ghost use Rattle.bg_statements.specs.Calls.{ReadsAs};
ghost use Rattle.bg_statements.specs.InTurn.{in_turn};
ghost use Rattle.bg_trees.specs.declared.models.SynMoreClItem.{SynMoreClItem as MoreClasses};
ghost use Rattle.bg_trees.specs.declared.models.SynMoreRefItem.{SynMoreRefItem as MoreReferences};

use crate::references::{Reference, reference_of};
use bg_lists::Rows;
use bg_statements::NameSpaces;
use bg_trees::expressions::SynRef;
use bg_trees::models::{SynClass, SynClasses, SynMoreClItem, SynMoreRefItem, SynPreds, SynRefs};
use bg_values::{NameTable, Scope, Stop};
use std::alloc::Global;

/// A reference to a rule, and its class, by the position of the class's bracket, counted from 0.
#[derive(Debug, Drop)]
pub struct Listed {
    pub class: u32,
    pub reference: Reference,
}

/// The block: what a run begins with, the references to rules in the order of the text, the number of classes, and the
/// references of the predicates.
#[derive(Debug, Drop)]
pub struct Block {
    pub init: Reference,
    pub rules: Rows<Listed>,
    pub classes: u32,
    pub preds: Rows<Reference>,
}

/// The block of these trees. Refuses the first name that cannot stand, in the order of the text. No name is visible in
/// the arguments of `init`; in the others the parameters are. Linear in the trees.
pub(crate) fn block_of(
    alloc: Global,
    text: &Scope,
    spaces: &NameSpaces,
    init: &SynRef,
    classes: &SynClasses,
    preds: &SynPreds,
) -> Result<Block, Stop>
    ensures { ReadsAs block_code result (definition.block_read text.now init.now classes.now preds.now spaces.now) }
{
    let init = reference_of(alloc, text, &NameTable::new(alloc), spaces.bigraphs, init)?;
    let (rules, classes) = classes_of(alloc, text, spaces, classes)?;
    let preds = preds_of(alloc, text, spaces, preds)?;
    Ok(Block {
        init,
        rules,
        classes,
        preds,
    })
}

// ---- classes

/// The references of all classes, and how many classes there are; of more than 32 bits can count there is no memory.
fn classes_of(
    alloc: Global,
    text: &Scope,
    spaces: &NameSpaces,
    tree: &SynClasses,
) -> Result<(Rows<Listed>, u32), Stop>
    ensures { ReadsAs classes_code result (definition.classes_read text.now spaces.now tree.now) }
{
    if !are_counted(tree) {
        return Err(Stop::OutOfMemory);
    }
    let mut listed = Vec::new(alloc);
    let mut class = 0;
    add_all_classes(alloc, text, spaces, tree, &mut listed, &mut class)?;
    let rows = Rows::try_from_vec(listed)?;
    Ok((rows, class))
}

/// Whether 32 bits can count the classes.
fn are_counted(tree: &SynClasses) -> bool
    ensures { result ≡ nat_lt (definition.class_count tree.now) 4294967296 }
{
    match tree {
        SynClasses::Way1(_, more) => more.as_slice().len() + 1 < 4_294_967_296,
        SynClasses::Way2 => true,
    }
}

fn add_all_classes(
    alloc: Global,
    text: &Scope,
    spaces: &NameSpaces,
    tree: &SynClasses,
    listed: &mut Vec<Listed>,
    class: &mut u32,
) -> Result<(), Stop>
    requires { class.old + definition.class_count tree.now < 4294967296 }
    ensures { AddsClasses result listed.old.items class.old listed.new.items class.new (in_turn (definition.with_class text.now spaces.now) (definition.trees_of_classes tree.now)) }
{
    match tree {
        SynClasses::Way1(first, more) => {
            add_class(alloc, text, spaces, first, listed, class)?;
            add_classes(alloc, text, spaces, more.as_slice(), listed, class)
        }
        SynClasses::Way2 => Ok(()),
    }
}

fn add_classes(
    alloc: Global,
    text: &Scope,
    spaces: &NameSpaces,
    items: &[SynMoreClItem],
    listed: &mut Vec<Listed>,
    class: &mut u32,
) -> Result<(), Stop>
    requires { class.old + length items.now < 4294967296 }
    ensures { AddsClasses result listed.old.items class.old listed.new.items class.new (in_turn (λ (item : MoreClasses). definition.with_class text.now spaces.now item.part2) items.now) }
{
    for item in items {
        add_class(alloc, text, spaces, &item.part2, listed, class)?;
    }
    Ok(())
}

/// Adds the references of one class, and counts it.
fn add_class(
    alloc: Global,
    text: &Scope,
    spaces: &NameSpaces,
    tree: &SynClass,
    listed: &mut Vec<Listed>,
    class: &mut u32,
) -> Result<(), Stop>
    requires { class.old < 4294967295 }
    ensures adds { AddsClasses result listed.old.items class.old listed.new.items class.new (definition.with_class text.now spaces.now tree.now) }
    ensures counted { IfOk result (λ _. class.new ≡ class.old + 1) }
{
    add_listed(alloc, text, spaces, *class, refs_of(tree), listed)?;
    *class += 1;
    Ok(())
}

/// The references of a class.
fn refs_of(tree: &SynClass) -> &SynRefs
    ensures { definition.trees_of_refs result.now ≡ definition.refs_of_class tree.now }
{
    match tree {
        SynClass::Way1(_, refs, _) => refs,
        SynClass::Way2(_, refs, _) => refs,
    }
}

/// Adds the references of a class.
fn add_listed(
    alloc: Global,
    text: &Scope,
    spaces: &NameSpaces,
    class: u32,
    tree: &SynRefs,
    listed: &mut Vec<Listed>,
) -> Result<(), Stop>
    ensures { Adds listed_codes result listed.old.items listed.new.items (in_turn (definition.with_listed text.now spaces.now class) (definition.trees_of_refs tree.now)) }
{
    match tree {
        SynRefs::Way1(first, more) => {
            add_one_listed(alloc, text, spaces, class, first, listed)?;
            add_more_listed(alloc, text, spaces, class, more.as_slice(), listed)
        }
        SynRefs::Way2 => Ok(()),
    }
}

fn add_more_listed(
    alloc: Global,
    text: &Scope,
    spaces: &NameSpaces,
    class: u32,
    items: &[SynMoreRefItem],
    listed: &mut Vec<Listed>,
) -> Result<(), Stop>
    ensures { Adds listed_codes result listed.old.items listed.new.items (in_turn (λ (item : MoreReferences). definition.with_listed text.now spaces.now class item.part2) items.now) }
{
    for item in items {
        add_one_listed(alloc, text, spaces, class, &item.part2, listed)?;
    }
    Ok(())
}

fn add_one_listed(
    alloc: Global,
    text: &Scope,
    spaces: &NameSpaces,
    class: u32,
    tree: &SynRef,
    listed: &mut Vec<Listed>,
) -> Result<(), Stop>
    ensures { Adds listed_codes result listed.old.items listed.new.items (definition.with_listed text.now spaces.now class tree.now) }
{
    let reference = reference_of(alloc, text, spaces.parameters, spaces.rules, tree)?;
    listed.push(Listed { class, reference })?;
    Ok(())
}

// ---- predicates

/// The references of the predicates.
fn preds_of(
    alloc: Global,
    text: &Scope,
    spaces: &NameSpaces,
    tree: &SynPreds,
) -> Result<Rows<Reference>, Stop>
    ensures { ReadsAs reference_codes result (definition.preds_read text.now spaces.now tree.now) }
{
    let mut preds = Vec::new(alloc);
    add_all_preds(alloc, text, spaces, tree, &mut preds)?;
    let rows = Rows::try_from_vec(preds)?;
    Ok(rows)
}

fn add_all_preds(
    alloc: Global,
    text: &Scope,
    spaces: &NameSpaces,
    tree: &SynPreds,
    preds: &mut Vec<Reference>,
) -> Result<(), Stop>
    ensures { Adds reference_codes result preds.old.items preds.new.items (in_turn (definition.with_pred text.now spaces.now) (definition.refs_of_preds tree.now)) }
{
    match tree {
        SynPreds::Way1(_, _, _, refs, _, _) => add_preds(alloc, text, spaces, refs, preds),
        SynPreds::Way2 => Ok(()),
    }
}

fn add_preds(
    alloc: Global,
    text: &Scope,
    spaces: &NameSpaces,
    tree: &SynRefs,
    preds: &mut Vec<Reference>,
) -> Result<(), Stop>
    ensures { Adds reference_codes result preds.old.items preds.new.items (in_turn (definition.with_pred text.now spaces.now) (definition.trees_of_refs tree.now)) }
{
    match tree {
        SynRefs::Way1(first, more) => {
            add_pred(alloc, text, spaces, first, preds)?;
            add_more_preds(alloc, text, spaces, more.as_slice(), preds)
        }
        SynRefs::Way2 => Ok(()),
    }
}

fn add_more_preds(
    alloc: Global,
    text: &Scope,
    spaces: &NameSpaces,
    items: &[SynMoreRefItem],
    preds: &mut Vec<Reference>,
) -> Result<(), Stop>
    ensures { Adds reference_codes result preds.old.items preds.new.items (in_turn (λ (item : MoreReferences). definition.with_pred text.now spaces.now item.part2) items.now) }
{
    for item in items {
        add_pred(alloc, text, spaces, &item.part2, preds)?;
    }
    Ok(())
}

fn add_pred(
    alloc: Global,
    text: &Scope,
    spaces: &NameSpaces,
    tree: &SynRef,
    preds: &mut Vec<Reference>,
) -> Result<(), Stop>
    ensures { Adds reference_codes result preds.old.items preds.new.items (definition.with_pred text.now spaces.now tree.now) }
{
    let reference = reference_of(alloc, text, spaces.parameters, spaces.bigraphs, tree)?;
    preds.push(reference)?;
    Ok(())
}
