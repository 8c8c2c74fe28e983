//! The names that statements define.
ghost use Rattle.std.specs.Prelude.{◌≡◌, Ok, Err, MatchResult};
ghost use Rattle.bg_statements.specs.Statements as definition;
ghost use Rattle.bg_values.specs.Outcome.{Gives, Goes};
ghost use Rattle.bg_values.specs.Scopes.{spelling};

use bg_trees::names::{SynFormals, SynMoreLowItem};
use bg_values::{Cause, NameTable, Refusal, Scope, Stop};
use std::alloc::Global;

/// Refuses with `DuplicateName` (42) where the word of the token is there already.
pub(crate) fn check_new<T: Drop>(
    text: &Scope,
    entries: &NameTable<T>,
    token: u32,
) -> Result<(), Refusal>
    ensures { let wanted = definition.new_word text.now entries.now token in MatchResult result (λ _. wanted ≡ Ok (spelling text.now token)) (λ refusal. wanted ≡ Err refusal) }
{
    match entries.find(text.spelling(token)) {
        Some(_) => Err(Refusal::new(Cause::DuplicateName, token)),
        None => Ok(()),
    }
}

/// The formals, in order. Refuses with `DuplicateName` (42) the first that repeats. Linear in them.
pub(crate) fn formals_of(
    alloc: Global,
    text: &Scope,
    tree: &SynFormals,
) -> Result<NameTable<()>, Stop>
    ensures { Gives result (definition.formals_read text.now tree.now) }
{
    match tree {
        SynFormals::Way1(_, first, more, _) => listed_formals(alloc, text, *first, more.as_slice()),
        SynFormals::Way2 => Ok(NameTable::new(alloc)),
    }
}

/// The first formal and those behind it.
fn listed_formals(
    alloc: Global,
    text: &Scope,
    first: u32,
    more: &[SynMoreLowItem],
) -> Result<NameTable<()>, Stop>
    ensures { Gives result (definition.listed_formals text.now first more.now) }
{
    let mut formals = NameTable::new(alloc);
    add_formal(alloc, text, first, &mut formals)?;
    add_formals(alloc, text, more, &mut formals)?;
    Ok(formals)
}

/// Adds the formals of the items.
fn add_formals(
    alloc: Global,
    text: &Scope,
    items: &[SynMoreLowItem],
    formals: &mut NameTable<()>,
) -> Result<(), Stop>
    ensures { Goes result formals.new (definition.with_formals text.now items.now formals.old) }
{
    for item in items {
        add_formal(alloc, text, item.part2, formals)?;
    }
    Ok(())
}

/// Adds a formal, or refuses with `DuplicateName` (42) where it is there.
fn add_formal(
    alloc: Global,
    text: &Scope,
    token: u32,
    formals: &mut NameTable<()>,
) -> Result<(), Stop>
    ensures { Goes result formals.new (definition.with_formal text.now token formals.old) }
{
    if formals.add(alloc, text.spelling(token), ())? {
        Ok(())
    } else {
        Err(Stop::refuse(Cause::DuplicateName, token))
    }
}
