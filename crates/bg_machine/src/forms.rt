//! The forms of the model language that have no operand.
ghost use Rattle.std.specs.Prelude.{◌≡◌, ◌∷◌, true, Ok, Err, IfOk, OnOk, MatchResult};
ghost use Rattle.bg_base.specs.Bigraph.{IsValid};
ghost use Rattle.bg_builder.specs.Stack.{top, under, top_behind};
ghost use Rattle.bg_base.specs.Elementary as elementary;
ghost use Rattle.bg_base.specs.Order.{name_cmp};
ghost use Rattle.bg_lists.specs.Orders.{set_of};
ghost use Rattle.bg_base.specs.declared.names.Name.TheVariants as names;
ghost use Rattle.bg_terms.specs.Values as definition;
ghost use Rattle.bg_values.specs.Outcome.{Gives};

use bg_algebra::{AlgebraFault, identity, idle, merger};
use bg_base::limits::{MOST_EXPRESSION_EDGES, MOST_EXPRESSION_NODES, MOST_EXPRESSION_PLACES};
use bg_base::{Big, Ident, Kind, Name};
use bg_builder::BigStack;
use bg_link::name_set;
use bg_lists::{Duplicate, Mem, OutOfMemory, Rows};
use bg_values::{Cause, LimitWord, Refusal, Stop};
use std::alloc::Global;

/// Whether the bigraph on top is within the limits; else the refusal as `TooLarge` (52), with the first limit that it
/// exceeds. Takes constant time.
pub(crate) fn test_limits(at: u32, stack: &BigStack) -> Result<(), Refusal>
    ensures { let wanted = definition.limited at (top stack.now) in MatchResult result (λ _. wanted ≡ Ok (top stack.now)) (λ refusal. wanted ≡ Err refusal) }
{
    if stack.nodes() > MOST_EXPRESSION_NODES as usize {
        return Err(Refusal::new(Cause::TooLarge(LimitWord::Nodes), at));
    }
    if stack.edges() > MOST_EXPRESSION_EDGES as usize {
        return Err(Refusal::new(Cause::TooLarge(LimitWord::Edges), at));
    }
    if stack.regions() > MOST_EXPRESSION_PLACES || stack.sites() > MOST_EXPRESSION_PLACES as usize {
        return Err(Refusal::new(Cause::TooLarge(LimitWord::Places), at));
    }
    Ok(())
}

/// The names that the words are, in their order. Linear in them.
fn plain_names(alloc: Global, words: &[Ident]) -> Mem<Vec<Name>>
    ensures { IfOk result (λ made. made.items ≡ definition.plain_names words.now) }
{
    let mut made = Vec::with_capacity(alloc, words.len())?;
    for word in words {
        made.push(Name::Plain(word.copy(alloc)?))?;
    }
    Ok(made)
}

/// `{x,y}`. Costs time n log n in the names.
#[tactic(auto, using(bg_terms::proofs::Valid::set_up))]
pub(crate) fn idle_names(alloc: Global, words: &[Ident]) -> Mem<Big>
    ensures value { IfOk result (λ big. big ≡ elementary.idle (set_of name_cmp (definition.plain_names words.now))) }
    ensures valid { IfOk result IsValid }
{
    let names = name_set(plain_names(alloc, words)?)?;
    let big = idle(alloc, names.as_slice())?;
    Ok(big)
}

/// `id(n,{x})`; refused as `TooLarge` places (52) where it has more than 65,536 regions, before it is made. Costs time
/// n log n in its names and regions.
#[tactic(auto, using(bg_terms::proofs::Valid::set_up))]
pub(crate) fn wide_identity(
    alloc: Global,
    at: u32,
    width: u64,
    words: &[Ident],
) -> Result<Big, Stop>
    ensures value { Gives result (definition.wide at width (elementary.identity width (set_of name_cmp (definition.plain_names words.now)))) }
    ensures valid { IfOk result IsValid }
{
    if width > u64::from(MOST_EXPRESSION_PLACES) {
        return Err(Stop::refuse(Cause::TooLarge(LimitWord::Places), at));
    }
    let names = name_set(plain_names(alloc, words)?)?;
    let big = identity(alloc, width as u32, names.as_slice())?;
    Ok(big)
}

/// `merge(n)`; refused as `TooLarge` places (52) where it has more than 65,536 sites, before it is made. Linear in its
/// sites.
pub(crate) fn wide_merger(alloc: Global, at: u32, width: u64) -> Result<Big, Stop>
    ensures value { Gives result (definition.wide at width (elementary.merger width)) }
    ensures valid { IfOk result IsValid }
{
    if width > u64::from(MOST_EXPRESSION_PLACES) {
        return Err(Stop::refuse(Cause::TooLarge(LimitWord::Places), at));
    }
    let big = merger(alloc, width as u32)?;
    Ok(big)
}

/// Puts a node of the control on top, with a site in it or, where the control is atomic, with nothing. Costs time n log n
/// in its names.
pub(crate) fn push_single(
    alloc: Global,
    stack: &mut BigStack,
    kind: Kind,
    control: u32,
    node: u32,
    words: &Rows<Ident>,
) -> Mem<()>
    ensures { OnOk result (stack.new ≡ definition.single kind control node (definition.plain_names words.now) ∷ stack.old) }
{
    let names = Rows::try_from_vec(plain_names(alloc, words.as_slice())?)?;
    match kind {
        Kind::Normal => stack.push_ion(alloc, control, node, names),
        Kind::Atomic => stack.push_atom(alloc, control, node, names),
    }
}

/// `/x F`, F on top, by an edge that lies before those of F: F itself where it has no such outer name. Costs time in
/// proportion to F.
pub(crate) fn close_name(alloc: Global, stack: &mut BigStack, word: &Ident, edge: u32) -> Mem<()>
    requires new { top_behind edge stack.old ≡ true }
    ensures { OnOk result (stack.new ≡ definition.name_closed edge (names.Plain word.now) (top stack.old) ∷ under stack.old) }
{
    let name = Name::Plain(word.copy(alloc)?);
    if !stack.has_outer(&name) {
        return Ok(());
    }
    match stack.close(alloc, &name, edge) {
        Ok(()) => Ok(()),
        Err(AlgebraFault::OutOfMemory) => Err(OutOfMemory),
        Err(_) => unreachable!(),
    }
}
