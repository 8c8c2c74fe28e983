//! What the example is about: a signature, a host, and a rule. Each operation is a call of `bg_algebra`, and a function of
//! its own here, whose contract says which term of `specs/Terms` it makes.
//!
//! The words that the prover looks into, and the laws that it takes, stand here once for all functions.
#![tactic(auto, using(crate::proofs::Rows::is_host_big, crate::proofs::Rows::is_within, crate::proofs::Rows::redex_used), unfolding(crate::specs::Terms::rooms, crate::specs::Terms::inside, crate::specs::Terms::wired, crate::specs::Terms::building, crate::specs::Terms::redex, crate::specs::Terms::agent_beside, crate::specs::Terms::reactum, bg_base::specs::Products::merge, bg_base::specs::Products::parallel, bg_base::specs::Elementary::atom, bg_base::specs::Elementary::ion, bg_base::specs::Elementary::identity, bg_base::specs::Elementary::counted))]

ghost use Rattle.std.specs.Prelude.{◌≡◌, [], ◌∷◌, IfOk};
ghost use Rattle.bg_base.specs.Bigraph.{IsValid};
ghost use Rattle.bg_rules.specs.Hosts.{fresh_host};
ghost use Rattle.library_example.specs.Terms as term;

use crate::refusal::Refusal;
use bg_algebra::{AlgebraFault, atom, close, identity, ion, merge, nest};
use bg_base::{Big, Ident, Kind, Label, Map, Name, Signature};
use bg_lists::{Mem, Rows};
use bg_rules::{Host, Pattern, Rule};
use std::alloc::Global;

/// The controls, by their numbers in the signature.
const BUILDING: u32 = 0;

const ROOM: u32 = 1;

const AGENT: u32 = 2;

/// The signature: a building and an agent have a port each, and nothing can be put into an agent.
pub fn signature(alloc: Global) -> Result<Signature, Refusal> {
    let mut signature = Signature::new(alloc);
    signature.add(alloc, label(alloc, "Building")?, 1, Kind::Normal)?;
    signature.add(alloc, label(alloc, "Room")?, 0, Kind::Normal)?;
    signature.add(alloc, label(alloc, "Agent")?, 1, Kind::Atomic)?;
    Ok(signature)
}

/// The label of that spelling, without arguments.
fn label(alloc: Global, text: &str) -> Result<Label, Refusal> {
    match Ident::new(alloc, text)? {
        Some(name) => Ok(Label {
            name,
            args: Rows::from_vec(Vec::new(alloc)),
        }),
        None => Err(Refusal::NotAWord),
    }
}

/// The name `w`, in a row of one: the link of each port here.
fn wire(alloc: Global) -> Mem<[Name; 1]>
    ensures { IfOk result (λ names. names ≡ term.wire ∷ []) }
{
    Ok([Name::Plain(Ident::from_bytes(alloc, b"w")?)])
}

/// Two empty rooms beside one another, nodes 1 and 2: `Room.1 | Room.1`.
fn rooms(alloc: Global) -> Result<Big, AlgebraFault>
    ensures value { IfOk result (λ big. big ≡ term.rooms) }
    ensures valid { IfOk result IsValid }
{
    let first = atom(alloc, ROOM, 1, &[])?;
    let second = atom(alloc, ROOM, 2, &[])?;
    merge(alloc, &first, &second)
}

/// What is in the building: `Room.1 | Room.1 | Agent{w}`.
fn inside(alloc: Global) -> Result<Big, AlgebraFault>
    ensures value { IfOk result (λ big. big ≡ term.inside) }
    ensures valid { IfOk result IsValid }
{
    let rooms = rooms(alloc)?;
    let agent = atom(alloc, AGENT, 3, &wire(alloc)?)?;
    merge(alloc, &rooms, &agent)
}

/// The building, with what is in it, where both share the name: `Building{w}.(Room.1 | Room.1 | Agent{w})`.
fn wired(alloc: Global) -> Result<Big, AlgebraFault>
    ensures value { IfOk result (λ big. big ≡ term.wired) }
    ensures valid { IfOk result IsValid }
{
    let building = ion(alloc, BUILDING, 0, &wire(alloc)?)?;
    let inside = inside(alloc)?;
    nest(alloc, &building, &inside)
}

/// The building with what is in it and with `w` closed, by edge 0: `/w Building{w}.(Room.1 | Room.1 | Agent{w})`.
fn building(alloc: Global) -> Result<Big, AlgebraFault>
    ensures value { IfOk result (λ big. big ≡ term.building) }
    ensures valid { IfOk result IsValid }
{
    let wired = wired(alloc)?;
    let names = wire(alloc)?;
    close(alloc, &wired, &names[0], 0)
}

/// The host: that bigraph, in which the next new node gets the number 4, the next new edge the number 1. `Host::new` asks
/// that it is ground, has plain names and no idle edge, and is within the limits (`proofs/Rows`).
pub fn host(alloc: Global) -> Result<Host, AlgebraFault>
    ensures { IfOk result (λ host. host ≡ fresh_host term.building) }
{
    let big = building(alloc)?;
    Ok(Host::new(big))
}

/// What has to occur: an agent beside a room with anything in it, `Agent{w} | Room.id`.
fn redex(alloc: Global) -> Result<Big, AlgebraFault>
    ensures value { IfOk result (λ big. big ≡ term.redex) }
    ensures valid { IfOk result IsValid }
{
    let agent = atom(alloc, AGENT, 0, &wire(alloc)?)?;
    let room = ion(alloc, ROOM, 1, &[])?;
    merge(alloc, &agent, &room)
}

/// The redex as a pattern. `Pattern::new` asks that it is valid and has no idle edge, and tests that it is solid.
fn pattern(alloc: Global) -> Result<Pattern, Refusal>
    ensures { IfOk result (λ pattern. pattern ≡ term.redex) }
{
    let big = redex(alloc)?;
    match Pattern::new(big) {
        Ok(pattern) => Ok(pattern),
        Err(unsolid) => Err(Refusal::NotSolid(unsolid.clause)),
    }
}

/// An agent beside a site: `Agent{w} | id`.
fn agent_beside(alloc: Global) -> Result<Big, AlgebraFault>
    ensures value { IfOk result (λ big. big ≡ term.agent_beside) }
    ensures valid { IfOk result IsValid }
{
    let agent = atom(alloc, AGENT, 1, &wire(alloc)?)?;
    let site = identity(alloc, 1, &[])?;
    merge(alloc, &agent, &site)
}

/// What takes the place of the redex: the agent in the room, `Room.(Agent{w} | id)`.
fn reactum(alloc: Global) -> Result<Big, AlgebraFault>
    ensures value { IfOk result (λ big. big ≡ term.reactum) }
    ensures valid { IfOk result IsValid }
{
    let room = ion(alloc, ROOM, 0, &[])?;
    let inside = agent_beside(alloc)?;
    nest(alloc, &room, &inside)
}

/// The map of the rule: site 0 of the reactum gets what is in site 0 of the redex.
fn map(alloc: Global) -> Mem<Map> {
    Rows::try_from_vec(Vec::from_slice(alloc, &[0])?)
}

/// The rule, without conditions and of class 0: `react enter = Agent{w} | Room.id --> Room.(Agent{w} | id);`. `Rule::new`
/// asks that the reactum is numbered from 0, and tests that the sides have the same face and that the map fits.
pub fn rule(alloc: Global) -> Result<Rule, Refusal> {
    let label = label(alloc, "enter")?;
    let redex = pattern(alloc)?;
    let reactum = reactum(alloc)?;
    let map = map(alloc)?;
    let conditions = Rows::from_vec(Vec::new(alloc));
    Ok(Rule::new(label, redex, reactum, map, conditions, 0)?)
}
