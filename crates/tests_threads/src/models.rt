//! Models, their systems, and steps.
use bg_base::Step;
use bg_elab::{ModelFault, read};
use bg_lists::{Mem, OutOfMemory, Rows};
use bg_rules::System;
use std::alloc::Global;
use std::process::Abort;

/// A model. Its text stands in no test, where each step of a proof would read it.
#[derive(Clone, Copy)]
pub(crate) enum Model {
    /// A building with three rooms and two agents beside them.
    Building,
    /// A node that changes its place, for ever.
    Wanderer,
    /// A host that doubles at each step.
    Copies,
    /// Two classes, and a condition.
    Bells,
}

impl Model {
    /// The text.
    pub(crate) fn text(self) -> &'static str {
        match self {
            Model::Building => {
                "ctrl Building = 0; ctrl Room = 0; atomic ctrl Agent = 1;
big hall = Building.(Room.1 | Room.1 | Room.1 | Agent{a} | Agent{b});
react enter = Agent{x} | Room.id --> Room.(Agent{x} | id);
begin brs init hall; rules = [ {enter} ]; end"
            }
            Model::Wanderer => {
                "ctrl Room = 0; atomic ctrl Agent = 0; big s = Room.Agent | Room.1 | Room.1;
react walk = Room.(Agent | id) | Room.id --> Room.id | Room.(Agent | id);
begin brs init s; rules = [ {walk} ]; end"
            }
            Model::Copies => {
                "ctrl Copy = 0; atomic ctrl Item = 0; big s = Copy.Item;
react r = Copy.id --> Copy.(id | id) @ [0,0]; begin brs init s; rules = [ {r} ]; end"
            }
            Model::Bells => {
                "ctrl Room = 0; atomic ctrl Bell = 0; atomic ctrl Rung = 0; atomic ctrl Guard = 0;
big s = Room.(Bell | Bell | Guard) | Room.(Bell | Bell) | Room.Bell;
react ring = Room.(Bell | id) --> Room.(Rung | id) if !Guard in param; react go = Guard --> Rung;
begin brs init s; rules = [ {ring}, {go} ]; end"
            }
        }
    }
}

/// The system that the text describes.
pub(crate) fn system_of(rt: &impl Abort, alloc: Global, text: &str) -> Mem<System> {
    let bytes = text.as_bytes();
    assert!(rt; bytes.len() < 1_000_000);
    match read(alloc, bytes) {
        Ok(system) => Ok(system),
        Err(ModelFault::OutOfMemory) => Err(OutOfMemory),
        Err(ModelFault::Bad { .. }) => panic!(rt; "a model is refused"),
    }
}

/// The step of the rule at the nodes.
pub(crate) fn step_of(alloc: Global, rule: u32, nodes: &[u32]) -> Mem<Step> {
    Ok(Step {
        rule,
        map: Rows::try_from_vec(nodes.to_vec(alloc)?)?,
    })
}
