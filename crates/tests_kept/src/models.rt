//! The models.
use bg_elab::read;
use bg_lists::{Mem, OutOfMemory};
use bg_rules::{Rule, System};
use std::alloc::Global;

#[derive(Clone, Copy)]
pub(crate) enum Model {
    /// A link that is cut from a node, and a pair that closes it.
    Cutting,
    /// Two parts that are exchanged, and a pattern that looks above.
    Swapping,
    /// Agents that enter and leave rooms, are tied and are untied.
    Rooms,
    /// Cells that are copied and dropped.
    Cells,
    /// 256 times 256 pairs, and one that comes and goes.
    Pairs,
    /// 512 times 257 pairs.
    Many,
}

/// The text of the model.
pub(crate) fn text(model: Model) -> &'static str {
    match model {
        Model::Cutting => {
            "atomic ctrl A = 1; atomic ctrl B = 1; atomic ctrl D = 1;
big s = /z (A{z} | B{z} | D{z});
react cut = D{x} --> {x} | 1;
react r = /x (A{x} | B{x}) --> 1;
begin brs init s; rules = [ {cut}, {r} ]; end"
        }
        Model::Swapping => {
            "ctrl A = 0; ctrl C = 0; ctrl D = 0; ctrl M = 0; ctrl N = 0; atomic ctrl B = 0; atomic ctrl X = 0;
big s = A.C.M.D.B | C.N.1;
react swap = M.id || N.id --> M.id || N.id @ [1, 0];
react seen = A.id || B --> A.id || X;
begin brs init s; rules = [ {swap, seen} ]; end"
        }
        Model::Rooms => {
            "ctrl Room = 0; atomic ctrl Agent = 1;
big s = /e (Room.(Agent{e} | Agent{a}) | Room.(Room.1 | Agent{e}) | Agent{b}) || Room.Agent{a};
react enter = Agent{x} | Room.id --> Room.(Agent{x} | id);
react leave = Room.(Agent{x} | id) --> Agent{x} | Room.id;
react tie = Agent{x} | Agent{y} --> /k (Agent{k} | Agent{k}) | {x, y};
react join = Agent{x} || Agent{y} --> Agent{x} || Agent{x} || {y};
react untie = /h (Agent{h} | Agent{h}) --> /h Agent{h} | /k Agent{k};
react swap = Room.id || Room.id --> Room.id || Room.id @ [1, 0];
begin brs init s; rules = [ {enter, leave, tie, join, untie, swap} ]; end"
        }
        Model::Cells => {
            "ctrl Cell = 1; atomic ctrl Bit = 1; atomic ctrl Seed = 0;
big s = Seed | /e (Cell{e}.Bit{e} | Cell{n}./f (Bit{f} | Bit{f} | Bit{e}));
react drop = Cell{x}.id --> 1 | {x} @ [];
react grow = Seed --> Seed | /e Cell{e}.Bit{e};
react copy = Cell{x}.id --> Cell{x}.id | Cell{x}.id @ [0, 0];
react move = Cell{x}.(Bit{y} | id) | Cell{z}.id --> Cell{x}.id | Cell{z}.(Bit{y} | id);
react nest = Cell{x}.id | Cell{y}.id --> Cell{x}.(id | Cell{y}.id);
react turn = Cell{x}.id || Bit{y} --> Cell{y}.id || Bit{x};
react open = Cell{x}.id --> id | Bit{x};
begin brs init s; rules = [ {drop, grow, copy, move, nest, turn, open} ]; end"
        }
        Model::Pairs => {
            "ctrl T = 0; atomic ctrl A = 1; atomic ctrl B = 1; atomic ctrl C = 1;
big a1 = A{x} | A{x}; big a2 = a1 | a1; big a3 = a2 | a2; big a4 = a3 | a3; big a5 = a4 | a4; big a6 = a5 | a5; big a7 = a6 | a6; big a8 = a7 | a7;
big b1 = B{x} | B{x}; big b2 = b1 | b1; big b3 = b2 | b2; big b4 = b3 | b3; big b5 = b4 | b4; big b6 = b5 | b5; big b7 = b6 | b6; big b8 = b7 | b7;
big s = T.(A{x} | C{x}) | a8 | b8;
react pair = A{x} | B{x} --> A{x};
react on = T.(C{x} | id) --> T.(B{x} | id);
react off = T.(B{x} | id) --> T.(C{x} | id);
begin brs init s; rules = [ {pair, on, off} ]; end"
        }
        Model::Many => {
            "atomic ctrl A = 1; atomic ctrl B = 1;
big a1 = A{x} | A{x}; big a2 = a1 | a1; big a3 = a2 | a2; big a4 = a3 | a3; big a5 = a4 | a4; big a6 = a5 | a5; big a7 = a6 | a6; big a8 = a7 | a7;
big b1 = B{x} | B{x}; big b2 = b1 | b1; big b3 = b2 | b2; big b4 = b3 | b3; big b5 = b4 | b4; big b6 = b5 | b5; big b7 = b6 | b6; big b8 = b7 | b7;
big s = a8 | a8 | b8 | B{x};
react pair = A{x} | B{x} --> A{x};
react drop = B{x} --> 1 | {x};
begin brs init s; rules = [ {pair, drop} ]; end"
        }
    }
}

/// The system that the model describes. One that describes none ends the test as want of memory does.
pub(crate) fn system_of(alloc: Global, model: Model) -> Mem<System> {
    let text = text(model);
    if text.len() > 1_000 {
        return Err(OutOfMemory);
    }
    match read(alloc, text.as_bytes()) {
        Ok(system) => Ok(system),
        Err(_fault) => Err(OutOfMemory),
    }
}

/// The system's rule of that number.
pub(crate) fn rule_of(system: &System, number: usize) -> Mem<&Rule> {
    match system.rules().get(number) {
        Some(rule) => Ok(rule),
        None => Err(OutOfMemory),
    }
}
