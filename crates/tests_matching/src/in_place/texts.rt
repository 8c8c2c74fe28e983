//! The models of reactions in place.
#[derive(Clone, Copy)]
pub(crate) enum Model {
    /// Three rooms and two agents beside them.
    Building,
    /// A node whose two nodes share an edge.
    Copying,
    /// Two nodes in two places.
    Swapping,
    /// Nodes on edges and names.
    Ports,
    /// Agents that enter and leave rooms, are tied and are untied.
    Rooms,
    /// Cells that are copied and dropped.
    Cells,
    /// What is in the node is doubled.
    Doubling,
}

/// The text of the model.
pub(crate) fn text(model: Model) -> &'static str {
    match model {
        Model::Building => {
            "ctrl Building = 0; ctrl Room = 0; atomic ctrl Agent = 1;
big hall = Building.(Room.1 | Room.1 | Room.1 | Agent{a} | Agent{b});
react enter = Agent{x} | Room.id --> Room.(Agent{x} | id);
begin brs init hall; rules = [ {enter} ]; end"
        }
        Model::Copying => {
            "ctrl Copy = 0; atomic ctrl A = 1; atomic ctrl B = 1; big s = Copy./e (A{e} | B{e});
react copy = Copy.id --> id | id @ [0, 0];
begin brs init s; rules = [ {copy} ]; end"
        }
        Model::Swapping => {
            "ctrl Top = 0; ctrl M = 0; ctrl N = 0; atomic ctrl A = 0; atomic ctrl B = 0;
big s = Top.(M.A | Top.(N.B | A) | N.B);
react swap = M.id || N.id --> M.id || N.id @ [1, 0];
begin brs init s; rules = [ {swap} ]; end"
        }
        Model::Ports => {
            "ctrl Top = 0; ctrl Bin = 0; atomic ctrl P = 1; atomic ctrl Pair = 2;
big s = /e /f /g Top.(Bin.(P{e} | P{e}) | Bin.P{f} | P{f} | Pair{g, g} | P{g} | P{n} | P{n} | Bin.Bin.P{m});
react empty = Bin.id --> Bin.1 @ [];
react turn = Pair{x, y} --> Pair{y, x};
react same = P{x} --> P{x};
react untie = /h (P{h} | P{h}) --> /h P{h} | /k P{k};
react open = Bin.id --> id;
react cut = P{x} --> /k P{k} | {x};
begin brs init s; rules = [ {empty, turn, same, untie, open, cut} ]; end"
        }
        Model::Rooms => {
            "ctrl Room = 0; atomic ctrl Agent = 1;
big s = /e (Room.(Agent{e} | Agent{a}) | Room.(Room.1 | Agent{e}) | Agent{b}) || Room.Agent{a};
react enter = Agent{x} | Room.id --> Room.(Agent{x} | id);
react leave = Room.(Agent{x} | id) --> Agent{x} | Room.id;
react tie = Agent{x} | Agent{y} --> /k (Agent{k} | Agent{k}) | {x, y};
react join = Agent{x} || Agent{y} --> Agent{x} || Agent{x} || {y};
react untie = /h (Agent{h} | Agent{h}) --> /h Agent{h} | /k Agent{k};
react swap = Room.id || Room.id --> Room.id || Room.id @ [1, 0];
begin brs init s; rules = [ {enter, leave, tie, join, untie, swap} ]; end"
        }
        Model::Cells => {
            "ctrl Cell = 1; atomic ctrl Bit = 1; atomic ctrl Seed = 0;
big s = Seed | /e (Cell{e}.Bit{e} | Cell{n}./f (Bit{f} | Bit{f} | Bit{e}));
react drop = Cell{x}.id --> 1 | {x} @ [];
react grow = Seed --> Seed | /e Cell{e}.Bit{e};
react copy = Cell{x}.id --> Cell{x}.id | Cell{x}.id @ [0, 0];
react move = Cell{x}.(Bit{y} | id) | Cell{z}.id --> Cell{x}.id | Cell{z}.(Bit{y} | id);
react nest = Cell{x}.id | Cell{y}.id --> Cell{x}.(id | Cell{y}.id);
react turn = Cell{x}.id || Bit{y} --> Cell{y}.id || Bit{x};
react open = Cell{x}.id --> id | Bit{x};
begin brs init s; rules = [ {drop, grow, copy, move, nest, turn, open} ]; end"
        }
        Model::Doubling => {
            "ctrl Copy = 0; atomic ctrl A = 0; big s = Copy.A;
react twice = Copy.id --> Copy.(id | id) @ [0, 0];
begin brs init s; rules = [ {twice} ]; end"
        }
    }
}
