//! What a reaction is to leave, made before anything is changed.
use crate::entries::{EdgeEntry, NodeEntry};
use crate::tied_points::TiedPoints;
use bg_base::{NodeRow, Place};

/// A node that is to have another parent, and that parent.
#[derive(Clone, Copy)]
pub struct Move {
    pub node: u32,
    pub place: Place,
}

/// A place, and the nodes that are to lie in it.
#[derive(Drop)]
pub struct Nest {
    pub place: Place,
    pub children: Vec<u32>,
}

/// A link of the host, before a reaction or after it: an edge by its number, an outer name by its position among the outer
/// names, which stay. A name that is none of them has the position behind all of them.
#[derive(Clone, Copy, PartialEq, Eq)]
pub enum LinkKey {
    Edge(u32),
    Name(u32),
}

/// A link from which the points on nodes that are gone are taken, and the points that are put behind those that stay.
#[derive(Drop)]
pub struct Bundle {
    pub key: LinkKey,
    pub arriving: TiedPoints,
}

/// What goes, moves and comes of the nodes.
#[derive(Drop)]
pub struct NodeChanges {
    pub gone: Vec<u32>,
    pub moves: Vec<Move>,
    pub new: Vec<NodeRow>,
}

/// The edges that go, and those that come.
#[derive(Drop)]
pub struct EdgeChanges {
    pub idle: Vec<u32>,
    pub used: Vec<EdgeEntry>,
}

/// What goes, comes and changes of the links.
#[derive(Drop)]
pub struct LinkChanges {
    pub idle: Vec<u32>,
    pub used: Vec<EdgeEntry>,
    pub bundles: Vec<Bundle>,
}

/// What a reaction is to leave of a host: nodes are taken out, new ones with what lies in them put behind, others moved;
/// places and links that are there get other children and other points; edges are taken out and new ones put behind.
#[derive(Drop)]
pub struct Plan {
    pub gone: Vec<u32>,
    pub moves: Vec<Move>,
    pub entries: Vec<NodeEntry>,
    pub nests: Vec<Nest>,
    pub idle: Vec<u32>,
    pub used: Vec<EdgeEntry>,
    pub bundles: Vec<Bundle>,
    pub next_node: u32,
    pub next_edge: u32,
}
