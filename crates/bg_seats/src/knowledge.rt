//! What the owner of a seat knows of the history.
use bg_base::Entry;
use std::collections::LinkedList;

/// The view of a seat. No value of it is made.
pub struct Knowledge {
    /// How many passes were given, where the seat has the turn.
    pub turn: Option<u32>,
    /// The number of the worker, where the seat is a pass.
    pub worker: Option<u32>,
    /// The entries that the pass has seen.
    pub seen: LinkedList<Entry>,
    /// All entries, where the seat has the turn.
    pub history: LinkedList<Entry>,
}
