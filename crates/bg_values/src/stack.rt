//! A stack. Contracts see its items, the top first.
ghost use Rattle.std.specs.Prelude.{◌≡◌, ◌∷◌, [], OnOk, OnErr};
ghost use Rattle.bg_values.specs.Stacks.{first, rest};

use bg_lists::{Mem, OutOfMemory};
use std::alloc::Global;
use std::marker::Model;

/// A stack. A contract sees its items, the top first.
#[derive(Drop)]
pub struct Stack<T> {
    items: Vec<T>,
}

impl<T> Model for Stack<T> {
    ghost use Rattle.std.specs.Prelude.{List, reverse};

    ghost Value = { List T };

    ghost view = { λ stack. reverse stack.items.items };
}

impl<T: Drop> Stack<T> {
    /// An empty stack. Takes no memory.
    pub fn new(alloc: Global) -> Stack<T>
        ensures { result ≡ [] }
    {
        Stack {
            items: Vec::new(alloc),
        }
    }

    /// Puts an item on top. Takes constant time, but for the moves of a list that grows by doubling.
    pub fn push(&mut self, item: T) -> Mem<()>
        ensures pushed { OnOk result (self.new ≡ item ∷ self.old) }
        ensures unchanged { OnErr result (self.new ≡ self.old) }
    {
        match self.items.push(item) {
            Ok(()) => Ok(()),
            Err(_) => Err(OutOfMemory),
        }
    }

    /// Takes the item on top, or `None` where there is none.
    pub fn pop(&mut self) -> Option<T>
        ensures top { result ≡ first self.old }
        ensures left { self.new ≡ rest self.old }
    {
        self.items.pop()
    }
}
