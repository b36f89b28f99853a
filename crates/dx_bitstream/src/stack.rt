ghost use Rattle.std.specs.Prelude.{◌≡◌, [], ◌∷◌, OnOk, MatchOption, IsTrue, ◌↔◌};

use std::alloc::Global;
use std::marker::Model;

/// A vector that contracts see as the list of its items from the last one on.
#[derive(Drop)]
pub struct Stack<T> {
    items: Vec<T>,
}

impl<T> Model for Stack<T> {
    ghost use Rattle.std.specs.Prelude.{List, reverse};

    ghost Value = { List T };

    ghost view = { λ s. reverse s.items.items };
}

impl<T: Drop> Stack<T> {
    /// A stack of nothing, which takes no memory.
    pub fn new(alloc: Global) -> Self
        ensures { result ≡ [] }
    {
        Stack {
            items: Vec::new(alloc),
        }
    }

    /// Puts the item on top; where memory runs out it comes back.
    pub fn push(&mut self, item: T) -> Result<(), T>
        ensures { OnOk result (self.new ≡ item ∷ self.old) }
    {
        match self.items.push(item) {
            Ok(()) => Ok(()),
            Err(failed) => Err(failed.value),
        }
    }

    /// Whether there is no item.
    pub fn is_empty(&self) -> bool
        ensures { IsTrue result ↔ (self.now ≡ []) }
    {
        self.items.is_empty()
    }

    /// Takes the top item; None exactly where there is none.
    pub fn pop(&mut self) -> Option<T>
        ensures { MatchOption result (self.old ≡ []) (λ item. self.old ≡ item ∷ self.new) }
    {
        self.items.pop()
    }
}
