//! A stack of anything.
ghost use Rattle.std.specs.Prelude.{◌≡◌, ◌∷◌, [], OnOk, OnErr, MatchOption, IfNone, ◌+◌, drop};

use mk_base::memory::NoMemory;
use std::alloc::Global;
use std::marker::Model;

/// A stack, which contracts see as the list of its elements, the nearest (pushed last) first.
#[derive(Drop)]
pub struct Stack<T> {
    items: Vec<T>,
}

impl<T> Model for Stack<T> {
    ghost use Rattle.std.specs.Prelude.{List as Row, reverse};
    ghost use Rattle.std.specs.Coded.{coded_list};

    ghost Value = { Row T };

    ghost coded = { coded_list T.code };

    ghost view = { λ it. reverse it.items.items };
}

impl<T> Stack<T> {
    /// The empty stack, which takes no memory yet.
    pub fn new(alloc: Global) -> Stack<T>
        ensures { result ≡ [] }
    {
        Stack {
            items: Vec::new(alloc),
        }
    }

    /// The element that stands `at` places below the nearest, and None where there is no such place.
    pub fn get(&self, at: usize) -> Option<&T>
        ensures { MatchOption result (drop at self.now ≡ []) (λ x. drop at self.now ≡ x.now ∷ drop (at + 1) self.now) }
    {
        let items = self.items.as_slice();
        let count = items.len();
        if at < count {
            Some(&items[count - 1 - at])
        } else {
            None
        }
    }

    /// Takes the nearest element off.
    pub fn pop(&mut self) -> Option<T>
        ensures taken { MatchOption result (self.old ≡ []) (λ x. self.old ≡ x ∷ self.new) }
        ensures empty { IfNone result (self.new ≡ []) }
    {
        self.items.pop()
    }
}

impl<T: Drop> Stack<T> {
    /// Puts an element on top.
    pub fn push(&mut self, item: T) -> Result<(), NoMemory>
        ensures ok { OnOk result (self.new ≡ item ∷ self.old) }
        ensures err { OnErr result (self.new ≡ self.old) }
    {
        self.items.push(item)?;
        Ok(())
    }
}
