// A stack in memory of its own. It is no `ArrayVec`: that one asks a `Default` of its values, which `Item` has not; its list has the last
// pushed last, where the definitions have the last first; and its `pop` doesn't promise what `room` does here.
ghost use Rattle.std.specs.Prelude.{◌≡◌, ◌<◌, ◌≤◌, List, [], ◌∷◌, length};
ghost use Rattle.walker_arrays.specs.Stacks.{first, others};

use std::marker::Model;

// At most N values. A contract sees them as a list, the last pushed first.
#[derive(Drop)]
pub struct Stack<T, const N: usize> {
    values: [T; N],
    height: usize,
}

impl<T, const N: usize> Model for Stack<T, N> {
    ghost use Rattle.std.specs.Prelude.{◌≡◌, ◌≤◌, List, length};
    ghost use Rattle.walker_arrays.specs.Stacks.{piled};

    ghost Value = { List T };

    ghost view = { λ s. piled s.height s.values };

    ghost invariant = { λ s. (s.height ≤ N) × (length s.values ≡ N) };
}

impl<T: Copy, const N: usize> Stack<T, N> {
    // None yet; `blank` stands where no value does.
    pub fn empty(blank: T) -> Self
        ensures { result ≡ [] }
    {
        Stack {
            values: [blank; N],
            height: 0,
        }
    }

    // One more, if there is room.
    pub fn push(&mut self, value: T)
        ensures room { length self.old < N → self.new ≡ value ∷ self.old }
        ensures full { N ≤ length self.old → self.new ≡ self.old }
    {
        if self.height < N {
            self.values[self.height] = value;
            self.height += 1;
        }
    }

    // The last is taken off.
    pub fn pop(&mut self) -> Option<T>
        ensures value { result ≡ first self.old }
        ensures rest { self.new ≡ others self.old }
        ensures room { 0 < N → length self.new < N }
    {
        if self.height == 0 {
            return None;
        }
        self.height -= 1;
        Some(self.values[self.height])
    }

    pub fn last(&self) -> Option<T>
        ensures { result ≡ first self.now }
    {
        if self.height == 0 {
            return None;
        }
        Some(self.values[self.height - 1])
    }
}
