#![tactic(auto)]

ghost use Rattle.std.specs.Prelude.{◌≡◌, ◌↔◌, [], ◌∷◌, ◌++◌, length, drop, IsErr, IsNone, IfErr, IsTrue, OnOk, OnErr, option_to_list};

use std::marker::Model;

// A stack in a slice that the caller supplies, as a tree's memory is taken once and a stack takes none.
// Its items are the first `len` of `slots`.
#[derive(Drop)]
pub struct Stack<'a, T> {
    slots: &'a mut [T],
    len: usize,
}

// A clause sees the items, the oldest first, and the slots that are free, with what they hold.
impl<'a, T> Model for Stack<'a, T> {
    ghost use Rattle.std.specs.Prelude.{◌≤◌, length, take, drop};
    ghost use Rattle.stack.specs.Slots.{Slots};

    ghost Value = { Slots T };

    ghost view = { λ s. record { items = take s.len s.slots.now; free = drop s.len s.slots.now } };

    ghost invariant = { λ s. s.len ≤ length s.slots.now };
}

impl<'a, T: Copy> Stack<'a, T> {
    // An empty stack, with room for as many items as the slice has.
    pub fn over(slots: &'a mut [T]) -> Stack<'a, T>
        ensures items { result.items ≡ [] }
        ensures free { result.free ≡ slots.old }
    {
        Stack { slots, len: 0 }
    }

    pub fn len(&self) -> usize
        ensures { result ≡ length self.now.items }
    {
        self.len // the items, not the room
    }

    pub fn is_empty(&self) -> bool
        ensures { IsTrue result ↔ (self.now.items ≡ []) }
    {
        self.len == 0
    }

    // Puts `x` on top, or gives it back where no slot is free.
    pub fn push(&mut self, x: T) -> Result<(), T>
        ensures full { IsErr result ↔ (self.old.free ≡ []) }

        ensures items { OnOk result (self.new.items ≡ self.old.items ++ x ∷ []) }
        ensures free { OnOk result (self.new.free ≡ drop 1 self.old.free) }

        ensures given_back { IfErr result (λ y. y ≡ x) }
        ensures unchanged { OnErr result (self.new ≡ self.old) }
    {
        if self.len == self.slots.len() {
            return Err(x);
        }
        self.slots[self.len] = x;
        self.len += 1;
        Ok(())
    }

    // Takes the top item off, or answers `None` where there is none.
    pub fn pop(&mut self) -> Option<T>
        ensures empty { IsNone result ↔ (self.old.items ≡ []) }
        ensures items { self.old.items ≡ self.new.items ++ option_to_list result }
        ensures free { self.new.free ≡ option_to_list result ++ self.old.free }
    {
        self.len = self.len.checked_sub(1)?;
        Some(self.slots[self.len])
    }
}
