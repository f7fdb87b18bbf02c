// The nodes of a tree that are still to be compared.
ghost use Rattle.std.specs.Prelude.{◌≡◌, ℕ, ◌≤◌, ◌↔◌, List, ◌++◌, [], ◌∷◌, length, take, IsTrue};
ghost use Rattle.lines.specs.Nodes.{Pushed, Popped};

use std::marker::Model;

// The most nodes that can be pending.
const ROOM: usize = 32;

// The slots of the pending nodes, the latest last: an array with its count, as memory is fixed. Behind them it has zeros.
#[derive(Clone, Copy)]
pub struct Pending {
    slots: [u64; ROOM],
    count: usize,
}

impl Model for Pending {
    ghost use Rattle.std.specs.Prelude.{ℕ, List, take, length};
    ghost use Rattle.lines.specs.Arrays.{Listed, padded, length_listed, padded_listed};

    ghost Value = { List ℕ };

    ghost view = { λ pending. take pending.count pending.slots };

    ghost invariant = { λ pending. Listed 32 pending.count pending.slots };

    ghost inverse = { λ slots. record { slots = padded 32 slots; count = length slots } };

    ghost inverse_ok = { λ pending listed i. record {
      slots = padded_listed 32 pending.count pending.slots listed i;
      count = length_listed 32 pending.count pending.slots listed i;
    } };
}

// There is no room for one more node.
#[derive(Clone, Copy, Debug, PartialEq, Eq)]
pub struct Full;

impl Pending {
    // No node.
    pub fn new() -> Pending
        ensures { result ≡ [] }
    {
        Pending {
            slots: [0; ROOM],
            count: 0,
        }
    }

    // Whether no node is pending.
    pub fn is_empty(&self) -> bool
        ensures { IsTrue result ↔ (self.now ≡ []) }
    {
        self.count == 0
    }

    // No node is pending any more.
    pub fn clear(&mut self)
        ensures { self.new ≡ [] }
    {
        if !self.is_empty() {
            *self = Pending::new();
        }
    }

    // One more node is pending, unless there is no room for it.
    pub fn push(&mut self, slot: u64) -> Result<(), Full>
        ensures { Pushed self.old slot result self.new }
    {
        if self.count == ROOM {
            return Err(Full);
        }
        self.slots[self.count] = slot;
        self.count += 1;
        Ok(())
    }

    // Takes the latest pending node, if there is one.
    pub fn pop(&mut self) -> Option<u64>
        ensures { Popped self.old result self.new }
    {
        if self.is_empty() {
            return None;
        }
        self.count -= 1;
        let slot = self.slots[self.count];
        self.slots[self.count] = 0;
        Some(slot)
    }
}
