// Document 01's clauses of "sound" that can be seen in one place: the order of two slots, a free slot, the header with its
// root. Those of a slot with its children stand in `fitting`.
#![tactic(auto)]

ghost use Rattle.std.specs.Prelude.{◌≡◌, ◌++◌, ◌*◌, ◌≤◌, length};
ghost use Rattle.rules.specs.Limits.{header_words, slot_words};
ghost use Rattle.rules.specs.Pool.{ascending};
ghost use Rattle.rules.specs.Stored.{Within};
ghost use Rattle.clauses.specs.Slot.{bound, zeros_here, header_here};

use node::{END, MAX, SHAPE, START, VALUE};
use rules::{MOST_PENDING, SLOT_WORDS};

// Whether the range in slot a comes before the one in slot b; where either is none, there is nothing to compare.
pub fn in_order(slots: &[u64], a: u64, b: u64) -> bool
    requires { (slot_words * a ≤ length slots.now) × (slot_words * b ≤ length slots.now) }
    ensures { result ≡ ascending (bound slots.now a ++ bound slots.now b) }
{
    if a == 0 {
        return true;
    }
    if b == 0 {
        return true;
    }
    let first = node::interval_at(slots, a);
    let second = node::interval_at(slots, b);
    // Nearly always so where a pool is sound: asked by itself, it saves a tenth of a check.
    if first.start < second.start {
        return true;
    }
    first < second
}

// Whether the words of slot k are zeros, but for links.
pub fn zeros(slots: &[u64], k: u64) -> bool
    requires { Within slots.now k }
    ensures { result ≡ zeros_here slots.now k }
{
    (node::word(slots, k, START) == 0)
        & (node::word(slots, k, END) == 0)
        & (node::word(slots, k, VALUE) == 0)
        & (node::word(slots, k, MAX) == 0)
        & (node::word(slots, k, SHAPE) == 0)
}

// Whether the header is right, as far as it can be seen from the root: the root is a slot or none and not too high, the
// live count is its size and no more than all slots, and the last word is zero.
pub fn header(words: &[u64], slots: &[u64]) -> bool
    requires { header_words ≤ length words.now }
    ensures { result ≡ header_here words.now slots.now }
{
    let count = (slots.len() / SLOT_WORDS) as u64;
    let root = words[0];
    if count < root {
        return false;
    }
    (words[3] == 0)
        & (words[2] == node::size(slots, root))
        & (words[2] <= count)
        & (node::height(slots, root) <= MOST_PENDING as u64)
}
