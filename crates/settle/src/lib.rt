// After an edit below: a node whose child has one entry more, or one less, is settled. Where the child kept its slot and its
// height, the node only counts the entry and looks at its end (`count`).
#![tactic(auto)]

ghost use Rattle.std.specs.Prelude.{ℕ, List, ◌≡◌, ◌+◌, ◌-◌, ◌*◌, ◌%◌, ◌/◌, ◌≤◌, ◌<◌, max, eqb, length};
ghost use Rattle.rules.specs.Tree.{Entry, Tree, levels};
ghost use Rattle.rules.specs.Balance as sides;
ghost use Rattle.rules.specs.Balance.{join, mend, balanced_join, near, far};
ghost use Rattle.rules.specs.Limits.{slot_words, half};
ghost use Rattle.rules.specs.Stored.{slot_word, Within, Left};
ghost use Rattle.node.specs.Node.{levels_at, with_links, Hung};
ghost use Rattle.balance.specs.Sides.{side_of};
ghost use Rattle.settle.specs.Settling.{differs, still, moved, marked, root_of, max_without, Stands, Stays, Over, Settles, Gaining, Losing};

use balance::Side;
use node::{LINKS, MAX, SHAPE};

// What an edit left in the place of a tree: the slot of its root, and whether its height is another one than before, as the
// halves of one word. As two fields, an Option of it would pass through memory from level to level, which takes 13 % more
// instructions of an insert and makes a feed slower than it was.
#[derive(Clone, Copy)]
pub struct Settled {
    word: u64,
}

impl Settled {
    // The root of a tree that is as high as before.
    pub fn still(root: u64) -> Self
        ensures { result ≡ still root }
    {
        Settled { word: root }
    }

    // The root of a tree that has another height than before.
    pub fn moved(root: u64) -> Self
        requires { root < half }
        ensures { result ≡ moved root }
    {
        let word = node::pack(root, 1);
        Settled { word }
    }

    // The root of a tree that had that height before.
    pub fn since(slots: &[u64], root: u64, height: u64) -> Self
        requires { (slot_words * root ≤ length slots.now) × (root < half) }
        ensures { result ≡ marked root (differs height (levels_at slots.now root)) }
    {
        if height == node::height(slots, root) {
            Settled::still(root)
        } else {
            Settled::moved(root)
        }
    }

    // The slot of the root.
    pub fn root(self) -> u64
        ensures { result ≡ root_of self }
    {
        node::low(self.word)
    }

    // Whether the tree is as high as before, and its root in that slot.
    pub fn is_still(self, root: u64) -> bool
        ensures { result ≡ eqb self.word root }
    {
        self.word == root
    }
}

// Mends slot k, as `balance::mend` does. Answers the slot that came up and whether its height is another one than that of k
// was.
fn mend_from(slots: &mut [u64], side: Side, k: u64, a: u64, b: u64) -> Settled
    requires { (slot_words * k ≤ length slots.old) × ((e : Entry) × (t : Tree) × (u : Tree) × Hung slots.old k a b e t u × (1 ≤ levels t)) }
    ensures { (e : Entry) (t u : Tree) → Hung slots.old k a b e t u → 1 ≤ levels t → Settles result slots.old slots.new (levels_at slots.old k) (mend (side_of side) e t u) }
{
    let height = node::height(slots, k);
    let root = balance::mend(slots, side, k, a, b);
    Settled::since(slots, root, height)
}

// How a node stands over a child that has changed: as high as before, of another height, or with that child too high or too
// low for the other.
#[derive(Clone, Copy)]
pub enum Standing {
    Level,
    Moved,
    TooHigh,
    TooLow,
}

// What became of the tree below a node: it has one entry more, or one less.
pub trait Change {
    // below the entry in slot k, the first of the trees became the second, which is in slot a on the side, beside the third
    ghost changing: { sides.Side → List ℕ → ℕ → ℕ → ℕ → Entry → Tree → Tree → Tree → Type 0 };

    // How slot k stands, over what is now in the slot `a` and what was and is in the slot `b`. Each change has its own tests:
    // one function for both takes 2 % more instructions of a feed.
    fn standing(slots: &[u64], k: u64, a: u64, b: u64) -> Standing
        requires { (s : sides.Side) × (end : ℕ) × (e : Entry) × (t : Tree) × (u : Tree) × (v : Tree) × changing s slots.now k a end e t u v × (b ≡ far s (slot_word slots.now k 4 % half) (slot_word slots.now k 4 / half)) }
        ensures { (s : sides.Side) (end : ℕ) (e : Entry) (t u v : Tree) → changing s slots.now k a end e t u v → b ≡ far s (slot_word slots.now k 4 % half) (slot_word slots.now k 4 / half) → Stands (levels t) (levels u) (levels v) result };

    // Makes `links` the links of slot k, moves its height by so many levels, and makes its size and max exact.
    fn write(slots: &mut [u64], k: u64, links: u64, levels: u64, end: u64)
        requires { (s : sides.Side) × (a : ℕ) × (e : Entry) × (t : Tree) × (u : Tree) × (v : Tree) × changing s slots.old k a end e t u v × Stays s slots.old k a links levels t u v }
        ensures { (s : sides.Side) (a : ℕ) (e : Entry) (t u v : Tree) → changing s slots.old k a end e t u v → Stays s slots.old k a links levels t u v → Left slots.old slots.new k (join s e u v) };

    ghost over: { (s : sides.Side) (ss : List ℕ) (k a end : ℕ) (e : Entry) (t u v : Tree) → changing s ss k a end e t u v → Over s ss k a e t u v };
}

// One entry more, which has the end.
#[derive(Clone, Copy)]
pub struct Gain;

impl Change for Gain {
    ghost changing = { Gaining };

    ghost over = { λ s ss k a end e t u v g. g.over };

    fn standing(slots: &[u64], k: u64, a: u64, b: u64) -> Standing {
        let levels = node::height(slots, a);
        if levels < node::height(slots, k) {
            return Standing::Level;
        }
        if node::height(slots, b) + 1 < levels {
            return Standing::TooHigh;
        }
        Standing::Moved
    }

    fn write(slots: &mut [u64], k: u64, links: u64, levels: u64, end: u64) {
        let max = node::word(slots, k, MAX).max(end);
        let shape = node::word(slots, k, SHAPE) + node::pack(levels, 1);
        node::set_words(slots, k, MAX, max, links, shape);
    }
}

// One entry less, which had the end.
#[derive(Clone, Copy)]
pub struct Loss;

// The max of slot k over children l and r when an entry with that end has gone from below it: only where that end was
// the max are the others looked at.
fn max_without(slots: &[u64], k: u64, l: u64, r: u64, end: u64) -> u64
    requires { Within slots.now k × (slot_words * l ≤ length slots.now) × (slot_words * r ≤ length slots.now) }
    ensures { result ≡ max_without slots.now k l r end }
{
    let max = node::word(slots, k, MAX);
    if max == end {
        return node::update_max(slots, k, l, r);
    }
    max
}

impl Change for Loss {
    ghost changing = { Losing };

    ghost over = { λ s ss k a end e t u v g. g.over };

    fn standing(slots: &[u64], k: u64, a: u64, b: u64) -> Standing {
        let levels = node::height(slots, a);
        let other = node::height(slots, b);
        if levels + 1 < other {
            return Standing::TooLow;
        }
        if levels.max(other) + 1 < node::height(slots, k) {
            return Standing::Moved;
        }
        Standing::Level
    }

    fn write(slots: &mut [u64], k: u64, links: u64, levels: u64, end: u64) {
        let max = max_without(slots, k, node::low(links), node::high(links), end);
        let shape = node::word(slots, k, SHAPE) - node::pack(levels, 1);
        node::set_words(slots, k, MAX, max, links, shape);
    }
}

// Slot k after a change below, where `a` is now its child on the side. Answers what is then on top.
pub fn over<C: Change>(slots: &mut [u64], side: Side, k: u64, a: u64, end: u64) -> Settled
    requires { (e : Entry) × (t : Tree) × (u : Tree) × (v : Tree) × C.changing (side_of side) slots.old k a end e t u v }
    ensures { (e : Entry) (t u v : Tree) → C.changing (side_of side) slots.old k a end e t u v → Settles result slots.old slots.new (levels (join (side_of side) e t v)) (balanced_join (side_of side) e u v) }
{
    let b = side.opposite().child(slots, k);
    match C::standing(slots, k, a, b) {
        Standing::TooHigh => mend_from(slots, side, k, a, b),
        Standing::TooLow => mend_from(slots, side.opposite(), k, b, a),
        Standing::Level => {
            C::write(slots, k, side.links(a, b), 0, end);
            Settled::still(k)
        }
        Standing::Moved => {
            C::write(slots, k, side.links(a, b), 1, end);
            Settled::moved(k)
        }
    }
}

// Slot k after a change below a child that kept its slot and its height.
pub fn count<C: Change>(slots: &mut [u64], k: u64, end: u64)
    requires { (s : sides.Side) × (e : Entry) × (t : Tree) × (u : Tree) × (v : Tree) × C.changing s slots.old k (near s (slot_word slots.old k 4 % half) (slot_word slots.old k 4 / half)) end e t u v × (levels u ≡ levels t) }
    ensures { (s : sides.Side) (e : Entry) (t u v : Tree) → C.changing s slots.old k (near s (slot_word slots.old k 4 % half) (slot_word slots.old k 4 / half)) end e t u v → levels u ≡ levels t → Settles (still k) slots.old slots.new (levels (join s e t v)) (balanced_join s e u v) }
{
    C::write(slots, k, node::word(slots, k, LINKS), 0, end);
}
