// lib.rs of the crate, first half: the rotations and `balance`, in place over slot numbers. A side serves for both.
#![tactic(auto)]

ghost use Rattle.std.specs.Prelude.{◌≡◌, ◌+◌, ◌*◌, ◌%◌, ◌/◌, ◌≤◌, ◌<◌};
ghost use Rattle.rules.specs.Tree.{Entry, Tree, levels};
ghost use Rattle.rules.specs.Balance.{join, lift, straight, mend, balance, near, far, other};
ghost use Rattle.rules.specs.Limits.{half};
ghost use Rattle.rules.specs.Stored.{slot_word, Within, Rooted};
ghost use Rattle.rules.specs.Stored as stored;
ghost use Rattle.node.specs.Node.{Hung};
ghost use Rattle.balance.specs.Sides.{side_of};

use node::{Factor, LINKS};

// Left or right.
#[derive(Clone, Copy)]
pub enum Side {
    Left,
    Right,
}

impl Side {
    // Of two numbers, left and right, the one on the side.
    fn of(self, left: u64, right: u64) -> u64
        ensures { result ≡ near (side_of self) left right }
    {
        match self {
            Side::Left => left,
            Side::Right => right,
        }
    }

    // The other side.
    pub fn opposite(self) -> Self
        ensures { side_of result ≡ other (side_of self) }
    {
        match self {
            Side::Left => Side::Right,
            Side::Right => Side::Left,
        }
    }

    // The child of slot k on the side, 0 for none.
    pub fn child(self, slots: &[u64], k: u64) -> u64
        requires { Within slots.now k }
        ensures { result ≡ near (side_of self) (slot_word slots.now k 4 % half) (slot_word slots.now k 4 / half) }
    {
        let links = node::word(slots, k, LINKS);
        self.of(node::low(links), node::high(links))
    }

    // The links to `a` on the side and `b` on the other side.
    pub fn links(self, a: u64, b: u64) -> u64
        requires { (a < half) × (b < half) }
        ensures { result ≡ near (side_of self) a b + half * far (side_of self) a b }
    {
        match self {
            Side::Left => node::pack(a, b),
            Side::Right => node::pack(b, a),
        }
    }
}

// Makes `a` the child of slot k on the side and `b` its child on the other side.
fn join(slots: &mut [u64], side: Side, k: u64, a: u64, b: u64)
    requires { (e : Entry) × (t : Tree) × (u : Tree) × Hung slots.old k a b e t u }
    ensures { (e : Entry) (t u : Tree) → Hung slots.old k a b e t u → stored.Left slots.old slots.new k (join (side_of side) e t u) }
{
    match side {
        Side::Left => node::update(slots, k, a, b),
        Side::Right => node::update(slots, k, b, a),
    }
}

// The rotation by which `a`, the child of slot k on the side, comes up, and k goes down on the other side, where `b` is
// its child: `rotate_right` of the crate for the left side, `rotate_left` for the right. Answers the slot that came up.
fn rotate(slots: &mut [u64], side: Side, k: u64, a: u64, b: u64) -> u64
    requires { (e : Entry) × (t : Tree) × (u : Tree) × Hung slots.old k a b e t u × (1 ≤ levels t) }
    ensures { (e : Entry) (t u : Tree) → Hung slots.old k a b e t u → 1 ≤ levels t → stored.Left slots.old slots.new result (lift (side_of side) e t u) }
{
    let outer = side.child(slots, a);
    let inner = side.opposite().child(slots, a);
    join(slots, side, k, inner, b);
    join(slots, side, a, outer, k);
    a
}

// Where the inner subtree of `a`, the child on the side, is the higher one, it comes up first. Answers the slot that is
// then on the side.
fn straighten(slots: &mut [u64], side: Side, a: u64) -> u64
    requires { (t : Tree) × Rooted slots.old a t × (1 ≤ levels t) }
    ensures { (t : Tree) → Rooted slots.old a t → 1 ≤ levels t → stored.Left slots.old slots.new result (straight (side_of side) t) }
{
    let turned = side.opposite();
    let outer = side.child(slots, a);
    let inner = turned.child(slots, a);
    if node::height(slots, outer) < node::height(slots, inner) {
        return rotate(slots, turned, a, inner, outer);
    }
    a
}

// Mends slot k, whose child `a` on the side is too high for its child `b` on the other. Answers the slot that came up.
pub fn mend(slots: &mut [u64], side: Side, k: u64, a: u64, b: u64) -> u64
    requires { (e : Entry) × (t : Tree) × (u : Tree) × Hung slots.old k a b e t u × (1 ≤ levels t) }
    ensures { (e : Entry) (t u : Tree) → Hung slots.old k a b e t u → 1 ≤ levels t → stored.Left slots.old slots.new result (mend (side_of side) e t u) }
{
    let top = straighten(slots, side, a);
    rotate(slots, side, k, top, b)
}

// Makes l and r the children of the entry in slot k, and balances it. Answers the slot that is then on top.
pub fn balance(slots: &mut [u64], k: u64, l: u64, r: u64) -> u64
    requires { (e : Entry) × (t : Tree) × (u : Tree) × Hung slots.old k l r e t u }
    ensures { (e : Entry) (t u : Tree) → Hung slots.old k l r e t u → stored.Left slots.old slots.new result (balance e t u) }
{
    let left = node::shape_below(slots, l);
    let right = node::shape_below(slots, r);
    match node::balance_factor(node::low(left), node::low(right)) {
        Factor::BelowMinusOne => mend(slots, Side::Right, k, r, l),
        Factor::AboveOne => mend(slots, Side::Left, k, l, r),
        Factor::Between => {
            node::update_over(slots, k, l, r, left, right);
            k
        }
    }
}
