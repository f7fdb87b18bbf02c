// iterators.rs of the crate: the query walk, over slot numbers. The slots are lent as the words after the header, the
// pending nodes as a stack of their slots. The stack is lent beside where the walk stands, and not held in one struct with
// it: what is beside it in memory is read and written there at each step, a fifth of a query's instructions, and the walk
// would be slower than it was.
#![tactic(auto)]

ghost use Rattle.std.specs.Prelude.{◌≡◌, cond, List, ℕ, suc, ◌<◌, ◌≤◌, eqb, set, take, Some, None};
ghost use Rattle.std.specs.Iterator.{at_most};
ghost use Rattle.rules.specs.Limits.{most_pending};
ghost use Rattle.rules.specs.Range.{range, overlaps};
ghost use Rattle.rules.specs.Tree.{Tree};
ghost use Rattle.rules.specs.Steps.{Pending, step, at_start};
ghost use Rattle.rules.specs.Stored.{slot_word, Within};
ghost use Rattle.interval.specs.Interval.{range_of};
ghost use Rattle.walk.specs.Walk.{Stands, Leaves, next, entries_at, Walkable};
ghost use Rattle.walk.specs.Inside.{place_below, place_with, stack_with};

use interval::Interval;
use node::{LINKS, MAX, START, word};
use rules::MOST_PENDING;

// Where a walk stands: how many nodes are pending, and the slot of the latest of them, 0 for none.
#[derive(Clone, Copy)]
pub struct Place {
    pub pending: usize,
    pub top: u64,
}

// After a step: where the walk stands, and the slot that was hit.
#[derive(Clone, Copy)]
pub struct After {
    pub place: Place,
    pub hit: Option<u64>,
}

// Leaves the node in slot k pending above `pending` others, if there is one: how many are pending then.
pub fn leave(stack: &mut [u64; MOST_PENDING], pending: usize, k: u64) -> usize
    requires { pending < most_pending }
    ensures { (stack.new ≡ set stack.old pending k) × (result ≡ cond (eqb k 0) pending (suc pending)) }
{
    stack[pending] = k;
    if k == 0 { pending } else { pending + 1 }
}

// Where the walk of the tree from slot `root` on stands at the start: at the root, if there is one.
pub fn start(stack: &mut [u64; MOST_PENDING], root: u64) -> Place
    ensures { (ss : List ℕ) (t : Tree) → Walkable ss root t → Stands ss stack.new result (at_start t) }
{
    let pending = leave(stack, 0, root);
    Place { pending, top: root }
}

// Where the walk stands with the first `pending` nodes of the stack.
fn below(stack: &[u64; MOST_PENDING], pending: usize) -> Place
    requires { pending ≤ most_pending }
    ensures { result ≡ place_below stack.now pending }
{
    if pending == 0 {
        return Place { pending, top: 0 };
    }
    Place {
        pending,
        top: stack[pending - 1],
    }
}

// Leaves the child in slot k pending above the others, if there is one. Where there is none it stores nothing, unlike
// `leave`: a store that isn't needed takes the walk half as many instructions again.
fn leave_child(stack: &mut [u64; MOST_PENDING], others: Place, k: u64) -> Place
    requires { (k ≡ 0 → ⊥) → others.pending < most_pending }
    ensures { (stack.new ≡ stack_with stack.old others k) × (result ≡ place_with others k) }
{
    if k == 0 {
        return others;
    }
    stack[others.pending] = k;
    Place {
        pending: others.pending + 1,
        top: k,
    }
}

// The slot k, where the range in it overlaps the query.
fn hit_at(slots: &[u64], k: u64, query: Interval) -> Option<u64>
    requires { Within slots.now k }
    ensures { result ≡ cond (overlaps (range (slot_word slots.now k 0) (slot_word slots.now k 1)) (range_of query)) (Some k) None }
{
    let here = node::interval_at(slots, k);
    if here.overlaps(query) { Some(k) } else { None }
}

// One step: takes the latest pending node, which is in slot `top`, and leaves its children that aren't skipped pending,
// left before right.
pub fn step(slots: &[u64], stack: &mut [u64; MOST_PENDING], place: Place, query: Interval) -> After
    requires { (p : Pending) × Stands slots.now stack.old place p }
    ensures { (p : Pending) → Stands slots.now stack.old place p → Leaves slots.now stack.new result (step (range_of query) p) }
{
    if place.pending == 0 {
        return After { place, hit: None };
    }
    let others = below(stack, place.pending - 1);
    let top = place.top;
    let start = word(slots, top, START);
    let max = word(slots, top, MAX);
    let links = word(slots, top, LINKS);
    if max <= query.start {
        return After {
            place: others,
            hit: None,
        };
    }
    let left = node::low(links);
    let with_left = leave_child(stack, others, left);
    if query.end <= start {
        return After {
            place: with_left,
            hit: None,
        };
    }
    let hit = hit_at(slots, top, query);
    let right = node::high(links);
    let with_both = leave_child(stack, with_left, right);
    After {
        place: with_both,
        hit,
    }
}

// The walk's next hit, and where it stands then: steps until one hits or nothing is pending. Where this and the `next` below
// are not inlined, a query takes three tenths more instructions.
#[inline]
pub fn next(slots: &[u64], stack: &mut [u64; MOST_PENDING], place: Place, query: Interval) -> After
    requires { (p : Pending) × Stands slots.now stack.old place p }
    ensures { (p : Pending) → Stands slots.now stack.old place p → Leaves slots.now stack.new result (next (range_of query) p) }
{
    let mut place = place;
    while place.pending > 0 {
        let after = step(slots, stack, place, query);
        if after.hit.is_some() {
            return after;
        }
        place = after.place;
    }
    After { place, hit: None }
}

// A walk on a lent stack: the slots that it reads, what is asked, the stack, and where it stands. It gives the slots that
// are hit.
#[derive(Drop)]
pub struct Walk<'a, 'b> {
    pub slots: &'a [u64],
    pub query: Interval,
    pub stack: &'b mut [u64; MOST_PENDING],
    pub place: Place,
}

impl<'a, 'b> Iterator for Walk<'a, 'b> {
    type Item = u64;

    ghost can_next = { λ w. (p : Pending) × Stands w.slots.now w.stack.now w.place p };

    ghost next_gives = { λ w hit left. (left.slots ≡ w.slots) × (left.query ≡ w.query) × (left.stack.ghost_name ≡ w.stack.ghost_name) × ((p : Pending) → Stands w.slots.now w.stack.now w.place p → Leaves w.slots.now left.stack.now (record { place = left.place; hit = hit }) (next (range_of w.query) p)) };

    ghost remaining = { λ w. at_most (entries_at w.slots.now (take w.place.pending w.stack.now)) };

    // The next hit's slot.
    #[inline]
    fn next(&mut self) -> Option<u64> {
        let after = next(self.slots, self.stack, self.place, self.query);
        self.place = after.place;
        after.hit
    }
}
