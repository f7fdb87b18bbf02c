// lib.rs of the crate, second half: insert and the removals, by recursion over slot numbers, the height falling; and,
// added, whether a range is there.
#![tactic(auto)]

ghost use Rattle.std.specs.Prelude.{◌≡◌, ◌≤◌};
ghost use Rattle.rules.specs.Tree.{Entry, Tree, node, levels};
ghost use Rattle.rules.specs.Edit.{find, is_some, close};
ghost use Rattle.rules.specs.Range.{order};
ghost use Rattle.rules.specs.Range.{range as stored};
ghost use Rattle.rules.specs.Stored.{slot_word, Within, Rooted, Left};
ghost use Rattle.interval.specs.Interval.{range_of};
ghost use Rattle.node.specs.Node.{entry};
ghost use Rattle.balance.specs.Sides.{side_of};
ghost use Rattle.settle.specs.Settling.{Settles};
ghost use Rattle.tree.specs.Edits.{way_of, Standing, Inserting, Inserts, Sheds, Pair, Deletes};

use balance::Side;
use interval::Interval;
use node::END;
use settle::{Gain, Loss, Settled};

// What a removal did: what it left of the tree, and the slot of the entry that went. Where nothing went, the slot is 0: an
// Option of the two would pass through memory from level to level, which takes 6 % more instructions of a feed and
// makes it slower than it was.
#[derive(Clone, Copy)]
pub struct Removed {
    pub top: Settled,
    pub slot: u64,
}

// The side of slot k on which the range belongs, and none where it is that of the slot.
fn toward(slots: &[u64], k: u64, range: Interval) -> Option<Side>
    requires { Within slots.now k }
    ensures { way_of result ≡ order (range_of range) (stored (slot_word slots.now k 0) (slot_word slots.now k 1)) }
{
    let here = node::interval_at(slots, k);
    if range == here {
        return None;
    }
    Some(if range < here {
        Side::Left
    } else {
        Side::Right
    })
}

// Whether the tree rooted in slot k has the range.
pub fn contains(slots: &[u64], k: u64, range: Interval) -> bool
    requires { (t : Tree) × Rooted slots.now k t }
    ensures { (t : Tree) → Rooted slots.now k t → result ≡ is_some (find (range_of range) t) }
{
    if k == 0 {
        return false;
    }
    match toward(slots, k, range) {
        None => true,
        Some(side) => contains(slots, side.child(slots, k), range),
    }
}

// Puts the range with its value into the tree rooted in slot k, as a node in the slot `new`, unless the range is there.
// Answers what is then left of the tree, and none if the range is there.
pub fn insert(slots: &mut [u64], k: u64, range: Interval, value: u64, new: u64) -> Option<Settled>
    requires { (t : Tree) × Inserting slots.old k new t }
    ensures { (t : Tree) → Inserting slots.old k new t → Inserts result slots.old slots.new (entry new range.start range.end value) t }
{
    if k == 0 {
        node::new(slots, new, range, value);
        return Some(Settled::moved(new));
    }
    let side = toward(slots, k, range)?;
    let child = side.child(slots, k);
    let below = insert(slots, child, range, value, new)?;
    if below.is_still(child) {
        settle::count::<Gain>(slots, k, range.end);
        return Some(Settled::still(k));
    }
    Some(settle::over::<Gain>(slots, side, k, below.root(), range.end))
}

// Takes the outermost entry on the side off the tree rooted in slot k: `delete_min` for the left side, `delete_max` for
// the right.
pub fn delete_end(slots: &mut [u64], side: Side, k: u64) -> Removed
    requires { (t : Tree) × Standing slots.old k t × (1 ≤ levels t) }
    ensures { (t : Tree) → Standing slots.old k t → 1 ≤ levels t → Sheds (side_of side) result slots.old slots.new t }
{
    let near = side.child(slots, k);
    if near == 0 {
        let far = side.opposite().child(slots, k);
        return Removed {
            top: Settled::moved(far),
            slot: k,
        };
    }
    let below = delete_end(slots, side, near);
    let slot = below.slot;
    let end = node::word(slots, slot, END);
    if below.top.is_still(near) {
        settle::count::<Loss>(slots, k, end);
        return Removed {
            top: Settled::still(k),
            slot,
        };
    }
    let top = settle::over::<Loss>(slots, side, k, below.top.root(), end);
    Removed { top, slot }
}

// What takes the place of an entry that goes, between its left and its right subtree: where both are there, the smallest
// entry of the right one, in its own slot.
fn close(slots: &mut [u64], left: u64, right: u64) -> u64
    requires { (t : Tree) × (u : Tree) × Pair slots.old left right t u }
    ensures { (t u : Tree) → Pair slots.old left right t u → Left slots.old slots.new result (close t u) }
{
    if left == 0 {
        return right;
    }
    if right == 0 {
        return left;
    }
    let least = delete_end(slots, Side::Left, right);
    balance::balance(slots, least.slot, left, least.top.root())
}

// Takes the entry in slot k out of the tree rooted there.
fn delete_here(slots: &mut [u64], k: u64) -> Settled
    requires { (e : Entry) × (t : Tree) × (u : Tree) × Standing slots.old k (node e t u) }
    ensures { (e : Entry) (t u : Tree) → Standing slots.old k (node e t u) → Settles result slots.old slots.new (levels (node e t u)) (close t u) }
{
    let height = node::height(slots, k);
    let left = Side::Left.child(slots, k);
    let right = Side::Right.child(slots, k);
    let root = close(slots, left, right);
    Settled::since(slots, root, height)
}

// Takes the range out of the tree rooted in slot k, if it is there.
pub fn delete(slots: &mut [u64], k: u64, range: Interval) -> Removed
    requires { (t : Tree) × Standing slots.old k t }
    ensures { (t : Tree) → Standing slots.old k t → Deletes result slots.old slots.new (range_of range) t }
{
    if k == 0 {
        return Removed {
            top: Settled::still(0),
            slot: 0,
        };
    }
    let side = match toward(slots, k, range) {
        None => {
            let top = delete_here(slots, k);
            return Removed { top, slot: k };
        }
        Some(side) => side,
    };
    let child = side.child(slots, k);
    let below = delete(slots, child, range);
    let slot = below.slot;
    if slot == 0 {
        return below;
    }
    if below.top.is_still(child) {
        settle::count::<Loss>(slots, k, range.end);
        return Removed {
            top: Settled::still(k),
            slot,
        };
    }
    let top = settle::over::<Loss>(slots, side, k, below.top.root(), range.end);
    Removed { top, slot }
}
