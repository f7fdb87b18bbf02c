// node.rs of the crate: a node's words in its slot. The slots are lent as the words after the header, and are numbered from
// 1: 0 stands for none in the words of a pool, so it does in every number of a slot.
#![tactic(auto)]

ghost use Rattle.std.specs.Prelude.{◌≡◌, ◌+◌, ◌*◌, ◌%◌, ◌/◌, ◌≤◌, ◌<◌, max, length};
ghost use Rattle.rules.specs.Tree.{Entry, Tree, node, leaf};
ghost use Rattle.rules.specs.Range.{range};
ghost use Rattle.rules.specs.Limits.{slot_words, half};
ghost use Rattle.rules.specs.Stored.{slot_word, Within, Left};
ghost use Rattle.interval.specs.Interval.{range_of};
ghost use Rattle.node.specs.Node.{levels_at, size_at, below, max_at, factor, with_words, entry, Hung, Slot};

use interval::Interval;
use rules::SLOT_WORDS;

// The words of a slot, in their order.
pub const START: usize = 0;

pub const END: usize = 1;

pub const VALUE: usize = 2;

pub const MAX: usize = 3;

pub const LINKS: usize = 4;

pub const SHAPE: usize = 5;

// Word i of slot k. A rotation writes to three slots of one lent run, so no value that holds the run can stand for a slot,
// and each function says for itself that its slot is one of the run.
pub fn word(slots: &[u64], k: u64, i: usize) -> u64
    requires { Within slots.now k × (i < slot_words) }
    ensures { result ≡ slot_word slots.now k i }
{
    slots[SLOT_WORDS * (k - 1) as usize + i]
}

// The range in slot k.
pub fn interval_at(slots: &[u64], k: u64) -> Interval
    requires { Within slots.now k }
    ensures { range_of result ≡ range (slot_word slots.now k 0) (slot_word slots.now k 1) }
{
    let start = word(slots, k, START);
    let end = word(slots, k, END);
    Interval { start, end }
}

// Makes a, b and c three words of slot k, from word i on.
pub fn set_words(slots: &mut [u64], k: u64, i: usize, a: u64, b: u64, c: u64)
    requires { Within slots.old k × (i + 3 ≤ slot_words) }
    ensures { slots.new ≡ with_words slots.old k i a b c }
{
    let at = SLOT_WORDS * (k - 1) as usize + i;
    slots[at] = a;
    slots[at + 1] = b;
    slots[at + 2] = c;
}

// Two numbers as the halves of one word.
pub fn pack(low: u64, high: u64) -> u64
    requires { (low < half) × (high < half) }
    ensures { result ≡ low + half * high }
{
    low | high << 16
}

// The low half of a word: the left child of links, the height of shape.
pub fn low(word: u64) -> u64
    ensures { result ≡ word % half }
{
    word & 65535
}

// The high half of a word: the right child of links, the size of shape.
pub fn high(word: u64) -> u64
    ensures { result ≡ word / half }
{
    word >> 16
}

// One more than the height of what is in slot s, 0 for none.
pub fn height(slots: &[u64], s: u64) -> u64
    requires { slot_words * s ≤ length slots.now }
    ensures { result ≡ levels_at slots.now s }
{
    if s == 0 {
        0
    } else {
        low(word(slots, s, SHAPE)) + 1
    }
}

// The size of what is in slot s, 0 for none.
pub fn size(slots: &[u64], s: u64) -> u64
    requires { slot_words * s ≤ length slots.now }
    ensures { result ≡ size_at slots.now s }
{
    if s == 0 {
        0
    } else {
        high(word(slots, s, SHAPE))
    }
}

// The largest end of what is in slot s, 0 for none.
fn max_end(slots: &[u64], s: u64) -> u64
    requires { slot_words * s ≤ length slots.now }
    ensures { result ≡ max_at slots.now s }
{
    if s == 0 { 0 } else { word(slots, s, MAX) }
}

// Where a factor lies, as far as `balance` asks. The library's three cases of an order would call -1 and 1 equal.
#[derive(Clone, Copy)]
pub enum Factor {
    BelowMinusOne,
    Between,
    AboveOne,
}

// Where left height minus right height lies, of two heights that are each one more than the crate's.
pub fn balance_factor(left: u64, right: u64) -> Factor
    requires { (left < half) × (right < half) }
    ensures { result ≡ factor left right }
{
    if left + 1 < right {
        return Factor::BelowMinusOne;
    }
    if right + 1 < left {
        return Factor::AboveOne;
    }
    Factor::Between
}

// The max of slot k, from its end and its children's max.
pub fn update_max(slots: &[u64], k: u64, l: u64, r: u64) -> u64
    requires { Within slots.now k × (slot_words * l ≤ length slots.now) × (slot_words * r ≤ length slots.now) }
    ensures { result ≡ max (slot_word slots.now k 1) (max (max_at slots.now l) (max_at slots.now r)) }
{
    word(slots, k, END).max(max_end(slots, l).max(max_end(slots, r)))
}

// What a parent takes over of the child in slot s: one more than its height, and its size, as halves of a word; 0 for
// none.
pub fn shape_below(slots: &[u64], s: u64) -> u64
    requires { (slot_words * s ≤ length slots.now) × (levels_at slots.now s < half) }
    ensures { result ≡ below slots.now s }
{
    if s == 0 { 0 } else { word(slots, s, SHAPE) + 1 }
}

// The shape over two children, by what is taken over of each: one more than the larger height, one more than both sizes.
fn update_shape(left: u64, right: u64) -> u64
    requires { left / half + right / half + 1 < half }
    ensures { result ≡ max (left % half) (right % half) + half * (left / half + right / half + 1) }
{
    let height = low(left).max(low(right));
    let size = high(left) + high(right) + 1;
    pack(height, size)
}

// The same as `update`, where what is taken over of the children has been read.
pub fn update_over(slots: &mut [u64], k: u64, l: u64, r: u64, left: u64, right: u64)
    requires { (left ≡ below slots.old l) × (right ≡ below slots.old r) × ((e : Entry) × (a : Tree) × (b : Tree) × Hung slots.old k l r e a b) }
    ensures { (e : Entry) (a b : Tree) → Hung slots.old k l r e a b → Left slots.old slots.new k (node e a b) }
{
    let max = update_max(slots, k, l, r);
    let shape = update_shape(left, right);
    set_words(slots, k, MAX, max, pack(l, r), shape);
}

// Makes l and r the children of the entry in slot k, and its height, size and max exact.
pub fn update(slots: &mut [u64], k: u64, l: u64, r: u64)
    requires { (e : Entry) × (a : Tree) × (b : Tree) × Hung slots.old k l r e a b }
    ensures { (e : Entry) (a b : Tree) → Hung slots.old k l r e a b → Left slots.old slots.new k (node e a b) }
{
    let left = shape_below(slots, l);
    let right = shape_below(slots, r);
    update_over(slots, k, l, r, left, right);
}

// Makes slot k a node of its own: the range with its value and no children.
pub fn new(slots: &mut [u64], k: u64, range: Interval, value: u64)
    requires { Slot slots.old k }
    ensures { Left slots.old slots.new k (node (entry k range.start range.end value) leaf leaf) }
{
    set_words(slots, k, START, range.start, range.end, value);
    update(slots, k, 0, 0);
}
