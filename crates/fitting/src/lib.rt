// Document 01's clauses of "sound" for a slot with its children: height, size and max are exact, the heights of the children
// differ by one at most, and each of them is a slot or none.
#![tactic(auto)]

ghost use Rattle.std.specs.Prelude.{◌≡◌, ◌/◌, ◌%◌, ◌^◌, ◌≤◌, ◌<◌};
ghost use Rattle.rules.specs.Limits.{half};
ghost use Rattle.rules.specs.Stored.{slot_word, Within};
ghost use Rattle.fitting.specs.Fits.{exact_shape, exact_over, fits_here};

use node::{END, LINKS, MAX, SHAPE};
use rules::SLOT_WORDS;

// The left child of slot k.
pub fn left(slots: &[u64], k: u64) -> u64
    requires { Within slots.now k }
    ensures { result ≡ slot_word slots.now k 4 % half }
{
    node::low(node::word(slots, k, LINKS))
}

// The right child of slot k: a number that fits in three quarters of a word.
pub fn right(slots: &[u64], k: u64) -> u64
    requires { Within slots.now k }
    ensures { (result ≡ slot_word slots.now k 4 / half) × (result < 2 ^ 48) }
{
    node::high(node::word(slots, k, LINKS))
}

// Whether slot k, which has no children, is right: height 0, size 1 and its own end as max.
pub fn fits_alone(slots: &[u64], k: u64) -> bool
    requires { Within slots.now k × (slot_word slots.now k 4 ≡ 0) }
    ensures { result ≡ fits_here slots.now k }
{
    (node::word(slots, k, SHAPE) == node::pack(0, 1))
        & (node::word(slots, k, MAX) == node::word(slots, k, END))
}

// Whether height, size and max in slot k are exact over its only child c.
fn fits_one(slots: &[u64], k: u64, c: u64) -> bool
    requires { Within slots.now k × Within slots.now c }
    ensures { result ≡ exact_over slots.now k c 0 }
{
    let shape = node::word(slots, k, SHAPE);
    let below = node::word(slots, c, SHAPE);
    let max = node::word(slots, k, END).max(node::word(slots, c, MAX));
    (node::low(shape) == 1)
        & (node::low(below) == 0)
        & (node::high(shape) == node::high(below) + 1)
        & (node::word(slots, k, MAX) == max)
}

// Whether a shape is exact over two children that have the shapes `left` and `right`, with heights that differ by one at
// most.
fn is_shape_over(shape: u64, left: u64, right: u64) -> bool
    ensures { result ≡ exact_shape shape left right }
{
    let a = node::low(left);
    let b = node::low(right);
    (a <= b + 1)
        & (b <= a + 1)
        & (node::low(shape) == a.max(b) + 1)
        & (node::high(shape) == node::high(left) + node::high(right) + 1)
}

// Whether height, size and max in slot k are exact over its two children l and r, whose heights differ by one at most.
fn fits_both(slots: &[u64], k: u64, l: u64, r: u64) -> bool
    requires { Within slots.now k × Within slots.now l × Within slots.now r }
    ensures { result ≡ exact_over slots.now k l r }
{
    let shape = node::word(slots, k, SHAPE);
    let left = node::word(slots, l, SHAPE);
    let right = node::word(slots, r, SHAPE);
    let below = node::word(slots, l, MAX).max(node::word(slots, r, MAX));
    is_shape_over(shape, left, right)
        & (node::word(slots, k, MAX) == node::word(slots, k, END).max(below))
}

// Whether slot k, which has children, is right over them: each is a slot or none, and height, size and max are exact.
pub fn fits(slots: &[u64], k: u64) -> bool
    requires { Within slots.now k × (1 ≤ slot_word slots.now k 4) }
    ensures { result ≡ fits_here slots.now k }
{
    let l = left(slots, k);
    let r = right(slots, k);
    let words = slots.len();
    if (words < SLOT_WORDS * l as usize) | (words < SLOT_WORDS * r as usize) {
        return false;
    }
    if l == 0 {
        return fits_one(slots, k, r);
    }
    if r == 0 {
        return fits_one(slots, k, l);
    }
    fits_both(slots, k, l, r)
}
