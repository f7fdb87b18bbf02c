// What is added around the slots: the lengths of a pool, its header, formatting, and the free chain's first slot. The words
// are lent as they are: a struct that held them would have to promise in each contract that it keeps its reference.
#![tactic(auto)]

ghost use Rattle.std.specs.Prelude.{true, ◌≡◌, ◌+◌, ◌*◌, ◌/◌, ◌≤◌, ◌<◌, length, get_or, drop};
ghost use Rattle.rules.specs.Limits.{header_words, slot_words, half};
ghost use Rattle.rules.specs.Tree.{leaf};
ghost use Rattle.rules.specs.Pool as pool;
ghost use Rattle.rules.specs.Stored.{Within, Chained};
ghost use Rattle.pool.specs.Around.{with_slot, with_header, Released, Claimed};

use node::{MAX, START};
use rules::{HEADER_WORDS, MOST_SLOTS, SLOT_WORDS};

// Whether a run of n words is a pool's: its header and from 1 to the most slots.
pub fn is_right_length(n: usize) -> bool
    ensures { result ≡ pool.right_length n }
{
    if n < HEADER_WORDS {
        return false;
    }
    let slots = (n - HEADER_WORDS) / SLOT_WORDS;
    (n == HEADER_WORDS + SLOT_WORDS * slots) & ((1 <= slots) & (slots <= MOST_SLOTS))
}

// The words after the header: those of the slots.
pub fn slots<'a>(words: &'a [u64]) -> &'a [u64]
    requires { header_words ≤ length words.now }
    ensures { result.now ≡ drop header_words words.now }
{
    &words[HEADER_WORDS..]
}

// The slot of the root, 0 for none.
pub fn root(words: &[u64]) -> u64
    requires { header_words ≤ length words.now }
    ensures { result ≡ get_or words.now 0 0 }
{
    words[0]
}

// The live count.
pub fn live(words: &[u64]) -> u64
    requires { header_words ≤ length words.now }
    ensures { result ≡ get_or words.now 2 0 }
{
    words[2]
}

// Makes `root`, `free` and `live` the first three words of the header.
fn set_header(words: &mut [u64], root: u64, free: u64, live: u64)
    requires { header_words ≤ length words.old }
    ensures { words.new ≡ with_header words.old root free live }
{
    words[0] = root;
    words[1] = free;
    words[2] = live;
}

// Makes slot s free, with `next` after it in the chain: the slots are the words after the header.
fn free_slot(slots: &mut [u64], s: u64, next: u64)
    requires { Within slots.old s }
    ensures { slots.new ≡ with_slot slots.old s (pool.slot_of leaf next) }
{
    node::set_words(slots, s, START, 0, 0, 0);
    node::set_words(slots, s, MAX, 0, next, 0);
}

// Links all slots as free, from 1 on.
fn link_slots(slots: &mut [u64])
    ensures { Chained slots.new (pool.count_up (length slots.old / slot_words) 1) }
{
    let count = (slots.len() / SLOT_WORDS) as u64;
    let mut next = 0;
    for s in (1..=count).rev() {
        free_slot(slots, s, next);
        next = s;
    }
}

// Formats a pool of a right length, or clears it: no entry, and all slots free in their order.
pub fn format(words: &mut [u64])
    requires { pool.right_length (length words.old) ≡ true }
    ensures { words.new ≡ pool.words (pool.capacity (length words.old)) (pool.fresh (pool.capacity (length words.old))) }
{
    words[3] = 0;
    set_header(words, 0, 1, 0);
    link_slots(&mut words[HEADER_WORDS..]);
}

// After a removal: `slot` becomes the first free slot, `top` the root, and the live count is one less.
pub fn release(words: &mut [u64], top: u64, slot: u64)
    requires { (1 ≤ slot) × (header_words + slot_words * slot ≤ length words.old) × (1 ≤ get_or words.old 2 0) }
    ensures { Released words.old words.new top slot }
{
    let first = words[1];
    let live = words[2];
    set_header(words, top, slot, live - 1);
    free_slot(&mut words[HEADER_WORDS..], slot, first);
}

// After an insert: `top` becomes the root, `next` the first free slot, and the live count is one more.
pub fn claim(words: &mut [u64], top: u64, next: u64)
    requires { (header_words ≤ length words.old) × (get_or words.old 2 0 < half) }
    ensures { Claimed words.old words.new top next }
{
    let live = words[2];
    set_header(words, top, next, live + 1);
}
