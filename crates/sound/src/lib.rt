// The soundness check of document 01: whether lent words hold a pool, and so whether an entry may go to work on them. The
// slots and the marks are lent apart: in one struct each step would have to promise that the slots stay. A mark is a
// number, 0 or 1, since a slot's mark and how often it stands in a tree are added up.
#![tactic(auto)]

ghost use Rattle.std.specs.Prelude.{◌≡◌, true, ◌*◌, ◌≤◌, ◌<◌, eqb, length, get_or, set};
ghost use Rattle.rules.specs.Limits.{slot_words};
ghost use Rattle.rules.specs.Pool.{right_length};
ghost use Rattle.rules.specs.Entries.{check};
ghost use Rattle.request.specs.Answers.{zero_or_refusal};
ghost use Rattle.sound.specs.Claims.{Decides, IsSound, Parent, Ready, Judged, Chain, Flags, Room};

use clauses::{header, in_order, zeros};
use fitting::{fits, fits_alone, left, right};
use node::LINKS;
use request::Refusal;
use rules::{MOST_SLOTS, SLOT_WORDS};

// Claims slot k, and whether it wasn't claimed before.
fn claim(marks: &mut [u8], k: u64) -> bool
    requires { k < length marks.old }
    ensures was { result ≡ eqb (get_or marks.old k 0) 0 }
    ensures left { marks.new ≡ set marks.old k 1 }
{
    let before = marks[k as usize];
    marks[k as usize] = 1;
    before == 0
}

// Whether slot k is there and has a child.
fn has_children(slots: &[u64], k: u64) -> bool
    requires { slot_words * k ≤ length slots.now }
    ensures { Decides (Parent slots.now k) result }
{
    if k == 0 {
        return false;
    }
    node::word(slots, k, LINKS) != 0
}

// Whether what is in slot `root`, none for 0, is a tree of slots that weren't claimed before, all of it right, between
// the entries in slots `from` and `after`. Claims its slots. It goes down the right side: each slot with children bounds
// what is on its left, which is looked at first, and what is on its right.
#[cycle(subtree_tree)]
fn tree(slots: &[u64], marks: &mut [u8], root: u64, from: u64, after: u64) -> bool
    requires { Ready slots.now marks.old root from after }
    ensures { Judged slots.now root from after marks.old marks.new result }
{
    let mut k = root;
    let mut before = from;
    while has_children(slots, k) {
        if !(claim(marks, k) & fits(slots, k)) {
            return false;
        }
        if !subtree(slots, marks, left(slots, k), before, k) {
            return false;
        }
        before = k;
        k = right(slots, k);
    }
    tip(slots, marks, k, before, after)
}

// The same, where a slot without children costs no call of `tree`.
#[cycle(subtree_tree)]
fn subtree(slots: &[u64], marks: &mut [u8], k: u64, before: u64, after: u64) -> bool
    requires { Ready slots.now marks.old k before after }
    ensures { Judged slots.now k before after marks.old marks.new result }
{
    if has_children(slots, k) {
        tree(slots, marks, k, before, after)
    } else {
        tip(slots, marks, k, before, after)
    }
}

// The same of none, or of a slot without children.
fn tip(slots: &[u64], marks: &mut [u8], k: u64, before: u64, after: u64) -> bool
    requires { Ready slots.now marks.old k before after × (Parent slots.now k → ⊥) }
    ensures { Judged slots.now k before after marks.old marks.new result }
{
    if k == 0 {
        return in_order(slots, before, after);
    }
    if !(claim(marks, k) & fits_alone(slots, k)) {
        return false;
    }
    if !in_order(slots, before, k) {
        return false;
    }
    in_order(slots, k, after)
}

// Whether n slots that weren't claimed before are chained as free ones from slot `first` on. Claims them.
fn chain(slots: &[u64], marks: &mut [u8], first: u64, n: u64) -> bool
    requires { Room slots.now × Flags marks.old }
    ensures { Decides (Chain slots.now marks.old first n) result }
{
    let count = (slots.len() / SLOT_WORDS) as u64;
    let mut k = first;
    for _ in 0..n {
        if (k == 0) | (count < k) {
            return false;
        }
        if !(claim(marks, k) & zeros(slots, k)) {
            return false;
        }
        k = node::word(slots, k, LINKS);
    }
    k == 0
}

// Whether words of a right length hold a pool.
fn is_sound(words: &[u64]) -> bool
    requires { right_length (length words.now) ≡ true }
    ensures { Decides (IsSound words.now) result }
{
    let slots = pool::slots(words);
    if !header(words, slots) {
        return false;
    }
    let mut marks = [0u8; MOST_SLOTS + 1];
    if !tree(slots, &mut marks, words[0], 0, 0) {
        return false;
    }
    chain(
        slots,
        &mut marks,
        words[1],
        (slots.len() / SLOT_WORDS) as u64 - words[2],
    )
}

// Refuses words of a wrong length, and those that hold no pool.
pub fn check(words: &[u64]) -> Result<(), Refusal>
    ensures { zero_or_refusal result ≡ check words.now }
{
    if !pool::is_right_length(words.len()) {
        return Err(Refusal::WrongLength);
    }
    if !is_sound(words) {
        return Err(Refusal::Unsound);
    }
    Ok(())
}
