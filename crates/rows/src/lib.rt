// The query: a walk to its end, with a row written for each hit while there is room. Rows are three words each of a lent
// run, or whatever else says how its words are to be read.
#![tactic(auto)]

ghost use Rattle.std.specs.Prelude.{◌≡◌, ℕ, ◌≤◌, List, length};
ghost use Rattle.rules.specs.Limits.{most_slots};
ghost use Rattle.rules.specs.Tree.{Tree};
ghost use Rattle.rules.specs.Query.{hits};
ghost use Rattle.rules.specs.Entries.{rows_into};
ghost use Rattle.rules.specs.Stored.{slot_word, Within};
ghost use Rattle.interval.specs.Interval.{range_of};
ghost use Rattle.walk.specs.Walk.{Walkable};
ghost use Rattle.rows.specs.Rows.{with_row};

use interval::Interval;
use node::{END, START, VALUE, word};
use rules::MOST_PENDING;
use walk::Walk;

// What a lent list that takes the rows of a query is made of.
pub trait Row {
    // The words of such a list, in which a row is start, end and value.
    ghost words: { List Self → List ℕ };

    // Writes start, end and value as row number n, if there is room for it.
    fn write(rows: &mut [Self], n: usize, start: u64, end: u64, value: u64)
        requires { n ≤ most_slots }
        ensures { words rows.new ≡ with_row (words rows.old) n start end value };
}

impl Row for u64 {
    ghost words = { λ run. run };

    fn write(rows: &mut [u64], n: usize, start: u64, end: u64, value: u64) {
        let at = 3 * n;
        if at + 3 <= rows.len() {
            rows[at] = start;
            rows[at + 1] = end;
            rows[at + 2] = value;
        }
    }
}

// Writes start, end and value of slot k as row number n, if there is room for it.
fn write_row<R: Row>(slots: &[u64], k: u64, rows: &mut [R], n: usize)
    requires { Within slots.now k × (n ≤ most_slots) }
    ensures { R.words rows.new ≡ with_row (R.words rows.old) n (slot_word slots.now k 0) (slot_word slots.now k 1) (slot_word slots.now k 2) }
{
    let start = word(slots, k, START);
    let end = word(slots, k, END);
    let value = word(slots, k, VALUE);
    R::write(rows, n, start, end, value);
}

// Counts all hits in the tree from slot `root` on, 0 for none, and writes start, end and value of as many as the rows
// have room for. That the tree can be walked is a clause, since slots and root are lent by themselves, as a pool's words are.
pub fn query<R: Row>(slots: &[u64], root: u64, query: Interval, rows: &mut [R]) -> usize
    requires { (t : Tree) × Walkable slots.now root t }
    ensures { (t : Tree) → Walkable slots.now root t → (result ≡ length (hits (range_of query) t)) × (R.words rows.new ≡ rows_into (hits (range_of query) t) (R.words rows.old)) }
{
    let mut stack = [0u64; MOST_PENDING];
    let place = walk::start(&mut stack, root);
    let walk = Walk {
        slots,
        query,
        stack: &mut stack,
        place,
    };
    // The count is answered, so it outlives the loop, which that of `enumerate` would not.
    let mut count = 0;
    for k in walk {
        write_row(slots, k, rows, count);
        count += 1;
    }
    count
}
