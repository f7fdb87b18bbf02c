// The late forms of the query. A walk that keeps hold of the pool it reads, so that no edit is possible during it; and a
// query that fills a lent list of hit records. Both are thin; the work is in `walk` and `rows`.
#![tactic(auto)]

ghost use Rattle.std.specs.Prelude.{◌≡◌, length, take};
ghost use Rattle.std.specs.Iterator.{at_most};
ghost use Rattle.rules.specs.Tree.{Tree};
ghost use Rattle.rules.specs.Query.{hits};
ghost use Rattle.rules.specs.Steps.{Pending, at_start};
ghost use Rattle.interval.specs.Interval.{range_of};
ghost use Rattle.walk.specs.Walk.{Hit as Hits, Walkable, entries_at, next};
ghost use Rattle.held.specs.Held.{Waiting, Turned, first_of};
ghost use Rattle.held.specs.Records.{words_of, records_into};

use interval::Interval;
use rows::Row;
use rules::MOST_PENDING;
use walk::Place;

// The pending nodes' slots, the latest last, and where the walk stands on them.
#[derive(Clone, Copy)]
pub struct Stack {
    pub nodes: [u64; MOST_PENDING],
    pub place: Place,
}

// A walk: the slots that it reads, what is asked, and where it stands. It gives the slots that are hit.
#[derive(Clone, Copy)]
pub struct Walk<'a> {
    pub slots: &'a [u64],
    pub query: Interval,
    pub stack: Stack,
}

impl<'a> Walk<'a> {
    // A walk of the tree from slot `root` on, 0 for none.
    pub fn new(slots: &'a [u64], root: u64, query: Interval) -> Walk<'a>
        ensures { (result.slots ≡ slots.entry) × (result.query ≡ query) × ((t : Tree) → Walkable slots.now root t → Waiting slots.now result.stack (at_start t)) }
    {
        let mut nodes = [0u64; MOST_PENDING];
        let place = walk::start(&mut nodes, root);
        Walk {
            slots,
            query,
            stack: Stack { nodes, place },
        }
    }
}

impl<'a> Iterator for Walk<'a> {
    type Item = u64;

    ghost can_next = { λ w. (p : Pending) × Waiting w.slots.now w.stack p };

    ghost next_gives = { λ w hit left. (left.slots ≡ w.slots) × (left.query ≡ w.query) × ((p : Pending) → Waiting w.slots.now w.stack p → Turned w.slots.now left.stack hit (next (range_of w.query) p)) };

    ghost remaining = { λ w. at_most (entries_at w.slots.now (take w.stack.place.pending w.stack.nodes)) };

    // The next hit's slot.
    fn next(&mut self) -> Option<u64> {
        let after = walk::next(
            self.slots,
            &mut self.stack.nodes,
            self.stack.place,
            self.query,
        );
        self.stack.place = after.place;
        after.hit
    }
}

// The slot of the first hit in the tree from slot `root` on: with plain parameters, for whoever holds no walk.
pub fn first(slots: &[u64], root: u64, query: Interval) -> Option<u64>
    requires { (t : Tree) × Walkable slots.now root t }
    ensures { (t : Tree) → Walkable slots.now root t → Hits slots.now result (first_of (hits (range_of query) t)) }
{
    Walk::new(slots, root, query).next()
}

// A hit as a record.
#[repr(C)]
#[derive(Clone, Copy)]
pub struct Hit {
    pub start: u64,
    pub end: u64,
    pub value: u64,
}

impl Row for Hit {
    ghost words = { words_of };

    fn write(rows: &mut [Hit], n: usize, start: u64, end: u64, value: u64) {
        if n < rows.len() {
            rows[n] = Hit { start, end, value };
        }
    }
}

// Counts all hits in the tree from slot `root` on, 0 for none, and writes the records of as many as there is room for.
pub fn query(slots: &[u64], root: u64, query: Interval, rows: &mut [Hit]) -> usize
    requires { (t : Tree) × Walkable slots.now root t }
    ensures { (t : Tree) → Walkable slots.now root t → (result ≡ length (hits (range_of query) t)) × (rows.new ≡ records_into (hits (range_of query) t) rows.old) }
{
    rows::query(slots, root, query, rows)
}
