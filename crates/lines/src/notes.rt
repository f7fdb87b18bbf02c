// What is noted from line to line.
ghost use Rattle.std.specs.Prelude.{◌≡◌, ◌≢◌, ◌+◌, ◌*◌, ◌/◌, ◌<◌, ◌≤◌, ◌⊎◌, ◌++◌, [], ◌∷◌, length, slice_range, false};
ghost use Rattle.lines.specs.Counting.{nothing, one_difference, with_compared, differing_words, more};
ghost use Rattle.lines.specs.Noted.{with_node, after_row, settled};

use crate::counts::Counts;
use crate::pending::Pending;

// A query: where its range starts and ends, and whether its end is included.
#[derive(Clone, Copy)]
pub struct Query {
    pub start: u64,
    pub end: u64,
    pub included: bool,
}

// What is counted, how many words of the room are the pool, the latest query, how many rows it has and how many of them
// were compared, and the nodes of a tree that are still to be compared.
#[derive(Clone, Copy)]
pub struct Notes {
    pub counts: Counts,
    pub words: usize,
    pub query: Query,
    pub rows_due: u64,
    pub rows_done: u64,
    pub pending: Pending,
}

impl Notes {
    // Before the first line.
    pub fn new() -> Notes
        ensures counts { result.counts ≡ nothing }
        ensures words { result.words ≡ 0 }
        ensures query { result.query ≡ record { start = 0; end = 0; included = false } }
        ensures rows { (result.rows_due ≡ 0) × (result.rows_done ≡ 0) }
        ensures pending { result.pending ≡ [] }
    {
        Notes {
            counts: Counts::new(),
            words: 0,
            query: Query {
                start: 0,
                end: 0,
                included: false,
            },
            rows_due: 0,
            rows_done: 0,
            pending: Pending::new(),
        }
    }

    // How many words of a room of so many are the pool: none where the room has fewer.
    pub fn in_use(&self, room: usize) -> usize
        ensures within { result ≤ room }
        ensures all { self.now.words ≤ room → result ≡ self.now.words }
        ensures none { room < self.now.words → result ≡ 0 }
    {
        let n = self.words;
        if n > room {
            return 0;
        }
        n
    }

    // Compares the next row with what is recorded of it, and goes on behind it. One that is not in the words is a
    // difference.
    pub fn compare_row(&mut self, rows: &[u64], recorded: &[u64])
        requires { 3 ≤ length recorded.now }
        ensures { self.new ≡ after_row rows.now recorded.now self.old }
    {
        let done = self.rows_done as usize;
        self.rows_done = self.rows_done.saturating_add(1);
        if done < rows.len() / 3 {
            let at = 3 * done;
            self.counts.compare(&rows[at..at + 3], recorded);
        } else {
            self.counts.differ();
        }
    }

    // One more node is pending, where there is one. A tree so high that there is no room for it is a difference.
    pub fn push(&mut self, slot: u64)
        ensures { self.new ≡ with_node slot self.old }
    {
        if slot != 0 && self.pending.push(slot).is_err() {
            self.counts.differ();
        }
    }

    // Before a line that is neither a row nor a node: what is due and was not compared is a difference.
    pub fn settle(&mut self)
        ensures settled { self.new ≡ record self.old { counts = self.new.counts; rows_due = 0; rows_done = 0; pending = [] } }
        ensures even { self.old.rows_done ≡ self.old.rows_due → self.old.pending ≡ [] → self.new.counts ≡ self.old.counts }
        ensures rows { self.old.rows_done ≢ self.old.rows_due → self.new.counts ≡ one_difference self.old.counts }
        ensures nodes { self.old.pending ≢ [] → self.new.counts ≡ one_difference self.old.counts }
        ensures whole { self.new ≡ settled self.old }
    {
        if self.rows_done != self.rows_due || !self.pending.is_empty() {
            self.counts.differ();
        }
        self.rows_due = 0;
        self.rows_done = 0;
        self.pending.clear();
    }
}
