// The recorded list of the oracle, run through the entries line by line: every answer, size, height, row and shape is
// compared. compare/recorded/README.md has the list's format.
#![tactic(auto)]

ghost use Rattle.std.specs.Prelude.{◌≡◌, ◌≢◌, ◌<◌, ℕ, [], false, length, slice_index};
ghost use Rattle.lines.specs.Lines.{before_a_line};
ghost use Rattle.lines.specs.Counting.{nothing};
ghost use Rattle.lines.specs.Arrays.{padded};
ghost use Rattle.listing.specs.Obeyed.{Obeyed, Ended, noted, pool_after, pool_words, rows_after};

mod by_records;
mod edits;
mod queries;
mod shapes;

use lines::kind::Kind;
use lines::line::{Line, MOST_NUMBERS};
use lines::notes::{Notes, Query};
use rules::{HEADER_WORDS, MOST_SLOTS, SLOT_WORDS};

// A run of the list: the room that its pools are made in, the room for a query's rows, the line that is being taken in,
// and what is noted of those before.
#[derive(Drop)]
pub struct Listing<'a> {
    room: &'a mut [u64],
    rows: &'a mut [u64],
    line: Line,
    pub notes: Notes,
}

// How many words a pool of so many slots has: none where there is no such pool, and so nothing is lent.
fn pool_words(slots: u64) -> usize
    ensures { result ≡ pool_words slots }
{
    if slots > MOST_SLOTS as u64 {
        return 0;
    }
    HEADER_WORDS + SLOT_WORDS * slots as usize
}

// Notes a line before it is obeyed: what is due ends with any line but a row or a node, and a fresh pool has words of its
// own.
fn note(kind: Option<Kind>, line: &Line, notes: &mut Notes)
    ensures { notes.new ≡ noted kind (padded 8 line.now.numbers) notes.old }
{
    notes.counts.count(kind);
    match kind {
        Some(Kind::Row | Kind::Node) => {}
        Some(Kind::Pool) => {
            notes.settle();
            notes.words = pool_words(line.numbers()[0]);
        }
        _ => notes.settle(),
    }
}

// Obeys a line of a kind that has these numbers on a pool.
fn obey(
    kind: Kind,
    pool: &mut [u64],
    rows: &mut [u64],
    numbers: [u64; MOST_NUMBERS],
    notes: &mut Notes,
)
    ensures notes { Obeyed kind numbers pool.old rows.old notes.old notes.new }
    ensures pool { pool.new ≡ pool_after kind numbers pool.old }
    ensures rows { rows.new ≡ rows_after kind numbers pool.old rows.old }
{
    let [first, second, third, ..] = numbers;
    match kind {
        Kind::Query | Kind::QueryIncluded => {
            let query = Query {
                start: first,
                end: second,
                included: kind.is_included(),
            };
            queries::query(pool, rows, query, third, notes);
        }
        Kind::Row => queries::row(pool, rows, [first, second, third], notes),
        Kind::Tree => shapes::tree(pool, first, notes),
        Kind::Node => shapes::node(pool, numbers, notes),
        Kind::End => {}
        _ => edits::edit(pool, kind, numbers, &mut notes.counts),
    }
}

// Notes a line that has ended, and obeys it on the pool in the room.
fn take_line(room: &mut [u64], rows: &mut [u64], line: &Line, notes: &mut Notes)
    ensures { Ended line.now room.old rows.old notes.old notes.new }
{
    let kind = line.kind();
    note(kind, line, notes);
    if let Some(kind) = kind {
        let words = notes.in_use(room.len());
        obey(kind, &mut room[..words], rows, line.numbers(), notes);
    }
}

// Takes in a byte. At the line's end, the line is noted and obeyed.
fn take_byte(byte: u8, room: &mut [u64], rows: &mut [u64], line: &mut Line, notes: &mut Notes)
    ensures within { byte ≢ 10 → notes.new ≡ notes.old }
    ensures ended { byte ≡ 10 → line.new ≡ before_a_line }
    ensures taken { byte ≡ 10 → Ended line.old room.old rows.old notes.old notes.new }
{
    if byte != b'\n' {
        line.take(byte);
        return;
    }
    take_line(room, rows, line, notes);
    line.clear();
}

// Takes in bytes of the list, from where those before left off: for a caller who reads the room or the rows between two
// calls, which a `Listing` keeps. At the list's start `line` is `Line::new` and `notes` is `Notes::new`.
pub fn take(bytes: &[u8], room: &mut [u64], rows: &mut [u64], line: &mut Line, notes: &mut Notes)
    ensures within { ((k : ℕ) → k < length bytes.now → slice_index bytes.now k ≢ 10) → notes.new ≡ notes.old }
{
    for byte in bytes {
        take_byte(*byte, room, rows, line, notes);
    }
}

impl<'a> Listing<'a> {
    // Before the list.
    pub fn new(room: &'a mut [u64], rows: &'a mut [u64]) -> Listing<'a>
        ensures line { result.line ≡ before_a_line }
        ensures counts { result.notes.counts ≡ nothing }
        ensures words { result.notes.words ≡ 0 }
        ensures query { result.notes.query ≡ record { start = 0; end = 0; included = false } }
        ensures rows { (result.notes.rows_due ≡ 0) × (result.notes.rows_done ≡ 0) }
        ensures pending { result.notes.pending ≡ [] }
    {
        Listing {
            room,
            rows,
            line: Line::new(),
            notes: Notes::new(),
        }
    }

    // Takes in bytes of the list, from where those before left off.
    pub fn take(&mut self, bytes: &[u8])
        ensures within { ((k : ℕ) → k < length bytes.now → slice_index bytes.now k ≢ 10) → self.new.notes ≡ self.old.notes }
    {
        take(bytes, self.room, self.rows, &mut self.line, &mut self.notes);
    }
}
