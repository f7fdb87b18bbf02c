// The lines of a query: it is asked by words and by records, its hits are counted, and then they are compared row by row
// in both forms.
ghost use Rattle.std.specs.Prelude.{◌≡◌, []};
ghost use Rattle.hindraloha.specs.Entries.{queried};
ghost use Rattle.listing.specs.Queries.{asked, after_query, RowNoted};

use crate::by_records;
use hindraloha::{Hits, hindraloha_query};
use lines::notes::{Notes, Query};

// Asks a query by words.
fn ask(pool: &[u64], query: Query, rows: &mut [u64]) -> Hits
    ensures { queried result rows.new ≡ asked query pool.now rows.old }
{
    let included = u8::from(query.included);
    hindraloha_query(pool, query.start, query.end, included, rows)
}

// Asks a query in both forms, and compares the number of its hits: no form is refused, and each has so many.
pub fn query(pool: &[u64], rows: &mut [u64], query: Query, due: u64, notes: &mut Notes)
    ensures rows { rows.new ≡ (asked query pool.now rows.old).run }
    ensures notes { notes.new ≡ after_query query due (asked query pool.now rows.old) (asked query pool.now []) notes.old }
{
    let words = ask(pool, query, rows);
    let records = by_records::hits(pool, query);
    let told = [
        words.number,
        words.hits as u64,
        records.number,
        records.hits as u64,
    ];
    notes.counts.compare(&told, &[0, due, 0, due]);
    notes.query = query;
    notes.rows_due = due;
}

// Compares the next row in both forms. For that of records, the query is asked anew.
pub fn row(pool: &[u64], rows: &[u64], recorded: [u64; 3], notes: &mut Notes)
    ensures { RowNoted pool.now rows.now recorded notes.old notes.new }
{
    let told = by_records::row(pool, notes.query, notes.rows_done as usize);
    notes.compare_row(rows, &recorded);
    notes.counts.compare(&told, &recorded);
}
