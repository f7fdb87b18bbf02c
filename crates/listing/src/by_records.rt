// A query by records: the entry fills a lent list of them.
ghost use Rattle.std.specs.Prelude.{◌≡◌, []};
ghost use Rattle.held.specs.Records.{words_of};
ghost use Rattle.hindraloha.specs.Entries.{queried};
ghost use Rattle.listing.specs.Queries.{asked, Filled};

use held::Hit;
use hindraloha::Hits;
use hindraloha::by_records::hindraloha_query_records;
use lines::notes::Query;

// As many records as are lent: more than any recorded tree has entries.
const ROOM: usize = 800;

// A record before it is filled.
const BLANK: Hit = Hit {
    start: 0,
    end: 0,
    value: 0,
};

// Asks a query, and fills the records.
fn ask(pool: &[u64], query: Query, rows: &mut [Hit]) -> Hits
    ensures { queried result (words_of rows.new) ≡ asked query pool.now (words_of rows.old) }
{
    let included = u8::from(query.included);
    hindraloha_query_records(pool, query.start, query.end, included, rows)
}

// What the entry answers to a query.
pub fn hits(pool: &[u64], query: Query) -> Hits
    ensures number { result.number ≡ (asked query pool.now []).number }
    ensures hits { result.hits ≡ (asked query pool.now []).count }
{
    ask(pool, query, &mut [BLANK; ROOM])
}

// The words of the record numbered i of a query, zeros where there is none.
pub fn row(pool: &[u64], query: Query, i: usize) -> [u64; 3]
    ensures { Filled query pool.now i result }
{
    let mut rows = [BLANK; ROOM];
    ask(pool, query, &mut rows);
    let row = rows.get(i).copied().unwrap_or(BLANK);
    [row.start, row.end, row.value]
}
