// The query that fills a lent list of hit records, as a host calls it.
ghost use Rattle.std.specs.Prelude.{◌≡◌};
ghost use Rattle.rules.specs.Request.{querying};
ghost use Rattle.rules.specs.Entries.{query};
ghost use Rattle.rules.specs.History.{asking};
ghost use Rattle.held.specs.Records.{words_of};
ghost use Rattle.guard.specs.Flag.{end_of_flag};
ghost use Rattle.hindraloha.specs.Entries.{queried};
ghost use Rattle.history.specs.Host.{Called};

use held::Hit;
use hindraloha::Hits;

// Asks for the ranges that one overlaps, by records. The pool is lent to be read, so its words are the same after the call.
pub fn query_records(pool: &[u64], start: u64, end: u64, included: u8, rows: &mut [Hit]) -> Hits
    ensures { (Called pool.now pool.now (asking (querying (end_of_flag included) start end)) result.number) × (queried result (words_of rows.new) ≡ query (end_of_flag included) start end pool.now (words_of rows.old)) }
{
    hindraloha::by_records::hindraloha_query_records(pool, start, end, included, rows)
}
