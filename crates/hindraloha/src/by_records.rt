// The query that fills a lent list of hit records. It is walked by `held::query`, whose contract speaks of the records
// themselves; the law `rows_are_records` of crate `held` makes them the rows of the other form.
ghost use Rattle.std.specs.Prelude.{◌≡◌};
ghost use Rattle.rules.specs.Entries.{query};
ghost use Rattle.request.specs.Requests.{end_of};
ghost use Rattle.query.specs.Answers.{queried_of};
ghost use Rattle.held.specs.Records.{words_of};
ghost use Rattle.guard.specs.Flag.{end_of_flag};
ghost use Rattle.hindraloha.specs.Entries.{queried};

use super::Hits;
use held::Hit;
use request::{Refusal, Stretch};

// Counts what the stretch overlaps, after the check, and writes the records of as many as fit.
fn list(pool: &[u64], stretch: Stretch, rows: &mut [Hit]) -> Result<usize, Refusal>
    ensures { queried_of result (words_of rows.new) ≡ query (end_of stretch.bound) stretch.start stretch.end pool.now (words_of rows.old) }
{
    guard::check(pool)?;
    let range = stretch.range()?;
    Ok(held::query(pool::slots(pool), pool::root(pool), range, rows))
}

// Counts the ranges that the one from `start` to `end` overlaps, and writes the records of as many as fit. Taken apart,
// the records are the rows of `hindraloha_query`.
pub fn hindraloha_query_records(
    pool: &[u64],
    start: u64,
    end: u64,
    included: u8,
    rows: &mut [Hit],
) -> Hits
    ensures { queried result (words_of rows.new) ≡ query (end_of_flag included) start end pool.now (words_of rows.old) }
{
    let stretch = guard::stretch(start, end, included);
    Hits::from(list(pool, stretch, rows))
}
