// Queries of a sound pool: what a range overlaps is counted, and as many hits as fit are written. That the pool is sound is a
// clause, as in `serve`.
#![tactic(auto)]

ghost use Rattle.std.specs.Prelude.{◌≡◌};
ghost use Rattle.rules.specs.Pool.{Pool, Holds};
ghost use Rattle.rules.specs.Entries.{query};
ghost use Rattle.request.specs.Requests.{end_of};
ghost use Rattle.query.specs.Answers.{queried_of};

use request::{Refusal, Stretch};
use rows::Row;

// Counts what the stretch overlaps, and writes start, end and value of as many as fit into the lent rows.
pub fn list<R: Row>(words: &[u64], stretch: Stretch, rows: &mut [R]) -> Result<usize, Refusal>
    requires { (p : Pool) × Holds words.now p }
    ensures { queried_of result (R.words rows.new) ≡ query (end_of stretch.bound) stretch.start stretch.end words.now (R.words rows.old) }
{
    let range = stretch.range()?;
    Ok(rows::query(pool::slots(words), pool::root(words), range, rows))
}
