// What an entry looks at before anything else: whether the pool is to be refused, and which range a host's numbers name.
#![tactic(auto)]

ghost use Rattle.std.specs.Prelude.{◌≡◌};
ghost use Rattle.rules.specs.Entries.{check, query};
ghost use Rattle.request.specs.Requests.{end_of};
ghost use Rattle.request.specs.Answers.{zero_or_refusal};
ghost use Rattle.query.specs.Answers.{queried_of};
ghost use Rattle.guard.specs.Flag.{end_of_flag};

use request::{End, Refusal, Stretch};
use rows::Row;

// Refuses a pool of a wrong length, and one that isn't sound.
pub fn check(pool: &[u64]) -> Result<(), Refusal>
    ensures { zero_or_refusal result ≡ check pool.now }
{
    sound::check(pool)
}

// Whether an end is included, by a host's number. C says it by a number, so this is no `From` beside `End`.
fn bound(included: u8) -> End
    ensures { end_of result ≡ end_of_flag included }
{
    if included == 0 {
        End::Excluded
    } else {
        End::Included
    }
}

// The range that a host's three numbers name.
pub fn stretch(start: u64, end: u64, included: u8) -> Stretch
    ensures { (end_of result.bound ≡ end_of_flag included) × (result.start ≡ start) × (result.end ≡ end) }
{
    Stretch {
        bound: bound(included),
        start,
        end,
    }
}

// Counts what the stretch overlaps, after the check, and writes start, end and value of as many as fit.
pub fn list<R: Row>(pool: &[u64], stretch: Stretch, rows: &mut [R]) -> Result<usize, Refusal>
    ensures { queried_of result (R.words rows.new) ≡ query (end_of stretch.bound) stretch.start stretch.end pool.now (R.words rows.old) }
{
    check(pool)?;
    query::list(pool, stretch, rows)
}
