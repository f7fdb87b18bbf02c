// Survey records to a sound pool: one record applied, and a feed of them. That the pool is sound is a clause, as in `serve`.
#![tactic(auto)]

ghost use Rattle.std.specs.Prelude.{◌≡◌, ◌≤◌, length};
ghost use Rattle.rules.specs.Pool.{Pool, Holds, capacity};
ghost use Rattle.rules.specs.Record.{kinds, reads};
ghost use Rattle.rules.specs.Request.{serve};
ghost use Rattle.rules.specs.Feed.{feed_turns};
ghost use Rattle.rules.specs.Entries.{apply_read, fed};
ghost use Rattle.record.specs.Answers.{taken_of, applied_of, refused_of, fed_of};
ghost use Rattle.record.specs.Applying.{Turned};

use request::{Outcome, Refusal, Request};

// What applying a record did: its number, the bytes taken, and the hits. Laid out for C, and so with a number.
#[repr(C)]
#[derive(Clone, Copy)]
pub struct Taken {
    pub number: u64,
    pub taken: usize,
    pub hits: usize,
}

// What a feed came to: the number it ended with, the records applied and their bytes. Laid out for C as well.
#[repr(C)]
#[derive(Clone, Copy)]
pub struct Records {
    pub number: u64,
    pub records: usize,
    pub taken: usize,
}

// What a record came to that was applied: the outcome, the bytes taken, and the hits, which are 0 but for a query.
#[derive(Clone, Copy)]
pub struct Applied {
    pub outcome: Outcome,
    pub taken: usize,
    pub hits: usize,
}

impl From<Result<Applied, Refusal>> for Taken {
    ghost from_gives = { λ applied it. it ≡ taken_of applied };

    // Where the record is refused, none of its bytes is taken.
    fn from(applied: Result<Applied, Refusal>) -> Taken {
        match applied {
            Ok(applied) => Taken {
                number: applied.outcome.into(),
                taken: applied.taken,
                hits: applied.hits,
            },
            Err(refusal) => Taken {
                number: refusal.into(),
                taken: 0,
                hits: 0,
            },
        }
    }
}

impl From<Refusal> for Records {
    ghost from_gives = { λ refusal it. it ≡ refused_of refusal };

    // A feed that is refused as a whole applies no record.
    fn from(refusal: Refusal) -> Records {
        Records {
            number: refusal.into(),
            records: 0,
            taken: 0,
        }
    }
}

// Applies the record at the front of the bytes. Only a query writes to the lent run of rows.
pub fn apply(words: &mut [u64], bytes: &[u8], rows: &mut [u64]) -> Result<Applied, Refusal>
    requires { (p : Pool) × Holds words.old p }
    ensures { (p : Pool) → Holds words.old p → applied_of (taken_of result) words.new rows.new ≡ apply_read (reads kinds bytes.now) (capacity (length words.old)) p rows.old }
{
    let record = reading::read(bytes)?;
    if let Request::Query(stretch) = record.request {
        let hits = query::list(words, stretch, rows)?;
        return Ok(Applied {
            outcome: Outcome::Done,
            taken: record.taken,
            hits,
        });
    }
    let outcome = serve::edit(words, record.request)?;
    Ok(Applied {
        outcome,
        taken: record.taken,
        hits: 0,
    })
}

// One turn of a feed: serves the record at the front of the bytes, and answers how many it takes.
fn feed_one(words: &mut [u64], bytes: &[u8]) -> Result<usize, Refusal>
    requires { (p : Pool) × Holds words.old p × (1 ≤ length bytes.now) }
    ensures { (p : Pool) → Holds words.old p → 1 ≤ length bytes.now → Turned result words.old words.new bytes.now p }
{
    let record = reading::read_in_feed(bytes)?;
    serve::edit(words, record.request)?;
    Ok(record.taken)
}

// Applies records until the bytes end or one is refused.
pub fn feed(words: &mut [u64], bytes: &[u8]) -> Records
    requires { (p : Pool) × Holds words.old p }
    ensures { (p : Pool) → Holds words.old p → fed_of result words.new ≡ fed (capacity (length words.old)) (feed_turns (serve (capacity (length words.old))) (length bytes.now) bytes.now p) }
{
    let mut rest = bytes;
    let mut records = 0;
    while !rest.is_empty() {
        match feed_one(words, rest) {
            Ok(taken) => {
                rest = &rest[taken..];
                records += 1;
            }
            Err(refusal) => {
                return Records {
                    number: refusal.into(),
                    records,
                    taken: bytes.len() - rest.len(),
                };
            }
        }
    }
    Records {
        number: Outcome::Done.into(),
        records,
        taken: bytes.len(),
    }
}
