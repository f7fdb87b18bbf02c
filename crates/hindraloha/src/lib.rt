// The entries that a host calls, with plain numbers and lent memory. Each has a contract that is one equation with
// document 01's entry, for every input: `rules/specs/Entries.antt`. The crate `hindraloha_c` exports them to C.
#![tactic(auto)]

pub mod by_records; // the query that fills a lent list of hit records

ghost use Rattle.std.specs.Prelude.{◌≡◌, ℕ, List, pos};
ghost use Rattle.rules.specs.Balance.{left, right};
ghost use Rattle.rules.specs.Request.{inserting, deleting, deleting_end, clearing};
ghost use Rattle.rules.specs.Entries.{format, check, edit, size_of, height_of, is_empty, query, apply, feed};
ghost use Rattle.request.specs.Requests.{request_of};
ghost use Rattle.request.specs.Answers.{number_of};
ghost use Rattle.query.specs.Answers.{queried_of};
ghost use Rattle.guard.specs.Flag.{end_of_flag};
ghost use Rattle.record.specs.Answers.{taken_of, applied_of, fed_of};
ghost use Rattle.hindraloha.specs.Entries.{edited, told, told_height, queried, answered_of, told_of};

use node::SHAPE;
use record::{Applied, Records, Taken};
use request::{Outcome, Refusal, Request};

// A number alone. This struct and the next three are laid out for C, and so have a number for an outcome or a refusal.
#[repr(C)]
#[derive(Clone, Copy)]
pub struct Answer {
    pub number: u64,
}

// A number, and a count that it comes with.
#[repr(C)]
#[derive(Clone, Copy)]
pub struct Count {
    pub number: u64,
    pub count: u64,
}

// A number, and the height: -1 on an empty tree.
#[repr(C)]
#[derive(Clone, Copy)]
pub struct Height {
    pub number: u64,
    pub height: i64,
}

// A number, and the hits of a query.
#[repr(C)]
#[derive(Clone, Copy)]
pub struct Hits {
    pub number: u64,
    pub hits: usize,
}

impl From<Result<Outcome, Refusal>> for Answer {
    ghost from_gives = { λ answer it. it.number ≡ number_of answer };

    // The number of what was served, or of the refusal.
    fn from(answer: Result<Outcome, Refusal>) -> Answer {
        Answer {
            number: request::number_of(answer),
        }
    }
}

// The number of an answer with what it tells: where it is a refusal, `none`.
fn told<T: Drop>(answer: Result<T, Refusal>, none: T) -> (u64, T)
    ensures { record { number = result.0; told = result.1 } ≡ told_of none answer }
{
    match answer {
        Ok(told) => (Outcome::Done.into(), told),
        Err(refusal) => (refusal.into(), none),
    }
}

impl From<Result<u64, Refusal>> for Count {
    ghost from_gives = { λ answer it. told it ≡ told_of 0 answer };

    // 0 with what is told, or a refusal's number with 0.
    fn from(answer: Result<u64, Refusal>) -> Count {
        let (number, count) = told(answer, 0);
        Count { number, count }
    }
}

impl From<Result<i64, Refusal>> for Height {
    ghost from_gives = { λ answer it. told_height it ≡ told_of (pos 0) answer };

    // 0 with the height, or a refusal's number with 0.
    fn from(answer: Result<i64, Refusal>) -> Height {
        let (number, height) = told(answer, 0);
        Height { number, height }
    }
}

impl From<Result<usize, Refusal>> for Hits {
    ghost from_gives = { λ answer it. (run : List ℕ) → queried it run ≡ queried_of answer run };

    // 0 with the hits, or a refusal's number with none.
    fn from(answer: Result<usize, Refusal>) -> Hits {
        let (number, hits) = told(answer, 0);
        Hits { number, hits }
    }
}

// Formats a pool of a right length.
fn format(pool: &mut [u64]) -> Result<Outcome, Refusal>
    ensures { answered_of result pool.new ≡ format pool.old }
{
    if !pool::is_right_length(pool.len()) {
        return Err(Refusal::WrongLength);
    }
    pool::format(pool);
    Ok(Outcome::Done)
}

// Serves a request that writes no rows, after the check of the pool.
fn edit(pool: &mut [u64], request: Request) -> Result<Outcome, Refusal>
    ensures { answered_of result pool.new ≡ edit (request_of request) pool.old }
{
    guard::check(pool)?;
    serve::edit(pool, request)
}

// The live count of a sound pool.
fn size(pool: &[u64]) -> Result<u64, Refusal>
    ensures { told_of 0 result ≡ size_of pool.now }
{
    guard::check(pool)?;
    Ok(pool::live(pool))
}

// 1 where a sound pool holds no range, else 0.
fn is_empty(pool: &[u64]) -> Result<u64, Refusal>
    ensures { told_of 0 result ≡ is_empty pool.now }
{
    guard::check(pool)?;
    Ok(u64::from(pool::live(pool) == 0))
}

// The height of a sound pool's tree.
fn tree_height(pool: &[u64]) -> Result<i64, Refusal>
    ensures { told_of (pos 0) result ≡ height_of pool.now }
{
    guard::check(pool)?;
    let root = pool::root(pool);
    if root == 0 {
        return Ok(-1);
    }
    let shape = node::word(pool::slots(pool), root, SHAPE);
    Ok(node::low(shape) as i64)
}

// Applies the record at the front of the bytes to a sound pool.
fn apply(pool: &mut [u64], bytes: &[u8], rows: &mut [u64]) -> Result<Applied, Refusal>
    ensures { applied_of (taken_of result) pool.new rows.new ≡ apply bytes.now pool.old rows.old }
{
    guard::check(pool)?;
    record::apply(pool, bytes, rows)
}

// Formats a pool, whatever it held: all slots free.
pub fn hindraloha_format(pool: &mut [u64]) -> Answer
    ensures { edited result pool.new ≡ format pool.old }
{
    Answer::from(format(pool))
}

// Whether the pool is sound.
pub fn hindraloha_check(pool: &[u64]) -> Answer
    ensures { result.number ≡ check pool.now }
{
    Answer::from(guard::check(pool).and(Ok(Outcome::Done)))
}

// Puts the range from `start` to `end` with its value into the pool.
pub fn hindraloha_insert(pool: &mut [u64], start: u64, end: u64, included: u8, value: u64) -> Answer
    ensures { edited result pool.new ≡ edit (inserting (end_of_flag included) start end value) pool.old }
{
    let stretch = guard::stretch(start, end, included);
    Answer::from(edit(pool, Request::Insert { stretch, value }))
}

// Takes the range from `start` to `end` out of the pool.
pub fn hindraloha_delete(pool: &mut [u64], start: u64, end: u64, included: u8) -> Answer
    ensures { edited result pool.new ≡ edit (deleting (end_of_flag included) start end) pool.old }
{
    let stretch = guard::stretch(start, end, included);
    Answer::from(edit(pool, Request::Delete(stretch)))
}

// Takes the first range in order out of the pool.
pub fn hindraloha_delete_min(pool: &mut [u64]) -> Answer
    ensures { edited result pool.new ≡ edit (deleting_end left) pool.old }
{
    Answer::from(edit(pool, Request::DeleteMin))
}

// Takes the last range in order out of the pool.
pub fn hindraloha_delete_max(pool: &mut [u64]) -> Answer
    ensures { edited result pool.new ≡ edit (deleting_end right) pool.old }
{
    Answer::from(edit(pool, Request::DeleteMax))
}

// Takes all ranges out of a sound pool.
pub fn hindraloha_clear(pool: &mut [u64]) -> Answer
    ensures { edited result pool.new ≡ edit clearing pool.old }
{
    Answer::from(edit(pool, Request::Clear))
}

// How many ranges the pool holds.
pub fn hindraloha_size(pool: &[u64]) -> Count
    ensures { told result ≡ size_of pool.now }
{
    Count::from(size(pool))
}

// Whether the pool holds no range: 1 for yes.
pub fn hindraloha_is_empty(pool: &[u64]) -> Count
    ensures { told result ≡ is_empty pool.now }
{
    Count::from(is_empty(pool))
}

// The height of the tree.
pub fn hindraloha_height(pool: &[u64]) -> Height
    ensures { told_height result ≡ height_of pool.now }
{
    Height::from(tree_height(pool))
}

// Counts the ranges that the one from `start` to `end` overlaps, and writes start, end and value of as many as fit.
pub fn hindraloha_query(pool: &[u64], start: u64, end: u64, included: u8, rows: &mut [u64]) -> Hits
    ensures { queried result rows.new ≡ query (end_of_flag included) start end pool.now rows.old }
{
    let stretch = guard::stretch(start, end, included);
    Hits::from(guard::list(pool, stretch, rows))
}

// Applies the record at the front of the bytes. Only a query writes to the lent run of rows.
pub fn hindraloha_apply(pool: &mut [u64], bytes: &[u8], rows: &mut [u64]) -> Taken
    ensures { applied_of result pool.new rows.new ≡ apply bytes.now pool.old rows.old }
{
    Taken::from(apply(pool, bytes, rows))
}

// Applies records until the bytes end or one is refused.
pub fn hindraloha_feed(pool: &mut [u64], bytes: &[u8]) -> Records
    ensures { fed_of result pool.new ≡ feed bytes.now pool.old }
{
    match guard::check(pool) {
        Ok(()) => record::feed(pool, bytes),
        Err(refusal) => Records::from(refusal),
    }
}
