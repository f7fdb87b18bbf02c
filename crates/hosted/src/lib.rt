// The entries as a host calls them: each function only calls its entry, and promises that the call is an event of
// document 01's history, with its own arguments, by its case of `Called` in `history/specs/Host.antt`. Where the answer is
// more than a number, it promises the rest of it too. So a case that describes another call than its entry's, or that is
// left out, is refused here, and so is an entry whose code and contract are changed together. hindraloha_check, _size,
// _height and _is_empty are lent the pool to read only, and name no rows: they leave all words by their type, so that they
// are no events and have no function here. They stand apart from the entries, since they promise another thing, and the
// archive for C is made without it.
#![tactic(auto)]

pub mod by_records; // the query that fills a lent list of hit records

ghost use Rattle.std.specs.Prelude.{◌≡◌};
ghost use Rattle.rules.specs.Balance.{left, right};
ghost use Rattle.rules.specs.Request.{inserting, deleting, deleting_end, clearing, querying};
ghost use Rattle.rules.specs.Entries.{query, apply, feed};
ghost use Rattle.rules.specs.History.{formatting, asking, applying, feeding};
ghost use Rattle.guard.specs.Flag.{end_of_flag};
ghost use Rattle.record.specs.Answers.{applied_of, fed_of};
ghost use Rattle.hindraloha.specs.Entries.{queried};
ghost use Rattle.history.specs.Host.{Called};

use hindraloha::{Answer, Hits};
use record::{Records, Taken};

// Formats a pool.
pub fn format(pool: &mut [u64]) -> Answer
    ensures { Called pool.old pool.new formatting result.number }
{
    hindraloha::hindraloha_format(pool)
}

// Puts a range with its value in.
pub fn insert(pool: &mut [u64], start: u64, end: u64, included: u8, value: u64) -> Answer
    ensures { Called pool.old pool.new (asking (inserting (end_of_flag included) start end value)) result.number }
{
    hindraloha::hindraloha_insert(pool, start, end, included, value)
}

// Takes a range out.
pub fn delete(pool: &mut [u64], start: u64, end: u64, included: u8) -> Answer
    ensures { Called pool.old pool.new (asking (deleting (end_of_flag included) start end)) result.number }
{
    hindraloha::hindraloha_delete(pool, start, end, included)
}

// Takes the first range out.
pub fn delete_min(pool: &mut [u64]) -> Answer
    ensures { Called pool.old pool.new (asking (deleting_end left)) result.number }
{
    hindraloha::hindraloha_delete_min(pool)
}

// Takes the last range out.
pub fn delete_max(pool: &mut [u64]) -> Answer
    ensures { Called pool.old pool.new (asking (deleting_end right)) result.number }
{
    hindraloha::hindraloha_delete_max(pool)
}

// Takes all ranges out.
pub fn clear(pool: &mut [u64]) -> Answer
    ensures { Called pool.old pool.new (asking clearing) result.number }
{
    hindraloha::hindraloha_clear(pool)
}

// Asks for the ranges that one overlaps. The pool is lent to be read, so its words are the same after the call.
pub fn query(pool: &[u64], start: u64, end: u64, included: u8, rows: &mut [u64]) -> Hits
    ensures { (Called pool.now pool.now (asking (querying (end_of_flag included) start end)) result.number) × (queried result rows.new ≡ query (end_of_flag included) start end pool.now rows.old) }
{
    hindraloha::hindraloha_query(pool, start, end, included, rows)
}

// Applies one record.
pub fn apply(pool: &mut [u64], bytes: &[u8], rows: &mut [u64]) -> Taken
    ensures { (Called pool.old pool.new (applying bytes.now) result.number) × (applied_of result pool.new rows.new ≡ apply bytes.now pool.old rows.old) }
{
    hindraloha::hindraloha_apply(pool, bytes, rows)
}

// Feeds records.
pub fn feed(pool: &mut [u64], bytes: &[u8]) -> Records
    ensures { (Called pool.old pool.new (feeding bytes.now) result.number) × (fed_of result pool.new ≡ feed bytes.now pool.old) }
{
    hindraloha::hindraloha_feed(pool, bytes)
}
