// The entries as C calls them: each only calls the entry of the same name in the crate `hindraloha`, and has its clauses
// word for word. They stand apart from the entries, which other crates call. include/hindraloha.h declares them.
#![tactic(auto)]

ghost use Rattle.std.specs.Prelude.{◌≡◌};
ghost use Rattle.rules.specs.Balance.{left, right};
ghost use Rattle.rules.specs.Request.{inserting, deleting, deleting_end, clearing};
ghost use Rattle.rules.specs.Entries.{format, check, edit, size_of, height_of, is_empty, query, apply, feed};
ghost use Rattle.held.specs.Records.{words_of};
ghost use Rattle.guard.specs.Flag.{end_of_flag};
ghost use Rattle.record.specs.Answers.{applied_of, fed_of};
ghost use Rattle.hindraloha.specs.Entries.{edited, told, told_height, queried};

use held::Hit;
use hindraloha::{Answer, Count, Height, Hits};
use record::{Records, Taken};

// Formats a pool, whatever it held: all slots free.
#[unsafe(no_mangle)]
pub extern "C" fn hindraloha_format(pool: &mut [u64]) -> Answer
    ensures { edited result pool.new ≡ format pool.old }
{
    hindraloha::hindraloha_format(pool)
}

// Whether the pool is sound.
#[unsafe(no_mangle)]
pub extern "C" fn hindraloha_check(pool: &[u64]) -> Answer
    ensures { result.number ≡ check pool.now }
{
    hindraloha::hindraloha_check(pool)
}

// Puts the range from `start` to `end` with its value into the pool.
#[unsafe(no_mangle)]
pub extern "C" fn hindraloha_insert(
    pool: &mut [u64],
    start: u64,
    end: u64,
    included: u8,
    value: u64,
) -> Answer
    ensures { edited result pool.new ≡ edit (inserting (end_of_flag included) start end value) pool.old }
{
    hindraloha::hindraloha_insert(pool, start, end, included, value)
}

// Takes the range from `start` to `end` out of the pool.
#[unsafe(no_mangle)]
pub extern "C" fn hindraloha_delete(pool: &mut [u64], start: u64, end: u64, included: u8) -> Answer
    ensures { edited result pool.new ≡ edit (deleting (end_of_flag included) start end) pool.old }
{
    hindraloha::hindraloha_delete(pool, start, end, included)
}

// Takes the first range in order out of the pool.
#[unsafe(no_mangle)]
pub extern "C" fn hindraloha_delete_min(pool: &mut [u64]) -> Answer
    ensures { edited result pool.new ≡ edit (deleting_end left) pool.old }
{
    hindraloha::hindraloha_delete_min(pool)
}

// Takes the last range in order out of the pool.
#[unsafe(no_mangle)]
pub extern "C" fn hindraloha_delete_max(pool: &mut [u64]) -> Answer
    ensures { edited result pool.new ≡ edit (deleting_end right) pool.old }
{
    hindraloha::hindraloha_delete_max(pool)
}

// Takes all ranges out of a sound pool.
#[unsafe(no_mangle)]
pub extern "C" fn hindraloha_clear(pool: &mut [u64]) -> Answer
    ensures { edited result pool.new ≡ edit clearing pool.old }
{
    hindraloha::hindraloha_clear(pool)
}

// How many ranges the pool holds.
#[unsafe(no_mangle)]
pub extern "C" fn hindraloha_size(pool: &[u64]) -> Count
    ensures { told result ≡ size_of pool.now }
{
    hindraloha::hindraloha_size(pool)
}

// Whether the pool holds no range: 1 for yes.
#[unsafe(no_mangle)]
pub extern "C" fn hindraloha_is_empty(pool: &[u64]) -> Count
    ensures { told result ≡ is_empty pool.now }
{
    hindraloha::hindraloha_is_empty(pool)
}

// The height of the tree.
#[unsafe(no_mangle)]
pub extern "C" fn hindraloha_height(pool: &[u64]) -> Height
    ensures { told_height result ≡ height_of pool.now }
{
    hindraloha::hindraloha_height(pool)
}

// Counts the ranges that the one from `start` to `end` overlaps, and writes start, end and value of as many as fit.
#[unsafe(no_mangle)]
pub extern "C" fn hindraloha_query(
    pool: &[u64],
    start: u64,
    end: u64,
    included: u8,
    rows: &mut [u64],
) -> Hits
    ensures { queried result rows.new ≡ query (end_of_flag included) start end pool.now rows.old }
{
    hindraloha::hindraloha_query(pool, start, end, included, rows)
}

// Counts the ranges that the one from `start` to `end` overlaps, and writes the records of as many as fit. Taken apart,
// the records are the rows of `hindraloha_query`.
#[unsafe(no_mangle)]
pub extern "C" fn hindraloha_query_records(
    pool: &[u64],
    start: u64,
    end: u64,
    included: u8,
    rows: &mut [Hit],
) -> Hits
    ensures { queried result (words_of rows.new) ≡ query (end_of_flag included) start end pool.now (words_of rows.old) }
{
    hindraloha::by_records::hindraloha_query_records(pool, start, end, included, rows)
}

// Applies the record at the front of the bytes. Only a query writes to the lent run of rows.
#[unsafe(no_mangle)]
pub extern "C" fn hindraloha_apply(pool: &mut [u64], bytes: &[u8], rows: &mut [u64]) -> Taken
    ensures { applied_of result pool.new rows.new ≡ apply bytes.now pool.old rows.old }
{
    hindraloha::hindraloha_apply(pool, bytes, rows)
}

// Applies records until the bytes end or one is refused.
#[unsafe(no_mangle)]
pub extern "C" fn hindraloha_feed(pool: &mut [u64], bytes: &[u8]) -> Records
    ensures { fed_of result pool.new ≡ feed bytes.now pool.old }
{
    hindraloha::hindraloha_feed(pool, bytes)
}
