// Runs document 01's examples 11 and 12 and further cases through the entries. Each line has how many of the numbers that
// came out are those that should, and how many there should be.
#![tactic(auto)]

ghost use Rattle.std.specs.Prelude.{◌≡◌, ◌<◌, ◌^◌, ◌==◌, count_by};
ghost use Rattle.std.specs.List.{zip};

use hindraloha::{hindraloha_delete, hindraloha_format, hindraloha_insert, hindraloha_query};
use rules::POOL_WORDS;
use std::io;

// How many numbers of the one list stand at the same place in the other.
fn same(got: &[u64], expected: &[u64]) -> usize
    ensures { result ≡ count_by (λ p. p.0 == p.1) (zip got.now expected.now) }
{
    got.iter()
        .zip(expected)
        .filter(|(got, expected)| got == expected)
        .count()
}

// Writes the line of a case: its name, how many numbers are as expected, and how many are expected.
fn write_case(rt: &impl Print, name: &str, got: &[u64], expected: &[u64]) -> io::Result<()> {
    let agreeing = same(got, expected);
    let count = expected.len();
    println!(rt; "{name}: {agreeing} of {count}")
}

// Inserts a range whose end is excluded, and answers the number.
fn insert(pool: &mut [u64], start: u64, end: u64, value: u64) -> u64 {
    hindraloha_insert(pool, start, end, 0, value).number
}

// Deletes a range whose end is excluded, and answers the number.
fn delete(pool: &mut [u64], start: u64, end: u64) -> u64 {
    hindraloha_delete(pool, start, end, 0).number
}

// The hits of a query whose end is excluded; their rows are written to `rows`.
fn hits(pool: &[u64], start: u64, end: u64, rows: &mut [u64]) -> u64 {
    hindraloha_query(pool, start, end, 0, rows).hits as u64
}

// "Two slots, fresh: 0 1 0 0, then 0 0 0 0 2 0, then six zeros. After 10..20 value 7: 1 2 1 0, then 10 20 7 20 0 65536,
// then six zeros."
fn example_11(rt: &impl Print) -> io::Result<()> {
    let mut pool = [9u64; 16];
    hindraloha_format(&mut pool);
    write_case(
        rt,
        "example 11, fresh",
        &pool,
        &[0, 1, 0, 0, 0, 0, 0, 0, 2, 0, 0, 0, 0, 0, 0, 0],
    )?;
    insert(&mut pool, 10, 20, 7);
    write_case(
        rt,
        "example 11, after the insert",
        &pool,
        &[1, 2, 1, 0, 10, 20, 7, 20, 0, 65536, 0, 0, 0, 0, 0, 0],
    )
}

// A word more than the largest pool has.
const WORDS_BEYOND: usize = POOL_WORDS + 1;

// Formats so many words, and answers the number. An array is smaller than the memory.
fn format<const WORDS: usize>() -> u64
    requires { WORDS < 2 ^ 60 }
{
    let mut words = [0u64; WORDS];
    hindraloha_format(&mut words).number
}

// "Lengths 4, 15 and 24,575 give 10; 10 and 24,574 are right lengths."
fn example_12(rt: &impl Print) -> io::Result<()> {
    let numbers = [
        format::<4>(),
        format::<10>(),
        format::<15>(),
        format::<POOL_WORDS>(),
        format::<WORDS_BEYOND>(),
    ];
    write_case(rt, "example 12", &numbers, &[10, 0, 10, 0, 10])
}

// Example 6 seen in a mirror: a child factor of 0 on the left gives the single rotation. A double one would put 30 on
// top.
fn factor_zero_on_the_left(rt: &impl Print) -> io::Result<()> {
    let mut pool = [0u64; 34];
    hindraloha_format(&mut pool);
    insert(&mut pool, 40, 41, 1);
    insert(&mut pool, 50, 51, 2);
    insert(&mut pool, 20, 21, 3);
    insert(&mut pool, 10, 11, 4);
    insert(&mut pool, 30, 31, 5);
    delete(&mut pool, 50, 51);
    let mut rows = [0u64; 15];
    hits(&pool, 0, 99, &mut rows);
    write_case(
        rt,
        "factor 0 on the left",
        &rows,
        &[20, 21, 3, 40, 41, 1, 30, 31, 5, 10, 11, 4, 0, 0, 0],
    )
}

// A range that reaches far beyond the end of its parent is found: a subtree is passed over by its max, and not by the
// end at its top.
fn passed_over_by_max(rt: &impl Print) -> io::Result<()> {
    let mut pool = [0u64; 16];
    hindraloha_format(&mut pool);
    insert(&mut pool, 10, 11, 1);
    insert(&mut pool, 5, 100, 2);
    let mut rows = [0u64; 6];
    let count = hits(&pool, 50, 60, &mut rows);
    write_case(rt, "passed over by max, hits", &[count], &[1])?;
    write_case(rt, "passed over by max, rows", &rows, &[5, 100, 2, 0, 0, 0])
}

// A delete with two children keeps the successor in its own slot, and frees the slot of what was deleted.
fn successor_keeps_its_slot(rt: &impl Print) -> io::Result<()> {
    let mut pool = [0u64; 22];
    hindraloha_format(&mut pool);
    insert(&mut pool, 3, 4, 6);
    insert(&mut pool, 1, 2, 7);
    insert(&mut pool, 5, 6, 8);
    delete(&mut pool, 3, 4);
    write_case(
        rt,
        "the successor keeps its slot",
        &pool,
        &[
            3, 1, 2, 0, 0, 0, 0, 0, 0, 0, 1, 2, 7, 2, 0, 65536, 5, 6, 8, 6, 2, 131073,
        ],
    )
}

// Ranges that only touch the query are no hits, and one position more makes them hits: with two ranges from 4 on, one up
// to 5 and one up to 9, neither pruning test may be off by one.
fn touching(rt: &impl Print) -> io::Result<()> {
    let mut pool = [0u64; 16];
    hindraloha_format(&mut pool);
    insert(&mut pool, 4, 5, 1);
    insert(&mut pool, 4, 9, 2);
    let mut rows = [0u64; 6];
    let before = hits(&pool, 0, 4, &mut rows);
    let after = hits(&pool, 9, 20, &mut rows);
    let last = hits(&pool, 8, 20, &mut rows);
    let both = hits(&pool, 0, 5, &mut rows);
    write_case(
        rt,
        "touching, hits",
        &[before, after, last, both],
        &[0, 0, 1, 2],
    )?;
    write_case(rt, "touching, rows", &rows, &[4, 5, 1, 4, 9, 2])
}

// All cases.
fn main(rt: HostRuntime) -> io::Result<()> {
    example_11(&rt)?;
    example_12(&rt)?;
    factor_zero_on_the_left(&rt)?;
    passed_over_by_max(&rt)?;
    successor_keeps_its_slot(&rt)?;
    touching(&rt)
}
