// Reads survey records from standard input into a fresh pool of 800 slots, and writes what each came to.
#![tactic(auto)]

ghost use Rattle.std.specs.Prelude.{◌≡◌, ◌*◌, ◌≤◌, length, IfOk};
ghost use Rattle.survey.specs.Ready.{Ready};

use reading::Kind;
use request::{Outcome, Refusal};
use std::io::Read;
use std::{fmt, io};

// The words of a pool of 800 slots.
const POOL_WORDS: usize = 4804;

// The words of 800 rows: every entry may be a hit.
const ROW_WORDS: usize = 2400;

// The bytes of the longest record.
const RECORD_BYTES: usize = 25;

// How many bytes follow a byte of kind: none where the kind is not in the table.
fn body_length(byte: u8) -> usize
    ensures { result ≤ 24 }
{
    match Kind::try_from(byte) {
        Ok(kind) => kind.body_length(),
        Err(_) => 0,
    }
}

// Reads until `bytes` is full or the input ends, and answers how many there are at the front. A read that fails ends it
// with that error, and leaves at the front what came before. (The library's `read_exact` answers no count where the input
// ends inside a record.)
fn read_full(input: &mut impl Read, bytes: &mut [u8]) -> io::Result<usize>
    ensures within { IfOk result (λ n. n ≤ length bytes.new) }
    ensures as_long { length bytes.new ≡ length bytes.old }
{
    let mut done = 0;
    while done < bytes.len() {
        match input.read(&mut bytes[done..])? {
            0 => break,
            n => done += n,
        }
    }
    Ok(done)
}

// Reads the next record to the front of `bytes`, and answers how many there are: none at the end of the input, and
// fewer than the kind asks where the input ends inside the record.
fn read_record(input: &mut impl Read, bytes: &mut [u8; RECORD_BYTES]) -> io::Result<usize>
    ensures { IfOk result (λ n. n ≤ 25) }
{
    if read_full(input, &mut bytes[..1])? == 0 {
        return Ok(0);
    }
    let n = body_length(bytes[0]);
    let got = read_full(input, &mut bytes[1..1 + n])?;
    Ok(1 + got)
}

// Writes the line of a record that was no query, or of one that was refused. The words of a line are byte strings by a rule
// of the project, so that no type is displayed here.
fn write_answer(rt: &impl Print, answer: Result<Outcome, Refusal>) -> io::Result<()> {
    match answer {
        Ok(Outcome::Done) => rt.write_all(b"done\n"),
        Ok(Outcome::There) => rt.write_all(b"kept\n"),
        Ok(Outcome::Absent) => rt.write_all(b"none\n"),
        Err(refusal) => {
            rt.write_all(b"no ")?;
            println!(rt; "{}", u64::from(refusal))
        }
    }
}

// Writes the line of one hit.
fn write_hit(rt: &impl Print, start: u64, end: u64, value: u64) -> io::Result<()> {
    rt.write_all(b"hit ")?;
    println!(rt; "{start} {end} {value}")
}

// Writes the lines of a query: each hit, then their count.
fn write_hits(rt: &impl Print, rows: &[u64], hits: usize) -> io::Result<()>
    requires { 3 * hits ≤ length rows.now }
{
    for row in rows.chunks_exact(3).take(hits) {
        write_hit(rt, row[0], row[1], row[2])?;
    }
    rt.write_all(b"end ")?;
    println!(rt; "{hits}")
}

// Whether the record at the front of the bytes is a query.
fn is_query(bytes: &[u8]) -> bool {
    match bytes.first() {
        Some(byte) => Kind::try_from(*byte) == Ok(Kind::Query),
        None => false,
    }
}

// Applies one record and writes its lines. Answers whether to go on: not after 14 or 15, which leave no place where the
// next record begins.
fn serve_record(
    rt: &impl Print,
    words: &mut [u64],
    bytes: &[u8],
    rows: &mut [u64; ROW_WORDS],
) -> io::Result<bool>
    requires { Ready words.old }
    ensures { Ready words.new }
{
    match record::apply(words, bytes, rows) {
        Ok(applied) if is_query(bytes) => {
            write_hits(rt, rows, applied.hits)?;
            Ok(true)
        }
        Ok(applied) => {
            write_answer(rt, Ok(applied.outcome))?;
            Ok(true)
        }
        Err(refusal) => {
            write_answer(rt, Err(refusal))?;
            Ok(!matches!(refusal, Refusal::UnknownKind | Refusal::CutShort))
        }
    }
}

// One record: reads it, applies it and writes its lines. Answers whether to go on: not after the end of the input, and
// not after a record that leaves no place where the next one begins.
fn turn(rt: &impl Print, input: &mut impl Read, words: &mut [u64]) -> io::Result<bool>
    requires { Ready words.old }
    ensures { Ready words.new }
{
    let mut bytes = [0u8; RECORD_BYTES];
    let n = read_record(input, &mut bytes)?;
    if n == 0 {
        return Ok(false);
    }
    let mut rows = [0u64; ROW_WORDS];
    serve_record(rt, words, &bytes[..n], &mut rows)
}

// Formats the pool, then takes records while there are any. A proved loop has to end, and nothing says that the input
// does: so the turns are counted, up to a number that no run reaches. (`replay` has such a loop too.)
fn survey(rt: &impl Print, input: &mut impl Read, words: &mut [u64; POOL_WORDS]) -> io::Result<()> {
    pool::format(words);
    for _ in 0..u64::MAX {
        if !turn(rt, input, words)? {
            break;
        }
    }
    Ok(())
}

// The pool of 800 slots, and what the records make of it.
fn main(rt: HostRuntime) -> io::Result<()> {
    let mut words = [0u64; POOL_WORDS];
    survey(&rt, &mut rt.stdin(), &mut words)
}
