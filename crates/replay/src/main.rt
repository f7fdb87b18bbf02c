// Reads the recorded answers of the oracle from standard input, asks the entries the same, and compares every answer,
// size, height, row and shape. compare/recorded/README.md has the list's format and says how it was made.
#![tactic(auto)]

mod report;

use listing::Listing;
use rules::{MOST_SLOTS, POOL_WORDS};
use std::io;
use std::io::Read;

// The words of as many rows as a pool has entries at most.
const ROW_WORDS: usize = 3 * MOST_SLOTS;

// The bytes of the list that are read at a time, at most.
const BLOCK_BYTES: usize = 4096;

// Reads a block and takes it in. Answers whether there was any.
fn turn(input: &mut impl Read, listing: &mut Listing) -> io::Result<bool> {
    let mut block = [0u8; BLOCK_BYTES];
    let n = input.read(&mut block)?;
    listing.take(&block[..n]);
    Ok(n > 0)
}

// Takes in the whole list. No run uses up the turns, which are counted so that the loop ends. (The program `survey` has such a
// loop too, and no crate with code in common with this one.)
fn replay(input: &mut impl Read, listing: &mut Listing) -> io::Result<()> {
    for _ in 0..u64::MAX {
        if !turn(input, listing)? {
            break;
        }
    }
    Ok(())
}

// Takes in the list, and writes what it came to.
fn main(rt: HostRuntime) -> io::Result<()> {
    let mut room = [0u64; POOL_WORDS];
    let mut rows = [0u64; ROW_WORDS];
    let mut listing = Listing::new(&mut room, &mut rows);
    replay(&mut rt.stdin(), &mut listing)?;
    report::report(&rt, &listing.notes.counts)
}
