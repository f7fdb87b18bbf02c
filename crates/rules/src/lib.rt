// The definitions of document 01 (specs/) and their laws (proofs/). The code has only the numbers that a later request may
// raise, each named once, as in specs/Limits.antt.
#![tactic(auto)]

// "A pool has 1 to 4,095 slots."
pub const MOST_SLOTS: usize = 4095;

// "so 4,095 entries give height 15 at most and 16 pending nodes": as many as the levels of the highest tree.
pub const MOST_PENDING: usize = 16;

// "4 header words, then 6 for each slot"
pub const HEADER_WORDS: usize = 4;

pub const SLOT_WORDS: usize = 6;

// The words of the largest pool.
pub const POOL_WORDS: usize = HEADER_WORDS + SLOT_WORDS * MOST_SLOTS;
