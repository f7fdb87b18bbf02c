// The lines of a recorded list as they come, byte by byte, and what is noted from line to line. Nothing here knows a pool.
#![tactic(auto)]

pub mod counts;
pub mod kind;
pub mod line;
pub mod notes;
pub mod pending;
