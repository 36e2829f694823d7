// Layer 3: the guess, the step, the loop, solve, trail, book and listing, each equal to its definition
// in specs/, of which demand 3 is promised and proved (specs/Promises/Demand3.antt).
#![tactic(auto)]

pub mod normalised_market; // what a run looks at
pub mod quote; // what is asked
pub mod refusal; // what is refused, by number
pub mod answers; // what solve answers
pub mod state; // what the loops carry
mod step; // the three Householder steps
mod guess; // where a run starts, after normalising
pub mod little_endian; // numbers and floats in a slice
mod trail; // the bytes of a step's record
mod recorder; // where the records of a run go
pub mod solve; // solve, with a trail and without, and the wrapper with limit 2
pub mod bid_ask; // solve at a low and at a high price
pub mod book; // file, recheck and read
pub mod listing; // a line of relist
