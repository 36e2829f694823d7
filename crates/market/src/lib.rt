// What comes from the trading floor: the live board, and packed prices.
#![tactic(auto)]

pub mod refusal; // what is refused, by number
pub mod board; // live quotes that come and go
pub mod packed; // prices as 15 decimal digits and a sign
