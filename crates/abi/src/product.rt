// What programs use: solve and its target, bid and ask together, the Black price, the book and the
// listing, the live board, packed prices, and the square root with its digits.
pub mod bid_ask;
pub mod black;
pub mod board;
pub mod book;
pub mod packed;
pub mod solve;
pub mod sqrt;
