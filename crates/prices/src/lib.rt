// Layer 2: intrinsic value, vega, the Black price and the rational cubic, each equal bit for bit to
// its definition in specs/.
#![tactic(auto)]

pub mod inputs; // `OptionType` of inputs.rs
pub mod refusal; // what is refused, by document 01's numbers
mod constants; // numbers that several modules share
pub mod intrinsic; // intrinsic.rs
pub mod vega; // `normalised_vega` of so_rational.rs
mod small_t; // black.rs's expansion for a small t
mod exponentials; // what a price out of the money asks for
pub mod black; // black.rs, and `black` of mod.rs
pub mod point; // price and vega of one s
pub mod rational_cubic; // rational_cubic.rs
