// What other languages link: functions of the layers and of market, with floats as their bits. A NaN leaves
// with the bits 7FF8000000000000.
#![tactic(auto)]

mod export;
pub mod probe;
pub mod product;
