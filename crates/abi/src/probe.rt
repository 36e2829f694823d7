// What only the comparison with the Rust and the bench call: every other function of the layers.
pub mod black;
pub mod cody;
pub mod functions;
pub mod intrinsic;
pub mod normal_distribution;
pub mod rational_cubic;
pub mod vega;
