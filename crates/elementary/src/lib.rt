// Layer 1: elementary functions, Cody's functions and the normal distribution, each equal bit for
// bit to its definition in specs/.
#![tactic(auto)]

pub mod rule_set; // what a rule set decides
pub mod limits; // f64's MAX, MIN, MIN_POSITIVE, EPSILON
pub mod methods; // abs, max, is_zero, powi(2), and the border between floats and bits
pub mod floor;
pub mod sqrt;
mod round; // the rounding leaf: whatever packs a float from whole numbers
mod eight; // eight numbers side by side
pub mod exp;
pub mod mul_add;
pub mod ln; // ln and powf(1/3)
mod tables; // exp(−t²) at sixteenths, and the cdf at the bisection's first middles
pub mod cody; // cody/optimized.rs
pub mod normal_distribution; // normal_distribution.rs
mod inverse; // the bisection of the inverse normal cdf, eight steps at a time
