// Numbers that several modules share.
use std::f64::consts::FRAC_1_SQRT_2;

// 2 × 0.10566243270259357, a bound on t: (1 − 1/√3) / 2. The Rust calls its half the sixteenth root of
// f64::EPSILON, which is 0.105112..
pub(crate) const SMALL_T: f64 = 0.21132486540518713;

pub(crate) const MINUS_FRAC_1_SQRT_2: f64 = -FRAC_1_SQRT_2;

pub(crate) const SQRT_2PI: f64 = 2.5066282746310002;

pub(crate) const ONE_OVER_SQRT_TWO_PI: f64 = 0.3989422804014327;
