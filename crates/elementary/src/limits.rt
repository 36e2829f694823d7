// f64's limits: the public names of this layer, which are std's numbers.
pub const MAX: f64 = f64::MAX;

pub const MIN: f64 = f64::MIN;

// The least positive normal number.
pub const MIN_POSITIVE: f64 = f64::MIN_POSITIVE;

// From 1 to the next number.
pub const EPSILON: f64 = f64::EPSILON;
