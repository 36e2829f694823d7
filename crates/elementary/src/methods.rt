// The small methods of f64, and the border between floats and bits.
ghost use Rattle.std.specs.Prelude.{◌≡◌, true};
ghost use Rattle.std.specs.Float.Ieee as Ieee;
ghost use Rattle.std.specs.Float.{binary64};
ghost use Rattle.elementary.specs.Methods.{abs_of, max_of, is_zero, square_of};

// Equal to 0; f64 has no method for it, and the Rust's comes from a trait.
pub fn is_zero(x: f64) -> bool
    ensures { result ≡ is_zero x }
{
    x == 0.0
}

// powi(2).
pub fn powi_2(y: f64) -> f64
    ensures { result ≡ square_of y }
{
    y * y
}

// Whether a and b are the same float; of two zeros, their signs too, which == does not look at.
pub(crate) fn same(a: f64, b: f64) -> bool
    ensures { result ≡ true → a ≡ b }
{
    a == b && a.to_bits() == b.to_bits()
}

// abs clears the sign. std's f64::abs does so by two tests; ours stays, since document 01 has it written
// anew, and a wrong program changes its mask.
pub fn abs(x: f64) -> f64
    ensures { result ≡ abs_of x }
{
    if x.is_nan() {
        return x;
    }
    f64::from_bits(x.to_bits() % 0x8000_0000_0000_0000)
}

// The greater; the other one if one is NaN; of two zeros of unequal sign +0, where std's f64::max takes either.
// Where one is greater, at most two comparisons decide.
pub fn max(a: f64, b: f64) -> f64
    ensures { result ≡ max_of a b }
{
    if a < b {
        return b;
    }
    if b < a {
        return a;
    }
    if a.is_nan() {
        return b;
    }
    if b.is_nan() {
        return a;
    }
    if a.is_sign_negative() { b } else { a }
}

// The bits of x, 7FF8000000000000 at a NaN. What leaves the engine as bits leaves through here.
pub fn bits_of(x: f64) -> u64
    ensures { result ≡ Ieee.to_bits binary64 x }
{
    if x.is_nan() {
        return 0x7ff8_0000_0000_0000;
    }
    x.to_bits()
}

// The float with the bits b; every pattern of a NaN is the one NaN. What comes in as bits comes in
// through here.
pub fn float_of(b: u64) -> f64
    ensures { result ≡ Ieee.of_bits binary64 b }
{
    if b % 0x8000_0000_0000_0000 > 0x7ff0_0000_0000_0000 {
        return f64::NAN;
    }
    f64::from_bits(b)
}
