// The square root, and its digits one by one.
ghost use Rattle.std.specs.Prelude.{◌≡◌};
ghost use Rattle.std.specs.Float.{binary64};
ghost use Rattle.std.specs.Float.Ieee.{to_bits, of_bits};
ghost use Rattle.elementary.specs.Sqrt.{sqrt_of, aligned_of, sqrt_digits_of};

use elementary::methods::{bits_of, float_of};
use elementary::sqrt::{sqrt, sqrt_aligned, sqrt_digits};

#[unsafe(no_mangle)]
pub extern "C" fn gintubalos_sqrt(x: u64) -> u64
    ensures { result ≡ to_bits binary64 (sqrt_of binary64 (of_bits binary64 x)) }
{
    bits_of(sqrt(float_of(x)))
}

// The first digits of the root of x's aligned significand, as a whole number.
#[unsafe(no_mangle)]
pub extern "C" fn gintubalos_sqrt_digits(x: u64, turns: u32) -> u64
    ensures { result ≡ sqrt_digits_of (of_bits binary64 x) turns }
{
    sqrt_digits(float_of(x), turns)
}

// The aligned significand, with the exponent in `exponent`.
#[unsafe(no_mangle)]
pub extern "C" fn gintubalos_sqrt_aligned(x: u64, exponent: &mut i32) -> u64
    ensures value { result ≡ (aligned_of (of_bits binary64 x)).significand }
    ensures exponent_after { exponent.new ≡ (aligned_of (of_bits binary64 x)).exponent }
{
    let aligned = sqrt_aligned(float_of(x));
    *exponent = aligned.exponent;
    aligned.significand
}
