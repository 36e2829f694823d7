// ln and powf(1/3).
ghost use Rattle.std.specs.Prelude.{◌≡◌, T};
ghost use Rattle.std.specs.Float.Ieee.Positive as Positive;
ghost use Rattle.elementary.specs.Ops.{◌⊘◌, one, float};
ghost use Rattle.elementary.specs.Ln.{ln_sum, ln_at, ln_inner, ln_of, cube_root_of};

use crate::exp::{H, L, exp};
use crate::methods::is_zero;
use crate::round::{float_of_fields, parts_of};
use std::f64::consts::SQRT_2;

// The sum of the series in z: 1/1 + z/3 + z^2/5 and so on to z^11/23.
fn series(z: f64) -> f64
    ensures { result ≡ ln_sum 11 z (one ⊘ float 23) }
{
    let mut q = 1.0 / 23.0;
    for i in (0..11u64).rev() {
        q = 1.0 / ((2 * i + 1) as f64) + z * q;
    }
    q
}

// ln of m × 2^e, for an m near 1.
fn ln_near_one(m: f64, e: f64) -> f64
    ensures { result ≡ ln_at m e }
{
    let f = m - 1.0;
    let u = f / (2.0 + f);
    let q = series(u * u);
    e * H + (2.0 * u * q + e * L)
}

// ln of a positive finite y. Its significand is halved where it is above √2. The place of the smallest
// value's digit is 0, and its exponent −1074.
fn ln_inner(y: f64) -> f64
    requires { T (Positive.positive y) }
    ensures { result ≡ ln_inner y }
{
    let t = parts_of(y);
    let mut m = float_of_fields(1023, t.m - 0x10_0000_0000_0000);
    let mut place = t.e - 12;
    if m > SQRT_2 {
        m = 0.5 * m;
        place += 1;
    }
    ln_near_one(m, place as f64 - 1074.0)
}

// ln, with document 01's tests in their order.
pub fn ln(y: f64) -> f64
    ensures { result ≡ ln_of y }
{
    if y.is_nan() || y < 0.0 {
        return f64::NAN;
    }
    if y == 0.0 {
        return f64::NEG_INFINITY;
    }
    if y == f64::INFINITY {
        return f64::INFINITY;
    }
    ln_inner(y)
}

// powf(1/3): +0 for a zero.
pub fn powf_1_3(y: f64) -> f64
    ensures { result ≡ cube_root_of y }
{
    if is_zero(y) {
        return 0.0;
    }
    exp(ln(y) * (1.0 / 3.0))
}
