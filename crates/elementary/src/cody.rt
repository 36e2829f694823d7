// Cody's rational approximations of the error function: cody/optimized.rs, line by line.
ghost use Rattle.std.specs.Prelude.{◌≡◌, cond, ◌<◌, ◌≤◌, Float};
ghost use Rattle.std.specs.Float.Ieee.{lt};
ghost use Rattle.elementary.specs.Ops.{◌⊖◌, +0, two};
ghost use Rattle.elementary.specs.Inside.Cdf.{sixteenths_of};
ghost use Rattle.elementary.specs.Methods.{abs_of};
ghost use Rattle.elementary.specs.Exp.{exp_of};
ghost use Rattle.elementary.specs.Cody.{d_int_of, tilde_of, smoothened_exponential_of_negative_square, smoothened_exponential_of_positive_square, negative_square, ab_of, cd_of, pq_of, erfcx_above_threshold, erfc_abs, erfc_of, erfcx_of};

use crate::exp::exp;
use crate::floor::floor;
use crate::limits::MAX;
use crate::methods::{abs, same};
use crate::rule_set::RuleSet;
use crate::tables::exp_of_negative_square_of_sixteenths;

pub(crate) const FRAC_1_SQRT_PI: f64 = 0.5641895835477563;

const THRESHOLD: f64 = 0.46875;

const XNEG: f64 = -26.6287357137514;

const XBIG: f64 = 26.543;

const A: [f64; 5] = [
    3.1611237438705655,
    113.86415415105016,
    377.485237685302,
    3209.3775891384694,
    0.18577770618460315,
];

const B: [f64; 4] = [
    23.601290952344122,
    244.02463793444417,
    1282.6165260773723,
    2844.236833439171,
];

const C: [f64; 9] = [
    0.5641884969886701,
    8.883149794388377,
    66.11919063714163,
    298.6351381974001,
    881.952221241769,
    1712.0476126340707,
    2051.0783778260716,
    1230.3393547979972,
    2.1531153547440383e-08,
];

const D: [f64; 8] = [
    15.744926110709835,
    117.6939508913125,
    537.1811018620099,
    1621.3895745666903,
    3290.7992357334597,
    4362.619090143247,
    3439.3676741437216,
    1230.3393548037495,
];

const P: [f64; 6] = [
    0.30532663496123236,
    0.36034489994980445,
    0.12578172611122926,
    0.016083785148742275,
    0.0006587491615298378,
    0.016315387137302097,
];

const Q: [f64; 5] = [
    2.568520192289822,
    1.8729528499234604,
    0.5279051029514285,
    0.06051834131244132,
    0.0023352049762686918,
];

pub fn d_int(x: f64) -> f64
    ensures { result ≡ d_int_of x }
{
    if x > 0.0 { floor(x) } else { -floor(-x) }
}

// y to a multiple of 1/16 toward zero.
pub(crate) fn tilde(y: f64) -> f64
    ensures { result ≡ tilde_of y }
{
    d_int(y * 16.0) / 16.0
}

// The number of sixteenths nearest to t, for a t from 0 up to 64.
pub(crate) fn sixteenths(t: f64) -> u64
    ensures { result < 1024 }
{
    let s = t + 281474976710656.0;
    if s.is_nan() { 0 } else { s.to_bits() % 1024 }
}

// k / 16.
pub(crate) fn sixteenth(k: u64) -> f64
    requires { k ≤ 1024 }
    ensures { result ≡ sixteenths_of k }
{
    (k as f64) / 16.0
}

// exp(−t²): from the table where t is one of its sixteenths.
pub(crate) fn exp_of_negative_square(t: f64) -> f64
    ensures { result ≡ exp_of (negative_square t) }
{
    let k = sixteenths(t);
    match exp_of_negative_square_of_sixteenths(k) {
        Some(value) if same(t, sixteenth(k)) => value,
        _ => exp(-t * t),
    }
}

pub fn smoothened_exponential_of_negative_square(y: f64) -> f64
    ensures { result ≡ smoothened_exponential_of_negative_square y }
{
    let y_tilde = tilde(y);
    exp_of_negative_square(y_tilde) * exp(-(y - y_tilde) * (y + y_tilde))
}

pub fn smoothened_exponential_of_positive_square(x: f64) -> f64
    ensures { result ≡ smoothened_exponential_of_positive_square x }
{
    let x_tilde = tilde(x);
    exp(x_tilde * x_tilde) * exp((x - x_tilde) * (x + x_tilde))
}

// ab, cd and pq are nested as in the Rust and the definitions: Cody's order of the coefficients, the last
// one first, would have to be undone for a loop.
pub fn ab(z: f64) -> f64
    ensures { result ≡ ab_of z }
{
    let a = A;
    let b = B;
    ((((a[4] * z + a[0]) * z + a[1]) * z + a[2]) * z + a[3])
        / ((((z + b[0]) * z + b[1]) * z + b[2]) * z + b[3])
}

pub fn cd(y: f64) -> f64
    ensures { result ≡ cd_of y }
{
    let c = C;
    let d = D;
    ((((((((c[8] * y + c[0]) * y + c[1]) * y + c[2]) * y + c[3]) * y + c[4]) * y + c[5]) * y + c[6])
        * y
        + c[7])
        / ((((((((y + d[0]) * y + d[1]) * y + d[2]) * y + d[3]) * y + d[4]) * y + d[5]) * y + d[6])
            * y
            + d[7])
}

pub fn pq(z: f64) -> f64
    ensures { result ≡ pq_of z }
{
    let p = P;
    let q = Q;
    z * (((((p[5] * z + p[0]) * z + p[1]) * z + p[2]) * z + p[3]) * z + p[4])
        / (((((z + q[0]) * z + q[1]) * z + q[2]) * z + q[3]) * z + q[4])
}

pub fn erfcx_above_threshold(y: f64) -> f64
    ensures { result ≡ erfcx_above_threshold y }
{
    if y <= 4.0 {
        cd(y)
    } else {
        (FRAC_1_SQRT_PI - pq(1.0 / (y * y))) / y
    }
}

// erfc of y = |x| above the threshold. A rule set decides whether the factor multiplies the far arm. That it is
// y's factor is asked here, of erfc_with_factor's closure and by `Argument::new`, whose ghost field then says it.
fn erfc_abs(set: RuleSet, y: f64, factor: f64) -> f64
    requires { factor ≡ smoothened_exponential_of_negative_square y }
    ensures { result ≡ erfc_abs set y }
{
    if y >= XBIG {
        if set.far_factor { 0.0 * factor } else { 0.0 }
    } else {
        erfcx_above_threshold(y) * factor
    }
}

// erfc of x from erfc of its size.
pub(crate) fn on_side(x: f64, right: f64) -> f64
    ensures { result ≡ cond (lt x +0) (two ⊖ right) right }
{
    if x < 0.0 { 2.0 - right } else { right }
}

// erfc of x, whose size is y: who asks for it with a factor of its own has the size too. The factor is asked for above
// the threshold alone.
pub(crate) fn erfc_with_factor<F: FnOnce(f64) -> f64>(
    set: RuleSet,
    x: f64,
    y: f64,
    factor: F,
) -> f64
    requires y_is { y ≡ abs_of x }
    requires may_ask { F.pre factor y }
    requires factor_is { (f : Float) → F.post factor y f → f ≡ smoothened_exponential_of_negative_square y }
    ensures { result ≡ erfc_of set x }
{
    if y <= THRESHOLD {
        return 1.0 - x * ab(y * y);
    }
    on_side(x, erfc_abs(set, y, factor(y)))
}

pub fn erfc(set: RuleSet, x: f64) -> f64
    ensures { result ≡ erfc_of set x }
{
    erfc_with_factor(set, x, abs(x), smoothened_exponential_of_negative_square)
}

pub fn erfcx(x: f64) -> f64
    ensures { result ≡ erfcx_of x }
{
    let y = abs(x);
    if y <= THRESHOLD {
        let z = y * y;
        return exp(z) * (1.0 - x * ab(z));
    }
    if x < XNEG {
        return MAX;
    }
    let result = erfcx_above_threshold(y);
    if x < 0.0 {
        let expx2 = smoothened_exponential_of_positive_square(x);
        (expx2 + expx2) - result
    } else {
        result
    }
}
