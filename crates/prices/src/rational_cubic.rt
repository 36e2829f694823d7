// The rational cubic: rational_cubic.rs, line by line. The public functions keep the Rust's parameters and
// their order, so that a call reads as the Rust's.
ghost use Rattle.std.specs.Prelude.{◌≡◌, not, ◌&&◌, ◌||◌};
ghost use Rattle.elementary.specs.Methods.{is_zero};
ghost use Rattle.prices.specs.RationalCubic.{is_infinite, curve_of, interpolation_of, is_monotonic, is_convex, is_concave, monotonic_parameter, shape_parameter, minimum_parameter_of, denominator_at, control_parameter_of, convex_parameter_of};

use crate::refusal::Refusal;
use elementary::limits::{EPSILON, MIN};
use elementary::methods::{abs, is_zero, max};
use elementary::mul_add::mul_add;

const MINIMUM_RATIONAL_CUBIC_CONTROL_PARAMETER_VALUE: f64 = -(1.0 - 1.4901161193847656e-8);

const MAXIMUM_RATIONAL_CUBIC_CONTROL_PARAMETER_VALUE: f64 = 2.0 / (EPSILON * EPSILON);

#[derive(Clone, Copy, Debug, PartialEq, Eq)]
pub enum Side {
    Left,
    Right,
}

// ---- the interpolation

fn any_infinite(x: f64, x_l: f64, x_r: f64) -> bool
    ensures { result ≡ (is_infinite x || (is_infinite x_l || is_infinite x_r)) }
{
    x.is_infinite() || (x_l.is_infinite() || x_r.is_infinite())
}

// Formula (2.4) divided by formula (2.5); a straight line unless r is below the maximum.
fn curve(h: f64, t: f64, y_l: f64, y_r: f64, d_l: f64, d_r: f64, r: f64) -> f64
    ensures { result ≡ curve_of h t y_l y_r d_l d_r r }
{
    let omt = 1.0 - t;
    if r < MAXIMUM_RATIONAL_CUBIC_CONTROL_PARAMETER_VALUE {
        let t_power = t * t;
        let omt2 = omt * omt;
        let numerator = y_r * t_power * t
            + (r * y_r - h * d_r) * t_power * omt
            + (r * y_l + h * d_l) * t * omt2
            + y_l * omt2 * omt;
        let denominator = 1.0 + (r - 3.0) * t * omt;
        return numerator / denominator;
    }
    mul_add(y_r, t, y_l * omt)
}

pub fn rational_cubic_interpolation(
    x: f64,
    x_l: f64,
    x_r: f64,
    y_l: f64,
    y_r: f64,
    d_l: f64,
    d_r: f64,
    r: f64,
) -> Result<f64, Refusal>
    ensures { result ≡ interpolation_of x x_l x_r y_l y_r d_l d_r r }
{
    if any_infinite(x, x_l, x_r) {
        return Err(Refusal::InfinitePlace);
    }
    let h = x_r - x_l;
    if abs(h) <= EPSILON {
        return Ok(0.5 * (y_l + y_r));
    }
    Ok(curve(h, (x - x_l) / h, y_l, y_r, d_l, d_r, r))
}

// ---- the control parameters

// The slopes at both ends, and the chord's.
#[derive(Clone, Copy)]
struct Slopes {
    d_l: f64,
    d_r: f64,
    s: f64,
}

impl Slopes {
    fn is_monotonic(self) -> bool
        ensures { result ≡ is_monotonic self.d_l self.d_r self.s }
    {
        self.d_l * self.s >= 0.0 && self.d_r * self.s >= 0.0
    }

    fn is_convex(self) -> bool
        ensures { result ≡ is_convex self.d_l self.d_r self.s }
    {
        self.d_l <= self.s && self.s <= self.d_r
    }

    fn is_concave(self) -> bool
        ensures { result ≡ is_concave self.d_l self.d_r self.s }
    {
        self.d_l >= self.s && self.s >= self.d_r
    }

    fn is_convex_or_concave(self) -> bool
        ensures { result ≡ (is_convex self.d_l self.d_r self.s || is_concave self.d_l self.d_r self.s) }
    {
        self.is_convex() || self.is_concave()
    }

    // r1: satisfies the monotonicity condition (3.8) where monotonicity is possible.
    fn monotonic_parameter(self, monotonic: bool, prefer: bool) -> f64
        ensures { result ≡ monotonic_parameter monotonic self.d_l self.d_r self.s prefer }
    {
        if monotonic {
            if is_zero(self.s) {
                if prefer {
                    return MAXIMUM_RATIONAL_CUBIC_CONTROL_PARAMETER_VALUE;
                }
                return MIN;
            }
            return (self.d_r + self.d_l) / self.s;
        }
        MIN
    }

    // r2, for a convex or a concave curve.
    fn shape_parameter(self, curved: bool, monotonic: bool, prefer: bool) -> f64
        ensures { result ≡ shape_parameter curved monotonic self.d_l self.d_r self.s prefer }
    {
        let d_r_m_d_l = self.d_r - self.d_l;
        let d_r_m_s = self.d_r - self.s;
        let s_m_d_l = self.s - self.d_l;
        if has_nonzero_divisors(curved, s_m_d_l, d_r_m_s) {
            return max(abs(d_r_m_d_l / d_r_m_s), abs(d_r_m_d_l / s_m_d_l));
        }
        if monotonic && prefer {
            return MAXIMUM_RATIONAL_CUBIC_CONTROL_PARAMETER_VALUE;
        }
        MIN
    }
}

// Whether r2 has quotients: the curve is convex or concave, and neither divisor is 0.
fn has_nonzero_divisors(curved: bool, s_m_d_l: f64, d_r_m_s: f64) -> bool
    ensures { result ≡ (curved && (not (is_zero s_m_d_l) && not (is_zero d_r_m_s))) }
{
    curved && (!is_zero(s_m_d_l) && !is_zero(d_r_m_s))
}

pub fn minimum_rational_cubic_control_parameter(
    d_l: f64,
    d_r: f64,
    s: f64,
    prefer_shape_preservation_over_smoothness: bool,
) -> f64
    ensures { result ≡ minimum_parameter_of d_l d_r s prefer_shape_preservation_over_smoothness }
{
    let prefer = prefer_shape_preservation_over_smoothness;
    let slopes = Slopes { d_l, d_r, s };
    let monotonic = slopes.is_monotonic();
    let curved = slopes.is_convex_or_concave();
    if !monotonic && !curved {
        return MINIMUM_RATIONAL_CUBIC_CONTROL_PARAMETER_VALUE;
    }
    let r1 = slopes.monotonic_parameter(monotonic, prefer);
    let r2 = slopes.shape_parameter(curved, monotonic, prefer);
    max(MINIMUM_RATIONAL_CUBIC_CONTROL_PARAMETER_VALUE, max(r1, r2))
}

fn denominator_at(side: Side, slope: f64, d_l: f64, d_r: f64) -> f64
    ensures { result ≡ denominator_at side slope d_l d_r }
{
    match side {
        Side::Left => slope - d_l,
        Side::Right => d_r - slope,
    }
}

fn is_zero_or_infinite(x: f64) -> bool
    ensures { result ≡ (is_zero x || is_infinite x) }
{
    is_zero(x) || x.is_infinite()
}

pub fn rational_cubic_control_parameter(
    x_l: f64,
    x_r: f64,
    y_l: f64,
    y_r: f64,
    d_l: f64,
    d_r: f64,
    second_derivative: f64,
    side: Side,
) -> f64
    ensures { result ≡ control_parameter_of x_l x_r y_l y_r d_l d_r second_derivative side }
{
    let h = x_r - x_l;
    let numerator = 0.5 * mul_add(second_derivative, h, d_r - d_l);
    if is_zero(numerator) {
        return 0.0;
    }
    let denominator = denominator_at(side, (y_r - y_l) / h, d_l, d_r);
    if is_zero_or_infinite(denominator) {
        if numerator > 0.0 {
            return MAXIMUM_RATIONAL_CUBIC_CONTROL_PARAMETER_VALUE;
        }
        return MINIMUM_RATIONAL_CUBIC_CONTROL_PARAMETER_VALUE;
    }
    numerator / denominator
}

pub fn convex_rational_cubic_control_parameter(
    x_l: f64,
    x_r: f64,
    y_l: f64,
    y_r: f64,
    d_l: f64,
    d_r: f64,
    second_derivative: f64,
    prefer_shape_preservation_over_smoothness: bool,
    side: Side,
) -> f64
    ensures { result ≡ convex_parameter_of x_l x_r y_l y_r d_l d_r second_derivative prefer_shape_preservation_over_smoothness side }
{
    let r = rational_cubic_control_parameter(x_l, x_r, y_l, y_r, d_l, d_r, second_derivative, side);
    let r_min = minimum_rational_cubic_control_parameter(
        d_l,
        d_r,
        (y_r - y_l) / (x_r - x_l),
        prefer_shape_preservation_over_smoothness,
    );
    max(r, r_min)
}
