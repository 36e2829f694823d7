// The guess of so_rational.rs, line by line: both maps, and for each branch the first s and the
// starting ends.
ghost use Rattle.std.specs.Prelude.{◌≡◌, cond};
ghost use Rattle.elementary.specs.Ops.{◌⊗◌, +0};
ghost use Rattle.solver.specs.Inside.Branch.{branch_step};
ghost use Rattle.solver.specs.Inside.Start.{meaning, s_c_of};
ghost use Rattle.solver.specs.Guess as Guess;
ghost use Rattle.solver.specs.Guess.{TWO_PI_OVER_SQRT_TWENTY_SEVEN, is_below_horizon, inverse_f_lower_map, upper_map, lower_map, lower_guess, middle_guess, upper_f, upper_guess, start_at, with_value, tail_start, upper_place, lower_start, upper_start, guessed_start, mapped_start, normalised_start};
ghost use Rattle.prices.specs.Inputs.{times};

use crate::answers::Branch;
use crate::normalised_market::{NormalisedMarket, Place};
use crate::state::{MapAndDerivatives, Start, State};
use elementary::exp::exp;
use elementary::limits::{MAX, MIN};
use elementary::ln::powf_1_3;
use elementary::methods::{abs, max, powi_2};
use elementary::normal_distribution::{
    inverse_f_upper_map, inverse_normal_cdf, standard_normal_cdf,
};
use elementary::rule_set::RuleSet;
use prices::inputs::OptionType;
use prices::intrinsic::normalised_intrinsic;
use prices::rational_cubic::{
    Side, convex_rational_cubic_control_parameter, rational_cubic_interpolation,
};
use prices::refusal::Refusal;
use std::f64::consts::PI;

const SQRT_DBL_MAX: f64 = 1.3407807929942596e154;

const SQRT_THREE: f64 = 1.7320508075688772;

const TWO_PI_OVER_SQRT_TWENTY_SEVEN: f64 = 1.2091995761561452;

const SQRT_PI_OVER_TWO: f64 = 1.2533141373155003;

const SQRT_ONE_OVER_THREE: f64 = 0.5773502691896257;

const PI_OVER_SIX: f64 = PI / 6.0;

// Never: DENORMALISATION_CUTOFF is 0.
fn is_below_horizon(x: f64) -> bool
    ensures { result ≡ is_below_horizon x }
{
    abs(x) < 0.0
}

// ---- the maps

fn inverse_f_lower_map(set: RuleSet, x: f64, f: f64) -> f64
    ensures { result ≡ inverse_f_lower_map set x f }
{
    if is_below_horizon(f) {
        0.0
    } else {
        abs(
            x / (SQRT_THREE
                * inverse_normal_cdf(set, powf_1_3(f / (TWO_PI_OVER_SQRT_TWENTY_SEVEN * abs(x))))),
        )
    }
}

fn compute_f_upper_map_and_first_two_derivatives(set: RuleSet, x: f64, s: f64) -> MapAndDerivatives
    ensures { result ≡ upper_map set x s }
{
    let f = standard_normal_cdf(set, -0.5 * s);
    if is_below_horizon(x) {
        MapAndDerivatives {
            f,
            fp: -0.5,
            fpp: 0.0,
        }
    } else {
        let w = powi_2(x / s);
        MapAndDerivatives {
            f,
            fp: -0.5 * exp(0.5 * w),
            fpp: SQRT_PI_OVER_TWO * exp(w + 0.125 * s * s) * w / s,
        }
    }
}

// The lower map's f, from the third power of cdf(−z).
fn lower_map_f(x: f64, ax: f64, phi3: f64) -> f64
    ensures { result ≡ cond (is_below_horizon x) +0 (TWO_PI_OVER_SQRT_TWENTY_SEVEN ⊗ ax ⊗ phi3) }
{
    if is_below_horizon(x) {
        0.0
    } else {
        TWO_PI_OVER_SQRT_TWENTY_SEVEN * ax * phi3
    }
}

fn compute_f_lower_map_and_first_two_derivatives(set: RuleSet, x: f64, s: f64) -> MapAndDerivatives
    ensures { result ≡ lower_map set x s }
{
    let ax = abs(x);
    let z = SQRT_ONE_OVER_THREE * ax / s;
    let y = z * z;
    let s2 = s * s;
    let phi = standard_normal_cdf(set, z);
    let phi_ = standard_normal_cdf(set, -z);
    let fpp = PI_OVER_SIX * y / (s2 * s)
        * phi_
        * (8.0 * SQRT_THREE * s * ax + (3.0 * s2 * (s2 - 8.0) - 8.0 * x * x) * phi_ / phi)
        * exp(2.0 * y + 0.25 * s2);
    if is_below_horizon(s) {
        MapAndDerivatives {
            f: 0.0,
            fp: 1.0,
            fpp,
        }
    } else {
        let phi2 = phi_ * phi_;
        let fp = PI * 2.0 * y * phi2 * exp(y + 0.125 * s * s);
        let f = lower_map_f(x, ax, phi2 * phi_);
        MapAndDerivatives { f, fp, fpp }
    }
}

// ---- the first s of each branch

fn lower_guess(set: RuleSet, m: NormalisedMarket, l: Place) -> Result<f64, Refusal>
    ensures { result ≡ lower_guess set m.x m.beta l.price l.s }
{
    let map = compute_f_lower_map_and_first_two_derivatives(set, m.x, l.s);
    let f_l = map.f;
    let r_ll = convex_rational_cubic_control_parameter(
        0.0,
        l.price,
        0.0,
        f_l,
        1.0,
        map.fp,
        map.fpp,
        true,
        Side::Right,
    );
    let f = rational_cubic_interpolation(m.beta, 0.0, l.price, 0.0, f_l, 1.0, map.fp, r_ll)?;
    if f <= 0.0 {
        let t = m.beta / l.price;
        let f = (f_l * t + l.price * (1.0 - t)) * t;
        return Ok(inverse_f_lower_map(set, m.x, f));
    }
    Ok(inverse_f_lower_map(set, m.x, f))
}

// Between two places, for either middle branch.
fn middle_guess(beta: f64, p: Place, q: Place, side: Side) -> Result<f64, Refusal>
    ensures { result ≡ middle_guess beta p.price q.price p.s q.s p.vega q.vega side }
{
    let r = convex_rational_cubic_control_parameter(
        p.price,
        q.price,
        p.s,
        q.s,
        1.0 / p.vega,
        1.0 / q.vega,
        0.0,
        false,
        side,
    );
    rational_cubic_interpolation(
        beta,
        p.price,
        q.price,
        p.s,
        q.s,
        1.0 / p.vega,
        1.0 / q.vega,
        r,
    )
}

// The cubic's f, or -f64::MAX where the second derivative is too large for it.
fn upper_f(beta: f64, b_max: f64, b_h: f64, m: MapAndDerivatives) -> Result<f64, Refusal>
    ensures { result ≡ upper_f beta b_max b_h m }
{
    let fpp = m.fpp;
    if fpp > -SQRT_DBL_MAX && fpp < SQRT_DBL_MAX {
        let r_hh = convex_rational_cubic_control_parameter(
            b_h,
            b_max,
            m.f,
            0.0,
            m.fp,
            -0.5,
            fpp,
            true,
            Side::Left,
        );
        rational_cubic_interpolation(beta, b_h, b_max, m.f, 0.0, m.fp, -0.5, r_hh)
    } else {
        Ok(MIN)
    }
}

fn upper_guess(set: RuleSet, m: NormalisedMarket, h: Place) -> Result<f64, Refusal>
    ensures { result ≡ upper_guess set m.x m.beta m.b_max h.price h.s }
{
    let map = compute_f_upper_map_and_first_two_derivatives(set, m.x, h.s);
    let f = upper_f(m.beta, m.b_max, h.price, map)?;
    if f <= 0.0 {
        let width = m.b_max - h.price;
        let t = (m.beta - h.price) / width;
        let f = (map.f * (1.0 - t) + 0.5 * width * t) * (1.0 - t);
        return Ok(inverse_f_upper_map(set, f));
    }
    Ok(inverse_f_upper_map(set, f))
}

// ---- where a run begins

// ds is -f64::MAX and the previous one 0 before the first step.
fn start_at(left: f64, right: f64, s: f64) -> State
    ensures { result ≡ start_at left right s }
{
    State {
        s,
        ds: MIN,
        previous: 0.0,
        left,
        right,
    }
}

// A loop from its guess; a refusal passes up.
fn start_loop(
    branch: Branch,
    m: NormalisedMarket,
    left: f64,
    right: f64,
    guess: Result<f64, Refusal>,
) -> Result<Start, Refusal>
    ensures { (set : RuleSet) → meaning set result ≡ with_value guess (λ s. Guess.looping branch m.beta (branch_step set branch m.b_max m.x m.beta) (start_at left right s)) }
{
    Ok(Start::Looping(branch, m, start_at(left, right, guess?)))
}

// Below the price at c: branches 1 and 2.
fn lower_start(set: RuleSet, m: NormalisedMarket, c: Place) -> Result<Start, Refusal>
    ensures { meaning set result ≡ lower_start set m.x m.beta c.s c.price c.vega }
{
    let l = m.place(set, c.s - c.price / c.vega)?;
    if m.beta < l.price {
        let guess = lower_guess(set, m, l);
        return start_loop(Branch::Lower, m, MIN, l.s, guess);
    }
    let guess = middle_guess(m.beta, l, c, Side::Right);
    start_loop(Branch::LowerMiddle, m, l.s, c.s, guess)
}

// Above the price at h: branches 4 and 5.
fn tail_start(set: RuleSet, m: NormalisedMarket, h: Place) -> Result<Start, Refusal>
    ensures { meaning set result ≡ tail_start set m.x m.beta m.b_max h.price h.s }
{
    let guess = upper_guess(set, m, h);
    if m.beta > 0.5 * m.b_max {
        return start_loop(Branch::Upper, m, h.s, MAX, guess);
    }
    start_loop(Branch::UpperRest, m, h.s, MAX, guess)
}

fn upper_place(b_max: f64, c: Place) -> f64
    ensures { result ≡ upper_place b_max c.s c.price c.vega }
{
    if c.vega > MIN {
        c.s + (b_max - c.price) / c.vega
    } else {
        c.s
    }
}

// From the price at c on: branches 3, 4 and 5.
fn upper_start(set: RuleSet, m: NormalisedMarket, c: Place) -> Result<Start, Refusal>
    ensures { meaning set result ≡ upper_start set m.x m.beta m.b_max c.s c.price c.vega }
{
    let h = m.place(set, upper_place(m.b_max, c))?;
    if m.beta <= h.price {
        let guess = middle_guess(m.beta, c, h, Side::Left);
        return start_loop(Branch::UpperMiddle, m, c.s, h.s, guess);
    }
    tail_start(set, m, h)
}

// From c, the place at s_c, on.
fn guessed_start(set: RuleSet, m: NormalisedMarket, s_c: f64) -> Result<Start, Refusal>
    requires { s_c ≡ s_c_of m.x }
    ensures { meaning set result ≡ guessed_start set m.x m.beta m.b_max }
{
    let c = m.place(set, s_c)?;
    if m.beta < c.price {
        lower_start(set, m, c)
    } else {
        upper_start(set, m, c)
    }
}

// From the target and x after all mapping, and s_c there.
fn mapped_start(set: RuleSet, x: f64, beta: f64, s_c: f64) -> Result<Start, Refusal>
    requires { s_c ≡ s_c_of x }
    ensures { meaning set result ≡ mapped_start set x beta }
{
    if beta <= 0.0 {
        return Ok(Start::Answered(0.0));
    }
    if beta < 0.0 {
        return Ok(Start::Answered(0.0));
    }
    let b_max = exp(0.5 * x);
    if beta >= b_max {
        return Ok(Start::Answered(MAX));
    }
    let down = exp(-0.5 * x);
    guessed_start(
        set,
        NormalisedMarket {
            x,
            beta,
            b_max,
            down,
        },
        s_c,
    )
}

// The Rust's unchecked_normalised_implied_volatility_.., up to its loops. s_c is found by the caller, beside
// the other roots.
pub(crate) fn normalised_start(
    set: RuleSet,
    beta: f64,
    x: f64,
    option_type: OptionType,
    s_c: f64,
) -> Result<Start, Refusal>
    requires { s_c ≡ s_c_of (times option_type x) }
    ensures { meaning set result ≡ normalised_start set beta x option_type }
{
    let beta = if option_type * x > 0.0 {
        max(beta - normalised_intrinsic(x, option_type), 0.0)
    } else {
        beta
    };
    mapped_start(set, option_type * x, beta, s_c)
}
