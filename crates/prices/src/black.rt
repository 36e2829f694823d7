// The normalised Black price: black.rs, line by line, and `black` of mod.rs. What a rule set concerns
// takes it first.
ghost use Rattle.std.specs.Prelude.{◌≡◌};
ghost use Rattle.std.specs.Float.Ieee.{neg};
ghost use Rattle.elementary.specs.Ops.{◌⊗◌, ◌⊘◌, half, one, mul_add};
ghost use Rattle.prices.specs.Black.{bell as bell_of, small_t_of, series_terms, series_of, asymptotic_inner, asymptotic_of, using_erfcx_of, codys_of, is_outside_asymptotic_region, is_asymptotic, call_at, call_of, normalised_black_of, is_positive_normal, is_finite, price_of, black_at, black_of};
ghost use Rattle.prices.specs.Inside.Exponentials.{two_b_with, codys_with, out_of_the_money_with};
ghost use Rattle.prices.specs.Inside.Regions.{region_at};

use crate::constants::{MINUS_FRAC_1_SQRT_2, SMALL_T, SQRT_2PI};
use crate::exponentials::{Exponentials, WhereRead, bell};
use crate::inputs::OptionType;
use crate::intrinsic::normalised_intrinsic;
use crate::refusal::Refusal;
use crate::small_t::small_t;
use elementary::cody::{erfc, erfcx};
use elementary::exp::exp;
use elementary::limits::{MAX, MIN, MIN_POSITIVE};
use elementary::ln::ln;
use elementary::methods::{abs, max};
use elementary::mul_add::mul_add;
use elementary::rule_set::RuleSet;
use elementary::sqrt::sqrt_3;

// The threshold of the asymptotic expansion, and H_LARGE.
const H_LARGE: f64 = -10.0;

const CODYS_THRESHOLD: f64 = 0.46875;

// ---- optimal use of Cody's functions

// Twice the price: from the threshold on erfcx stands for erfc.
fn two_b<E: Exponentials>(set: RuleSet, e: &E, h: f64, t: f64, q1: f64, q2: f64) -> f64
    requires { E.has_bell e.now h t }
    ensures { result ≡ two_b_with set (E.up e.now) (E.down e.now) (bell_of h t) q1 q2 }
{
    if q1 < CODYS_THRESHOLD {
        let first = e.up() * erfc(set, q1);
        if q2 < CODYS_THRESHOLD {
            return first - e.down() * erfc(set, q2);
        }
        return first - e.bell(h, t) * erfcx(q2);
    }
    if q2 < CODYS_THRESHOLD {
        return e.bell(h, t) * erfcx(q1) - e.down() * erfc(set, q2);
    }
    e.bell(h, t) * (erfcx(q1) - erfcx(q2))
}

fn codys<E: Exponentials>(set: RuleSet, x: f64, s: f64, e: &E) -> f64
    requires { E.has_bell e.now (x ⊘ s) (half ⊗ s) }
    ensures { result ≡ codys_with set (E.up e.now) (E.down e.now) x s }
{
    let h = x / s;
    let t = 0.5 * s;
    let q1 = MINUS_FRAC_1_SQRT_2 * (h + t);
    let q2 = MINUS_FRAC_1_SQRT_2 * (h - t);
    max(0.5 * two_b(set, e, h, t, q1, q2), 0.0)
}

pub fn normalised_black_call_with_optimal_use_of_codys_functions(
    set: RuleSet,
    x: f64,
    s: f64,
) -> f64
    ensures { result ≡ codys_of set x s }
{
    codys(set, x, s, &WhereRead { x })
}

// ---- the expansion for a small t

pub fn small_t_expansion_of_normalised_black_call(h: f64, t: f64) -> Result<f64, Refusal>
    ensures { result ≡ small_t_of h t }
{
    if t >= SMALL_T {
        return Err(Refusal::TTooLarge);
    }
    Ok(small_t(h, t, bell(h, t)))
}

// ---- the asymptotic sum

// The 15 terms after 3/z⁵, which are not the paper's.
fn series_terms(z2: f64, start: f64, first: f64) -> f64
    ensures { result ≡ series_terms 15 3 z2 start (neg one) first }
{
    let mut y = start;
    let mut sign = -1.0;
    let mut term = first;
    for i in 3u32..=17 {
        let i = i as f64;
        y += sign * term;
        sign = -sign;
        term *= z2 / ((2.0 * i + 2.0) * (2.0 * i + 3.0));
    }
    y
}

fn series(z: f64) -> f64
    ensures { result ≡ series_of z }
{
    let z2 = z * z;
    let y = 1.0 / z - 1.0 / (z2 * z) + 3.0 / (z2 * z2 * z);
    series_terms(z2, y, 1.0 / (15.0 * z2 * z2 * z))
}

// −(h² + t²) / 2 with the first product and the sum rounded once. Half of h² is exact from 1 on, and
// then a plain sum does it.
fn exponent(h: f64, t: f64) -> f64
    ensures { result ≡ mul_add (neg half) (h ⊗ h) (neg half ⊗ t ⊗ t) }
{
    let square = h * h;
    if 1.0 <= square {
        return -0.5 * square + -0.5 * t * t;
    }
    mul_add(-0.5, square, -0.5 * t * t)
}

fn asymptotic(h: f64, t: f64) -> f64
    ensures { result ≡ asymptotic_inner h t }
{
    let diff_y = series(h + t) - series(h - t);
    let exp_term = exp(exponent(h, t));
    abs(exp_term * diff_y / SQRT_2PI)
}

// Whether the asymptotic expansion answers document 01's 7.
fn is_outside_asymptotic_region(h: f64, t: f64) -> bool
    ensures { result ≡ is_outside_asymptotic_region h t }
{
    h > H_LARGE || t >= abs(h) - abs(H_LARGE) + SMALL_T
}

pub fn asymptotic_expansion_of_normalised_black_call(h: f64, t: f64) -> Result<f64, Refusal>
    ensures { result ≡ asymptotic_of h t }
{
    if is_outside_asymptotic_region(h, t) {
        return Err(Refusal::OutsideAsymptoticRegion);
    }
    Ok(asymptotic(h, t))
}

pub fn normalised_black_call_using_erfcx(h: f64, t: f64) -> f64
    ensures { result ≡ using_erfcx_of h t }
{
    let difference = erfcx(MINUS_FRAC_1_SQRT_2 * (h + t)) - erfcx(MINUS_FRAC_1_SQRT_2 * (h - t));
    max(0.5 * bell(h, t) * difference, 0.0)
}

// ---- the price

// Whether the asymptotic expansion serves: h below −10 and t small, by a test without a division by s.
fn is_asymptotic(x: f64, s: f64) -> bool
    ensures { result ≡ is_asymptotic x s }
{
    x < s * H_LARGE && 0.5 * s * s + x < s * (SMALL_T + H_LARGE)
}

// What gives the price out of the money.
#[derive(Clone, Copy, Debug, PartialEq, Eq)]
enum Region {
    Intrinsic,
    Asymptotic,
    SmallT,
    Codys,
}

// Where s is 0 or below and x is finite, the price is the intrinsic value; at an infinite x the product
// is NaN and the test fails.
fn region_of(x: f64, s: f64) -> Region
    ensures { result ≡ region_at x s }
{
    if s <= abs(x) * 0.0 {
        Region::Intrinsic
    } else if is_asymptotic(x, s) {
        Region::Asymptotic
    } else if 0.5 * s < SMALL_T {
        Region::SmallT
    } else {
        Region::Codys
    }
}

pub(crate) fn out_of_the_money<E: Exponentials>(
    set: RuleSet,
    x: f64,
    s: f64,
    e: &E,
) -> Result<f64, Refusal>
    requires { E.has_bell e.now (x ⊘ s) (half ⊗ s) }
    ensures { result ≡ out_of_the_money_with set (E.up e.now) (E.down e.now) x s }
{
    match region_of(x, s) {
        Region::Intrinsic => Ok(normalised_intrinsic(x, OptionType::Call)),
        Region::Asymptotic => asymptotic_expansion_of_normalised_black_call(x / s, 0.5 * s),
        Region::SmallT => {
            let h = x / s;
            let t = 0.5 * s;
            Ok(small_t(h, t, e.bell(h, t)))
        }
        Region::Codys => Ok(codys(set, x, s, e)),
    }
}

// In the money the price at −x is out of the money: the call to itself is made once. The Rust calls itself
// too; the depth falls, which is why it ends.
fn call_at(set: RuleSet, depth: u64, x: f64, s: f64) -> Result<f64, Refusal>
    ensures { result ≡ call_at depth set x s }
{
    if depth > 0 && x > 0.0 {
        let mapped = call_at(set, depth - 1, -x, s)?;
        return Ok(normalised_intrinsic(x, OptionType::Call) + mapped);
    }
    out_of_the_money(set, x, s, &WhereRead { x })
}

pub fn normalised_black_call(set: RuleSet, x: f64, s: f64) -> Result<f64, Refusal>
    ensures { result ≡ call_of set x s }
{
    call_at(set, 1, x, s)
}

pub fn normalised_black(
    set: RuleSet,
    x: f64,
    s: f64,
    option_type: OptionType,
) -> Result<f64, Refusal>
    ensures { result ≡ normalised_black_of set x s option_type }
{
    normalised_black_call(set, option_type * x, s)
}

// ---- black

// Not so for document 01's 2, 3 and 4. By comparisons, as document 01 says it and the definition tests it.
pub fn is_positive_normal(x: f64) -> bool
    ensures { result ≡ is_positive_normal x }
{
    x >= MIN_POSITIVE && x <= MAX
}

// Not so for document 01's 1 and 5. By comparisons too: std's is_finite is another text of the same.
pub fn is_finite(x: f64) -> bool
    ensures { result ≡ is_finite x }
{
    x >= MIN && x <= MAX
}

// The price is the factor times the normalised one, and not below the intrinsic value. The parameters are
// black's, which are the Rust's. The three roots do not wait for each other.
fn price(
    set: RuleSet,
    forward: f64,
    strike: f64,
    sigma: f64,
    expiry: f64,
    option_type: OptionType,
) -> Result<f64, Refusal>
    ensures { result ≡ price_of set forward strike sigma expiry option_type }
{
    let intrinsic = max(option_type * (forward - strike), 0.0);
    let x = ln(forward / strike);
    let [forward_root, strike_root, expiry_root] = sqrt_3([forward, strike, expiry]);
    let factor = forward_root * strike_root;
    let b = normalised_black(set, x, sigma * expiry_root, option_type)?;
    Ok(max(intrinsic, factor * b))
}

// In the money is mapped to out of the money, once.
fn black_at(
    set: RuleSet,
    depth: u64,
    forward: f64,
    strike: f64,
    sigma: f64,
    expiry: f64,
    option_type: OptionType,
) -> Result<f64, Refusal>
    ensures { result ≡ black_at depth set forward strike sigma expiry option_type }
{
    let signed_diff = option_type * (forward - strike);
    if depth > 0 && signed_diff > 0.0 {
        let mapped = black_at(set, depth - 1, forward, strike, sigma, expiry, -option_type)?;
        return Ok(max(signed_diff, 0.0) + mapped);
    }
    price(set, forward, strike, sigma, expiry, option_type)
}

// The Black price, or 2, 3, 5, 4 for an input that has none, or 7 where the roundings at the
// asymptotic region's edge disagree.
pub fn black(
    set: RuleSet,
    forward_price: f64,
    strike_price: f64,
    sigma: f64,
    time_to_maturity: f64,
    option_type: OptionType,
) -> Result<f64, Refusal>
    ensures { result ≡ black_of set forward_price strike_price sigma time_to_maturity option_type }
{
    if !is_positive_normal(forward_price) {
        return Err(Refusal::Forward);
    }
    if !is_positive_normal(strike_price) {
        return Err(Refusal::Strike);
    }
    if !is_finite(sigma) {
        return Err(Refusal::Sigma);
    }
    if !is_positive_normal(time_to_maturity) {
        return Err(Refusal::Expiry);
    }
    black_at(
        set,
        1,
        forward_price,
        strike_price,
        sigma,
        time_to_maturity,
        option_type,
    )
}
