// The Householder steps of so_rational.rs: the lower loop's (branch 1), the upper loop's (branch 4)
// and the general one's (branches 2, 3 and 5).
ghost use Rattle.std.specs.Prelude.{◌≡◌};
ghost use Rattle.solver.specs.Step.{householder_factor, bracket_after, to_middle, halley_of, hh3_of, lower_ds, upper_ds, general_ds, is_close};
ghost use Rattle.solver.specs.Inside.Branch.{branch_ds, branch_after, branch_step};
ghost use Rattle.solver.specs.declared.state.Bracket.{Bracket};

use crate::answers::Branch;
use crate::normalised_market::{NormalisedMarket, Place};
use crate::state::{Bracket, Record, State, Step};
use elementary::limits::{EPSILON, MIN};
use elementary::ln::ln;
use elementary::methods::{abs, max, powi_2};
use elementary::rule_set::RuleSet;
use prices::refusal::Refusal;

fn householder_factor(newton: f64, halley: f64, hh3: f64) -> f64
    ensures { result ≡ householder_factor newton halley hh3 }
{
    (1.0 + 0.5 * halley * newton) / (1.0 + newton * (halley + hh3 * newton / 6.0))
}

// The bracket's move after the price at a place.
fn bracket_after(at: Place, beta: f64, left: f64, right: f64) -> Bracket
    ensures { result ≡ bracket_after at.price beta at.s left right }
{
    let b = at.price;
    let s = at.s;
    if b > beta && s < right {
        Bracket { left, right: s }
    } else if b < beta && s > left {
        Bracket { left: s, right }
    } else {
        Bracket { left, right }
    }
}

// The middle of the bracket, as a step from s.
fn to_middle(bracket: Bracket, s: f64) -> f64
    ensures { result ≡ to_middle bracket s }
{
    0.5 * (bracket.left + bracket.right) - s
}

fn halley_of(x: f64, s: f64) -> f64
    ensures { result ≡ halley_of x s }
{
    powi_2(x / s) / s - s / 4.0
}

fn hh3_of(halley: f64, x: f64, s: f64) -> f64
    ensures { result ≡ hh3_of halley x s }
{
    halley * halley - 3.0 * powi_2(x / (s * s)) - 0.25
}

// The lower loop's ds, in ln b. Inlined as branch_ds is.
#[inline(always)]
fn lower_ds(m: NormalisedMarket, at: Place, bracket: Bracket) -> f64
    ensures { result ≡ lower_ds m.x m.beta at.s at.price at.vega bracket }
{
    let s = at.s;
    let b = at.price;
    let bp = at.vega;
    if b <= 0.0 || bp <= 0.0 {
        to_middle(bracket, s)
    } else {
        let ln_b = ln(b);
        let ln_beta = ln(m.beta);
        let bpob = bp / b;
        let h = m.x / s;
        let b_halley = h * h / s - s / 4.0;
        let newton = (ln_beta - ln_b) * ln_b / ln_beta / bpob;
        let halley = b_halley - bpob * (1.0 + 2.0 / ln_b);
        let b_hh3 = b_halley * b_halley - 3.0 * powi_2(h / s) - 0.25;
        let hh3 = b_hh3 + 2.0 * powi_2(bpob) * (1.0 + 3.0 / ln_b * (1.0 + 1.0 / ln_b))
            - 3.0 * b_halley * bpob * (1.0 + 2.0 / ln_b);
        newton * householder_factor(newton, halley, hh3)
    }
}

// The upper loop's ds, in ln of what is left to the cap.
fn upper_ds(m: NormalisedMarket, at: Place, bracket: Bracket) -> f64
    ensures { result ≡ upper_ds m.b_max m.x m.beta at.s at.price at.vega bracket }
{
    let s = at.s;
    let b = at.price;
    let bp = at.vega;
    if b >= m.b_max || bp <= MIN {
        to_middle(bracket, s)
    } else {
        let b_max_minus_b = m.b_max - b;
        let g = ln((m.b_max - m.beta) / b_max_minus_b);
        let gp = bp / b_max_minus_b;
        let b_halley = halley_of(m.x, s);
        let b_hh3 = hh3_of(b_halley, m.x, s);
        let newton = -g / gp;
        let halley = b_halley + gp;
        let hh3 = b_hh3 + gp * (2.0 * gp + 3.0 * b_halley);
        newton * householder_factor(newton, halley, hh3)
    }
}

// The general loop's ds, for which the bracket counts nothing; the max binds to the factor alone.
fn general_ds(m: NormalisedMarket, at: Place) -> f64
    ensures { (bracket : Bracket) → result ≡ general_ds m.x m.beta at.s at.price at.vega bracket }
{
    let newton = (m.beta - at.price) / at.vega;
    let halley = halley_of(m.x, at.s);
    let hh3 = hh3_of(halley, m.x, at.s);
    newton * max(householder_factor(newton, halley, hh3), -0.5 * at.s)
}

// The branch's own ds. Inlined in both instances of run, as step is: out of line it costs 1 to 3 % in
// branches 2 and 3.
#[inline(always)]
fn branch_ds(branch: Branch, m: NormalisedMarket, at: Place, bracket: Bracket) -> f64
    ensures { result ≡ branch_ds branch m.b_max m.x m.beta at.s at.price at.vega bracket }
{
    match branch {
        Branch::Lower => lower_ds(m, at, bracket),
        Branch::Upper => upper_ds(m, at, bracket),
        _ => general_ds(m, at),
    }
}

// s after the branch's step: in the lower and the upper loop not below its half.
fn branch_after(branch: Branch, s: f64, ds: f64) -> f64
    ensures { result ≡ branch_after branch s ds }
{
    match branch {
        Branch::Lower | Branch::Upper => s + max(ds, -0.5 * s),
        _ => s + ds,
    }
}

// One Householder step of the branch's loop. Inlined in both instances of run: out of line it costs 3 to
// 6 % in branches 2 and 3.
#[inline(always)]
pub(crate) fn step(
    set: RuleSet,
    branch: Branch,
    m: NormalisedMarket,
    st: State,
) -> Result<Step, Refusal>
    ensures { result ≡ branch_step set branch m.b_max m.x m.beta st }
{
    let at = m.place(set, st.s)?;
    let bracket = bracket_after(at, m.beta, st.left, st.right);
    let ds = branch_ds(branch, m, at, bracket);
    let after = branch_after(branch, st.s, ds);
    let left = bracket.left;
    let right = bracket.right;
    let state = State {
        s: after,
        ds,
        previous: st.ds,
        left,
        right,
    };
    let kept = Record {
        s: st.s,
        b: at.price,
        vega: at.vega,
        left,
        right,
        after,
    };
    Ok(Step { state, kept })
}

// The step test.
pub(crate) fn is_close(st: State) -> bool
    ensures { result ≡ is_close st }
{
    abs(st.ds) <= EPSILON * st.s
}
