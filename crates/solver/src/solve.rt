// solve: `implied_volatility_from_a_transformed_rational_guess_with_limited_iterations` of so_rational.rs
// with document 01's refusals and its trail.
ghost use Rattle.std.specs.Prelude.{◌≡◌, Ok, false, length, Float};
ghost use Rattle.std.specs.Float.{binary64};
ghost use Rattle.elementary.specs.Ops.{◌⊘◌, +0};
ghost use Rattle.elementary.specs.Sqrt.{sqrt_of};
ghost use Rattle.solver.specs.Loop.{run as run_of};
ghost use Rattle.solver.specs.Step.{next_by};
ghost use Rattle.solver.specs.Inside.Branch.{branch_step};
ghost use Rattle.solver.specs.Inside.Start.{meaning, start_in, DividedIn};
ghost use Rattle.solver.specs.declared.state.Start.TheVariants.{Answered};
ghost use Rattle.solver.specs.Solve.{cap_of, over_expiry, accepted_start, price_check, market_check, input_check, solution_of, result_of_run, result_from, start_of, solve_of, solve_with_trail as solve_with_trail_of, target_of, steps_of};
ghost use Rattle.solver.specs.Trail.{trail_after};

use crate::answers::{Branch, Ending, ImpliedVolatility};
use crate::guess::normalised_start;
use crate::normalised_market::NormalisedMarket;
use crate::quote::Quote;
use crate::recorder::{LentTrail, NoTrail, Recorder};
use crate::refusal::{Failure, Refusal};
use crate::state::{Start, State};
use crate::step::{is_close, step};
use elementary::limits::{MAX, MIN};
use elementary::ln::ln;
use elementary::methods::{abs, max};
use elementary::rule_set::RuleSet;
use elementary::sqrt::sqrt_4;
use prices::black::{is_finite, is_positive_normal};
use prices::inputs::OptionType;
use prices::refusal::Refusal as Unpriced;

const VOLATILITY_VALUE_TO_SIGNAL_PRICE_IS_ABOVE_MAXIMUM: f64 = MAX;

const VOLATILITY_VALUE_TO_SIGNAL_PRICE_IS_BELOW_INTRINSIC: f64 = MIN;

// ---- the checks of the input

pub(crate) fn check_price(price: f64) -> Result<(), Refusal>
    ensures { result ≡ price_check price }
{
    if is_finite(price) {
        Ok(())
    } else {
        Err(Refusal::Price)
    }
}

// The forward, the strike and the expiry, in this order.
pub(crate) fn check_market(forward: f64, strike: f64, expiry: f64) -> Result<(), Unpriced>
    ensures { result ≡ market_check forward strike expiry }
{
    if !is_positive_normal(forward) {
        return Err(Unpriced::Forward);
    }
    if !is_positive_normal(strike) {
        return Err(Unpriced::Strike);
    }
    if !is_positive_normal(expiry) {
        return Err(Unpriced::Expiry);
    }
    Ok(())
}

pub(crate) fn check_input(quote: Quote) -> Result<(), Refusal>
    ensures { result ≡ input_check quote }
{
    check_price(quote.price)?;
    check_market(quote.forward, quote.strike, quote.expiry)?;
    Ok(())
}

// ---- before the loop

// The price from which on no volatility is looked for.
fn max_price(set: RuleSet, option_type: OptionType, forward: f64, strike: f64) -> f64
    ensures { result ≡ cap_of set option_type forward strike }
{
    match option_type {
        OptionType::Call => { if set.textbook_cap { forward } else { strike } }
        OptionType::Put => { if set.textbook_cap { strike } else { forward } }
    }
}

// Where an accepted quote's run begins, and the root of the expiry, by which a loop's s is divided.
#[derive(Clone, Copy)]
pub struct Begun {
    pub start: Start,
    pub root: f64,
}

// Before the guess, where nothing is divided.
fn answered(volatility: f64) -> Begun
    ensures { result ≡ record { start = Answered volatility; root = +0 } }
{
    Begun {
        start: Start::Answered(volatility),
        root: 0.0,
    }
}

// A volatility over one unit of time, as one over the expiry.
fn over_expiry(set: RuleSet, root: f64, start: Start) -> Start
    ensures { (expiry : Float) → root ≡ sqrt_of binary64 expiry → meaning set (Ok result) ≡ over_expiry expiry (meaning set (Ok start)) }
{
    match start {
        Start::Answered(v) => Start::Answered(v / root),
        Start::Looping(branch, m, st) => Start::Looping(branch, m, st),
    }
}

// Inlined in solve though loop_target calls it too: out of line it costs 2 to 5 % in branches 2 and 3.
#[inline(always)]
fn accepted_start(set: RuleSet, quote: Quote) -> Result<Begun, Unpriced>
    ensures value { meaning set (start_in result) ≡ accepted_start set quote }
    ensures root { DividedIn quote.expiry result }
{
    let price = quote.price;
    let forward = quote.forward;
    let strike = quote.strike;
    let expiry = quote.expiry;
    let option_type = quote.option_type;
    let intrinsic = max(option_type * (forward - strike), 0.0);
    if price < intrinsic {
        return Ok(answered(VOLATILITY_VALUE_TO_SIGNAL_PRICE_IS_BELOW_INTRINSIC));
    }
    if price >= max_price(set, option_type, forward, strike) {
        return Ok(answered(VOLATILITY_VALUE_TO_SIGNAL_PRICE_IS_ABOVE_MAXIMUM));
    }
    let x = ln(forward / strike);
    let mut mapped = price;
    let mut mapped_type = option_type;
    if option_type * x > 0.0 {
        mapped = max(price - intrinsic, 0.0);
        mapped_type = -option_type;
    }
    let [forward_root, strike_root, expiry_root, s_c] = sqrt_4([
        forward,
        strike,
        expiry,
        2.0 * abs(mapped_type * x),
    ]);
    let normalised = mapped / (forward_root * strike_root);
    let start = normalised_start(set, normalised, x, mapped_type, s_c)?;
    Ok(Begun {
        start: over_expiry(set, expiry_root, start),
        root: expiry_root,
    })
}

// ---- the loop

// The volatility at a loop's last state.
fn found(st: State, root: f64, branch: Branch, ending: Ending, steps: u32) -> ImpliedVolatility
    ensures { Ok result ≡ solution_of (st.s ⊘ root) branch ending steps }
{
    ImpliedVolatility {
        volatility: st.s / root,
        branch,
        ending,
        steps,
    }
}

// The branch's loop from its starting state, with its steps' records in the recorder.
fn run<R: Recorder>(
    set: RuleSet,
    branch: Branch,
    m: NormalisedMarket,
    root: f64,
    start: State,
    limit: u32,
    recorder: &mut R,
) -> Result<ImpliedVolatility, Failure>
    requires { R.too_short recorder.old limit ≡ false }
    ensures value { result ≡ (result_of_run branch root (run_of (next_by (branch_step set branch m.b_max m.x m.beta)) limit start)).answer }
    ensures recorder_after { recorder.new ≡ R.after (run_of (next_by (branch_step set branch m.b_max m.x m.beta)) limit start).records recorder.old }
{
    let mut st = start;
    let mut steps: u32 = 0;
    // No `for`: document 01 names the form, a loop that yields its ending with the state by break.
    let (ending, last) = loop {
        if steps >= limit {
            break (Ending::Limit, st);
        }
        if is_close(st) {
            break (Ending::StepTest, st);
        }
        let completed = step(set, branch, m, st).map_err(|unpriced| {
            let refusal = Refusal::Pricing(unpriced);
            Failure { refusal, steps }
        })?;
        recorder.put(steps, completed.kept);
        st = completed.state;
        steps += 1;
    };
    Ok(found(last, root, branch, ending, steps))
}

// ---- solve

// The solution, with the steps' records in the recorder; refused where that is too short for them.
fn solve_keeping<R: Recorder>(
    set: RuleSet,
    quote: Quote,
    limit: u32,
    recorder: &mut R,
) -> Result<ImpliedVolatility, Failure>
    ensures value { result ≡ (result_from (start_of set (R.too_short recorder.old limit) quote) quote.expiry limit).answer }
    ensures recorder_after { recorder.new ≡ R.after (result_from (start_of set (R.too_short recorder.old limit) quote) quote.expiry limit).records recorder.old }
{
    check_input(quote)?;
    if recorder.is_too_short(limit) {
        return Err(Failure::from(Refusal::TrailTooShort));
    }
    let begun = accepted_start(set, quote)?;
    match begun.start {
        Start::Answered(volatility) => Ok(ImpliedVolatility {
            volatility,
            branch: Branch::NoLoop,
            ending: Ending::NoLoop,
            steps: 0,
        }),
        Start::Looping(branch, m, st) => run(set, branch, m, begun.root, st, limit, recorder),
    }
}

// max(limit, 0)
pub fn steps_of(limit: i32) -> u32
    ensures { result ≡ steps_of limit }
{
    u32::try_from(limit).unwrap_or(0)
}

// The volatility with its branch, ending and steps, and the steps' records in the trail, which has room
// for as many as the limit allows; or the refusal, with the completed steps.
pub fn solve_with_trail(
    set: RuleSet,
    quote: Quote,
    limit: u32,
    trail: &mut [u8],
) -> Result<ImpliedVolatility, Failure>
    ensures value { result ≡ (solve_with_trail_of set quote limit (length trail.old)).answer }
    ensures trail_after { trail.new ≡ trail_after (solve_with_trail_of set quote limit (length trail.old)).records trail.old }
{
    solve_keeping(set, quote, limit, &mut LentTrail { bytes: trail })
}

// The same without a trail.
pub fn solve(set: RuleSet, quote: Quote, limit: u32) -> Result<ImpliedVolatility, Failure>
    ensures { result ≡ (solve_of set quote limit).answer }
{
    solve_keeping(set, quote, limit, &mut NoTrail)
}

// What the quote's loop seeks, out of the money and normalised; nothing where the answer comes before a
// guess.
pub fn loop_target(set: RuleSet, quote: Quote) -> Result<Option<f64>, Refusal>
    ensures { result ≡ target_of set quote }
{
    check_input(quote)?; // as solve refuses it
    Ok(match accepted_start(set, quote)?.start {
        Start::Answered(_) => None,
        Start::Looping(_, m, _) => Some(m.beta),
    })
}
