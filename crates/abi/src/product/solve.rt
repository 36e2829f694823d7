// solve, with its trail and as the wrapper with limit 2, and its loop's target. Floats are their bits, a kind is document 01's
// byte, a rule set its number, which is refused with 32 before all else; number, branch, ending and steps go to `outcome`.
ghost use Rattle.std.specs.Prelude.{◌≡◌, length};
ghost use Rattle.std.specs.Float.{binary64};
ghost use Rattle.std.specs.Float.Ieee.{to_bits};
ghost use Rattle.solver.specs.Answers.{failure_number, volatility_in, target_number, target_value};
ghost use Rattle.elementary.specs.RuleSets.{rule_set_of};
ghost use Rattle.solver.specs.Solve.{steps_of};
ghost use Rattle.solver.specs.Trail.{trail_after};
ghost use Rattle.abi.specs.Solutions.{outcome_from, outcome_of, asked_by, solve_with_trail_for, solve_for, target_for};

use crate::export::export_answer;
use elementary::methods::{bits_of, float_of};
use elementary::rule_set::{RuleSet, UnknownRuleSet};
use prices::inputs::{OptionType, UnknownKind};
use prices::refusal::Numbered;
use solver::answers::ImpliedVolatility;
use solver::quote::Quote;
use solver::refusal::{Failure, Refusal};
use solver::solve::{loop_target, solve, solve_with_trail, steps_of};

// Number, branch, ending and steps in one word, which is what C gets of them.
fn outcome_from(number: u8, branch: u8, ending: u8, steps: u32) -> u64
    ensures { result ≡ outcome_from number branch ending steps }
{
    number as u64 + branch as u64 * 256 + ending as u64 * 65536 + steps as u64 * 4294967296
}

// The same of a refusal, which has no branch and no ending.
pub(crate) fn outcome_of_failure(failure: Failure) -> u64
    ensures { result ≡ outcome_from (failure_number failure) 0 0 failure.steps }
{
    outcome_from(failure.refusal.number(), 0, 0, failure.steps)
}

// The volatility's bits, a NaN's where it is refused.
pub(crate) fn export_solution(answer: Result<ImpliedVolatility, Failure>, outcome: &mut u64) -> u64
    ensures value { result ≡ to_bits binary64 (volatility_in answer) }
    ensures outcome_after { outcome.new ≡ outcome_of answer }
{
    match answer {
        Ok(a) => {
            *outcome = outcome_from(0, a.branch.number(), a.ending.number(), a.steps);
            bits_of(a.volatility)
        }
        Err(failure) => {
            *outcome = outcome_of_failure(failure);
            bits_of(f64::NAN)
        }
    }
}

// What a caller asks: a quote, or none where the byte says no kind. The functions named `.._for` take it
// with `?`, after the rule set, and each is a definition that an export's clauses name.
pub(crate) fn asked_by(
    price: u64,
    forward: u64,
    strike: u64,
    expiry: u64,
    kind: u8,
) -> Result<Quote, UnknownKind>
    ensures { result ≡ asked_by price forward strike expiry kind }
{
    let option_type = OptionType::try_from(kind)?;
    Ok(Quote {
        price: float_of(price),
        forward: float_of(forward),
        strike: float_of(strike),
        expiry: float_of(expiry),
        option_type,
    })
}

fn solve_with_trail_for(
    set: Result<RuleSet, UnknownRuleSet>,
    asked: Result<Quote, UnknownKind>,
    limit: i32,
    trail: &mut [u8],
) -> Result<ImpliedVolatility, Failure>
    ensures value { result ≡ (solve_with_trail_for set asked limit (length trail.old)).answer }
    ensures trail_after { trail.new ≡ trail_after (solve_with_trail_for set asked limit (length trail.old)).records trail.old }
{
    solve_with_trail(set?, asked?, steps_of(limit), trail)
}

#[unsafe(no_mangle)]
pub extern "C" fn gintubalos_solve_with_trail(
    price: u64,
    forward: u64,
    strike: u64,
    expiry: u64,
    kind: u8,
    limit: i32,
    rule_set: u32,
    trail: &mut [u8],
    outcome: &mut u64,
) -> u64
    ensures value { result ≡ to_bits binary64 (volatility_in (solve_with_trail_for (rule_set_of rule_set) (asked_by price forward strike expiry kind) limit (length trail.old)).answer) }
    ensures outcome_after { outcome.new ≡ outcome_of (solve_with_trail_for (rule_set_of rule_set) (asked_by price forward strike expiry kind) limit (length trail.old)).answer }
    ensures trail_after { trail.new ≡ trail_after (solve_with_trail_for (rule_set_of rule_set) (asked_by price forward strike expiry kind) limit (length trail.old)).records trail.old }
{
    let asked = asked_by(price, forward, strike, expiry, kind);
    let set = RuleSet::try_from(rule_set);
    export_solution(solve_with_trail_for(set, asked, limit, trail), outcome)
}

fn solve_for(
    set: Result<RuleSet, UnknownRuleSet>,
    asked: Result<Quote, UnknownKind>,
    steps: u32,
) -> Result<ImpliedVolatility, Failure>
    ensures { result ≡ solve_for set asked steps }
{
    solve(set?, asked?, steps)
}

#[unsafe(no_mangle)]
pub extern "C" fn gintubalos_implied_volatility_from_a_transformed_rational_guess(
    price: u64,
    forward: u64,
    strike: u64,
    expiry: u64,
    kind: u8,
    rule_set: u32,
    outcome: &mut u64,
) -> u64
    ensures value { result ≡ to_bits binary64 (volatility_in (solve_for (rule_set_of rule_set) (asked_by price forward strike expiry kind) 2)) }
    ensures outcome_after { outcome.new ≡ outcome_of (solve_for (rule_set_of rule_set) (asked_by price forward strike expiry kind) 2) }
{
    let asked = asked_by(price, forward, strike, expiry, kind);
    let set = RuleSet::try_from(rule_set);
    export_solution(solve_for(set, asked, 2), outcome)
}

#[unsafe(no_mangle)]
pub extern "C" fn gintubalos_solve_without_trail(
    price: u64,
    forward: u64,
    strike: u64,
    expiry: u64,
    kind: u8,
    limit: i32,
    rule_set: u32,
    outcome: &mut u64,
) -> u64
    ensures value { result ≡ to_bits binary64 (volatility_in (solve_for (rule_set_of rule_set) (asked_by price forward strike expiry kind) (steps_of limit))) }
    ensures outcome_after { outcome.new ≡ outcome_of (solve_for (rule_set_of rule_set) (asked_by price forward strike expiry kind) (steps_of limit)) }
{
    let asked = asked_by(price, forward, strike, expiry, kind);
    let set = RuleSet::try_from(rule_set);
    export_solution(solve_for(set, asked, steps_of(limit)), outcome)
}

// The target's bits, a NaN's where there is none; document 01's number, 0 for none, goes to `number`.
fn export_target(answer: Result<Option<f64>, Refusal>, number: &mut u8) -> u64
    ensures value { result ≡ to_bits binary64 (target_value answer) }
    ensures number_after { number.new ≡ target_number answer }
{
    export_answer(answer.map(|target| target.unwrap_or(f64::NAN)), number)
}

fn target_for(
    set: Result<RuleSet, UnknownRuleSet>,
    asked: Result<Quote, UnknownKind>,
) -> Result<Option<f64>, Refusal>
    ensures { result ≡ target_for set asked }
{
    loop_target(set?, asked?)
}

// What the loop seeks: NaN and 0 where the answer comes without one.
#[unsafe(no_mangle)]
pub extern "C" fn gintubalos_target(
    price: u64,
    forward: u64,
    strike: u64,
    expiry: u64,
    kind: u8,
    rule_set: u32,
    number: &mut u8,
) -> u64
    ensures value { result ≡ to_bits binary64 (target_value (target_for (rule_set_of rule_set) (asked_by price forward strike expiry kind))) }
    ensures number_after { number.new ≡ target_number (target_for (rule_set_of rule_set) (asked_by price forward strike expiry kind)) }
{
    let asked = asked_by(price, forward, strike, expiry, kind);
    let set = RuleSet::try_from(rule_set);
    export_target(target_for(set, asked), number)
}
