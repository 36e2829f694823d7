// Bid and ask together, with trails and without. Floats are their bits, a kind is document 01's byte. Each end has the
// volatility's bits and the outcome's word that solve gives; the number that refuses the call, 0 for none, comes back.
ghost use Rattle.std.specs.Prelude.{◌≡◌};
ghost use Rattle.std.specs.Float.{binary64};
ghost use Rattle.std.specs.Float.Ieee.{to_bits};
ghost use Rattle.elementary.specs.RuleSets.{rule_set_of};
ghost use Rattle.solver.specs.Answers.{volatility_in, range_number_in, low_in, high_in};
ghost use Rattle.abi.specs.Solutions.{outcome_of, asked_range_by, solve_range_with_trails_for, solve_range_for};

use crate::product::solve::export_solution;
use elementary::methods::float_of;
use elementary::rule_set::{RuleSet, UnknownRuleSet};
use prices::inputs::{OptionType, UnknownKind};
use prices::refusal::Numbered;
use solver::answers::Ends;
use solver::bid_ask::{high_end, low_end, solve_range, solve_range_with_trails};
use solver::quote::QuoteRange;
use solver::refusal::Refusal;
use solver::solve::steps_of;

// What a caller asks: a range, or none where the byte says no kind.
fn asked_range_by(
    low: u64,
    high: u64,
    forward: u64,
    strike: u64,
    expiry: u64,
    kind: u8,
) -> Result<QuoteRange, UnknownKind>
    ensures { result ≡ asked_range_by low high forward strike expiry kind }
{
    let option_type = OptionType::try_from(kind)?;
    Ok(QuoteRange {
        low: float_of(low),
        high: float_of(high),
        forward: float_of(forward),
        strike: float_of(strike),
        expiry: float_of(expiry),
        option_type,
    })
}

// ---- what crosses

fn number_of(answer: Result<Ends, Refusal>) -> u8
    ensures { result ≡ range_number_in answer }
{
    match answer {
        Ok(_) => 0,
        Err(refusal) => refusal.number(),
    }
}

// Both ends, as the words of two solves.
fn export_range(
    answer: Result<Ends, Refusal>,
    low_volatility: &mut u64,
    low_outcome: &mut u64,
    high_volatility: &mut u64,
    high_outcome: &mut u64,
) -> u8
    ensures value { result ≡ range_number_in answer }
    ensures low_volatility_after { low_volatility.new ≡ to_bits binary64 (volatility_in (low_in answer)) }
    ensures low_outcome_after { low_outcome.new ≡ outcome_of (low_in answer) }
    ensures high_volatility_after { high_volatility.new ≡ to_bits binary64 (volatility_in (high_in answer)) }
    ensures high_outcome_after { high_outcome.new ≡ outcome_of (high_in answer) }
{
    *low_volatility = export_solution(low_end(answer), low_outcome);
    *high_volatility = export_solution(high_end(answer), high_outcome);
    number_of(answer)
}

// ---- with trails

fn solve_range_with_trails_for(
    set: Result<RuleSet, UnknownRuleSet>,
    asked: Result<QuoteRange, UnknownKind>,
    limit: i32,
    low_trail: &mut [u8],
    high_trail: &mut [u8],
) -> Result<Ends, Refusal>
    ensures value { result ≡ (solve_range_with_trails_for set asked limit low_trail.old high_trail.old).answer }
    ensures low_trail_after { low_trail.new ≡ (solve_range_with_trails_for set asked limit low_trail.old high_trail.old).low }
    ensures high_trail_after { high_trail.new ≡ (solve_range_with_trails_for set asked limit low_trail.old high_trail.old).high }
{
    solve_range_with_trails(set?, asked?, steps_of(limit), low_trail, high_trail)
}

// 32, 24 for a kind, 1, 31, 2, 3, 4 or 21; then both trails stay.
#[unsafe(no_mangle)]
pub extern "C" fn gintubalos_bid_ask(
    low: u64,
    high: u64,
    forward: u64,
    strike: u64,
    expiry: u64,
    kind: u8,
    limit: i32,
    rule_set: u32,
    low_trail: &mut [u8],
    high_trail: &mut [u8],
    low_volatility: &mut u64,
    low_outcome: &mut u64,
    high_volatility: &mut u64,
    high_outcome: &mut u64,
) -> u8
    ensures value { result ≡ range_number_in (solve_range_with_trails_for (rule_set_of rule_set) (asked_range_by low high forward strike expiry kind) limit low_trail.old high_trail.old).answer }
    ensures low_trail_after { low_trail.new ≡ (solve_range_with_trails_for (rule_set_of rule_set) (asked_range_by low high forward strike expiry kind) limit low_trail.old high_trail.old).low }
    ensures high_trail_after { high_trail.new ≡ (solve_range_with_trails_for (rule_set_of rule_set) (asked_range_by low high forward strike expiry kind) limit low_trail.old high_trail.old).high }
    ensures low_volatility_after { low_volatility.new ≡ to_bits binary64 (volatility_in (low_in (solve_range_with_trails_for (rule_set_of rule_set) (asked_range_by low high forward strike expiry kind) limit low_trail.old high_trail.old).answer)) }
    ensures low_outcome_after { low_outcome.new ≡ outcome_of (low_in (solve_range_with_trails_for (rule_set_of rule_set) (asked_range_by low high forward strike expiry kind) limit low_trail.old high_trail.old).answer) }
    ensures high_volatility_after { high_volatility.new ≡ to_bits binary64 (volatility_in (high_in (solve_range_with_trails_for (rule_set_of rule_set) (asked_range_by low high forward strike expiry kind) limit low_trail.old high_trail.old).answer)) }
    ensures high_outcome_after { high_outcome.new ≡ outcome_of (high_in (solve_range_with_trails_for (rule_set_of rule_set) (asked_range_by low high forward strike expiry kind) limit low_trail.old high_trail.old).answer) }
{
    let asked = asked_range_by(low, high, forward, strike, expiry, kind);
    let set = RuleSet::try_from(rule_set);
    let answer = solve_range_with_trails_for(set, asked, limit, low_trail, high_trail);
    export_range(
        answer,
        low_volatility,
        low_outcome,
        high_volatility,
        high_outcome,
    )
}

// ---- without trails

fn solve_range_for(
    set: Result<RuleSet, UnknownRuleSet>,
    asked: Result<QuoteRange, UnknownKind>,
    limit: i32,
) -> Result<Ends, Refusal>
    ensures { result ≡ solve_range_for set asked limit }
{
    solve_range(set?, asked?, steps_of(limit))
}

#[unsafe(no_mangle)]
pub extern "C" fn gintubalos_bid_ask_without_trails(
    low: u64,
    high: u64,
    forward: u64,
    strike: u64,
    expiry: u64,
    kind: u8,
    limit: i32,
    rule_set: u32,
    low_volatility: &mut u64,
    low_outcome: &mut u64,
    high_volatility: &mut u64,
    high_outcome: &mut u64,
) -> u8
    ensures value { result ≡ range_number_in (solve_range_for (rule_set_of rule_set) (asked_range_by low high forward strike expiry kind) limit) }
    ensures low_volatility_after { low_volatility.new ≡ to_bits binary64 (volatility_in (low_in (solve_range_for (rule_set_of rule_set) (asked_range_by low high forward strike expiry kind) limit))) }
    ensures low_outcome_after { low_outcome.new ≡ outcome_of (low_in (solve_range_for (rule_set_of rule_set) (asked_range_by low high forward strike expiry kind) limit)) }
    ensures high_volatility_after { high_volatility.new ≡ to_bits binary64 (volatility_in (high_in (solve_range_for (rule_set_of rule_set) (asked_range_by low high forward strike expiry kind) limit))) }
    ensures high_outcome_after { high_outcome.new ≡ outcome_of (high_in (solve_range_for (rule_set_of rule_set) (asked_range_by low high forward strike expiry kind) limit)) }
{
    let range = asked_range_by(low, high, forward, strike, expiry, kind);
    let set = RuleSet::try_from(rule_set);
    export_range(
        solve_range_for(set, range, limit),
        low_volatility,
        low_outcome,
        high_volatility,
        high_outcome,
    )
}
