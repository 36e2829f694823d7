// Bid and ask together: solve at a low and at a high price of one option, each with a trail of its own.
ghost use Rattle.std.specs.Prelude.{◌≡◌, length};
ghost use Rattle.solver.specs.Answers.{low_in, high_in};
ghost use Rattle.solver.specs.BidAsk.{quote_at, range_check, range_check_with_trails, solve_range_with_trails, solve_range};

use crate::answers::{Ends, ImpliedVolatility};
use crate::quote::{Quote, QuoteRange};
use crate::refusal::{Failure, Refusal};
use crate::solve::{check_market, check_price, solve, solve_with_trail};
use crate::trail::STEP_BYTES;
use elementary::rule_set::RuleSet;

// ---- the checks

// The low price, the high one, their order, then the market.
fn check_range(range: QuoteRange) -> Result<(), Refusal>
    ensures { result ≡ range_check range }
{
    check_price(range.low)?;
    check_price(range.high)?;
    if range.low > range.high {
        return Err(Refusal::LowAboveHigh);
    }
    check_market(range.forward, range.strike, range.expiry)?;
    Ok(())
}

// The same, then a low trail of so many bytes and a high one.
fn check_range_with_trails(
    range: QuoteRange,
    limit: u32,
    low: usize,
    high: usize,
) -> Result<(), Refusal>
    ensures { result ≡ range_check_with_trails range limit low high }
{
    check_range(range)?;
    let room = limit as usize * STEP_BYTES;
    if low < room || high < room {
        return Err(Refusal::TrailTooShort);
    }
    Ok(())
}

// ---- both ends

impl QuoteRange {
    // The option at one of its prices.
    fn at(self, price: f64) -> Quote
        ensures { result ≡ quote_at self price }
    {
        Quote {
            price,
            forward: self.forward,
            strike: self.strike,
            expiry: self.expiry,
            option_type: self.option_type,
        }
    }
}

// Each end's solution and its records in its own trail, as the single call has them; or a refusal, which
// leaves both trails as they were.
pub fn solve_range_with_trails(
    set: RuleSet,
    range: QuoteRange,
    limit: u32,
    low_trail: &mut [u8],
    high_trail: &mut [u8],
) -> Result<Ends, Refusal>
    ensures value { result ≡ (solve_range_with_trails set range limit low_trail.old high_trail.old).answer }
    ensures low_trail_after { low_trail.new ≡ (solve_range_with_trails set range limit low_trail.old high_trail.old).low }
    ensures high_trail_after { high_trail.new ≡ (solve_range_with_trails set range limit low_trail.old high_trail.old).high }
{
    check_range_with_trails(range, limit, low_trail.len(), high_trail.len())?;
    let low = solve_with_trail(set, range.at(range.low), limit, low_trail);
    let high = solve_with_trail(set, range.at(range.high), limit, high_trail);
    Ok(Ends { low, high })
}

// The same without trails. One function over a recorder would be no shorter than these two of four lines,
// and would need a definition over both.
pub fn solve_range(set: RuleSet, range: QuoteRange, limit: u32) -> Result<Ends, Refusal>
    ensures { result ≡ solve_range set range limit }
{
    check_range(range)?;
    let low = solve(set, range.at(range.low), limit);
    let high = solve(set, range.at(range.high), limit);
    Ok(Ends { low, high })
}

// ---- the ends of an answer: what refuses the call refuses both

pub fn low_end(answer: Result<Ends, Refusal>) -> Result<ImpliedVolatility, Failure>
    ensures { result ≡ low_in answer }
{
    answer?.low
}

pub fn high_end(answer: Result<Ends, Refusal>) -> Result<ImpliedVolatility, Failure>
    ensures { result ≡ high_in answer }
{
    answer?.high
}
