// The price and the vega of one s, which the solver asks for together: exp(−(h² + t²) / 2) is computed
// once for both.
ghost use Rattle.std.specs.Prelude.{◌≡◌};
ghost use Rattle.prices.specs.Vega.{vega_of};
ghost use Rattle.prices.specs.Inside.Exponentials.{call_with};
ghost use Rattle.prices.specs.Inside.Point.{price_and_vega};

use crate::black::{normalised_black_call, out_of_the_money};
use crate::exponentials::{AtHand, bell};
use crate::refusal::Refusal;
use crate::vega::{normalised_vega, vega_with};
use elementary::rule_set::RuleSet;

#[derive(Clone, Copy)]
pub struct PriceAndVega {
    pub price: f64,
    pub vega: f64,
}

// `up` is exp(x / 2) and `down` exp(−x / 2), which the caller has for every s.
pub fn price_and_vega(
    set: RuleSet,
    x: f64,
    s: f64,
    up: f64,
    down: f64,
) -> Result<PriceAndVega, Refusal>
    ensures { result ≡ price_and_vega (call_with set up down x s) (vega_of x s) }
{
    if x > 0.0 {
        let price = normalised_black_call(set, x, s)?;
        let vega = normalised_vega(x, s);
        return Ok(PriceAndVega { price, vega });
    }
    let bell = bell(x / s, 0.5 * s);
    let exponentials = AtHand { up, down, bell };
    let vega = vega_with(x, s, &exponentials);
    let price = out_of_the_money(set, x, s, &exponentials)?;
    Ok(PriceAndVega { price, vega })
}
