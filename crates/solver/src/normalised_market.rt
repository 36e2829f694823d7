// The normalised market that a run looks at, and price and vega in it.
ghost use Rattle.std.specs.Prelude.{◌≡◌};
ghost use Rattle.prices.specs.Inside.Exponentials.{up_of, down_of};

use elementary::rule_set::RuleSet;
use prices::point::price_and_vega;
use prices::refusal::Refusal;

// A place s, and the price and the vega there.
#[derive(Clone, Copy)]
pub(crate) struct Place {
    pub(crate) s: f64,
    pub(crate) price: f64,
    pub(crate) vega: f64,
}

// x and the target after all mapping, b_max, which is exp(x / 2), and exp(−x / 2).
#[derive(Clone, Copy)]
pub struct NormalisedMarket {
    pub x: f64,
    pub beta: f64,
    pub b_max: f64,
    pub down: f64,
    ghost b_max_is: { b_max ≡ up_of x },
    ghost down_is: { down ≡ down_of x },
}

impl NormalisedMarket {
    ghost use Rattle.prices.specs.Vega.{vega_of};
    ghost use Rattle.prices.specs.Black.{call_of};
    ghost use Rattle.solver.specs.Inside.Place.{place_of};

    pub(crate) fn place(self, set: RuleSet, s: f64) -> Result<Place, Refusal>
        ensures { result ≡ place_of s (call_of set self.x s) (vega_of self.x s) }
    {
        let found = price_and_vega(set, self.x, s, self.b_max, self.down)?;
        Ok(Place {
            s,
            price: found.price,
            vega: found.vega,
        })
    }
}
