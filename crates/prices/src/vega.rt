// The normalised vega: `normalised_vega` of so_rational.rs, line by line.
ghost use Rattle.std.specs.Prelude.{◌≡◌};
ghost use Rattle.elementary.specs.Ops.{◌⊗◌, ◌⊘◌, half};
ghost use Rattle.prices.specs.Vega.{at_the_money, vega_vanishes, vega_of};

use crate::constants::ONE_OVER_SQRT_TWO_PI;
use crate::exponentials::{Exponentials, WhereRead};
use elementary::exp::exp;
use elementary::methods::abs;

const SQRT_DBL_MIN: f64 = 1.4916681462400413e-154;

// At the money.
fn at_the_money(s: f64) -> f64
    ensures { result ≡ at_the_money s }
{
    ONE_OVER_SQRT_TWO_PI * exp(-0.125 * s * s)
}

// Where s is 0 or below, or too small beside |x|, vega is 0.
fn vega_vanishes(ax: f64, s: f64) -> bool
    ensures { result ≡ vega_vanishes ax s }
{
    s <= 0.0 || s <= ax * SQRT_DBL_MIN
}

// Vega, from exponentials of x and s of which that of −(h² + t²) / 2 may be read.
pub(crate) fn vega_with<E: Exponentials>(x: f64, s: f64, e: &E) -> f64
    requires { E.has_bell e.now (x ⊘ s) (half ⊗ s) }
    ensures { result ≡ vega_of x s }
{
    let ax = abs(x);
    if ax <= 0.0 {
        return at_the_money(s);
    }
    if vega_vanishes(ax, s) {
        return 0.0;
    }
    ONE_OVER_SQRT_TWO_PI * e.bell(x / s, 0.5 * s)
}

pub fn normalised_vega(x: f64, s: f64) -> f64
    ensures { result ≡ vega_of x s }
{
    vega_with(x, s, &WhereRead { x })
}
