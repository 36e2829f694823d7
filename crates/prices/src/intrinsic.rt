// The normalised intrinsic value: intrinsic.rs, line by line.
ghost use Rattle.std.specs.Prelude.{◌≡◌};
ghost use Rattle.prices.specs.Intrinsic.{near_intrinsic, far_intrinsic, intrinsic_of};

use crate::inputs::OptionType;
use elementary::exp::exp;
use elementary::methods::max;

// 98 times the fourth root of f64::EPSILON.
const NORMALISED_X2_THRESHOLD: f64 = 0.011962890625;

// Near the money: a Taylor sum in x².
fn near(x: f64, option_type: OptionType) -> f64
    ensures { result ≡ near_intrinsic x option_type }
{
    let x2 = x * x;
    let sum = 1.0
        + x2 * (1.0 / 24.0 + x2 * (1.0 / 1920.0 + x2 * (1.0 / 322560.0 + 1.0 / 92897280.0 * x2)));
    max(option_type * x * sum, 0.0)
}

fn far(x: f64, option_type: OptionType) -> f64
    ensures { result ≡ far_intrinsic x option_type }
{
    let b_max = exp(0.5 * x);
    let one_over_b_max = 1.0 / b_max;
    max(option_type * (b_max - one_over_b_max), 0.0)
}

pub fn normalised_intrinsic(x: f64, option_type: OptionType) -> f64
    ensures { result ≡ intrinsic_of x option_type }
{
    if option_type * x <= 0.0 {
        return 0.0;
    }
    if x * x < NORMALISED_X2_THRESHOLD {
        return near(x, option_type);
    }
    far(x, option_type)
}
