// The Black price. Floats are their bits on both sides, a kind is document 01's byte,
// and document 01's number of a refusal, 0 for none, goes to `number`.
ghost use Rattle.std.specs.Prelude.{◌≡◌};
ghost use Rattle.std.specs.Float.{binary64};
ghost use Rattle.std.specs.Float.Ieee.{to_bits, of_bits};
ghost use Rattle.elementary.specs.RuleSets.{rule_set_0};
ghost use Rattle.prices.specs.Answers.{number_by, value_of};
ghost use Rattle.solver.specs.Answers.{number as number_of_refusal};
ghost use Rattle.prices.specs.Black.{black_of};
ghost use Rattle.abi.specs.Bytes.{of_kind};

use crate::export::export_answer;
use elementary::methods::float_of;
use elementary::rule_set::RULE_SET_0;
use prices::inputs::OptionType;
use solver::refusal::Refusal;

fn black(forward: f64, strike: f64, sigma: f64, expiry: f64, kind: u8) -> Result<f64, Refusal>
    ensures { result ≡ of_kind kind (black_of rule_set_0 forward strike sigma expiry) }
{
    let option_type = OptionType::try_from(kind)?;
    let price = prices::black::black(RULE_SET_0, forward, strike, sigma, expiry, option_type)?;
    Ok(price)
}

// Refused with 2, 3, 5 or 4 for an input that has no price, with 7 at the asymptotic region's edge.
#[unsafe(no_mangle)]
pub extern "C" fn gintubalos_black(
    forward: u64,
    strike: u64,
    sigma: u64,
    expiry: u64,
    kind: u8,
    number: &mut u8,
) -> u64
    ensures value { result ≡ to_bits binary64 (value_of (of_kind kind (black_of rule_set_0 (of_bits binary64 forward) (of_bits binary64 strike) (of_bits binary64 sigma) (of_bits binary64 expiry)))) }
    ensures number_after { number.new ≡ number_by number_of_refusal (of_kind kind (black_of rule_set_0 (of_bits binary64 forward) (of_bits binary64 strike) (of_bits binary64 sigma) (of_bits binary64 expiry))) }
{
    export_answer(
        black(
            float_of(forward),
            float_of(strike),
            float_of(sigma),
            float_of(expiry),
            kind,
        ),
        number,
    )
}
