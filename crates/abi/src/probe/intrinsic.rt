// The normalised intrinsic value. Floats are their bits on both sides, a kind is document 01's byte.
ghost use Rattle.std.specs.Prelude.{◌≡◌};
ghost use Rattle.std.specs.Float.{binary64};
ghost use Rattle.std.specs.Float.Ieee.{to_bits, of_bits};
ghost use Rattle.prices.specs.Answers.{number_by, value_of};
ghost use Rattle.solver.specs.Answers.{number as number_of_refusal};
ghost use Rattle.abi.specs.Bytes.{of_kind, intrinsic_answer};

use crate::export::export_answer;
use elementary::methods::float_of;
use prices::inputs::OptionType;
use solver::refusal::Refusal;

fn intrinsic(x: f64, kind: u8) -> Result<f64, Refusal>
    ensures { result ≡ of_kind kind (intrinsic_answer x) }
{
    let option_type = OptionType::try_from(kind)?;
    Ok(prices::intrinsic::normalised_intrinsic(x, option_type))
}

#[unsafe(no_mangle)]
pub extern "C" fn gintubalos_probe_normalised_intrinsic(x: u64, kind: u8, number: &mut u8) -> u64
    ensures value { result ≡ to_bits binary64 (value_of (of_kind kind (intrinsic_answer (of_bits binary64 x)))) }
    ensures number_after { number.new ≡ number_by number_of_refusal (of_kind kind (intrinsic_answer (of_bits binary64 x))) }
{
    export_answer(intrinsic(float_of(x), kind), number)
}
