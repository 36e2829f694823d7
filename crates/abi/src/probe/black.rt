// The parts of the Black price. Floats are their bits on both sides, a kind is document 01's byte,
// and document 01's number of a refusal, 0 for none, goes to `number`.
ghost use Rattle.std.specs.Prelude.{◌≡◌};
ghost use Rattle.std.specs.Float.{binary64};
ghost use Rattle.std.specs.Float.Ieee.{to_bits, of_bits};
ghost use Rattle.elementary.specs.RuleSets.{rule_set_0};
ghost use Rattle.prices.specs.Answers.{number_by, number_of, value_of};
ghost use Rattle.prices.specs.Black.{small_t_of, asymptotic_of, using_erfcx_of, codys_of, call_of, normalised_black_of};
ghost use Rattle.solver.specs.Answers.{number as number_of_refusal};
ghost use Rattle.abi.specs.Bytes.{of_kind};

use crate::export::export_answer;
use elementary::methods::{bits_of, float_of};
use elementary::rule_set::RULE_SET_0;
use prices::inputs::OptionType;
use solver::refusal::Refusal;

#[unsafe(no_mangle)]
pub extern "C" fn gintubalos_probe_normalised_black_call_with_optimal_use_of_codys_functions(
    x: u64,
    s: u64,
) -> u64
    ensures { result ≡ to_bits binary64 (codys_of rule_set_0 (of_bits binary64 x) (of_bits binary64 s)) }
{
    bits_of(
        prices::black::normalised_black_call_with_optimal_use_of_codys_functions(
            RULE_SET_0,
            float_of(x),
            float_of(s),
        ),
    )
}

#[unsafe(no_mangle)]
pub extern "C" fn gintubalos_probe_normalised_black_call_using_erfcx(h: u64, t: u64) -> u64
    ensures { result ≡ to_bits binary64 (using_erfcx_of (of_bits binary64 h) (of_bits binary64 t)) }
{
    bits_of(prices::black::normalised_black_call_using_erfcx(float_of(h), float_of(t)))
}

// Refused with 8 where t is too large.
#[unsafe(no_mangle)]
pub extern "C" fn gintubalos_probe_small_t_expansion_of_normalised_black_call(
    h: u64,
    t: u64,
    number: &mut u8,
) -> u64
    ensures value { result ≡ to_bits binary64 (value_of (small_t_of (of_bits binary64 h) (of_bits binary64 t))) }
    ensures number_after { number.new ≡ number_of (small_t_of (of_bits binary64 h) (of_bits binary64 t)) }
{
    export_answer(
        prices::black::small_t_expansion_of_normalised_black_call(float_of(h), float_of(t)),
        number,
    )
}

// Refused with 7 outside its region.
#[unsafe(no_mangle)]
pub extern "C" fn gintubalos_probe_asymptotic_expansion_of_normalised_black_call(
    h: u64,
    t: u64,
    number: &mut u8,
) -> u64
    ensures value { result ≡ to_bits binary64 (value_of (asymptotic_of (of_bits binary64 h) (of_bits binary64 t))) }
    ensures number_after { number.new ≡ number_of (asymptotic_of (of_bits binary64 h) (of_bits binary64 t)) }
{
    export_answer(
        prices::black::asymptotic_expansion_of_normalised_black_call(float_of(h), float_of(t)),
        number,
    )
}

#[unsafe(no_mangle)]
pub extern "C" fn gintubalos_probe_normalised_black_call(x: u64, s: u64, number: &mut u8) -> u64
    ensures value { result ≡ to_bits binary64 (value_of (call_of rule_set_0 (of_bits binary64 x) (of_bits binary64 s))) }
    ensures number_after { number.new ≡ number_of (call_of rule_set_0 (of_bits binary64 x) (of_bits binary64 s)) }
{
    export_answer(
        prices::black::normalised_black_call(RULE_SET_0, float_of(x), float_of(s)),
        number,
    )
}

fn normalised_black(x: f64, s: f64, kind: u8) -> Result<f64, Refusal>
    ensures { result ≡ of_kind kind (normalised_black_of rule_set_0 x s) }
{
    let option_type = OptionType::try_from(kind)?;
    let price = prices::black::normalised_black(RULE_SET_0, x, s, option_type)?;
    Ok(price)
}

#[unsafe(no_mangle)]
pub extern "C" fn gintubalos_probe_normalised_black(
    x: u64,
    s: u64,
    kind: u8,
    number: &mut u8,
) -> u64
    ensures value { result ≡ to_bits binary64 (value_of (of_kind kind (normalised_black_of rule_set_0 (of_bits binary64 x) (of_bits binary64 s)))) }
    ensures number_after { number.new ≡ number_by number_of_refusal (of_kind kind (normalised_black_of rule_set_0 (of_bits binary64 x) (of_bits binary64 s))) }
{
    export_answer(normalised_black(float_of(x), float_of(s), kind), number)
}
