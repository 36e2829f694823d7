// The normal distribution. Floats are their bits on both sides.
ghost use Rattle.std.specs.Prelude.{◌≡◌};
ghost use Rattle.std.specs.Float.{binary64};
ghost use Rattle.std.specs.Float.Ieee.{to_bits, of_bits};
ghost use Rattle.elementary.specs.RuleSets.{rule_set_0};
ghost use Rattle.elementary.specs.NormalDistribution.{cdf_of, inverse_of, inverse_f_upper_map_of};

use elementary::methods::{bits_of, float_of};
use elementary::rule_set::RULE_SET_0;

#[unsafe(no_mangle)]
pub extern "C" fn gintubalos_probe_standard_normal_cdf(x: u64) -> u64
    ensures { result ≡ to_bits binary64 (cdf_of rule_set_0 (of_bits binary64 x)) }
{
    bits_of(elementary::normal_distribution::standard_normal_cdf(RULE_SET_0, float_of(x)))
}

#[unsafe(no_mangle)]
pub extern "C" fn gintubalos_probe_inverse_normal_cdf(x: u64) -> u64
    ensures { result ≡ to_bits binary64 (inverse_of rule_set_0 (of_bits binary64 x)) }
{
    bits_of(elementary::normal_distribution::inverse_normal_cdf(RULE_SET_0, float_of(x)))
}

#[unsafe(no_mangle)]
pub extern "C" fn gintubalos_probe_inverse_f_upper_map(f: u64) -> u64
    ensures { result ≡ to_bits binary64 (inverse_f_upper_map_of rule_set_0 (of_bits binary64 f)) }
{
    bits_of(elementary::normal_distribution::inverse_f_upper_map(RULE_SET_0, float_of(f)))
}
