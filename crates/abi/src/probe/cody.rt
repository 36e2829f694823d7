// Cody's functions. Floats are their bits on both sides.
ghost use Rattle.std.specs.Prelude.{◌≡◌};
ghost use Rattle.std.specs.Float.{binary64};
ghost use Rattle.std.specs.Float.Ieee.{to_bits, of_bits};
ghost use Rattle.elementary.specs.RuleSets.{rule_set_0};
ghost use Rattle.elementary.specs.Cody.{d_int_of, smoothened_exponential_of_negative_square, smoothened_exponential_of_positive_square, ab_of, cd_of, pq_of, erfcx_above_threshold, erfc_of, erfcx_of};

use elementary::methods::{bits_of, float_of};
use elementary::rule_set::RULE_SET_0;

#[unsafe(no_mangle)]
pub extern "C" fn gintubalos_probe_d_int(x: u64) -> u64
    ensures { result ≡ to_bits binary64 (d_int_of (of_bits binary64 x)) }
{
    bits_of(elementary::cody::d_int(float_of(x)))
}

#[unsafe(no_mangle)]
pub extern "C" fn gintubalos_probe_smoothened_exponential_of_negative_square(y: u64) -> u64
    ensures { result ≡ to_bits binary64 (smoothened_exponential_of_negative_square (of_bits binary64 y)) }
{
    bits_of(elementary::cody::smoothened_exponential_of_negative_square(float_of(y)))
}

#[unsafe(no_mangle)]
pub extern "C" fn gintubalos_probe_smoothened_exponential_of_positive_square(x: u64) -> u64
    ensures { result ≡ to_bits binary64 (smoothened_exponential_of_positive_square (of_bits binary64 x)) }
{
    bits_of(elementary::cody::smoothened_exponential_of_positive_square(float_of(x)))
}

#[unsafe(no_mangle)]
pub extern "C" fn gintubalos_probe_ab(z: u64) -> u64
    ensures { result ≡ to_bits binary64 (ab_of (of_bits binary64 z)) }
{
    bits_of(elementary::cody::ab(float_of(z)))
}

#[unsafe(no_mangle)]
pub extern "C" fn gintubalos_probe_cd(y: u64) -> u64
    ensures { result ≡ to_bits binary64 (cd_of (of_bits binary64 y)) }
{
    bits_of(elementary::cody::cd(float_of(y)))
}

#[unsafe(no_mangle)]
pub extern "C" fn gintubalos_probe_pq(z: u64) -> u64
    ensures { result ≡ to_bits binary64 (pq_of (of_bits binary64 z)) }
{
    bits_of(elementary::cody::pq(float_of(z)))
}

#[unsafe(no_mangle)]
pub extern "C" fn gintubalos_probe_erfcx_above_threshold(y: u64) -> u64
    ensures { result ≡ to_bits binary64 (erfcx_above_threshold (of_bits binary64 y)) }
{
    bits_of(elementary::cody::erfcx_above_threshold(float_of(y)))
}

#[unsafe(no_mangle)]
pub extern "C" fn gintubalos_probe_erfc(x: u64) -> u64
    ensures { result ≡ to_bits binary64 (erfc_of rule_set_0 (of_bits binary64 x)) }
{
    bits_of(elementary::cody::erfc(RULE_SET_0, float_of(x)))
}

#[unsafe(no_mangle)]
pub extern "C" fn gintubalos_probe_erfcx(x: u64) -> u64
    ensures { result ≡ to_bits binary64 (erfcx_of (of_bits binary64 x)) }
{
    bits_of(elementary::cody::erfcx(float_of(x)))
}
