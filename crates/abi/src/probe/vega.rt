// The normalised vega. Floats are their bits on both sides.
ghost use Rattle.std.specs.Prelude.{◌≡◌};
ghost use Rattle.std.specs.Float.{binary64};
ghost use Rattle.std.specs.Float.Ieee.{to_bits, of_bits};
ghost use Rattle.prices.specs.Vega.{vega_of};

use elementary::methods::{bits_of, float_of};

#[unsafe(no_mangle)]
pub extern "C" fn gintubalos_probe_normalised_vega(x: u64, s: u64) -> u64
    ensures { result ≡ to_bits binary64 (vega_of (of_bits binary64 x) (of_bits binary64 s)) }
{
    bits_of(prices::vega::normalised_vega(float_of(x), float_of(s)))
}
