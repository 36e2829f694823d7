// The elementary functions. Floats are their bits on both sides.
ghost use Rattle.std.specs.Prelude.{◌≡◌, cond};
ghost use Rattle.std.specs.Float.{binary64};
ghost use Rattle.std.specs.Float.Ieee.{to_bits, of_bits};
ghost use Rattle.elementary.specs.Methods.{abs_of, max_of, is_zero, square_of};
ghost use Rattle.elementary.specs.Floor.{floor_of};
ghost use Rattle.elementary.specs.MulAdd.{fma};
ghost use Rattle.elementary.specs.Exp.{exp_of};
ghost use Rattle.elementary.specs.Ln.{ln_of, cube_root_of};

use elementary::methods::{bits_of, float_of};

// The bits x as a float and back: those of a NaN become 7FF8000000000000, all others stay.
#[unsafe(no_mangle)]
pub extern "C" fn gintubalos_probe_bits_of(x: u64) -> u64
    ensures { result ≡ to_bits binary64 (of_bits binary64 x) }
{
    bits_of(float_of(x))
}

#[unsafe(no_mangle)]
pub extern "C" fn gintubalos_probe_abs(x: u64) -> u64
    ensures { result ≡ to_bits binary64 (abs_of (of_bits binary64 x)) }
{
    bits_of(elementary::methods::abs(float_of(x)))
}

#[unsafe(no_mangle)]
pub extern "C" fn gintubalos_probe_max(a: u64, b: u64) -> u64
    ensures { result ≡ to_bits binary64 (max_of (of_bits binary64 a) (of_bits binary64 b)) }
{
    bits_of(elementary::methods::max(float_of(a), float_of(b)))
}

// 1 for a zero, else 0.
#[unsafe(no_mangle)]
pub extern "C" fn gintubalos_probe_is_zero(x: u64) -> u64
    ensures { result ≡ cond (is_zero (of_bits binary64 x)) 1 0 }
{
    elementary::methods::is_zero(float_of(x)) as u64
}

#[unsafe(no_mangle)]
pub extern "C" fn gintubalos_probe_powi_2(y: u64) -> u64
    ensures { result ≡ to_bits binary64 (square_of (of_bits binary64 y)) }
{
    bits_of(elementary::methods::powi_2(float_of(y)))
}

#[unsafe(no_mangle)]
pub extern "C" fn gintubalos_probe_floor(x: u64) -> u64
    ensures { result ≡ to_bits binary64 (floor_of binary64 (of_bits binary64 x)) }
{
    bits_of(elementary::floor::floor(float_of(x)))
}

#[unsafe(no_mangle)]
pub extern "C" fn gintubalos_probe_mul_add(a: u64, b: u64, c: u64) -> u64
    ensures { result ≡ to_bits binary64 (fma binary64 (of_bits binary64 a) (of_bits binary64 b) (of_bits binary64 c)) }
{
    bits_of(elementary::mul_add::mul_add(float_of(a), float_of(b), float_of(c)))
}

#[unsafe(no_mangle)]
pub extern "C" fn gintubalos_probe_exp(y: u64) -> u64
    ensures { result ≡ to_bits binary64 (exp_of (of_bits binary64 y)) }
{
    bits_of(elementary::exp::exp(float_of(y)))
}

#[unsafe(no_mangle)]
pub extern "C" fn gintubalos_probe_ln(y: u64) -> u64
    ensures { result ≡ to_bits binary64 (ln_of (of_bits binary64 y)) }
{
    bits_of(elementary::ln::ln(float_of(y)))
}

#[unsafe(no_mangle)]
pub extern "C" fn gintubalos_probe_powf_1_3(y: u64) -> u64
    ensures { result ≡ to_bits binary64 (cube_root_of (of_bits binary64 y)) }
{
    bits_of(elementary::ln::powf_1_3(float_of(y)))
}
