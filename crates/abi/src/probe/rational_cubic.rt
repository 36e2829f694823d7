// The rational cubic. Floats are their bits on both sides. A side is Left at 0 and Right at any
// other byte, a choice is false at 0 and true at any other.
ghost use Rattle.std.specs.Prelude.{◌≡◌};
ghost use Rattle.std.specs.Float.{binary64};
ghost use Rattle.std.specs.Float.Ieee.{to_bits, of_bits};
ghost use Rattle.prices.specs.Answers.{number_of, value_of};
ghost use Rattle.prices.specs.RationalCubic.{interpolation_of, minimum_parameter_of, control_parameter_of, convex_parameter_of};
ghost use Rattle.abi.specs.Bytes.{side_of, choice_of};

use crate::export::export_answer;
use elementary::methods::{bits_of, float_of};
use prices::rational_cubic::Side;

// C hands in a byte for a side and for a choice.
fn side_of(side: u8) -> Side
    ensures { result ≡ side_of side }
{
    if side == 0 { Side::Left } else { Side::Right }
}

fn choice_of(choice: u8) -> bool
    ensures { result ≡ choice_of choice }
{
    choice != 0
}

// Refused with 6 at an infinite x, x_l or x_r; the number, 0 for none, goes to `number`.
#[unsafe(no_mangle)]
pub extern "C" fn gintubalos_probe_rational_cubic_interpolation(
    x: u64,
    x_l: u64,
    x_r: u64,
    y_l: u64,
    y_r: u64,
    d_l: u64,
    d_r: u64,
    r: u64,
    number: &mut u8,
) -> u64
    ensures value { result ≡ to_bits binary64 (value_of (interpolation_of (of_bits binary64 x) (of_bits binary64 x_l) (of_bits binary64 x_r) (of_bits binary64 y_l) (of_bits binary64 y_r) (of_bits binary64 d_l) (of_bits binary64 d_r) (of_bits binary64 r))) }
    ensures number_after { number.new ≡ number_of (interpolation_of (of_bits binary64 x) (of_bits binary64 x_l) (of_bits binary64 x_r) (of_bits binary64 y_l) (of_bits binary64 y_r) (of_bits binary64 d_l) (of_bits binary64 d_r) (of_bits binary64 r)) }
{
    export_answer(
        prices::rational_cubic::rational_cubic_interpolation(
            float_of(x),
            float_of(x_l),
            float_of(x_r),
            float_of(y_l),
            float_of(y_r),
            float_of(d_l),
            float_of(d_r),
            float_of(r),
        ),
        number,
    )
}

#[unsafe(no_mangle)]
pub extern "C" fn gintubalos_probe_minimum_rational_cubic_control_parameter(
    d_l: u64,
    d_r: u64,
    s: u64,
    prefer_shape_preservation_over_smoothness: u8,
) -> u64
    ensures { result ≡ to_bits binary64 (minimum_parameter_of (of_bits binary64 d_l) (of_bits binary64 d_r) (of_bits binary64 s) (choice_of prefer_shape_preservation_over_smoothness)) }
{
    bits_of(
        prices::rational_cubic::minimum_rational_cubic_control_parameter(
            float_of(d_l),
            float_of(d_r),
            float_of(s),
            choice_of(prefer_shape_preservation_over_smoothness),
        ),
    )
}

#[unsafe(no_mangle)]
pub extern "C" fn gintubalos_probe_rational_cubic_control_parameter(
    x_l: u64,
    x_r: u64,
    y_l: u64,
    y_r: u64,
    d_l: u64,
    d_r: u64,
    second_derivative: u64,
    side: u8,
) -> u64
    ensures { result ≡ to_bits binary64 (control_parameter_of (of_bits binary64 x_l) (of_bits binary64 x_r) (of_bits binary64 y_l) (of_bits binary64 y_r) (of_bits binary64 d_l) (of_bits binary64 d_r) (of_bits binary64 second_derivative) (side_of side)) }
{
    bits_of(prices::rational_cubic::rational_cubic_control_parameter(
        float_of(x_l),
        float_of(x_r),
        float_of(y_l),
        float_of(y_r),
        float_of(d_l),
        float_of(d_r),
        float_of(second_derivative),
        side_of(side),
    ))
}

#[unsafe(no_mangle)]
pub extern "C" fn gintubalos_probe_convex_rational_cubic_control_parameter(
    x_l: u64,
    x_r: u64,
    y_l: u64,
    y_r: u64,
    d_l: u64,
    d_r: u64,
    second_derivative: u64,
    prefer_shape_preservation_over_smoothness: u8,
    side: u8,
) -> u64
    ensures { result ≡ to_bits binary64 (convex_parameter_of (of_bits binary64 x_l) (of_bits binary64 x_r) (of_bits binary64 y_l) (of_bits binary64 y_r) (of_bits binary64 d_l) (of_bits binary64 d_r) (of_bits binary64 second_derivative) (choice_of prefer_shape_preservation_over_smoothness) (side_of side)) }
{
    bits_of(
        prices::rational_cubic::convex_rational_cubic_control_parameter(
            float_of(x_l),
            float_of(x_r),
            float_of(y_l),
            float_of(y_r),
            float_of(d_l),
            float_of(d_r),
            float_of(second_derivative),
            choice_of(prefer_shape_preservation_over_smoothness),
            side_of(side),
        ),
    )
}
