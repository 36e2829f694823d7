// The functions that the list names, in the order of their numbers, which are those of
// `differential --samples`.
use crate::list::Line;
use crate::records::{Answer, option_type_in};
use crate::{boards, packed, records};
use elementary::methods::{bits_of, float_of};
use elementary::rule_set::RULE_SET_0;
use elementary::{cody, methods, normal_distribution};
use prices::rational_cubic::Side;
use prices::{black, intrinsic, rational_cubic, vega};
use std::fmt;

#[derive(Clone, Copy, Debug, PartialEq, Eq)]
pub(crate) enum Function {
    ErfcAsPublished,
    BitsOf,
    Abs,
    Max,
    IsZero,
    Powi2,
    Floor,
    Sqrt,
    MulAdd,
    Exp,
    Ln,
    Powf13,
    DInt,
    SmoothenedExponentialOfNegativeSquare,
    SmoothenedExponentialOfPositiveSquare,
    Ab,
    Cd,
    Pq,
    ErfcxAboveThreshold,
    Erfc,
    Erfcx,
    StandardNormalCdf,
    InverseNormalCdf,
    InverseFUpperMap,
    NormalisedIntrinsic,
    NormalisedVega,
    NormalisedBlackCallWithOptimalUseOfCodysFunctions,
    NormalisedBlackCallUsingErfcx,
    SmallTExpansionOfNormalisedBlackCall,
    AsymptoticExpansionOfNormalisedBlackCall,
    NormalisedBlackCall,
    NormalisedBlack,
    Black,
    RationalCubicInterpolation,
    MinimumRationalCubicControlParameter,
    RationalCubicControlParameter,
    ConvexRationalCubicControlParameter,
    Solve,
    File,
    Recheck,
    Read,
    BidAsk,
    Board,
    SqrtDigits,
    SqrtAligned,
    PackedRead,
    PackedWrite,
}

// By hand, as the names below: a macro that wrote them would be the repository's own, which the gate refuses.
pub(crate) const ALL: [Function; 47] = [
    Function::ErfcAsPublished,
    Function::BitsOf,
    Function::Abs,
    Function::Max,
    Function::IsZero,
    Function::Powi2,
    Function::Floor,
    Function::Sqrt,
    Function::MulAdd,
    Function::Exp,
    Function::Ln,
    Function::Powf13,
    Function::DInt,
    Function::SmoothenedExponentialOfNegativeSquare,
    Function::SmoothenedExponentialOfPositiveSquare,
    Function::Ab,
    Function::Cd,
    Function::Pq,
    Function::ErfcxAboveThreshold,
    Function::Erfc,
    Function::Erfcx,
    Function::StandardNormalCdf,
    Function::InverseNormalCdf,
    Function::InverseFUpperMap,
    Function::NormalisedIntrinsic,
    Function::NormalisedVega,
    Function::NormalisedBlackCallWithOptimalUseOfCodysFunctions,
    Function::NormalisedBlackCallUsingErfcx,
    Function::SmallTExpansionOfNormalisedBlackCall,
    Function::AsymptoticExpansionOfNormalisedBlackCall,
    Function::NormalisedBlackCall,
    Function::NormalisedBlack,
    Function::Black,
    Function::RationalCubicInterpolation,
    Function::MinimumRationalCubicControlParameter,
    Function::RationalCubicControlParameter,
    Function::ConvexRationalCubicControlParameter,
    Function::Solve,
    Function::File,
    Function::Recheck,
    Function::Read,
    Function::BidAsk,
    Function::Board,
    Function::SqrtDigits,
    Function::SqrtAligned,
    Function::PackedRead,
    Function::PackedWrite,
];

impl Function {
    fn name(self) -> &'static str {
        match self {
            Function::ErfcAsPublished => "erfc as published",
            Function::BitsOf => "bits_of",
            Function::Abs => "abs",
            Function::Max => "max",
            Function::IsZero => "is_zero",
            Function::Powi2 => "powi_2",
            Function::Floor => "floor",
            Function::Sqrt => "sqrt",
            Function::MulAdd => "mul_add",
            Function::Exp => "exp",
            Function::Ln => "ln",
            Function::Powf13 => "powf_1_3",
            Function::DInt => "d_int",
            Function::SmoothenedExponentialOfNegativeSquare => {
                "smoothened_exponential_of_negative_square"
            }
            Function::SmoothenedExponentialOfPositiveSquare => {
                "smoothened_exponential_of_positive_square"
            }
            Function::Ab => "ab",
            Function::Cd => "cd",
            Function::Pq => "pq",
            Function::ErfcxAboveThreshold => "erfcx_above_threshold",
            Function::Erfc => "erfc",
            Function::Erfcx => "erfcx",
            Function::StandardNormalCdf => "standard_normal_cdf",
            Function::InverseNormalCdf => "inverse_normal_cdf",
            Function::InverseFUpperMap => "inverse_f_upper_map",
            Function::NormalisedIntrinsic => "normalised_intrinsic",
            Function::NormalisedVega => "normalised_vega",
            Function::NormalisedBlackCallWithOptimalUseOfCodysFunctions => {
                "normalised_black_call_with_optimal_use_of_codys_functions"
            }
            Function::NormalisedBlackCallUsingErfcx => "normalised_black_call_using_erfcx",
            Function::SmallTExpansionOfNormalisedBlackCall => {
                "small_t_expansion_of_normalised_black_call"
            }
            Function::AsymptoticExpansionOfNormalisedBlackCall => {
                "asymptotic_expansion_of_normalised_black_call"
            }
            Function::NormalisedBlackCall => "normalised_black_call",
            Function::NormalisedBlack => "normalised_black",
            Function::Black => "black",
            Function::RationalCubicInterpolation => "rational_cubic_interpolation",
            Function::MinimumRationalCubicControlParameter => {
                "minimum_rational_cubic_control_parameter"
            }
            Function::RationalCubicControlParameter => "rational_cubic_control_parameter",
            Function::ConvexRationalCubicControlParameter => {
                "convex_rational_cubic_control_parameter"
            }
            Function::Solve => "solve",
            Function::File => "file",
            Function::Recheck => "recheck",
            Function::Read => "read",
            Function::BidAsk => "bid_ask",
            Function::Board => "board",
            Function::SqrtDigits => "sqrt_digits",
            Function::SqrtAligned => "sqrt_aligned",
            Function::PackedRead => "packed_read",
            Function::PackedWrite => "packed_write",
        }
    }

    // Whether the function yields the line's answer.
    pub(crate) fn agrees(self, line: Line) -> bool {
        match self.answer(line) {
            Ok(bits) => line.number == 0 && line.bits == bits,
            Err(refused) => {
                line.number == refused.number as u64
                    && refused.left.is_none_or(|left| line.bits == left)
            }
        }
    }

    // What the function yields for the line's arguments; those that it has not are left unread.
    fn answer(self, line: Line) -> Answer {
        let [x, s, z, ..] = line.floats();
        match self {
            Function::ErfcAsPublished => Ok(erfc_as_published(line)),
            Function::BitsOf => float(x),
            Function::Abs => float(methods::abs(x)),
            Function::Max => float(methods::max(x, s)),
            Function::IsZero => Ok(methods::is_zero(x) as u64),
            Function::Powi2 => float(methods::powi_2(x)),
            Function::Floor => float(elementary::floor::floor(x)),
            Function::Sqrt => float(elementary::sqrt::sqrt(x)),
            Function::MulAdd => float(elementary::mul_add::mul_add(x, s, z)),
            Function::Exp => float(elementary::exp::exp(x)),
            Function::Ln => float(elementary::ln::ln(x)),
            Function::Powf13 => float(elementary::ln::powf_1_3(x)),
            Function::DInt => float(cody::d_int(x)),
            Function::SmoothenedExponentialOfNegativeSquare => {
                float(cody::smoothened_exponential_of_negative_square(x))
            }
            Function::SmoothenedExponentialOfPositiveSquare => {
                float(cody::smoothened_exponential_of_positive_square(x))
            }
            Function::Ab => float(cody::ab(x)),
            Function::Cd => float(cody::cd(x)),
            Function::Pq => float(cody::pq(x)),
            Function::ErfcxAboveThreshold => float(cody::erfcx_above_threshold(x)),
            Function::Erfc => float(cody::erfc(RULE_SET_0, x)),
            Function::Erfcx => float(cody::erfcx(x)),
            Function::StandardNormalCdf => {
                float(normal_distribution::standard_normal_cdf(RULE_SET_0, x))
            }
            Function::InverseNormalCdf => {
                float(normal_distribution::inverse_normal_cdf(RULE_SET_0, x))
            }
            Function::InverseFUpperMap => {
                float(normal_distribution::inverse_f_upper_map(RULE_SET_0, x))
            }
            Function::NormalisedIntrinsic => normalised_intrinsic(line),
            Function::NormalisedVega => float(vega::normalised_vega(x, s)),
            Function::NormalisedBlackCallWithOptimalUseOfCodysFunctions => float(
                black::normalised_black_call_with_optimal_use_of_codys_functions(RULE_SET_0, x, s),
            ),
            Function::NormalisedBlackCallUsingErfcx => {
                float(black::normalised_black_call_using_erfcx(x, s))
            }
            Function::SmallTExpansionOfNormalisedBlackCall => {
                float(black::small_t_expansion_of_normalised_black_call(x, s)?)
            }
            Function::AsymptoticExpansionOfNormalisedBlackCall => {
                float(black::asymptotic_expansion_of_normalised_black_call(x, s)?)
            }
            Function::NormalisedBlackCall => {
                float(black::normalised_black_call(RULE_SET_0, x, s)?)
            }
            Function::NormalisedBlack => normalised_black(line),
            Function::Black => black(line),
            Function::RationalCubicInterpolation => interpolation(line),
            Function::MinimumRationalCubicControlParameter => minimum_parameter(line),
            Function::RationalCubicControlParameter => control_parameter(line),
            Function::ConvexRationalCubicControlParameter => convex_parameter(line),
            Function::Solve => records::solve(line),
            Function::File => records::file(line),
            Function::Recheck => records::recheck(line),
            Function::Read => records::read(line),
            Function::BidAsk => records::bid_ask(line),
            Function::Board => boards::board(line),
            Function::SqrtDigits => Ok(sqrt_digits(line)),
            Function::SqrtAligned => Ok(sqrt_aligned(line)),
            Function::PackedRead => packed::read(line),
            Function::PackedWrite => packed::write(line),
        }
    }
}

impl fmt::Display for Function {
    fn fmt<W: fmt::Write>(&self, f: &mut fmt::Formatter<W>) -> fmt::Result {
        f.write_str(self.name())
    }
}

fn float(x: f64) -> Answer {
    Ok(bits_of(x))
}

// How many units in the last place erfc(x) is from the second argument, the float nearest to the true
// value; both are positive.
fn erfc_as_published(line: Line) -> u64 {
    let [x, nearest, ..] = line.arguments;
    bits_of(cody::erfc(RULE_SET_0, float_of(x))).abs_diff(nearest)
}

// ---- the square root, digit by digit

// x, and how many turns.
fn sqrt_digits(line: Line) -> u64 {
    let [x, ..] = line.floats();
    elementary::sqrt::sqrt_digits(x, (line.arguments[1] % 4294967296) as u32)
}

// x, and which word: 0 the significand, any other the exponent, as 32 bits have it.
fn sqrt_aligned(line: Line) -> u64 {
    let [x, ..] = line.floats();
    let aligned = elementary::sqrt::sqrt_aligned(x);
    match line.arguments[1] {
        0 => aligned.significand,
        _ => aligned.exponent.cast_unsigned() as u64,
    }
}

// ---- prices, a kind among their arguments

fn normalised_intrinsic(line: Line) -> Answer {
    let kind = option_type_in(line.arguments[1])?;
    let [x, ..] = line.floats();
    float(intrinsic::normalised_intrinsic(x, kind))
}

fn normalised_black(line: Line) -> Answer {
    let kind = option_type_in(line.arguments[2])?;
    let [x, s, ..] = line.floats();
    float(black::normalised_black(RULE_SET_0, x, s, kind)?)
}

fn black(line: Line) -> Answer {
    let kind = option_type_in(line.arguments[4])?;
    let [f, k, sigma, t, ..] = line.floats();
    float(black::black(RULE_SET_0, f, k, sigma, t, kind)?)
}

// ---- the rational cubic

fn interpolation(line: Line) -> Answer {
    let [x, x_l, x_r, y_l, y_r, d_l, d_r, r, _] = line.floats();
    float(rational_cubic::rational_cubic_interpolation(x, x_l, x_r, y_l, y_r, d_l, d_r, r)?)
}

fn minimum_parameter(line: Line) -> Answer {
    let [d_l, d_r, s, ..] = line.floats();
    float(rational_cubic::minimum_rational_cubic_control_parameter(
        d_l,
        d_r,
        s,
        line.arguments[3] != 0,
    ))
}

fn control_parameter(line: Line) -> Answer {
    let [x_l, x_r, y_l, y_r, d_l, d_r, second_derivative, ..] = line.floats();
    float(rational_cubic::rational_cubic_control_parameter(
        x_l,
        x_r,
        y_l,
        y_r,
        d_l,
        d_r,
        second_derivative,
        side_of(line.arguments[7]),
    ))
}

fn convex_parameter(line: Line) -> Answer {
    let [x_l, x_r, y_l, y_r, d_l, d_r, second_derivative, ..] = line.floats();
    float(rational_cubic::convex_rational_cubic_control_parameter(
        x_l,
        x_r,
        y_l,
        y_r,
        d_l,
        d_r,
        second_derivative,
        line.arguments[7] != 0,
        side_of(line.arguments[8]),
    ))
}

// A side by its word, as abi has it by its byte.
fn side_of(side: u64) -> Side {
    if side == 0 { Side::Left } else { Side::Right }
}
