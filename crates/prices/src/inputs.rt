// The kind of an option.
ghost use Rattle.std.specs.Prelude.{◌≡◌};
ghost use Rattle.prices.specs.Inputs.{negated, times as times_of, kind_byte, kind_of};

use std::ops::{Mul, Neg};

#[derive(Clone, Copy, Debug, PartialEq, Eq)]
pub enum OptionType {
    Call,
    Put,
}

impl Neg for OptionType {
    type Output = Self;

    ghost neg_gives = { λ kind r. r ≡ negated kind };

    // The other kind.
    fn neg(self) -> Self {
        match self {
            OptionType::Call => OptionType::Put,
            OptionType::Put => OptionType::Call,
        }
    }
}

impl Mul<f64> for OptionType {
    type Output = f64;

    ghost mul_gives = { λ kind y r. r ≡ times_of kind y };

    // Call times y is 1 × y, Put times y is −1 × y.
    fn mul(self, y: f64) -> f64 {
        match self {
            OptionType::Call => 1.0 * y,
            OptionType::Put => -1.0 * y,
        }
    }
}

// A byte that says no kind.
#[derive(Clone, Copy, Debug, PartialEq, Eq)]
pub struct UnknownKind;

// Document 01's byte of a kind.
impl From<OptionType> for u8 {
    ghost from_gives = { λ kind byte. byte ≡ kind_byte kind };

    fn from(kind: OptionType) -> u8 {
        match kind {
            OptionType::Call => 1,
            OptionType::Put => 2,
        }
    }
}

impl TryFrom<u8> for OptionType {
    type Error = UnknownKind;

    ghost try_from_gives = { λ byte r. r ≡ kind_of byte };

    fn try_from(byte: u8) -> Result<Self, UnknownKind> {
        match byte {
            1 => Ok(OptionType::Call),
            2 => Ok(OptionType::Put),
            _ => Err(UnknownKind),
        }
    }
}
