// What this crate refuses, by document 02's numbers.
ghost use Rattle.std.specs.Prelude.{◌≡◌};
ghost use Rattle.market.specs.Refusals.{number as number_of_refusal};

use prices::refusal::Numbered;

#[derive(Clone, Copy, Debug, PartialEq, Eq)]
pub enum Refusal {
    // The volatility of an arrival is NaN.
    Volatility = 33,
    // A quote of the series is live.
    SeriesLive = 34,
    // As many quotes are live as the board takes.
    BoardFull = 35,
    // 8 bytes with a digit above 9, another sign, or zero with minus.
    Packed = 36,
    // A price that is not finite, or needs more than 15 digits.
    Price = 37,
}

impl Numbered for Refusal {
    ghost number = { number_of_refusal };

    fn number(self) -> u8 {
        self as u8
    }
}
