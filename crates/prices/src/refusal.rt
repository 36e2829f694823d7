// Document 01's numbers for what this layer refuses.
ghost use Rattle.std.specs.Prelude.{◌≡◌, ℕ};
ghost use Rattle.prices.specs.Answers.{number as number_of_refusal};

// What has a number in document 01.
pub trait Numbered {
    ghost number: { Self → ℕ };

    fn number(self) -> u8
        ensures { result ≡ number self };
}

#[derive(Clone, Copy, Debug, PartialEq, Eq)]
pub enum Refusal {
    // The forward is not a positive normal number.
    Forward = 2,
    // The strike is not a positive normal number.
    Strike = 3,
    // The expiry is not a positive normal number.
    Expiry = 4,
    // Sigma is not finite.
    Sigma = 5,
    // x, x_l or x_r of the rational cubic is infinite.
    InfinitePlace = 6,
    // h and t lie outside of the asymptotic expansion's region.
    OutsideAsymptoticRegion = 7,
    // t is too large for the small-t expansion.
    TTooLarge = 8,
}

impl Numbered for Refusal {
    ghost number = { number_of_refusal };

    fn number(self) -> u8 {
        self as u8
    }
}
