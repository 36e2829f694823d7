// What this layer refuses, by document 01's numbers and document 02's, and with the completed steps.
ghost use Rattle.std.specs.Prelude.{◌≡◌};
ghost use Rattle.solver.specs.Answers.{number as number_of_refusal};
ghost use Rattle.solver.specs.declared.refusal.Refusal.TheVariants.{Pricing, OutsideTheLayout, UnknownRuleSet};

use elementary::rule_set::UnknownRuleSet;
use prices::inputs::UnknownKind;
use prices::refusal::Numbered;

#[derive(Clone, Copy, Debug, PartialEq, Eq)]
pub enum Refusal {
    // The price is not finite.
    Price,
    // What layer 2 refuses, of the market or of a price in it.
    Pricing(prices::refusal::Refusal),
    TrailTooShort,
    BookFull,
    NoSuchRecord,
    OutsideTheLayout,
    LowAboveHigh,
    // No rule set has the number that is given.
    UnknownRuleSet,
}

impl Numbered for Refusal {
    ghost number = { number_of_refusal };

    fn number(self) -> u8 {
        match self {
            Refusal::Price => 1,
            Refusal::Pricing(refusal) => refusal.number(),
            Refusal::TrailTooShort => 21,
            Refusal::BookFull => 22,
            Refusal::NoSuchRecord => 23,
            Refusal::OutsideTheLayout => 24,
            Refusal::LowAboveHigh => 31,
            Refusal::UnknownRuleSet => 32,
        }
    }
}

impl From<prices::refusal::Refusal> for Refusal {
    ghost from_gives = { λ refusal r. r ≡ Pricing refusal };

    fn from(refusal: prices::refusal::Refusal) -> Refusal {
        Refusal::Pricing(refusal)
    }
}

// A byte that says no kind lies outside of the layout.
impl From<UnknownKind> for Refusal {
    ghost from_gives = { λ _ r. r ≡ OutsideTheLayout };

    fn from(_byte: UnknownKind) -> Refusal {
        Refusal::OutsideTheLayout
    }
}

impl From<UnknownRuleSet> for Refusal {
    ghost from_gives = { λ _ r. r ≡ UnknownRuleSet };

    fn from(_number: UnknownRuleSet) -> Refusal {
        Refusal::UnknownRuleSet
    }
}

// A refusal, with the completed steps where a loop met it.
#[derive(Clone, Copy, Debug, PartialEq, Eq)]
pub struct Failure {
    pub refusal: Refusal,
    pub steps: u32,
}

impl From<UnknownKind> for Failure {
    ghost from_gives = { λ _ r. r ≡ record { refusal = OutsideTheLayout; steps = 0 } };

    fn from(byte: UnknownKind) -> Failure {
        Failure::from(Refusal::from(byte))
    }
}

impl From<UnknownRuleSet> for Failure {
    ghost from_gives = { λ _ r. r ≡ record { refusal = UnknownRuleSet; steps = 0 } };

    fn from(number: UnknownRuleSet) -> Failure {
        Failure::from(Refusal::from(number))
    }
}

// Before a loop.
impl From<prices::refusal::Refusal> for Failure {
    ghost from_gives = { λ refusal r. r ≡ record { refusal = Pricing refusal; steps = 0 } };

    fn from(refusal: prices::refusal::Refusal) -> Failure {
        Failure::from(Refusal::from(refusal))
    }
}

impl From<Refusal> for Failure {
    ghost from_gives = { λ refusal r. r ≡ record { refusal = refusal; steps = 0 } };

    fn from(refusal: Refusal) -> Failure {
        Failure { refusal, steps: 0 }
    }
}
