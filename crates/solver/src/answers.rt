// What solve answers, and the bid and ask call.
ghost use Rattle.std.specs.Prelude.{◌≡◌};
ghost use Rattle.solver.specs.Answers.{branch_number, ending_number};

use crate::refusal::Failure;
use prices::refusal::Numbered;

// The loop that found a volatility, or none: 2 and 3 lie below and above the middle, 5 is what branch 4
// leaves of the upper tail. None is a case among them and no Option, since document 01 numbers it with them,
// in the answer, in a record and in a line.
#[derive(Clone, Copy, Debug, PartialEq, Eq)]
pub enum Branch {
    NoLoop = 0,
    Lower = 1,
    LowerMiddle = 2,
    UpperMiddle = 3,
    Upper = 4,
    UpperRest = 5,
}

impl Numbered for Branch {
    ghost number = { branch_number };

    fn number(self) -> u8 {
        self as u8
    }
}

// How the loop ended, if there was one: by its step test or by its limit. None is a case here too, as of `Branch`.
#[derive(Clone, Copy, Debug, PartialEq, Eq)]
pub enum Ending {
    NoLoop = 0,
    StepTest = 1,
    Limit = 2,
}

impl Numbered for Ending {
    ghost number = { ending_number };

    fn number(self) -> u8 {
        self as u8
    }
}

// A volatility, the branch whose loop found it, how that loop ended, and its completed steps.
#[derive(Clone, Copy)]
pub struct ImpliedVolatility {
    pub volatility: f64,
    pub branch: Branch,
    pub ending: Ending,
    pub steps: u32,
}

// What solve answers at a low and at a high price.
#[derive(Clone, Copy)]
pub struct Ends {
    pub low: Result<ImpliedVolatility, Failure>,
    pub high: Result<ImpliedVolatility, Failure>,
}
