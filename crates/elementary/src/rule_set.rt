// What a rule set (document 02's term) decides. Every function that it concerns takes it by value.
ghost use Rattle.std.specs.Prelude.{◌≡◌};
ghost use Rattle.elementary.specs.RuleSets.{rule_set_of};

#[derive(Clone, Copy)]
pub struct RuleSet {
    // From which price on solve looks for no volatility: the textbook's forward for a Call and strike
    // for a Put, or the Rust's strike for a Call and forward for a Put.
    pub textbook_cap: bool,
    // Whether erfc's exponential factor multiplies the 0 of its far arm too, so that erfc is NaN from
    // 2^1020 on, where the factor is.
    pub far_factor: bool,
}

// The rules of document 01, which are the Rust's.
pub const RULE_SET_0: RuleSet = RuleSet {
    textbook_cap: false,
    far_factor: true,
};

// Caps by the textbook, else rule set 0.
pub const RULE_SET_1: RuleSet = RuleSet {
    textbook_cap: true,
    far_factor: true,
};

// A number that no rule set has.
#[derive(Clone, Copy, Debug, PartialEq, Eq)]
pub struct UnknownRuleSet;

impl TryFrom<u32> for RuleSet {
    type Error = UnknownRuleSet;

    ghost try_from_gives = { λ number r. r ≡ rule_set_of number };

    fn try_from(number: u32) -> Result<Self, UnknownRuleSet> {
        match number {
            0 => Ok(RULE_SET_0),
            1 => Ok(RULE_SET_1),
            _ => Err(UnknownRuleSet),
        }
    }
}
