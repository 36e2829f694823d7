// solve with its trail, file, recheck, read, and bid and ask with their trails, a word of what they leave to a line of the
// list.
ghost use Rattle.std.specs.Prelude.{◌≡◌, ◌*◌};

use crate::list::Line;
use elementary::methods::bits_of;
use elementary::rule_set::{RuleSet, UnknownRuleSet};
use prices::inputs::{OptionType, UnknownKind};
use prices::refusal::Numbered;
use solver::answers::{Ends, ImpliedVolatility};
use solver::bid_ask::{high_end, low_end, solve_range_with_trails};
use solver::quote::{Quote, QuoteRange};
use solver::refusal::{Failure, Refusal};
use solver::solve::{solve_with_trail, steps_of};

// A word that a function answers, or why it answers none.
pub(crate) type Answer = Result<u64, Refused>;

// The number of a refusal, and the word that the line asks for of what the function left; prices leave nothing.
#[derive(Clone, Copy)]
pub(crate) struct Refused {
    pub(crate) number: u8,
    pub(crate) left: Option<u64>,
}

impl From<UnknownKind> for Refused {
    fn from(kind: UnknownKind) -> Refused {
        Refused {
            number: Refusal::from(kind).number(),
            left: None,
        }
    }
}

impl From<prices::refusal::Refusal> for Refused {
    fn from(refusal: prices::refusal::Refusal) -> Refused {
        Refused {
            number: refusal.number(),
            left: None,
        }
    }
}

// A refusal's number with a word beside it.
pub(crate) fn refused_with(number: u8, left: u64) -> Answer {
    Err(Refused {
        number,
        left: Some(left),
    })
}

// Word i of some bytes, 0 where they do not reach so far.
fn nth_word(bytes: &[u8], i: u64) -> u64 {
    let (words, _) = bytes.as_chunks::<8>();
    words
        .get(i as usize)
        .map_or(0, |word| u64::from_le_bytes(*word))
}

// A small count stands for itself, any other word for -1.
fn limit_of(word: u64) -> i32 {
    if word < 1000 { word as i32 } else { -1 }
}

// The kind that a word says; none where it is no byte.
pub(crate) fn option_type_in(word: u64) -> Result<OptionType, UnknownKind> {
    match u8::try_from(word) {
        Ok(byte) => OptionType::try_from(byte),
        Err(_) => Err(UnknownKind),
    }
}

// ---- solve

// The word of a solve that a line asks for.
#[derive(Clone, Copy)]
enum Asked {
    Volatility,
    Outcome,
    // A word of the trail.
    Trail(u64),
}

impl From<u64> for Asked {
    fn from(which: u64) -> Asked {
        match which {
            0 => Asked::Volatility,
            1 => Asked::Outcome,
            _ => Asked::Trail(which - 2),
        }
    }
}

// Branch, ending and steps in one number, since the list has one word for them.
fn outcome(answer: ImpliedVolatility) -> u64 {
    answer.branch.number() as u64 + answer.ending.number() as u64 * 256 + steps_word(answer.steps)
}

fn steps_word(steps: u32) -> u64
    ensures { result ≡ steps * 65536 }
{
    steps as u64 * 65536
}

fn word_of(answer: Result<ImpliedVolatility, Failure>, asked: Asked, trail: &[u8]) -> Answer {
    match answer {
        Ok(a) => Ok(match asked {
            Asked::Volatility => bits_of(a.volatility),
            Asked::Outcome => outcome(a),
            Asked::Trail(i) => nth_word(trail, i),
        }),
        Err(failure) => refused_with(
            failure.refusal.number(),
            match asked {
                Asked::Volatility => 0,
                Asked::Outcome => steps_word(failure.steps),
                Asked::Trail(i) => nth_word(trail, i),
            },
        ),
    }
}

// The rule set of a number; one of more than 32 bits has none.
fn rule_set_of(number: u64) -> Result<RuleSet, UnknownRuleSet> {
    RuleSet::try_from(u32::try_from(number).map_err(|_| UnknownRuleSet)?)
}

fn quote_in(line: Line) -> Result<Quote, UnknownKind> {
    let option_type = option_type_in(line.arguments[4])?;
    let [price, forward, strike, expiry, ..] = line.floats();
    Ok(Quote {
        price,
        forward,
        strike,
        expiry,
        option_type,
    })
}

fn solve_line(line: Line, trail: &mut [u8]) -> Result<ImpliedVolatility, Failure> {
    let limit = steps_of(limit_of(line.arguments[5]));
    let set = rule_set_of(line.arguments[8])?;
    solve_with_trail(set, quote_in(line)?, limit, trail)
}

// Price, forward, strike, expiry, kind, limit, the trail's bytes, which word, and the rule set. The trail
// has 165 in each byte before. 0 where the line asks for a longer trail than there is.
pub(crate) fn solve(line: Line) -> Answer {
    let mut trail = [165u8; 960];
    let Some(part) = trail.get_mut(..line.arguments[6] as usize) else {
        return Ok(0);
    };
    let answer = solve_line(line, part);
    word_of(answer, Asked::from(line.arguments[7]), &trail)
}

// ---- the book

fn file_line(line: Line, book: &mut [u8]) -> Result<u64, Failure> {
    let limit = limit_of(line.arguments[5]);
    let set = rule_set_of(line.arguments[8])?;
    solver::book::file(set, quote_in(line)?, limit, book, line.arguments[6])
}

// Price, forward, strike, expiry, kind, limit, the used count, which word, and the rule set. Word 0 is the
// count after it, any other one of the book, which has three slots and a part, with 90 in each byte before.
pub(crate) fn file(line: Line) -> Answer {
    let mut book = [90u8; 200];
    let answer = file_line(line, &mut book);
    let word = line.arguments[7].checked_sub(1).map(|i| nth_word(&book, i));
    match answer {
        Ok(used) => Ok(word.unwrap_or(used)),
        Err(failure) => refused_with(failure.refusal.number(), word.unwrap_or(0)),
    }
}

// The eight words of a record, and the record's number in a book that has this one alone, with 2^32 times
// the rule set.
pub(crate) fn recheck(line: Line) -> Answer {
    let [a, b, c, d, e, f, g, h, number] = line.arguments;
    let book = [a, b, c, d, e, f, g, h].map(|word| word.to_le_bytes());
    let rule_set = (number >> 32) as u32;
    match solver::book::recheck(rule_set, book.as_flattened(), 1, number & 4294967295) {
        Ok(agrees) => Ok(agrees as u64),
        Err(failure) => refused_with(failure.refusal.number(), 0),
    }
}

// The used count, the record's number, and which word of the part, in a book of three slots and a part
// whose words 0, 8, 16 and 24 have 1, 2, 3 and 4.
pub(crate) fn read(line: Line) -> Answer {
    let mut book = [0u8; 200];
    book[0] = 1;
    book[64] = 2;
    book[128] = 3;
    book[192] = 4;
    let [used, number, which, ..] = line.arguments;
    match solver::book::read(&book, used, number) {
        Ok(part) => Ok(nth_word(part, which)),
        Err(refusal) => refused_with(refusal.number(), 0),
    }
}

// ---- bid and ask

fn range_in(line: Line) -> Result<QuoteRange, UnknownKind> {
    let option_type = option_type_in(line.arguments[5])?;
    let [low, high, forward, strike, expiry, ..] = line.floats();
    Ok(QuoteRange {
        low,
        high,
        forward,
        strike,
        expiry,
        option_type,
    })
}

fn bid_ask_line(line: Line, low_trail: &mut [u8], high_trail: &mut [u8]) -> Result<Ends, Refusal> {
    let limit = steps_of(limit_of(line.arguments[6]));
    let set = rule_set_of(line.arguments[7] >> 32)?;
    solve_range_with_trails(set, range_in(line)?, limit, low_trail, high_trail)
}

// With the parts of the trails that the line says; nothing where it asks for more than there is.
fn bid_ask_in(
    line: Line,
    low_trail: &mut [u8],
    high_trail: &mut [u8],
) -> Option<Result<Ends, Refusal>> {
    let lengths = line.arguments[7];
    let low = low_trail.get_mut(..(lengths % 65536) as usize)?;
    let high = high_trail.get_mut(..(lengths / 65536 % 65536) as usize)?;
    Some(bid_ask_line(line, low, high))
}

// Which words there are: 0 and 1 the low volatility and outcome, 2 and 3 the high ones; from 4 on the
// words of the trails by turns, the low one's first.
fn is_of_high(which: u64) -> bool {
    if which < 4 {
        which >= 2
    } else {
        which % 2 == 1
    }
}

// The same word of a single solve.
fn word_of_end(which: u64) -> Asked {
    Asked::from(if which < 4 { which % 2 } else { which / 2 })
}

// Low, high, forward, strike, expiry, kind, limit, the bytes of the low trail with 65536 times those of the
// high one and 2^32 times the rule set, and which word. Before, the low trail has 165 in each byte and the
// high one 90.
pub(crate) fn bid_ask(line: Line) -> Answer {
    let mut low_trail = [165u8; 960];
    let mut high_trail = [90u8; 960];
    let Some(answer) = bid_ask_in(line, &mut low_trail, &mut high_trail) else {
        return Ok(0);
    };
    let which = line.arguments[8];
    if is_of_high(which) {
        word_of(high_end(answer), word_of_end(which), &high_trail)
    } else {
        word_of(low_end(answer), word_of_end(which), &low_trail)
    }
}
