// file, recheck, read and the line of relist. A book is a slice, a record's number and the used count
// are u64; number and steps of a refusal go to `outcome`.
ghost use Rattle.std.specs.Prelude.{◌≡◌};
ghost use Rattle.elementary.specs.RuleSets.{rule_set_0, rule_set_of};
ghost use Rattle.prices.specs.Answers.{number_by};
ghost use Rattle.solver.specs.Answers.{number as number_of_refusal, filing_used};
ghost use Rattle.solver.specs.Book.{recheck_of, read_of};
ghost use Rattle.solver.specs.Listing.{line_in};
ghost use Rattle.abi.specs.Solutions.{filing_outcome, checking_outcome, agrees_byte, asked_by, file_for, place_of};

use crate::product::solve::{asked_by, outcome_of_failure};
use elementary::rule_set::{RULE_SET_0, RuleSet, UnknownRuleSet};
use prices::inputs::UnknownKind;
use prices::refusal::Numbered;
use solver::book::{file, read, recheck};
use solver::listing::line;
use solver::quote::Quote;
use solver::refusal::Failure;

// The used count after it, 0 where it is refused.
fn export_filing(answer: Result<u64, Failure>, outcome: &mut u64) -> u64
    ensures value { result ≡ filing_used answer }
    ensures outcome_after { outcome.new ≡ filing_outcome answer }
{
    *outcome = answer.err().map_or(0, outcome_of_failure);
    answer.unwrap_or(0)
}

fn file_for(
    set: Result<RuleSet, UnknownRuleSet>,
    asked: Result<Quote, UnknownKind>,
    limit: i32,
    book: &mut [u8],
    used: u64,
) -> Result<u64, Failure>
    ensures value { result ≡ (file_for set asked limit book.old used).answer }
    ensures book_after { book.new ≡ (file_for set asked limit book.old used).book }
{
    file(set?, asked?, limit, book, used)
}

#[unsafe(no_mangle)]
pub extern "C" fn gintubalos_file(
    price: u64,
    forward: u64,
    strike: u64,
    expiry: u64,
    kind: u8,
    limit: i32,
    rule_set: u32,
    book: &mut [u8],
    used: u64,
    outcome: &mut u64,
) -> u64
    ensures value { result ≡ filing_used (file_for (rule_set_of rule_set) (asked_by price forward strike expiry kind) limit book.old used).answer }
    ensures outcome_after { outcome.new ≡ filing_outcome (file_for (rule_set_of rule_set) (asked_by price forward strike expiry kind) limit book.old used).answer }
    ensures book_after { book.new ≡ (file_for (rule_set_of rule_set) (asked_by price forward strike expiry kind) limit book.old used).book }
{
    let asked = asked_by(price, forward, strike, expiry, kind);
    let set = RuleSet::try_from(rule_set);
    export_filing(file_for(set, asked, limit, book, used), outcome)
}

// 1 where it agrees; 0 where it differs or is refused.
fn export_checking(answer: Result<bool, Failure>, outcome: &mut u64) -> u8
    ensures value { result ≡ agrees_byte answer }
    ensures outcome_after { outcome.new ≡ checking_outcome answer }
{
    *outcome = answer.err().map_or(0, outcome_of_failure);
    answer.unwrap_or(false) as u8
}

#[unsafe(no_mangle)]
pub extern "C" fn gintubalos_recheck(
    book: &[u8],
    used: u64,
    k: u64,
    rule_set: u32,
    outcome: &mut u64,
) -> u8
    ensures value { result ≡ agrees_byte (recheck_of rule_set book.now used k) }
    ensures outcome_after { outcome.new ≡ checking_outcome (recheck_of rule_set book.now used k) }
{
    export_checking(recheck(rule_set, book, used, k), outcome)
}

// The byte at which record k's own part begins, and 0 in `number`; or 0, and 23 there: C has no Result.
#[unsafe(no_mangle)]
pub extern "C" fn gintubalos_read(book: &[u8], used: u64, k: u64, number: &mut u8) -> u64
    ensures value { result ≡ place_of (read_of book.now used k) k }
    ensures number_after { number.new ≡ number_by number_of_refusal (read_of book.now used k) }
{
    match read(book, used, k) {
        Ok(_) => {
            *number = 0;
            k * 64
        }
        Err(refusal) => {
            *number = refusal.number();
            0
        }
    }
}

// Writes the line of record `index` to the start of `out`; its length.
#[unsafe(no_mangle)]
pub extern "C" fn gintubalos_line(index: u64, bytes: &[u8], out: &mut [u8]) -> usize
    ensures value { result ≡ (line_in rule_set_0 index bytes.now out.old).count }
    ensures out_after { out.new ≡ (line_in rule_set_0 index bytes.now out.old).bytes }
{
    line(RULE_SET_0, index, bytes, out)
}
