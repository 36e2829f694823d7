// The book: file, recheck and read, over records of 64 bytes.
ghost use Rattle.std.specs.Prelude.{◌≡◌, ◌+◌, ◌*◌, ◌≤◌, length, MatchResult};
ghost use Rattle.std.specs.Int.{w32, cast_signed};
ghost use Rattle.solver.specs.Solve.{solve_of, steps_of};
ghost use Rattle.solver.specs.LittleEndian.{part, number_at};
ghost use Rattle.solver.specs.Book.{book_record_bytes, quote_in, all_zero, in_layout, filed_steps, filed_quote, record_exists, solve_record, agrees as agrees_of, check_record, read_of, recheck_of, file_answer, file_of};

use crate::answers::{Branch, Ending, ImpliedVolatility};
use crate::little_endian::{float_at, number_at, put_float};
use crate::quote::Quote;
use crate::refusal::{Failure, Refusal};
use crate::solve::{check_input, solve, steps_of};
use elementary::methods::bits_of;
use elementary::rule_set::RuleSet;
use prices::inputs::OptionType;
use prices::refusal::Numbered;

// The bytes of a record.
pub(crate) const RECORD_BYTES: usize = 64;

// ---- a record's bytes

fn book_record(quote: Quote, limit: i32, a: ImpliedVolatility) -> [u8; RECORD_BYTES]
    ensures { result ≡ book_record_bytes quote limit a }
{
    let mut record = [0; RECORD_BYTES];
    put_float(&mut record, 0, quote.price);
    put_float(&mut record, 8, quote.forward);
    put_float(&mut record, 16, quote.strike);
    put_float(&mut record, 24, quote.expiry);
    put_float(&mut record, 32, a.volatility);
    record[40..44].copy_from_slice(&limit.to_le_bytes());
    record[44..48].copy_from_slice(&a.steps.to_le_bytes());
    record[48] = u8::from(quote.option_type);
    record[49] = a.branch.number();
    record[50] = a.ending.number();
    record
}

// ---- a record read

// The limit that a record was filed with.
fn limit_in(r: &[u8; RECORD_BYTES]) -> i32
    ensures { result ≡ cast_signed w32 (number_at 40 4 r.now) }
{
    i32::from_le_bytes([r[40], r[41], r[42], r[43]])
}

// How many steps it allows.
fn filed_steps(r: &[u8; RECORD_BYTES]) -> u32
    ensures { result ≡ filed_steps r.now }
{
    steps_of(limit_in(r))
}

// Whether the spare bytes, 51 to 63, are zero.
fn is_spare_zero(r: &[u8; RECORD_BYTES]) -> bool
    ensures { result ≡ all_zero (part 51 13 r.now) }
{
    r[51..64].iter().all(|byte| *byte == 0)
}

// No 24: branch, ending and spare bytes are inside the layout.
fn in_layout(r: &[u8; RECORD_BYTES]) -> bool
    ensures { result ≡ in_layout r.now }
{
    r[49] <= Branch::UpperRest.number() && r[50] <= Ending::Limit.number() && is_spare_zero(r)
}

// The quote of a record of this kind.
fn quote_in(r: &[u8; RECORD_BYTES], option_type: OptionType) -> Quote
    ensures { result ≡ quote_in r.now option_type }
{
    Quote {
        price: float_at(r, 0),
        forward: float_at(r, 8),
        strike: float_at(r, 16),
        expiry: float_at(r, 24),
        option_type,
    }
}

// What a record was filed for, or 24.
fn filed_quote(r: &[u8; RECORD_BYTES]) -> Result<Quote, Refusal>
    ensures { result ≡ filed_quote r.now }
{
    let option_type = OptionType::try_from(r[48])?;
    if !in_layout(r) {
        return Err(Refusal::OutsideTheLayout);
    }
    Ok(quote_in(r, option_type))
}

// Solves a record again: 24, then what solve refuses.
pub(crate) fn solve_record(
    set: RuleSet,
    r: &[u8; RECORD_BYTES],
) -> Result<ImpliedVolatility, Failure>
    ensures { result ≡ solve_record set r.now }
{
    solve(set, filed_quote(r)?, filed_steps(r))
}

// Whether bytes 32 to 39, 44 to 47, 49 and 50 are this answer's.
fn agrees(r: &[u8; RECORD_BYTES], a: ImpliedVolatility) -> bool
    ensures { result ≡ agrees_of r.now a }
{
    (number_at(r, 32, 8) == bits_of(a.volatility))
        & (number_at(r, 44, 4) == a.steps as u64)
        & (r[49] == a.branch.number())
        & (r[50] == a.ending.number())
}

// ---- the book: lent bytes, and beside them the count of the records in use, as in document 01 and in C

// Solves, files the solution in slot `used` and answers used + 1. A refusal leaves the book as it was. That the slot
// is a whole one, `file` has tested, and nobody else asks.
fn file_in_slot(
    set: RuleSet,
    quote: Quote,
    limit: i32,
    book: &mut [u8],
    used: u64,
) -> Result<u64, Failure>
    requires { used * 64 + 64 ≤ length book.old }
    ensures value { result ≡ (file_answer quote limit book.old used (solve_of set quote (steps_of limit)).answer).answer }
    ensures book_after { book.new ≡ (file_answer quote limit book.old used (solve_of set quote (steps_of limit)).answer).book }
{
    let a = solve(set, quote, steps_of(limit))?;
    // A range and no chunk: as_chunks_mut doesn't say what the book is after a write.
    let at = used as usize * RECORD_BYTES;
    book[at..at + RECORD_BYTES].copy_from_slice(&book_record(quote, limit, a));
    Ok(used + 1)
}

// Files the solution in slot `used` and answers used + 1, or a refusal: of the input, 23, 22, then
// solve's. A refusal leaves the book as it was.
pub fn file(
    set: RuleSet,
    quote: Quote,
    limit: i32,
    book: &mut [u8],
    used: u64,
) -> Result<u64, Failure>
    ensures value { result ≡ (file_of quote limit book.old used set).answer }
    ensures book_after { book.new ≡ (file_of quote limit book.old used set).book }
{
    check_input(quote)?;
    let slots = (book.len() / RECORD_BYTES) as u64;
    if used > slots {
        return Err(Failure::from(Refusal::NoSuchRecord));
    }
    if used == slots {
        return Err(Failure::from(Refusal::BookFull));
    }
    file_in_slot(set, quote, limit, book, used)
}

// No 23: record k is among the used ones, and these are whole slots of the book.
fn record_exists(book: &[u8], used: u64, k: u64) -> bool
    ensures { result ≡ record_exists book.now used k }
{
    k < used && used <= (book.len() / RECORD_BYTES) as u64
}

// Record k of the book, or 23.
fn record(book: &[u8], used: u64, k: u64) -> Result<&[u8; RECORD_BYTES], Refusal>
    ensures { MatchResult result (λ r. Ok r.now ≡ read_of book.now used k) (λ refusal. Err refusal ≡ read_of book.now used k) }
{
    if !record_exists(book, used, k) {
        return Err(Refusal::NoSuchRecord);
    }
    Ok(&book.as_chunks::<RECORD_BYTES>().0[k as usize])
}

// Solves a record again, under the rule set of this number, and says whether the answer is the filed one: 24, 32, then
// what solve refuses.
fn check_record(rule_set: u32, r: &[u8; RECORD_BYTES]) -> Result<bool, Failure>
    ensures { result ≡ check_record rule_set r.now }
{
    let quote = filed_quote(r)?;
    let set = RuleSet::try_from(rule_set)?;
    let a = solve(set, quote, filed_steps(r))?;
    Ok(agrees(r, a))
}

// Record k's own part of the book, or 23.
pub fn read(book: &[u8], used: u64, k: u64) -> Result<&[u8], Refusal>
    ensures { MatchResult result (λ part. Ok part.now ≡ read_of book.now used k) (λ refusal. Err refusal ≡ read_of book.now used k) }
{
    Ok(record(book, used, k)?)
}

// Solves record k again: whether what is filed agrees, or a refusal: 23, 24, 32, of the input, then 6 or 7. The rule set
// comes as its number, since 32 is no earlier.
pub fn recheck(rule_set: u32, book: &[u8], used: u64, k: u64) -> Result<bool, Failure>
    ensures { result ≡ recheck_of rule_set book.now used k }
{
    check_record(rule_set, record(book, used, k)?)
}
