// A line of relist, byte by byte.
ghost use Rattle.std.specs.Prelude.{◌≡◌, [], ◌∷◌, ◌+◌, ◌≤◌, length};
ghost use Rattle.solver.specs.LittleEndian.{overwritten};
ghost use Rattle.solver.specs.Listing.{decimal_by, hex_digit, hex_by, space_and_count, answer_bytes, answer_at, line_in};

use crate::answers::ImpliedVolatility;
use crate::book::{RECORD_BYTES, solve_record};
use crate::refusal::{Failure, Refusal};
use elementary::methods::bits_of;
use elementary::rule_set::RuleSet;
use prices::refusal::Numbered;

// The bytes that any line fits in.
const LINE_BYTES: usize = 128;

// A byte at `at`, and the place after it.
// Methods of a struct with both were proved, and 2 to 3 ns a line slower, as each byte loads and stores the place.
fn put_byte(out: &mut [u8], at: usize, byte: u8) -> usize
    requires { at + 1 ≤ length out.old }
    ensures value { result ≡ at + 1 }
    ensures out_after { out.new ≡ overwritten at (byte ∷ []) out.old }
{
    out[at] = byte;
    at + 1
}

// The same for several bytes.
fn put_text(out: &mut [u8], at: usize, text: &[u8]) -> usize
    requires { at + length text.now ≤ length out.old }
    ensures value { result ≡ at + length text.now }
    ensures out_after { out.new ≡ overwritten at text.now out.old }
{
    let end = at + text.len();
    out[at..end].copy_from_slice(text);
    end
}

// A number of at most `digits` digits in decimal, and the place after it.
// By hand, as put_hex: std's printing says what it writes only where it answers Ok, never that it does; itoa would be a
// dependency of the layer for one function, and writes no hexadecimal.
fn put_decimal(out: &mut [u8], at: usize, digits: usize, n: u64) -> usize
    requires { at + digits ≤ length out.old }
    ensures value { result ≡ at + length (decimal_by digits n) }
    ensures out_after { out.new ≡ overwritten at (decimal_by digits n) out.old }
{
    if digits == 0 {
        return at;
    }
    if n < 10 {
        return put_byte(out, at, b'0' + n as u8);
    }
    let end = put_decimal(out, at, digits - 1, n / 10);
    put_byte(out, end, b'0' + (n % 10) as u8)
}

fn hex_digit(d: u8) -> u8
    requires { d ≤ 15 }
    ensures { result ≡ hex_digit d }
{
    if d < 10 { b'0' + d } else { b'A' + (d - 10) }
}

// The last `digits` hexadecimal digits of a number, and the place after them.
fn put_hex(out: &mut [u8], at: usize, digits: usize, n: u64) -> usize
    requires { at + digits ≤ length out.old }
    ensures value { result ≡ at + length (hex_by digits n) }
    ensures out_after { out.new ≡ overwritten at (hex_by digits n) out.old }
{
    if digits == 0 {
        return at;
    }
    let end = put_hex(out, at, digits - 1, n / 16);
    put_byte(out, end, hex_digit((n % 16) as u8))
}

// A space and a decimal count.
fn put_space_and_count(out: &mut [u8], at: usize, n: u64) -> usize
    requires { at + 21 ≤ length out.old }
    ensures value { result ≡ at + length (space_and_count n) }
    ensures out_after { out.new ≡ overwritten at (space_and_count n) out.old }
{
    let end = put_byte(out, at, b' ');
    put_decimal(out, end, 20, n)
}

// What follows the record number, but for the line feed.
fn put_answer(out: &mut [u8], at: usize, answer: Result<ImpliedVolatility, Failure>) -> usize
    requires { at + 80 ≤ length out.old }
    ensures value { result ≡ at + length (answer_bytes answer) }
    ensures out_after { out.new ≡ overwritten at (answer_bytes answer) out.old }
{
    match answer {
        Ok(a) => {
            let end = put_byte(out, at, b' ');
            let end = put_hex(out, end, 16, bits_of(a.volatility));
            let end = put_space_and_count(out, end, a.steps as u64);
            let end = put_space_and_count(out, end, a.branch.number() as u64);
            put_space_and_count(out, end, a.ending.number() as u64)
        }
        Err(failure) => {
            let end = put_text(out, at, b" REF");
            put_space_and_count(out, end, failure.refusal.number() as u64)
        }
    }
}

// What the record answers; a part under 64 bytes 23.
fn answer_of(set: RuleSet, bytes: &[u8]) -> Result<ImpliedVolatility, Failure>
    ensures { result ≡ answer_at set bytes.now }
{
    let Some(r) = bytes.first_chunk::<RECORD_BYTES>() else {
        return Err(Failure::from(Refusal::NoSuchRecord));
    };
    solve_record(set, r)
}

// Writes the line of record `index` to the start of `out` and answers its length. An `out` under 128
// bytes stays as it is, and the answer is 0.
pub fn line(set: RuleSet, index: u64, bytes: &[u8], out: &mut [u8]) -> usize
    ensures value { result ≡ (line_in set index bytes.now out.old).count }
    ensures out_after { out.new ≡ (line_in set index bytes.now out.old).bytes }
{
    if out.len() < LINE_BYTES {
        return 0;
    }
    let end = put_decimal(out, 0, 20, index);
    let end = put_answer(out, end, answer_of(set, bytes));
    put_byte(out, end, b'\n')
}
