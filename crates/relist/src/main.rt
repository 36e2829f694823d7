// Records of 64 bytes from standard input, and a line for each on standard output. A last part under
// 64 bytes has a line too.
#![tactic(auto)]

ghost use Rattle.std.specs.Prelude.{◌≡◌, ◌+◌, ◌*◌, ◌≤◌, ◌<◌, length, IfOk};
ghost use Rattle.std.specs.ControlFlow.{MatchControlFlow};
ghost use Rattle.elementary.specs.RuleSets.{rule_set_0};
ghost use Rattle.solver.specs.LittleEndian.{overwritten};
ghost use Rattle.solver.specs.Listing.{line_of};
ghost use Rattle.relist.specs.Lines.{lines_of, step_of};
ghost use Rattle.relist.specs.Inside.Steps.{After, End};

use elementary::rule_set::RULE_SET_0;
use solver::listing::line;
use std::io;
use std::io::{Read, Stderr, Stdin, Stdout, Write};
use std::ops::ControlFlow;

const RECORD_BYTES: usize = 64;

// A block of input, and room for its lines: at most 101 bytes for 64, and 128 where `line` begins.
const BLOCK_BYTES: usize = 65536;

const LINES_BYTES: usize = 131200;

const BLOCK_RECORDS: u64 = 1024;

// Nothing says that an input ends, and a proved loop does: at a number that no run reaches.
const INDEX_END: u64 = 0x8000000000000000;

// Where a block leaves the run: it goes on with the next block, whose first number this is, or it ends
// at the block with this first number.
type Step = ControlFlow<u64, u64>;

fn main(rt: HostRuntime) {
    let mut block: [u8; BLOCK_BYTES] = [0; BLOCK_BYTES];
    let mut lines: [u8; LINES_BYTES] = [0; LINES_BYTES];
    relist(rt.stdin(), rt.stdout(), rt.stderr(), &mut block, &mut lines);
}

// Block after block, up to one at which the run ends, or until the numbers are used up.
fn relist(
    input: Stdin,
    output: Stdout,
    log: Stderr,
    block: &mut [u8; BLOCK_BYTES],
    lines: &mut [u8; LINES_BYTES],
) -> Step
    ensures { End result }
{
    // A `while`: each block answers the next one's number, which a range by steps would count a second time.
    let mut first: u64 = 0;
    while first < INDEX_END {
        first = relist_block(first, input, output, log, block, lines)?;
    }
    Step::Continue(first)
}

// Reads a block and writes its lines.
fn relist_block(
    first: u64,
    input: Stdin,
    mut output: Stdout,
    log: Stderr,
    block: &mut [u8; BLOCK_BYTES],
    lines: &mut [u8; LINES_BYTES],
) -> Step
    requires { first < 9223372036854775808 }
    ensures { After first block.new lines.old lines.new result }
{
    let n = go_on(fill(input, block), "read", log, first)?;
    let used = list(first, &block[..n], lines);
    go_on(output.write_all(&lines[..used]), "write", log, first)?;
    step_after(first, n)
}

// The value, or the run's end where there is none: what failed, and why, stands on standard error. Where
// that fails too, nobody is left to hear it.
fn go_on<T>(outcome: io::Result<T>, what: &str, log: Stderr, first: u64) -> ControlFlow<u64, T>
    ensures { MatchControlFlow result (λ v. outcome ≡ Ok v) (λ last. last ≡ first) }
{
    match outcome {
        Ok(value) => ControlFlow::Continue(value),
        Err(error) => {
            let _said = println!(log; "relist: {what}: {error}");
            ControlFlow::Break(first)
        }
    }
}

// A block that is not full is the last; behind a full one the numbers go on by its records.
fn step_after(first: u64, n: usize) -> Step
    requires first_bound { first < 9223372036854775808 }
    requires n_bound { n ≤ 65536 }
    ensures { result ≡ step_of first n }
{
    if n < BLOCK_BYTES {
        Step::Break(first)
    } else {
        Step::Continue(first + BLOCK_RECORDS)
    }
}

// Reads until the block is full, the input ends or a read fails, and answers how many bytes came.
fn fill(mut input: Stdin, block: &mut [u8]) -> io::Result<usize>
    ensures { IfOk result (λ n. n ≤ length block.new) }
{
    // A `while`: a read goes on by what it brought, and std's `read_to_end` needs a heap. samples has the same,
    // since no library reads under both programs.
    let mut count: usize = 0;
    while count < block.len() {
        match input.read(&mut block[count..])? {
            0 => break,
            n => count += n,
        }
    }
    Ok(count)
}

// The lines of a block from its start on, and how many bytes they have.
fn list(first: u64, block: &[u8], lines: &mut [u8]) -> usize
    requires block_bound { first + length block.now < 18446744073709551616 }
    requires block_in_bounds { 2 * length block.now + 128 ≤ length lines.old }
    ensures value { result ≡ length (lines_of first block.now) }
    ensures lines_after { lines.new ≡ overwritten 0 (lines_of first block.now) lines.old }
{
    let mut used: usize = 0;
    for (i, record) in block.chunks(RECORD_BYTES).enumerate() {
        used += line_at(first + i as u64, record, lines, used);
    }
    used
}

// The line of a record from a place on, and how many bytes it has.
fn line_at(index: u64, bytes: &[u8], lines: &mut [u8], at: usize) -> usize
    requires { at + 128 ≤ length lines.old }
    ensures value { result ≡ length (line_of rule_set_0 index bytes.now) }
    ensures lines_after { lines.new ≡ overwritten at (line_of rule_set_0 index bytes.now) lines.old }
{
    line(RULE_SET_0, index, bytes, &mut lines[at..])
}
