// Replays answers of the Rust, and of a live board, the square root's digits and packed prices written from document 02's
// text: standard input has a line for each, as `differential --samples` writes them. For each function it prints how many
// there are and whether all agree.
#![tactic(auto)]

mod boards;
mod functions;
mod list;
mod packed;
mod records;

ghost use Rattle.std.specs.Prelude.{◌≤◌, length, IfOk};

use functions::{ALL, Function};
use list::{WIDTH, function_in, line_in};
use std::io::{Read, Stdin, Stdout};
use std::{fmt, io};

// The lines of one function, and how many of them have the answer that the proved function gives.
#[derive(Clone, Copy)]
struct Tally {
    count: u64,
    agree: u64,
}

// The count alone where all agree.
impl fmt::Display for Tally {
    fn fmt<W: fmt::Write>(&self, f: &mut fmt::Formatter<W>) -> fmt::Result {
        if self.agree != self.count {
            write!(f, "{} of ", self.agree)?;
        }
        write!(f, "{}", self.count)
    }
}

fn main(rt: HostRuntime) -> io::Result<()> {
    let mut buffer = empty_buffer();
    let n = read_full(rt.stdin(), &mut buffer)?;
    report(rt.stdout(), &buffer[..n])
}

// A function of its own, so that no proof has to count through the zeros.
fn empty_buffer() -> [u8; 524288] {
    [0; 524288]
}

// Reads until the buffer is full or the input ends, and answers how many bytes came.
fn read_full(mut input: Stdin, buffer: &mut [u8]) -> io::Result<usize>
    ensures { IfOk result (λ n. n ≤ length buffer.new) }
{
    // A `while`: a read goes on by what it brought, and std's `read_to_end` needs a heap. relist has the same,
    // since no library reads under both programs.
    let mut done: usize = 0;
    while done < buffer.len() {
        match input.read(&mut buffer[done..])? {
            0 => break,
            n => done += n,
        }
    }
    Ok(done)
}

fn report(output: Stdout, text: &[u8]) -> io::Result<()> {
    for function in ALL {
        let tally = tally_of(text, function);
        println!(output; "{function} {tally} agree")?;
    }
    Ok(())
}

fn tally_of(text: &[u8], function: Function) -> Tally
    ensures { result.agree ≤ result.count }
{
    let mut tally = Tally { count: 0, agree: 0 };
    for line in text.chunks_exact(WIDTH) {
        if function_in(line) == function as u64 {
            tally.count += 1;
            if function.agrees(line_in(line)) {
                tally.agree += 1;
            }
        }
    }
    tally
}
