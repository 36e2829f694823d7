// The list: a line has the function's number in two decimal digits, nine arguments and the answer's
// bits in sixteen hexadecimal digits each, and the number of a refusal in two decimal digits, a space
// between and a line feed at the end.
ghost use Rattle.std.specs.Prelude.{◌≡◌, ◌+◌, ◌<◌, ◌≤◌, length};

use elementary::methods::float_of;
use std::array;

// How many bytes a line has.
pub(crate) const WIDTH: usize = 176;

// What a line says of the function: words, a float by its bits; the number of a refusal is 0 where
// there is none. Both bits and number stand in every line, since a refusal leaves words behind too.
#[derive(Clone, Copy)]
pub(crate) struct Line {
    pub(crate) arguments: [u64; 9],
    pub(crate) bits: u64,
    pub(crate) number: u64,
}

impl Line {
    // The arguments as floats.
    pub(crate) fn floats(self) -> [f64; 9] {
        self.arguments.map(|word| float_of(word))
    }
}

// The number of the line's function.
pub(crate) fn function_in(line: &[u8]) -> u64
    requires { length line.now ≡ 176 }
{
    number_at(line, 0)
}

pub(crate) fn line_in(line: &[u8]) -> Line
    requires { length line.now ≡ 176 }
{
    Line {
        arguments: array::from_fn(|i| word_at(line, 3 + 17 * i)),
        bits: word_at(line, 156),
        number: number_at(line, 173),
    }
}

// The number in the two decimal digits from `at` on.
fn number_at(text: &[u8], at: usize) -> u64
    requires { at + 2 ≤ length text.now }
{
    digit(text[at]) * 10 + digit(text[at + 1])
}

// The number in the sixteen hexadecimal digits from `at` on.
fn word_at(text: &[u8], at: usize) -> u64
    requires { at + 16 ≤ length text.now }
{
    let digits = text[at..at + 16].iter();
    digits.fold(0, |word, b| (word << 4) | digit(*b))
}

// The value of a digit; what is none counts as 0. `to_digit` would read small letters too.
fn digit(b: u8) -> u64
    ensures { result < 16 }
{
    match b {
        b'0'..=b'9' => (b - b'0') as u64,
        b'A'..=b'F' => (b - b'A' + 10) as u64,
        _ => 0,
    }
}
