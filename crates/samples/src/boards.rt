// The calls of the live board, on one that some quotes fill first.
use crate::list::Line;
use crate::records::{Answer, refused_with};
use elementary::methods::{bits_of, float_of};
use market::board::{BOARD_BYTES, LiveQuote, arrive, highest, leave};
use market::refusal::Refusal;
use prices::refusal::Numbered;

// The volatilities that a call's digit names: both zeros, 0.2, 0.3, 0.96875 as the highest of those that fill
// the board, 1, both infinities, both least subnormals, −1, and three NaNs. 0 and 15 name other calls.
const VOLATILITIES: [u64; 16] = [
    0,
    0,
    0x8000000000000000,
    0x3FC999999999999A,
    0x3FD3333333333333,
    0x3FEF000000000000,
    0x3FF0000000000000,
    0x7FF0000000000000,
    0xFFF0000000000000,
    1,
    0x8000000000000001,
    0xBFF0000000000000,
    0x7FF8000000000000,
    0x7FF0000000000001,
    0xFFFFFFFFFFFFFFFF,
    0,
];

// What a call says: 1 for yes, and the series and the volatility's bits of the quote that it shows; or why it
// is refused.
type Said = Result<[u64; 3], Refusal>;

// Series 999, which does not fill the board, the first ones that do, and from 8 on the last of a full board.
fn series_of(digit: u8) -> u32 {
    if digit < 8 {
        999 + digit as u32
    } else {
        1240 + digit as u32
    }
}

// Quotes of series 1000 and those after it, with volatilities of 16 to 31 thirty-seconds by turns.
fn fill(board: &mut [u8; BOARD_BYTES], count: u64) {
    for i in 0..256u32 {
        if (i as u64) < count {
            let series = 1000 + i;
            let volatility = float_of((16352 + (i % 16) as u64) << 48);
            let _arrived = arrive(board, LiveQuote { series, volatility });
        }
    }
}

// The call of a byte: its first hexadecimal digit names a series, and its second one says 0 for leave, 15 for
// highest, and else which volatility arrives.
fn call(board: &mut [u8; BOARD_BYTES], byte: u8) -> Said {
    let series = series_of(byte / 16);
    match byte % 16 {
        0 => Ok([leave(board, series) as u64, 0, 0]),
        15 => Ok(highest(board).map_or([0; 3], |quote| {
            [1, quote.series as u64, bits_of(quote.volatility)]
        })),
        digit => {
            let volatility = float_of(VOLATILITIES[digit as usize]);
            arrive(board, LiveQuote { series, volatility })?;
            Ok([0; 3])
        }
    }
}

// The calls of a word's bytes, the uppermost first; a byte of 0 is none. What the last one says.
fn calls(board: &mut [u8; BOARD_BYTES], word: u64) -> Said {
    let mut said = Ok([0; 3]);
    for byte in word.to_be_bytes() {
        if byte != 0 {
            said = call(board, byte);
        }
    }
    said
}

// Number i of the numbers of four bytes that stand on a board, 0 where there are no more.
fn nth_number(board: &[u8; BOARD_BYTES], i: u64) -> u64 {
    let (numbers, _) = board.as_chunks::<4>();
    numbers
        .get(i as usize)
        .map_or(0, |number| u32::from_le_bytes(*number) as u64)
}

// How many quotes fill the board, up to eight calls, and what is asked: 0 to 2 what the last call says, and from 3
// on the numbers of four bytes that stand on the board.
pub(crate) fn board(line: Line) -> Answer {
    let [count, word, which, ..] = line.arguments;
    let mut board = [0u8; BOARD_BYTES];
    fill(&mut board, count);
    let said = calls(&mut board, word);
    let number = which.checked_sub(3).map(|i| nth_number(&board, i));
    match said {
        Ok(words) => Ok(number.unwrap_or(words.get(which as usize).map_or(0, |word| *word))),
        Err(refusal) => refused_with(refusal.number(), number.unwrap_or(0)),
    }
}
