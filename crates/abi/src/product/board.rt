// The live board, whose bytes the caller lends.
ghost use Rattle.std.specs.Prelude.{◌≡◌};
ghost use Rattle.prices.specs.Answers.{number_by};
ghost use Rattle.market.specs.Refusals.{number as number_of_refusal};
ghost use Rattle.market.specs.Board.{arrive_of, leave_of, highest_of};
ghost use Rattle.abi.specs.Board.{quote_from, shown_byte, shown_series, shown_bits};
ghost use Rattle.abi.specs.Bytes.{byte_of};

use elementary::methods::{bits_of, float_of};
use market::board::{BOARD_BYTES, LiveQuote, arrive, highest, leave};
use prices::refusal::Numbered;

// 0 where the quote is on the board now, else the number that refuses it.
#[unsafe(no_mangle)]
pub extern "C" fn gintubalos_board_arrive(
    board: &mut [u8; BOARD_BYTES],
    series: u32,
    volatility: u64,
) -> u8
    ensures value { result ≡ number_by number_of_refusal (arrive_of (quote_from series volatility) board.old).answer }
    ensures board_after { board.new ≡ (arrive_of (quote_from series volatility) board.old).board }
{
    let volatility = float_of(volatility);
    match arrive(board, LiveQuote { series, volatility }) {
        Ok(()) => 0,
        Err(refusal) => refusal.number(),
    }
}

// 1 where the series was live, else 0.
#[unsafe(no_mangle)]
pub extern "C" fn gintubalos_board_leave(board: &mut [u8; BOARD_BYTES], series: u32) -> u8
    ensures value { result ≡ byte_of (leave_of series board.old).was_live }
    ensures board_after { board.new ≡ (leave_of series board.old).board }
{
    leave(board, series) as u8
}

// 1, with the quote in `series` and `volatility`, or 0 and zeros there.
#[unsafe(no_mangle)]
pub extern "C" fn gintubalos_board_highest(
    board: &[u8; BOARD_BYTES],
    series: &mut u32,
    volatility: &mut u64,
) -> u8
    ensures value { result ≡ shown_byte (highest_of board.now) }
    ensures series_after { series.new ≡ shown_series (highest_of board.now) }
    ensures volatility_after { volatility.new ≡ shown_bits (highest_of board.now) }
{
    match highest(board) {
        Some(quote) => {
            *series = quote.series;
            *volatility = bits_of(quote.volatility);
            1
        }
        None => {
            *series = 0;
            *volatility = 0;
            0
        }
    }
}
