// The live board: quotes that come and go, in bytes that a caller lends. Any bytes are a board.
ghost use Rattle.std.specs.Prelude.{◌≡◌, ◌+◌, ◌*◌, ◌≤◌, ◌<◌, length, map};
ghost use Rattle.solver.specs.LittleEndian.{bytes_of, number_at, overwritten};
ghost use Rattle.market.specs.Board.{quote_in, quote_bytes, live_count, live_quotes, place_of, arrival_check, with_quote, arrive_of, moved_down, without_place, leave_of, shown_of, highest_of};

use crate::refusal::Refusal;
use elementary::methods::float_of;
use solver::little_endian::{number_at, put_float, put_number_at};

// The most quotes that are live at a time.
const MOST_QUOTES: usize = 256;

// A quote's bytes: its series, and its volatility's bits.
const QUOTE_BYTES: usize = 12;

// Where the count of the live quotes stands, behind the places for them.
const COUNT_AT: usize = 3072;

// A board's bytes.
pub const BOARD_BYTES: usize = 3076;

#[derive(Clone, Copy)]
pub struct LiveQuote {
    pub series: u32,
    pub volatility: f64,
}

// ---- what stands on a board

fn series_in(bytes: &[u8; QUOTE_BYTES]) -> u32
    ensures { result ≡ number_at 0 4 bytes.now }
{
    u32::from_le_bytes([bytes[0], bytes[1], bytes[2], bytes[3]])
}

fn quote_in(bytes: &[u8; QUOTE_BYTES]) -> LiveQuote
    ensures { result ≡ quote_in bytes.now }
{
    let bits = u64::from_le_bytes([
        bytes[4], bytes[5], bytes[6], bytes[7], bytes[8], bytes[9], bytes[10], bytes[11],
    ]);
    LiveQuote {
        series: series_in(bytes),
        volatility: float_of(bits),
    }
}

// How many quotes are live. No more than there are places, whatever the count says.
fn live_count(board: &[u8; BOARD_BYTES]) -> usize
    ensures value { result ≡ live_count board.now }
    ensures bound { result ≤ 256 }
{
    let count = number_at(board, COUNT_AT, 4) as usize;
    if count < MOST_QUOTES {
        count
    } else {
        MOST_QUOTES
    }
}

// The bytes of the live quotes, in order of arrival.
fn live_quotes(board: &[u8; BOARD_BYTES]) -> &[[u8; QUOTE_BYTES]]
    ensures { map quote_in result.now ≡ live_quotes board.now }
{
    &board.as_chunks::<QUOTE_BYTES>().0[..live_count(board)]
}

// The place of the first quote that has the series; their count where none has it.
fn place_of(series: u32, quotes: &[[u8; QUOTE_BYTES]]) -> usize
    ensures { result ≡ place_of series (map quote_in quotes.now) }
{
    let mut place = 0;
    for bytes in quotes {
        if series_in(bytes) == series {
            return place;
        }
        place += 1;
    }
    place
}

// ---- what changes on it

fn put_quote(board: &mut [u8; BOARD_BYTES], place: usize, quote: LiveQuote)
    requires { place < 256 }
    ensures { board.new ≡ overwritten (place * 12) (quote_bytes quote) board.old }
{
    let at = place * QUOTE_BYTES;
    put_number_at(board, at, 4, quote.series as u64);
    put_float(board, at + 4, quote.volatility);
}

fn put_place(board: &mut [u8; BOARD_BYTES], place: usize, bytes: &[u8; QUOTE_BYTES])
    requires { place < 256 }
    ensures { board.new ≡ overwritten (place * 12) bytes.now board.old }
{
    let at = place * QUOTE_BYTES;
    board[at..at + QUOTE_BYTES].copy_from_slice(bytes);
}

// The live quotes behind a place move down by one, and the last one's place becomes zero.
fn move_down(board: &mut [u8; BOARD_BYTES], place: usize, live: usize)
    requires place_bound { place < live }
    requires live_bound { live ≤ 256 }
    ensures { board.new ≡ moved_down (place * 12) (live * 12) board.old }
{
    // Quote by quote: copy_within goes byte by byte, and a copy of all would call the C library.
    for next in place + 1..live {
        let quote = board.as_chunks::<QUOTE_BYTES>().0[next];
        put_place(board, next - 1, &quote);
    }
    put_place(board, live - 1, &[0; QUOTE_BYTES]);
}

// ---- arrive

// 33, 34 or 35, or no refusal.
fn check_arrival(board: &[u8; BOARD_BYTES], quote: LiveQuote) -> Result<(), Refusal>
    ensures { result ≡ arrival_check (live_quotes board.now) quote }
{
    if quote.volatility.is_nan() {
        return Err(Refusal::Volatility);
    }
    let live = live_quotes(board);
    if place_of(quote.series, live) < live.len() {
        return Err(Refusal::SeriesLive);
    }
    if live.len() >= MOST_QUOTES {
        return Err(Refusal::BoardFull);
    }
    Ok(())
}

// A quote comes to the board, behind those that are live.
fn put_behind(board: &mut [u8; BOARD_BYTES], quote: LiveQuote)
    requires { live_count board.old < 256 }
    ensures { board.new ≡ with_quote quote board.old }
{
    let live = live_count(board);
    put_quote(board, live, quote);
    put_number_at(board, COUNT_AT, 4, live as u64 + 1);
}

// A quote arrives, or is refused with 33, 34 or 35. A refusal leaves the board as it was.
pub fn arrive(board: &mut [u8; BOARD_BYTES], quote: LiveQuote) -> Result<(), Refusal>
    ensures value { result ≡ (arrive_of quote board.old).answer }
    ensures board_after { board.new ≡ (arrive_of quote board.old).board }
{
    check_arrival(board, quote)?;
    put_behind(board, quote);
    Ok(())
}

// ---- leave

fn take_away(board: &mut [u8; BOARD_BYTES], place: usize)
    requires { place < live_count board.old }
    ensures { board.new ≡ without_place place board.old }
{
    let live = live_count(board);
    move_down(board, place, live);
    put_number_at(board, COUNT_AT, 4, live as u64 - 1);
}

// The quote of a series leaves. Whether it was live; where it was not, the board is as it was.
pub fn leave(board: &mut [u8; BOARD_BYTES], series: u32) -> bool
    ensures value { result ≡ (leave_of series board.old).was_live }
    ensures board_after { board.new ≡ (leave_of series board.old).board }
{
    let live = live_quotes(board);
    let place = place_of(series, live);
    if place >= live.len() {
        return false;
    }
    take_away(board, place);
    true
}

// ---- highest

// What is shown of two: the later arrival only where it is above. Zeros are equal, whatever their signs.
fn shown_of(earlier: LiveQuote, later: LiveQuote) -> LiveQuote
    ensures { result ≡ shown_of earlier later }
{
    if earlier.volatility < later.volatility {
        later
    } else {
        earlier
    }
}

// The live quote with the highest volatility, of equal ones the earliest arrival.
pub fn highest(board: &[u8; BOARD_BYTES]) -> Option<LiveQuote>
    ensures { result ≡ highest_of board.now }
{
    let (first, others) = live_quotes(board).split_first()?;
    let mut shown = quote_in(first);
    for bytes in others {
        shown = shown_of(shown, quote_in(bytes));
    }
    Some(shown)
}
