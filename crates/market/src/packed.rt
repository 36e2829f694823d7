// Packed decimal prices, as the clearing feed sends them: 8 bytes with 15 decimal digits, two a byte, and a
// sign. The unit is one ten-thousandth.
ghost use Rattle.std.specs.Prelude.{◌≡◌, ◌<◌, ◌≤◌, ◌+◌, ◌/◌, ◌%◌, ◌*◌, ◌^◌, false, T};
ghost use Rattle.std.specs.Float.Ieee.{lt};
ghost use Rattle.elementary.specs.Methods.{sign_of};
ghost use Rattle.market.specs.Packed.{signed_units, units_in, price_of, read_of, nearest_whole, units_of, packed_of, write_of};
ghost use Rattle.market.specs.Inside.Packed.{digit_behind, TOO_LARGE, nearest_size};

use crate::refusal::Refusal;
use elementary::methods::abs;
use elementary::sqrt::sqrt_aligned;

// A price's bytes.
pub const PACKED_BYTES: usize = 8;

// What the last four bits say.
const PLUS: u8 = 0xC;

const MINUS: u8 = 0xD;

// The most units that 15 digits write.
const MOST_UNITS: u64 = 999_999_999_999_999;

// A price as a whole number of ten-thousandths.
#[derive(Clone, Copy)]
pub struct Units {
    pub minus: bool,
    pub size: u64,
}

// ---- read

// A digit behind those of a number, or 36.
fn digit_behind(number: u64, digit: u8) -> Result<u64, Refusal>
    requires { number < 10 ^ 14 }
    ensures { result ≡ digit_behind number digit }
{
    if digit > 9 {
        return Err(Refusal::Packed);
    }
    Ok(number * 10 + digit as u64)
}

// A size with its sign, or 36: another one, or zero with minus.
fn signed_units(sign: u8, size: u64) -> Result<Units, Refusal>
    ensures { result ≡ signed_units sign size }
{
    match sign {
        PLUS => Ok(Units { minus: false, size }),
        MINUS if size > 0 => Ok(Units { minus: true, size }),
        _ => Err(Refusal::Packed),
    }
}

// The units of 8 bytes, or 36.
fn units_in(packed: &[u8; PACKED_BYTES]) -> Result<Units, Refusal>
    ensures { result ≡ units_in packed.now }
{
    let mut size = 0;
    for i in 0..7 {
        size = digit_behind(size, packed[i] / 16)?;
        size = digit_behind(size, packed[i] % 16)?;
    }
    size = digit_behind(size, packed[7] / 16)?;
    signed_units(packed[7] % 16, size)
}

// The quotient is the one rounding: of 15 digits a size is exact, and so is 10,000.
fn price_of(units: Units) -> f64
    requires { units.size < 10 ^ 15 }
    ensures { result ≡ price_of units }
{
    let size = units.size as f64;
    let signed = if units.minus { -size } else { size };
    signed / 10_000.0
}

// The price of 8 bytes, or 36.
pub fn read(packed: &[u8; PACKED_BYTES]) -> Result<f64, Refusal>
    ensures { result ≡ read_of packed.now }
{
    let units = units_in(packed)?;
    Ok(price_of(units))
}

// ---- write

// number / 2^places to the nearest, at a tie to the even one.
fn nearest_shifted(number: u128, places: u32) -> u128
    requires number_bound { number < 2 ^ 68 }
    requires places_low { 1 ≤ places }
    requires places_high { places < 128 }
    ensures { result ≡ nearest_whole number (2 ^ places) }
{
    let half = 1u128 << (places - 1);
    (number + (half - 1) + (number >> places) % 2) >> places
}

// The ten-thousandths of a price from 0 up. Their product with 10,000 is exact; the shift alone rounds.
fn nearest_size(price: f64) -> u64
    requires sign { sign_of price ≡ false }
    requires below { T (lt price TOO_LARGE) }
    ensures { result ≡ nearest_size price }
{
    let aligned = sqrt_aligned(price);
    let places = (52 - aligned.exponent) as u32;
    if places > 127 {
        return 0; // far below half of one
    }
    nearest_shifted(aligned.significand as u128 * 10_000, places) as u64
}

// The units of a price, or 37.
fn units_of(price: f64) -> Result<Units, Refusal>
    ensures { result ≡ units_of price }
{
    let positive = abs(price);
    // A NaN is not below, either.
    if !(positive < 100_000_000_000.0) {
        return Err(Refusal::Price);
    }
    let size = nearest_size(positive);
    if size > MOST_UNITS {
        return Err(Refusal::Price);
    }
    let minus = price < 0.0 && size > 0;
    Ok(Units { minus, size })
}

// The last two digits of a number.
fn two_digits(number: u64) -> u8
    ensures { result ≡ number / 10 % 10 * 16 + number % 10 }
{
    (number / 10 % 10 * 16 + number % 10) as u8
}

// The 8 bytes of units of 15 digits.
fn packed_of(units: Units) -> [u8; PACKED_BYTES]
    ensures { result ≡ packed_of units }
{
    let size = units.size;
    let sign = if units.minus { MINUS } else { PLUS };
    [
        two_digits(size / 10_000_000_000_000),
        two_digits(size / 100_000_000_000),
        two_digits(size / 1_000_000_000),
        two_digits(size / 10_000_000),
        two_digits(size / 100_000),
        two_digits(size / 1_000),
        two_digits(size / 10),
        (size % 10) as u8 * 16 + sign,
    ]
}

// The 8 bytes of the ten-thousandth nearest to a price, or 37, which leaves them as they were.
pub fn write(price: f64, packed: &mut [u8; PACKED_BYTES]) -> Result<(), Refusal>
    ensures value { result ≡ (write_of price packed.old).answer }
    ensures packed_after { packed.new ≡ (write_of price packed.old).packed }
{
    let units = units_of(price)?;
    *packed = packed_of(units);
    Ok(())
}
