// Packed decimal prices. A price is its bits.
ghost use Rattle.std.specs.Prelude.{◌≡◌};
ghost use Rattle.std.specs.Float.{binary64};
ghost use Rattle.std.specs.Float.Ieee.{to_bits, of_bits};
ghost use Rattle.prices.specs.Answers.{number_by, value_of};
ghost use Rattle.market.specs.Refusals.{number as number_of_refusal};
ghost use Rattle.market.specs.Packed.{read_of, write_of};

use crate::export::export_answer;
use elementary::methods::float_of;
use market::packed::{PACKED_BYTES, read, write};
use prices::refusal::Numbered;

// The price's bits, and 0 in `number`; or a NaN's, and the number that refuses the bytes.
#[unsafe(no_mangle)]
pub extern "C" fn gintubalos_packed_read(packed: &[u8; PACKED_BYTES], number: &mut u8) -> u64
    ensures value { result ≡ to_bits binary64 (value_of (read_of packed.now)) }
    ensures number_after { number.new ≡ number_by number_of_refusal (read_of packed.now) }
{
    export_answer(read(packed), number)
}

// 0 where the bytes are the price's now, else the number that refuses it.
#[unsafe(no_mangle)]
pub extern "C" fn gintubalos_packed_write(price: u64, packed: &mut [u8; PACKED_BYTES]) -> u8
    ensures value { result ≡ number_by number_of_refusal (write_of (of_bits binary64 price) packed.old).answer }
    ensures packed_after { packed.new ≡ (write_of (of_bits binary64 price) packed.old).packed }
{
    match write(float_of(price), packed) {
        Ok(()) => 0,
        Err(refusal) => refusal.number(),
    }
}
