// An answer as plain numbers: C has no Result, so its value is returned and its number goes where the
// caller says.
ghost use Rattle.std.specs.Prelude.{◌≡◌};
ghost use Rattle.std.specs.Float.{binary64};
ghost use Rattle.std.specs.Float.Ieee.{to_bits};
ghost use Rattle.prices.specs.Answers.{number_by, value_of};

use elementary::methods::bits_of;
use prices::refusal::Numbered;

// The value's bits, a NaN's where there is none; document 01's number, 0 for none, goes to `number`.
pub fn export_answer<E: Numbered>(answer: Result<f64, E>, number: &mut u8) -> u64
    ensures value { result ≡ to_bits binary64 (value_of answer) }
    ensures number_after { number.new ≡ number_by E.number answer }
{
    match answer {
        Ok(v) => {
            *number = 0;
            bits_of(v)
        }
        Err(refusal) => {
            *number = refusal.number();
            bits_of(f64::NAN)
        }
    }
}
