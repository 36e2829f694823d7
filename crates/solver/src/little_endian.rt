// Numbers and floats as little-endian bytes of a slice, written and read.
ghost use Rattle.std.specs.Prelude.{◌≡◌, ◌+◌, ◌≤◌, length};
ghost use Rattle.solver.specs.LittleEndian.{bytes_of, float_bytes, overwritten, number_at, float_at};

use elementary::methods::{bits_of, float_of};

// A number's lowest bytes from byte `at` on, the lowest first. Not by std's eight: any width may be asked for, and
// what lies beyond eight bytes is 0.
pub fn put_number_at(out: &mut [u8], at: usize, width: usize, n: u64)
    requires { at + width ≤ length out.old }
    ensures { out.new ≡ overwritten at (bytes_of width n) out.old }
{
    let mut rest = n;
    for byte in out[at..at + width].iter_mut() {
        *byte = (rest % 256) as u8;
        rest = rest / 256;
    }
}

// A float's bits from byte `at` on.
pub fn put_float(out: &mut [u8], at: usize, x: f64)
    requires { at + 8 ≤ length out.old }
    ensures { out.new ≡ overwritten at (float_bytes x) out.old }
{
    out[at..at + 8].copy_from_slice(&bits_of(x).to_le_bytes());
}

// The number whose bytes stand from byte `at` on, the lowest first.
pub fn number_at(bytes: &[u8], at: usize, width: usize) -> u64
    requires width_in_bounds { at + width ≤ length bytes.now }
    requires width_bound { width ≤ 8 }
    ensures { result ≡ number_at at width bytes.now }
{
    let mut whole = [0; 8];
    whole[..width].copy_from_slice(&bytes[at..at + width]);
    u64::from_le_bytes(whole)
}

// The float whose bits stand from byte `at` on.
pub fn float_at(bytes: &[u8], at: usize) -> f64
    requires { at + 8 ≤ length bytes.now }
    ensures { result ≡ float_at at bytes.now }
{
    float_of(number_at(bytes, at, 8))
}
