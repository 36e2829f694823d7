// The rounding leaf: the one place that packs a float from whole numbers, and the one that takes a
// float apart into them. An exponent e counts from 2^−2404, which is below the product of any two
// floats, so that none is negative. A number without digits is tested by == 0, as the format says it: a method would
// say no more.
ghost use Rattle.std.specs.Prelude.{◌≡◌, ◌+◌, ◌-◌, ◌*◌, ◌/◌, ◌%◌, ◌^◌, ◌<◌, ◌≤◌, false, T};
ghost use Prim.Native.Nat.{compare};
ghost use Rattle.std.specs.Float.Ieee.{nearest};
ghost use Rattle.std.specs.Float.MulAdd.{IsExactOrSticky};
ghost use Rattle.std.specs.Float.Ieee.Exact.{HasValue};
ghost use Rattle.std.specs.Float.Ieee.Scale as Scale;
ghost use Rattle.elementary.specs.Inside.Round.{Rounds, Digits, PartsOf};

// v / 2^d. Where a digit is lost that isn't 0, the last one kept is 1: then the result is odd and less
// than 1 off, and rounds as the number itself does.
pub(crate) fn shift_right(v: u128, d: u64) -> u128
    requires { 0 < v }
    ensures { IsExactOrSticky result (2 ^ d) v }
{
    if d >= 128 {
        return 1;
    }
    let kept = v >> d;
    if v.trailing_zeros() as u64 >= d {
        kept
    } else {
        kept | 1
    }
}

// v / 4 to the nearest, at a tie to the even one.
fn quarter_to_even(v: u64) -> u64
    requires { v < 2 ^ 63 }
    ensures { result ≡ nearest (v / 4) (compare (v % 4) 2) }
{
    (v + 1 + v / 4 % 2) / 4
}

// ±digits * 2^e / 2^2404, to be rounded.
#[derive(Clone, Copy)]
pub(crate) struct Number {
    pub(crate) neg: bool,
    pub(crate) digits: u128,
    pub(crate) e: u64,
    ghost least: { 128 ≤ e },
    ghost room: { e < 2 ^ 31 },
}

// The float nearest to v * 2^e / 2^2404. Its last digit stands for 2^(k + 1330), where the smallest
// float is 2^1330: it has 53, or fewer if it is subnormal. Two digits more decide how to round. The
// pattern k * 2^52 + q serves subnormals too, and a carry of q runs into the exponent's field by itself.
// Out of line: inlined it makes mul_add slower, by 1 ns of 24.
#[inline(never)]
fn round_positive(v: u128, e: u64) -> f64
    requires digits_low { 0 < v }
    requires e_low { 128 ≤ e }
    requires e_high { e < 2 ^ 31 }
    ensures { Rounds result false v e }
{
    let z = v.leading_zeros() as u64;
    let place = e - z;
    let k = place.saturating_sub(1255);
    let q = quarter_to_even(shift_right(v << z, k + 1328 - place) as u64);
    if k > 2045 {
        f64::INFINITY
    } else {
        f64::from_bits((k << 52) + q)
    }
}

// The float nearest to x.
pub(crate) fn rounded(x: Number) -> f64
    ensures { Rounds result x.neg x.digits x.e }
{
    let r = if x.digits == 0 {
        0.0
    } else {
        round_positive(x.digits, x.e)
    };
    if x.neg { -r } else { r }
}

// A finite float taken apart: ±m * 2^e / 2^1138, with an m of 53 digits or 0.
#[derive(Clone, Copy)]
pub(crate) struct Parts {
    pub(crate) neg: bool,
    pub(crate) m: u64,
    pub(crate) e: u64,
    ghost has_digits: { 0 < m → Digits m e },
    ghost room: { e < 2 ^ 12 },
}

// The parts of a subnormal value: its digits are shifted up to their place in a normal one.
fn subnormal_parts(neg: bool, t: u64) -> Parts
    requires { t < 2 ^ 52 }
    ensures neg { result.neg ≡ neg }
    ensures value { result.m * 2 ^ result.e ≡ t * 2 ^ 64 }
{
    if t == 0 {
        return Parts { neg, m: 0, e: 64 };
    }
    let z = t.leading_zeros() as u64 - 11;
    Parts {
        neg,
        m: t << z,
        e: 64 - z,
    }
}

// A finite float as its sign, its 53 digits and its exponent.
pub(crate) fn parts_of(x: f64) -> Parts
    requires { T (Scale.finite x) }
    ensures { PartsOf x result.neg result.m result.e }
{
    let b = x.to_bits();
    let neg = b >= 0x8000_0000_0000_0000;
    let f = b % 0x8000_0000_0000_0000 / 0x10_0000_0000_0000;
    let t = b % 0x10_0000_0000_0000;
    if f == 0 {
        return subnormal_parts(neg, t);
    }
    Parts {
        neg,
        m: 0x10_0000_0000_0000 + t,
        e: f + 63,
    }
}

// (2^52 + t) * 2^f / 2^1075.
pub(crate) fn float_of_fields(f: u64, t: u64) -> f64
    requires f_low { 0 < f }
    requires f_high { f < 2047 }
    requires t_high { t < 2 ^ 52 }
    ensures { HasValue result false ((2 ^ 52 + t) * 2 ^ (f + 1329)) (2 ^ 2404) }
{
    f64::from_bits((f << 52) + t)
}
