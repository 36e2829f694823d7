// IEEE 754's fusedMultiplyAdd, a × b + c rounded once, in whole numbers. std's f64::mul_add is proved
// too; ours stays, since document 01 has it written anew, and wrong programs change its steps.
ghost use Rattle.std.specs.Prelude.{◌≡◌, ◌*◌, ◌^◌, ◌<◌, ◌≤◌, T};
ghost use Rattle.std.specs.Float.{binary64};
ghost use Rattle.std.specs.Float.Ieee.{unlike};
ghost use Rattle.std.specs.Float.Ieee.Scale as Scale;
ghost use Rattle.elementary.specs.MulAdd.{fma};
ghost use Rattle.elementary.specs.Inside.MulAdd.{Scaled, Adds};

use crate::round::{Number, Parts, parts_of, rounded, shift_right};

// ±digits * 2^e / 2^2404, to be added: 117 or 118 digits, the last two of them 0.
#[derive(Clone, Copy)]
struct Term {
    neg: bool,
    digits: u128,
    e: u64,
    ghost scaled: { Scaled digits e },
}

// Below the product are twelve digits 0, so that it and an addend in a word of its own have the same
// number of digits, or one apart.
fn product(a: Parts, b: Parts) -> Term
    requires a_nonzero { 0 < a.m }
    requires b_nonzero { 0 < b.m }
    ensures neg { result.neg ≡ unlike a.neg b.neg }
    ensures value { result.digits * 2 ^ result.e ≡ a.m * 2 ^ a.e * (b.m * 2 ^ b.e) * 2 ^ 128 }
{
    Term {
        neg: a.neg != b.neg,
        digits: (a.m as u128 * b.m as u128) << 12,
        e: a.e + b.e + 116,
    }
}

fn addend(c: Parts) -> Term
    requires { 0 < c.m }
    ensures neg { result.neg ≡ c.neg }
    ensures value { result.digits * 2 ^ result.e ≡ c.m * 2 ^ c.e * 2 ^ 1266 }
{
    Term {
        neg: c.neg,
        digits: (c.m as u128) << 64,
        e: c.e + 1202,
    }
}

// l + s, for an exponent of s that isn't above l's. s is shifted there, and loses digits only where it is
// far below l.
fn sum_ordered(l: Term, s: Term) -> Number
    requires { s.e ≤ l.e }
    ensures { Adds l.neg (l.digits * 2 ^ l.e) s.neg (s.digits * 2 ^ s.e) result.neg result.digits result.e }
{
    let y = shift_right(s.digits, l.e - s.e);
    if l.neg == s.neg {
        return Number {
            neg: l.neg,
            digits: l.digits + y,
            e: l.e,
        };
    }
    if y < l.digits {
        return Number {
            neg: l.neg,
            digits: l.digits - y,
            e: l.e,
        };
    }
    Number {
        neg: s.neg && l.digits < y,
        digits: y - l.digits,
        e: l.e,
    }
}

// a + b.
fn sum(a: Term, b: Term) -> Number
    ensures { Adds a.neg (a.digits * 2 ^ a.e) b.neg (b.digits * 2 ^ b.e) result.neg result.digits result.e }
{
    if b.e <= a.e {
        sum_ordered(a, b)
    } else {
        sum_ordered(b, a)
    }
}

// `mul_add` for finite operands. With a zero among them the plain operations round at most once.
fn fma_finite(a: f64, b: f64, c: f64) -> f64
    requires a_finite { T (Scale.finite a) }
    requires b_finite { T (Scale.finite b) }
    requires c_finite { T (Scale.finite c) }
    ensures { result ≡ fma binary64 a b c }
{
    let p = parts_of(a);
    let q = parts_of(b);
    let r = parts_of(c);
    if p.m == 0 || q.m == 0 {
        return a * b + c;
    }
    if r.m == 0 {
        return a * b;
    }
    rounded(sum(product(p, q), addend(r)))
}

// a * b + c, rounded once: IEEE 754's fusedMultiplyAdd. Only where a finite product meets an infinite
// addend would the plain operations go wrong: the product may overflow.
pub fn mul_add(a: f64, b: f64, c: f64) -> f64
    ensures { result ≡ fma binary64 a b c }
{
    if !a.is_finite() || !b.is_finite() {
        return a * b + c;
    }
    if !c.is_finite() {
        return c;
    }
    fma_finite(a, b, c)
}
