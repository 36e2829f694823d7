// The square root, correctly rounded, in whole numbers: the exponent first, then a binary digit a turn, from
// the top. std's f64::sqrt is proved too; ours stays, since document 01 has it written anew, and wrong
// programs change its steps.
ghost use Rattle.std.specs.Prelude.{◌≡◌, ◌<◌, ◌≤◌, ◌-◌, ◌*◌, ◌^◌, map};
ghost use Rattle.std.specs.Float.{binary64};
ghost use Rattle.std.specs.Float.Ieee.{of_bits};
ghost use Rattle.elementary.specs.Sqrt.{sqrt_of, aligned_units, aligned_of, first_digits, sqrt_digits_of, turn_of};
ghost use Rattle.elementary.specs.Promises.{DigitsFound};
ghost use Rattle.elementary.specs.Inside.Sqrt.{AllAligned, AllFound};

// As many as an `f64` has digits.
pub const TURNS: u32 = 53;

// A finite number above 0 is significand * 2^-52 * 2^exponent: the exponent is even, and significand * 2^-52
// is from 1 up, below 4. Of any other number both are 0.
#[derive(Clone, Copy)]
pub struct Aligned {
    pub significand: u64,
    pub exponent: i32,
}

// What a root's turns carry: twice the digits found, followed by zeros, and what is left of the significand,
// doubled at each turn. (With the digits as they are the compiler makes branches of a turn, not moves.)
#[derive(Clone, Copy)]
pub struct Digits {
    pub doubled: u64,
    pub left: u64,
}

// ---- the exponent

// m * 2^(e - 1) of the smallest values of an `f64`, for an m above 0, aligned. 11 of m's leading zeros are in
// front of its 53 places.
fn aligned_significand(m: u64, e: u64) -> Aligned
    requires { (0 < m) × (m < 2 ^ 53) × (1 ≤ e) × (e < 2047) }
    ensures { result ≡ aligned_units (m * 2 ^ (e - 1)) }
{
    let zeros = m.leading_zeros() as u64;
    let place = e + 62 - zeros;
    let odd = place % 2;
    Aligned {
        significand: m << (zeros - 11 + odd),
        exponent: (place - odd) as i32 - 1074,
    }
}

// x, aligned. A field of 0 has no leading digit and counts as a field of 1.
pub fn sqrt_aligned(x: f64) -> Aligned
    ensures { result ≡ aligned_of x }
{
    if x > 0.0 {
        let b = x.to_bits();
        let e = b / 0x10_0000_0000_0000;
        if e == 0 {
            return aligned_significand(b, 1);
        }
        if e < 0x7ff {
            return aligned_significand(b % 0x10_0000_0000_0000 + 0x10_0000_0000_0000, e);
        }
    }
    Aligned {
        significand: 0,
        exponent: 0,
    }
}

// ---- the digits

// The next digit, at its place: 1 where the square then is not above the significand.
#[inline(always)]
fn turn(d: Digits, place: u64) -> Digits
    requires { (d.doubled < 2 ^ 54) × (d.left < 2 ^ 56) × (place ≤ 2 ^ 52) }
    ensures { result ≡ turn_of place d }
{
    let taken = d.doubled + place;
    if d.left < taken {
        Digits {
            doubled: d.doubled,
            left: 2 * d.left,
        }
    } else {
        Digits {
            doubled: taken + place,
            left: 2 * (d.left - taken),
        }
    }
}

// The first digits of each root, side by side: the turns of one do not wait for those of another.
#[inline(always)]
fn find_digits<const N: usize>(aligned: [Aligned; N], turns: u32) -> [Digits; N]
    requires { (turns ≤ 53) × AllAligned aligned }
    ensures { AllFound turns aligned.entry result }
{
    let mut found = [Digits {
        doubled: 0,
        left: 0,
    }; N];
    for i in 0..N {
        found[i] = Digits {
            doubled: 0,
            left: aligned[i].significand,
        };
    }
    let mut place = 0x10_0000_0000_0000;
    for _ in 0..turns {
        for i in 0..N {
            found[i] = turn(found[i], place);
        }
        place /= 2;
    }
    found
}

// The first digits of the root of x's aligned significand as a whole number; after the last turn all 53.
pub fn sqrt_digits(x: f64, turns: u32) -> u64
    ensures { result ≡ sqrt_digits_of x turns }
{
    let turns = turns.min(TURNS);
    let found = find_digits([sqrt_aligned(x)], turns);
    found[0].doubled >> (TURNS + 1 - turns)
}

// ---- the root

// The root of x: up from its digits where what is left is above them, since the middle between them and the
// next number lies there. A zero and +infinity have no digits and stay themselves; a NaN and whatever is below
// 0 give NaN.
#[inline(always)]
fn rounded(x: f64, a: Aligned, d: Digits) -> f64
    requires { (a ≡ aligned_of x) × DigitsFound a.significand 53 (first_digits 53 a.significand) d }
    ensures { result ≡ sqrt_of binary64 x }
{
    if a.significand == 0 {
        return if x >= 0.0 { x } else { f64::NAN };
    }
    let half_exponent = (a.exponent + 2044) as u64 / 2;
    let up = if d.doubled < d.left { 1 } else { 0 };
    f64::from_bits(half_exponent * 0x10_0000_0000_0000 + d.doubled / 2 + up)
}

// IEEE 754's squareRoot of each. N has a bound since an array has to have a size.
#[inline(always)]
fn sqrts<const N: usize>(x: [f64; N]) -> [f64; N]
    requires { N ≤ 4 }
    ensures { result ≡ map (sqrt_of binary64) x.entry }
{
    let mut aligned = [Aligned {
        significand: 0,
        exponent: 0,
    }; N];
    for i in 0..N {
        aligned[i] = sqrt_aligned(x[i]);
    }
    let found = find_digits(aligned, TURNS);
    let mut root = x;
    for i in 0..N {
        root[i] = rounded(x[i], aligned[i], found[i]);
    }
    root
}

// IEEE 754's squareRoot.
pub fn sqrt(x: f64) -> f64
    ensures { result ≡ sqrt_of binary64 x }
{
    sqrts([x])[0]
}

// Of three, side by side.
pub fn sqrt_3(x: [f64; 3]) -> [f64; 3]
    ensures { result ≡ map (sqrt_of binary64) x }
{
    sqrts::<3>(x)
}

// Of four.
pub fn sqrt_4(x: [f64; 4]) -> [f64; 4]
    ensures { result ≡ map (sqrt_of binary64) x }
{
    sqrts::<4>(x)
}
