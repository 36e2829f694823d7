// The expansion for a small t. Its Taylor sum is made of fused steps, a × b + c rounded once. They are
// done in floats by error-free transforms: the product and the sum with what rounding took off each,
// and one sum of all. All steps go on whether their results are certain or not, and one number gathers
// the doubts, since a branch at each step would be slower; where it is not 0, mul_add does every step.
ghost use Rattle.std.specs.Prelude.{◌≡◌, Bool, true, false, ℕ, ◌+◌, ◌%◌, ◌^◌, ◌≤◌, ◌<◌, T, bit_or, MatchOption};
ghost use Rattle.std.specs.Float.{binary64};
ghost use Rattle.std.specs.Float.Ieee.{to_bits, neg, lt};
ghost use Rattle.std.specs.Float.Ieee.Scale.{finite};
ghost use Rattle.elementary.specs.Ops.{◌⊕◌, ◌⊘◌, bits, float, one, mul_add};
ghost use Rattle.elementary.specs.Inside.Errors.{InRange, product_error, Certain, CanSplit};
ghost use Rattle.prices.specs.Black.{bell as bell_of, innermost as innermost_of, horner_step, taylor_of, small_t_inner};
ghost use Rattle.prices.specs.Inside.SmallT.{Within, Operands, Grows, InRanges, Term, Adds, Filled};
ghost use Rattle.std.proofs.Common.{arith};
ghost use Rattle.std.proofs.lemmas.Nat.{le_or_l, le_or_r};

use crate::constants::{MINUS_FRAC_1_SQRT_2, ONE_OVER_SQRT_TWO_PI, SQRT_2PI};
use elementary::cody::erfcx;
use elementary::methods::{bits_of, max};
use elementary::mul_add::mul_add;

// ---- one fused step by errors

// A value, with the doubt of the steps that led to it.
#[derive(Clone, Copy)]
struct Fused {
    value: f64,
    doubt: u64,
}

// 0 where x is from 2^-255 to below 2^257 in size.
fn range_doubt(x: f64) -> u64
    requires { T (finite x) }
    ensures { result ≡ 0 → InRange x }
{
    ((f64::to_bits(x) % 0x8000_0000_0000_0000 + 0x1000_0000_0000_0000) >> 61) ^ 2
}

// What rounding takes off a × b.
fn product_error(a: f64, b: f64) -> f64
    requires a_finite { T (finite a) }
    requires b_finite { T (finite b) }
    ensures { result ≡ product_error a b }
{
    let x = f64::to_bits(a);
    let y = f64::to_bits(b);
    let ah = f64::from_bits((x + 0x400_0000) / 0x800_0000 * 0x800_0000);
    let bh = f64::from_bits(y - y % 0x800_0000);
    let bl = b - bh;
    ah * bh - a * b + ah * bl + (a - ah) * bh + (a - ah) * bl
}

// s + w, certain where every number that rounds to w gives the same sum.
fn certain_sum(s: f64, w: f64, doubt: u64) -> Fused
    requires s_within { Within s 1000 }
    requires w_within { Within w 1000 }
    ensures value { result.value ≡ s ⊕ w }
    ensures no_earlier_doubt { (result.doubt ≡ 0 → doubt ≡ 0) }
    ensures certain_unless_doubt { (result.doubt ≡ 0 → Certain s w) }
{
    let outward = f64::from_bits(f64::to_bits(w) + 1);
    let inward = w + w - outward;
    Fused {
        value: s + w,
        doubt: (f64::to_bits(s + inward) ^ f64::to_bits(s + outward)) | doubt,
    }
}

// 1 where |x| < |y|, by their bits, since both are finite.
fn order_doubt(x: f64, y: f64) -> u64
    requires x_finite { T (finite x) }
    requires y_finite { T (finite y) }
    ensures { result ≡ 0 → lt (bits (to_bits binary64 x % 2 ^ 63)) (bits (to_bits binary64 y % 2 ^ 63)) ≡ false }
{
    let p = f64::from_bits(f64::to_bits(x) % 0x8000_0000_0000_0000);
    let q = f64::from_bits(f64::to_bits(y) % 0x8000_0000_0000_0000);
    u64::from(p < q)
}

// ---- how the steps are done

// The fused steps of the Taylor sum, each with its doubt.
trait Steps: Copy {
    // Whether the numbers of a step have to be in range.
    ghost ranged: { Bool };

    // Whether a value with this doubt is sure to be right.
    ghost certain: { ℕ → Type 0 };

    // a × b + c.
    fn fma(self, a: f64, b: f64, c: f64) -> Fused
        requires { T ranged → Operands a b c }
        ensures value { certain result.doubt → result.value ≡ mul_add a b c }
        ensures grows { T ranged → Grows a b c result.value };

    // The same, for a c that is not above the product in size.
    fn fma_ordered(self, a: f64, b: f64, c: f64) -> Fused
        requires { T ranged → Operands a b c }
        ensures value { certain result.doubt → result.value ≡ mul_add a b c }
        ensures grows { T ranged → Grows a b c result.value }
    {
        self.fma(a, b, c)
    }

    // a × p − q.
    fn coefficient(self, a: f64, p: u32, q: u32) -> f64
        requires { T ranged → CanSplit a p q }
        ensures value { result ≡ mul_add a (float p) (neg (float q)) }
        ensures within { T ranged → Within result 22 };

    // Two doubts can be gathered in one.
    ghost both: { (x y : ℕ) → certain (bit_or x y) → certain x × certain y };
}

// By errors.
#[derive(Clone, Copy)]
struct ByErrors;

impl Steps for ByErrors {
    ghost ranged = { true };

    ghost certain = { λ doubt. doubt ≡ 0 };

    ghost both = { λ x y z. (Prim.omega (arith, le_or_l x y), Prim.omega (arith, le_or_r x y)) };

    fn fma(self, a: f64, b: f64, c: f64) -> Fused {
        let p = a * b;
        let s = p + c;
        let v = s - p;
        let t = (p - (s - v)) + (c - v);
        certain_sum(s, t + product_error(a, b), range_doubt(a) | range_doubt(b))
    }

    // With the tail that it has in common with fma as one function the price took 3 to 4 % longer.
    fn fma_ordered(self, a: f64, b: f64, c: f64) -> Fused {
        let p = a * b;
        let s = p + c;
        let t = c - (s - p);
        certain_sum(
            s,
            t + product_error(a, b),
            range_doubt(a) | range_doubt(b) | order_doubt(p, c),
        )
    }

    // For an a of two parts: without its 31 lowest digits, and these. Both products and the
    // difference are exact, so that only the last sum rounds.
    fn coefficient(self, a: f64, p: u32, q: u32) -> f64 {
        let b = f64::to_bits(a);
        let high = f64::from_bits(b - b % 0x8000_0000);
        let f = p as f64;
        high * f - q as f64 + (a - high) * f
    }
}

// By mul_add: slower, and right for all numbers.
#[derive(Clone, Copy)]
struct ByMulAdd;

impl Steps for ByMulAdd {
    ghost ranged = { false };

    ghost certain = { λ doubt. Unit {0} };

    ghost both = { λ x y z. (tt, tt) };

    fn fma(self, a: f64, b: f64, c: f64) -> Fused {
        Fused {
            value: mul_add(a, b, c),
            doubt: 0,
        }
    }

    fn coefficient(self, a: f64, p: u32, q: u32) -> f64 {
        mul_add(a, p as f64, -(q as f64))
    }
}

// ---- the Taylor sum

// The terms 6, 5, 4 and 3, side by side, from their innermost brackets outward: entry k + 4 is one step,
// h² × sum + (a × p − q), from entry k. Entry 15 is not used, since term 3 ends with entry 11. Each loop
// copies its table first: over the table in place the price took 2 % longer.
const INNERMOST: [u32; 4] = [78, 55, 36, 21];

const OUTWARD: [(u32, u32); 14] = [
    (2145, 75),
    (990, 52),
    (378, 33),
    (105, 18),
    (25740, 1926),
    (6930, 840),
    (1260, 285),
    (105, 57),
    (135135, 20370),
    (17325, 4680),
    (945, 561),
    (1, 1),
    (270270, 82845),
    (10395, 6555),
];

// Their Horner sums, with the doubts of all.
#[derive(Clone, Copy)]
struct Sums {
    y: [f64; 18],
    doubt: u64,
}

// The Taylor sum at a, h² and t², whose steps are done in one of the two ways.
#[derive(Drop)]
struct TaylorSum<S: Steps> {
    steps: S,
    a: f64,
    h2: f64,
    t2: f64,
    ghost in_ranges: { T S.ranged → InRanges a h2 t2 },
}

impl TaylorSum<ByErrors> {
    // Where the errors serve: a can be cut in two, and no step comes near an infinity. A NaN's bits are
    // above all.
    fn by_errors(a: f64, h2: f64, t2: f64) -> Option<Self>
        ensures { MatchOption result (Unit {0}) (λ made. made.a ≡ a × made.h2 ≡ h2 × made.t2 ≡ t2) }
    {
        let b = bits_of(a);
        let in_ranges = (b >= 0x3f30_0000_0000_0000)
            & (b < 0x4000_0000_0000_0000)
            & (bits_of(h2) < 0x4210_0000_0000_0000)
            & (bits_of(t2) < 0x3ff0_0000_0000_0000);
        if in_ranges {
            Some(TaylorSum {
                steps: ByErrors,
                a,
                h2,
                t2,
            })
        } else {
            None
        }
    }
}

impl<S: Steps> TaylorSum<S> {
    // The innermost bracket of a Horner sum in h².
    fn innermost(&self, c: u32) -> Fused
        requires { c < 2 ^ 19 }
        ensures value { S.certain result.doubt → result.value ≡ innermost_of self.now.a self.now.h2 c }
        ensures within { T S.ranged → Within result.value 46 }
    {
        self.steps.fma(self.a, self.h2 + c as f64, -1.0)
    }

    // One step further out.
    fn horner_step(&self, sum: f64, p: u32, q: u32) -> Fused
        requires sum_within { T S.ranged → Within sum 300 }
        requires p_high { p < 2 ^ 19 }
        requires q_high { q < 2 ^ 19 }
        ensures value { S.certain result.doubt → result.value ≡ horner_step self.now.a self.now.h2 sum p q }
        ensures bound { T S.ranged → (n : ℕ) → n ≤ 300 → Within sum n → Within result.value (n + 44) }
    {
        let coefficient = self.steps.coefficient(self.a, p, q);
        self.steps.fma(self.h2, sum, coefficient)
    }

    // The first four entries.
    fn innermost_sums(&self) -> Sums
        ensures { Filled self.now.a self.now.h2 4 result.y (S.certain result.doubt) (T S.ranged) }
    {
        let addends = INNERMOST;
        let mut y = [0.0; 18];
        let mut doubt: u64 = 0;
        for (k, addend) in addends.iter().enumerate() {
            let f = self.innermost(*addend);
            y[k] = f.value;
            doubt |= f.doubt;
        }
        Sums { y, doubt }
    }

    // All.
    fn horner_sums(&self) -> Sums
        ensures { Filled self.now.a self.now.h2 18 result.y (S.certain result.doubt) (T S.ranged) }
    {
        let Sums { mut y, mut doubt } = self.innermost_sums();
        let steps = OUTWARD;
        for (k, (p, q)) in steps.iter().enumerate() {
            let f = self.horner_step(y[k], *p, *q);
            y[k + 4] = f.value;
            doubt |= f.doubt;
        }
        Sums { y, doubt }
    }

    // One more term: y over a factorial, by a power of t².
    fn add_term(&self, sum: Fused, y: f64, factorial: f64, power: f64) -> Fused
        requires { T S.ranged → Term sum.value y factorial power }
        ensures no_earlier_doubt { (S.certain result.doubt → S.certain sum.doubt) }
        ensures value { S.certain result.doubt → result.value ≡ mul_add (y ⊘ factorial) power sum.value }
        ensures bound { T S.ranged → Adds sum.value result.value }
    {
        let f = self.steps.fma_ordered(y / factorial, power, sum.value);
        Fused {
            value: f.value,
            doubt: sum.doubt | f.doubt,
        }
    }

    // The terms by the powers of t², from the smallest.
    fn sum(&self) -> Fused
        ensures { S.certain result.doubt → result.value ≡ taylor_of self.now.a self.now.h2 self.now.t2 }
    {
        let s = self.horner_sums();
        let bracket = self.innermost(10);
        let y1 = self.innermost(3);
        let y2 = self.horner_step(bracket.value, 15, 7);
        let y6 = self.horner_step(s.y[16], 135135, 89055);
        let t2 = self.t2;
        let t4 = t2 * t2;
        let t6 = t4 * t2;
        let t8 = t4 * t4;
        let t10 = t6 * t4;
        let t12 = t6 * t6;
        let sum = Fused {
            value: y6.value / 6227020800.0 * t12,
            doubt: s.doubt | y1.doubt | bracket.doubt | y2.doubt | y6.doubt,
        };
        let sum = self.add_term(sum, s.y[17], 39916800.0, t10);
        let sum = self.add_term(sum, s.y[14], 362880.0, t8);
        let sum = self.add_term(sum, s.y[11], 5040.0, t6);
        let sum = self.add_term(sum, y2.value, 120.0, t4);
        let sum = self.add_term(sum, y1.value, 6.0, t2);
        // a.mul_add(1.0, sum) of the Rust is the plain sum.
        Fused {
            value: self.a + sum.value,
            doubt: sum.doubt,
        }
    }
}

fn taylor(a: f64, h2: f64, t2: f64) -> f64
    ensures { result ≡ taylor_of a h2 t2 }
{
    if let Some(taylor) = TaylorSum::by_errors(a, h2, t2) {
        let sum = taylor.sum();
        if sum.doubt == 0 {
            return sum.value;
        }
    }
    TaylorSum {
        steps: ByMulAdd,
        a,
        h2,
        t2,
    }
    .sum()
    .value
}

// The price, with the bell of h and t.
pub(crate) fn small_t(h: f64, t: f64, exp_term: f64) -> f64
    requires { exp_term ≡ bell_of h t }
    ensures { result ≡ small_t_inner h t }
{
    let t2 = t * t;
    let h2 = h * h;
    let a = 1.0 + h * (0.5 * SQRT_2PI) * erfcx(MINUS_FRAC_1_SQRT_2 * h);
    let y_diff = 2.0 * t * taylor(a, h2, t2);
    max(ONE_OVER_SQRT_TWO_PI * exp_term * y_diff, 0.0)
}
