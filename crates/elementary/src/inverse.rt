// The bisection of the inverse normal cdf. The middles of the next eight steps are guessed and their
// cdf values computed side by side. A step takes a value only where its own middle is the guessed
// point, so nothing has to be known of a guess: a wrong one costs time only.
ghost use Rattle.std.specs.Prelude.{◌≡◌, true, false, cond, ◌+◌, ◌≤◌, ◌<◌};
ghost use Rattle.std.specs.Float.Ieee.{lt};
ghost use Rattle.elementary.specs.Inside.Each.{Each};
ghost use Rattle.elementary.specs.Inside.Cdf.{point_of};
ghost use Rattle.elementary.specs.NormalDistribution.{cdf_of, mid_of, lowest, highest, ends_of};
ghost use Rattle.elementary.specs.Inside.Bisection.{AfterSteps};

use crate::eight::Eight;
use crate::ln::ln;
use crate::methods::{abs, same};
use crate::normal_distribution::{Sixteenth, cdfs, standard_normal_cdf};
use crate::rule_set::RuleSet;
use crate::sqrt::sqrt;
use crate::tables::cdf_of_thirty_seconds;
use std::f64::consts::FRAC_1_SQRT_2;

// What is bisected: the cdf under a rule set, for p.
#[derive(Clone, Copy)]
struct Question {
    set: RuleSet,
    p: f64,
}

// The two ends around the result.
#[derive(Clone, Copy)]
struct Ends {
    lo: f64,
    hi: f64,
}

// The ends after some of the 64 steps, and the cdf's values there.
#[derive(Clone, Copy)]
struct Bracket {
    question: Question,
    ends: Ends,
    cdf_lo: f64,
    cdf_hi: f64,
    // How many are done.
    steps: u64,
    ghost after_steps: { AfterSteps question.set question.p ends.lo ends.hi steps },
}

// ---- guesses

// Acklam's approximation of the inverse normal cdf in the lower tail.
fn tail(p: f64) -> f64 {
    let q = sqrt(-2.0 * ln(p));
    (((((-7.784894002430293e-3 * q - 3.223964580411365e-1) * q - 2.400758277161838) * q
        - 2.549732539343734)
        * q
        + 4.374664141464968)
        * q
        + 2.938163982698783)
        / ((((7.784695709041462e-3 * q + 3.224671290700398e-1) * q + 2.445134137142996) * q
            + 3.754408661907416)
            * q
            + 1.0)
}

// And between the tails.
fn central(p: f64) -> f64 {
    let q = p - 0.5;
    let r = q * q;
    (((((-39.69683028665376 * r + 220.9460984245205) * r - 275.9285104469687) * r
        + 138.357751867269)
        * r
        - 30.66479806614716)
        * r
        + 2.506628277459239)
        * q
        / (((((-54.47609879822406 * r + 161.5858368580409) * r - 155.6989798598866) * r
            + 66.80131188771972)
            * r
            - 13.28068155288572)
            * r
            + 1.0)
}

fn approximation(p: f64) -> f64 {
    if p < 0.02425 {
        return tail(p);
    }
    if p > 0.97575 {
        return -tail(1.0 - p);
    }
    central(p)
}

impl Ends {
    fn middle(self) -> f64
        ensures { result ≡ mid_of self.lo self.hi }
    {
        0.5 * (self.lo + self.hi)
    }

    // The half that holds the guess.
    fn half(self, guess: f64) -> Ends {
        let mid = self.middle();
        if mid < guess {
            Ends { lo: mid, ..self }
        } else {
            Ends { hi: mid, ..self }
        }
    }

    // The next eight middles, if the result is near the guess: step by step.
    fn middles_one_by_one(self, guess: f64) -> Eight {
        let mut ends = self;
        let mut x = [0.0; 8];
        for mid in x.iter_mut() {
            *mid = ends.middle();
            ends = ends.half(guess);
        }
        Eight { x }
    }

    // The same for a guess inside, while the middles are exact: each is the middle of that of 1, 2, 4 ..
    // alike parts which holds the guess, and none waits for another.
    fn middles_at_once(self, guess: f64) -> Eight {
        let w = self.hi - self.lo;
        let u = (guess - self.lo) / w;
        // Adding and taking off 2^52 + 2^51 rounds to a whole number.
        PARTS.map(|n| {
            self.lo + (u * n - 0.5 + 6755399441055744.0 - 6755399441055744.0 + 0.5) * (w / n)
        })
    }

    fn middles(self, guess: f64) -> Eight {
        if self.hi - self.lo > 1e-11 && self.lo < guess && guess < self.hi {
            self.middles_at_once(guess)
        } else {
            self.middles_one_by_one(guess)
        }
    }
}

const PARTS: Eight = Eight {
    x: [1.0, 2.0, 4.0, 8.0, 16.0, 32.0, 64.0, 128.0],
};

// ---- steps

// The cdf at mid, which is f if mid is x.
fn cdf_at(set: RuleSet, mid: f64, x: f64, f: f64) -> f64
    requires { f ≡ cdf_of set x }
    ensures { result ≡ cdf_of set mid }
{
    if same(mid, x) {
        f
    } else {
        standard_normal_cdf(set, mid)
    }
}

impl Bracket {
    // Whether no step is left that changes the upper end: none is where the middle is an end.
    fn is_settled(self) -> bool
        ensures settled { result ≡ true → self.ends.hi ≡ (ends_of self.question.set self.question.p).hi }
        ensures steps_left { result ≡ false → self.steps < 64 }
    {
        let mid = self.ends.middle();
        self.steps >= 64 || same(mid, self.ends.lo) || same(mid, self.ends.hi)
    }

    // Where the ends are close, a line through the cdf's values there meets p nearer to the result.
    fn refine_guess(self, guess: f64) -> f64 {
        let width = self.ends.hi - self.ends.lo;
        if width < 1e-6 {
            self.ends.lo + (self.question.p - self.cdf_lo) / (self.cdf_hi - self.cdf_lo) * width
        } else {
            guess
        }
    }

    // One step, whose middle has the cdf's value v.
    fn step(self, mid: f64, v: f64) -> Bracket
        requires steps_high { self.steps < 64 }
        requires mid_is { mid ≡ mid_of self.ends.lo self.ends.hi }
        requires v_is { v ≡ cdf_of self.question.set mid }
        ensures question { result.question ≡ self.question }
        ensures step { self.steps < result.steps }
    {
        let mut next = self;
        if v < self.question.p {
            next.ends.lo = mid;
            next.cdf_lo = v;
        } else {
            next.ends.hi = mid;
            next.cdf_hi = v;
        }
        next.steps += 1;
        next
    }

    // The next step, if its middle is x, where the cdf is f.
    fn guessed_step(self, x: f64, f: f64) -> Bracket
        requires { f ≡ cdf_of self.question.set x }
        ensures question { result.question ≡ self.question }
        ensures step { self.steps ≤ result.steps }
    {
        if self.steps < 64 && same(self.ends.middle(), x) {
            self.step(x, f)
        } else {
            self
        }
    }

    // The steps after the first whose middles were guessed.
    fn guessed_steps(self, x: Eight, f: Eight) -> Bracket
        requires { Each (cdf_of self.question.set) x f }
        ensures question { result.question ≡ self.question }
        ensures step { self.steps ≤ result.steps }
    {
        let mut at = self;
        for i in 1..8 {
            at = at.guessed_step(x.x[i], f.x[i]);
        }
        at
    }

    // One step and up to seven more.
    fn batch(self, guess: f64, near: Sixteenth) -> Bracket
        requires { self.steps < 64 }
        ensures question { result.question ≡ self.question }
        ensures step { self.steps < result.steps }
    {
        let set = self.question.set;
        let mid = self.ends.middle();
        let x = self.ends.middles(guess);
        let f = cdfs(set, x, near);
        self.step(mid, cdf_at(set, mid, x.x[0], f.x[0]))
            .guessed_steps(x, f)
    }
}

// ---- the first five steps, over the points −39 + i × 78 / 32

fn point(i: u64) -> f64
    requires { i < 33 }
    ensures { result ≡ point_of i }
{
    (i as f64) * 2.4375 - 39.0
}

impl Question {
    // The rule's own halves. No library's search of a sorted table would do: that the cdf's values grow is
    // not known of them.
    fn first_steps(self) -> Bracket
        requires lowest_brackets { lt (cdf_of self.set lowest) self.p ≡ true }
        requires highest_brackets { lt (cdf_of self.set highest) self.p ≡ false }
        ensures { result.question ≡ self }
    {
        let mut i = 0;
        for half in [16, 8, 4, 2, 1] {
            if cdf_of_thirty_seconds(i + half) < self.p {
                i += half;
            }
        }
        Bracket {
            question: self,
            ends: Ends {
                lo: point(i),
                hi: point(i + 1),
            },
            cdf_lo: 0.0,
            cdf_hi: 1.0,
            steps: 5,
        }
    }
}

// The 64 steps: the middle becomes lo if its cdf is below p, else hi. A while, since a batch takes as many
// steps as its guesses serve: there is no range to go over.
pub(crate) fn bisect(set: RuleSet, p: f64) -> f64
    requires lowest_brackets { lt (cdf_of set lowest) p ≡ true }
    requires highest_brackets { lt (cdf_of set highest) p ≡ false }
    ensures { result ≡ (ends_of set p).hi }
{
    let guess = approximation(p);
    let near = Sixteenth::near(abs(guess * FRAC_1_SQRT_2) - 0.03125);
    let mut at = Question { set, p }.first_steps();
    while !at.is_settled() {
        at = at.batch(at.refine_guess(guess), near);
    }
    at.ends.hi
}
