// The normal distribution: normal_distribution.rs over document 01's rules.
ghost use Rattle.std.specs.Prelude.{◌≡◌, true, false, ◌<◌};
ghost use Rattle.elementary.specs.declared.rule_set.RuleSet.{RuleSet};
ghost use Rattle.elementary.specs.Inside.Each.{Each};
ghost use Rattle.elementary.specs.Inside.Cdf.{sixteenths_of, exp_of_negative_square, CloseCase, Between, half_erfc};
ghost use Rattle.elementary.specs.Methods.{abs_of};
ghost use Rattle.elementary.specs.Cody.{tilde_of, negative_rest, smoothened_exponential_of_negative_square};
ghost use Rattle.elementary.specs.NormalDistribution.{cdf_of, inverse_of, inverse_f_upper_map_of};

use crate::cody::{
    FRAC_1_SQRT_PI, cd, erfc, erfc_with_factor, exp_of_negative_square, on_side, pq, sixteenth,
    sixteenths, tilde,
};
use crate::eight::Eight;
use crate::exp::exps;
use crate::inverse::bisect;
use crate::methods::abs;
use crate::rule_set::RuleSet;
use std::f64::consts::FRAC_1_SQRT_2;

pub fn standard_normal_cdf(set: RuleSet, y: f64) -> f64
    ensures { result ≡ cdf_of set y }
{
    0.5 * erfc(set, -y * FRAC_1_SQRT_2)
}

// ---- the cdf of eight side by side

fn negative_rest(y: f64, t: f64) -> f64
    requires { t ≡ tilde_of y }
    ensures { result ≡ negative_rest y }
{
    -(y - t) * (y + t)
}

// The exponential factors, from the tildes and their exponentials.
fn factors(y: Eight, t: Eight, s: Eight) -> Eight
    requires tildes { Each tilde_of y t }
    requires exponentials { Each exp_of_negative_square t s }
    ensures { Each smoothened_exponential_of_negative_square y result }
{
    let c = exps(y.zip(t, negative_rest));
    s.zip(c, |s, c| s * c)
}

// erfc's argument, its size and the exponential factor.
#[derive(Clone, Copy)]
struct Argument {
    w: f64,
    y: f64,
    factor: f64,
    ghost y_is: { y ≡ abs_of w },
    ghost factor_is: { factor ≡ smoothened_exponential_of_negative_square y },
}

impl Argument {
    // What the ghost fields say is asked once here, so that the three closures that make one prove nothing.
    fn new(w: f64, y: f64, factor: f64) -> Argument
        requires y_is { y ≡ abs_of w }
        requires factor_is { factor ≡ smoothened_exponential_of_negative_square y }
        ensures { (result.w ≡ w) × (result.y ≡ y) }
    {
        Argument { w, y, factor }
    }

    fn cdf(self, set: RuleSet) -> f64
        ensures { result ≡ half_erfc set self.w }
    {
        0.5 * erfc_with_factor(set, self.w, self.y, |_| self.factor)
    }

    // The same where the size is known to be above the threshold and at most 4.
    fn cdf_up_to_four(self) -> f64
        requires { Between true self.y }
        ensures { (set : RuleSet) → result ≡ half_erfc set self.w }
    {
        0.5 * on_side(self.w, cd(self.y) * self.factor)
    }

    // And where it is known to be above 4, and not in the far arm.
    fn cdf_above_four(self) -> f64
        requires { Between false self.y }
        ensures { (set : RuleSet) → result ≡ half_erfc set self.w }
    {
        let y = self.y;
        0.5 * on_side(
            self.w,
            (FRAC_1_SQRT_PI - pq(1.0 / (y * y))) / y * self.factor,
        )
    }
}

// k / 16, and the exponential of its negative square.
#[derive(Clone, Copy)]
pub(crate) struct Sixteenth {
    k: u64,
    e: f64,
    ghost k_high: { k < 1024 },
    ghost e_is: { e ≡ exp_of_negative_square (sixteenths_of k) },
}

impl Sixteenth {
    // The one nearest to t, for a t from 0 up to 64.
    pub(crate) fn near(t: f64) -> Sixteenth {
        let k = sixteenths(t);
        Sixteenth {
            k,
            e: exp_of_negative_square(sixteenth(k)),
        }
    }
}

// Where all sizes lie in the sixteenth from k / 16 on, that is the tilde of each, and its exponential
// serves all. Where that sixteenth holds no border of erfc's regions, no size is tested.
fn close_cdfs(set: RuleSet, w: Eight, y: Eight, near: Sixteenth) -> Eight
    requires { CloseCase near.k w y }
    ensures { Each (half_erfc set) w result }
{
    let f = factors(y, Eight::of(sixteenth(near.k)), Eight::of(near.e));
    if near.k < 64 {
        return w.zip3(
            y,
            f,
            |w, y, factor| Argument::new(w, y, factor).cdf_up_to_four(),
        );
    }
    if 64 < near.k && near.k < 416 {
        return w.zip3(
            y,
            f,
            |w, y, factor| Argument::new(w, y, factor).cdf_above_four(),
        );
    }
    w.zip3(y, f, |w, y, factor| Argument::new(w, y, factor).cdf(set))
}

// Of sizes in no one sixteenth. `cdfs` has them from its test, and hands them in.
fn outer_cdfs(set: RuleSet, w: Eight, y: Eight) -> Eight
    requires { Each abs_of w y }
    ensures { Each (half_erfc set) w result }
{
    let t = y.map(tilde);
    let f = factors(y, t, t.map(exp_of_negative_square));
    w.zip3(y, f, |w, y, factor| Argument::new(w, y, factor).cdf(set))
}

// The sizes of erfc's arguments are guessed to lie in the sixteenth from k / 16 on.
pub(crate) fn cdfs(set: RuleSet, x: Eight, near: Sixteenth) -> Eight
    ensures { Each (cdf_of set) x result }
{
    // Near 0 the cdf has no exponential factor.
    if near.k < 8 {
        return x.map(|x| standard_normal_cdf(set, x));
    }
    let w = x.map(|x| -x * FRAC_1_SQRT_2);
    let y = w.map(abs);
    let a = sixteenth(near.k);
    let b = sixteenth(near.k + 1);
    if y.all(|y| (a <= y) & (y < b)) {
        close_cdfs(set, w, y, near)
    } else {
        outer_cdfs(set, w, y)
    }
}

pub fn inverse_normal_cdf(set: RuleSet, p: f64) -> f64
    ensures { result ≡ inverse_of set p }
{
    if p.is_nan() {
        return p;
    }
    if p <= 0.0 {
        return f64::NEG_INFINITY;
    }
    if p >= 1.0 {
        return f64::INFINITY;
    }
    bisect(set, p)
}

pub fn inverse_f_upper_map(set: RuleSet, f: f64) -> f64
    ensures { result ≡ inverse_f_upper_map_of set f }
{
    -2.0 * inverse_normal_cdf(set, f)
}
