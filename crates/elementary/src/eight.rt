// Eight numbers side by side. The methods are inlined, so that what they compute of all eight runs as
// vectors; `all` tests all eight, without a short cut, for the same reason. They are `for`s over the place,
// since arrays have no zip, and of `array::from_fn` what its closure asks at each turn stayed open.
ghost use Rattle.std.specs.Prelude.{◌≡◌, true};
ghost use Rattle.elementary.specs.Inside.Each.{All, Pairs, Triples, Rows};

#[derive(Clone, Copy)]
pub(crate) struct Eight {
    pub(crate) x: [f64; 8],
}

impl Eight {
    // Eight copies.
    #[inline(always)]
    pub(crate) fn of(a: f64) -> Eight
        ensures { All (λ x. x ≡ a) result }
    {
        Eight { x: [a; 8] }
    }

    // f of each.
    #[inline(always)]
    pub(crate) fn map<F: Fn(f64) -> f64>(self, f: F) -> Eight
        requires { All (F.pre f) self }
        ensures { Pairs (F.post f) self result }
    {
        let mut x = [0.0; 8];
        for i in 0..8 {
            x[i] = f(self.x[i]);
        }
        Eight { x }
    }

    // f of each and the one of `other` beside it.
    #[inline(always)]
    pub(crate) fn zip<F: Fn(f64, f64) -> f64>(self, other: Eight, f: F) -> Eight
        requires { Pairs (F.pre f) self other }
        ensures { Triples (F.post f) self other result }
    {
        let mut x = [0.0; 8];
        for i in 0..8 {
            x[i] = f(self.x[i], other.x[i]);
        }
        Eight { x }
    }

    // f of each and the two beside it.
    #[inline(always)]
    pub(crate) fn zip3<F: Fn(f64, f64, f64) -> f64>(self, y: Eight, z: Eight, f: F) -> Eight
        requires { Triples (F.pre f) self y z }
        ensures { Rows (F.post f) self y z result }
    {
        let mut x = [0.0; 8];
        for i in 0..8 {
            x[i] = f(self.x[i], y.x[i], z.x[i]);
        }
        Eight { x }
    }

    // Whether the test holds at each.
    #[inline(always)]
    pub(crate) fn all<F: Fn(f64) -> bool>(self, test: F) -> bool
        requires { All (F.pre test) self }
        ensures { result ≡ true → All (λ x. F.post test x true) self }
    {
        let mut all = true;
        for i in 0..8 {
            all &= test(self.x[i]);
        }
        all
    }
}
