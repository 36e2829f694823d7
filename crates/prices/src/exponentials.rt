// The exponentials that a price out of the money asks for. The solver has those of x at hand for every
// s; a single price computes each where it is read.
ghost use Rattle.std.specs.Prelude.{◌≡◌, Float};
ghost use Rattle.prices.specs.Black.{bell as bell_of};
ghost use Rattle.prices.specs.Inside.Exponentials.{up_of, down_of};

use elementary::exp::exp;

// exp(−(h² + t²) / 2).
pub(crate) fn bell(h: f64, t: f64) -> f64
    ensures { result ≡ bell_of h t }
{
    exp(-0.5 * (h * h + t * t))
}

// That the bell is of this h and t, each of three functions requires: a ghost field of `AtHand` would tie it
// to an h and a t of its own, and each would still have to be told that they are x / s and s / 2.
pub(crate) trait Exponentials {
    ghost up: { Self → Float };

    ghost down: { Self → Float };

    // Whether it may be asked for the bell of h and t.
    ghost has_bell: { Self → Float → Float → Type 0 };

    // exp(x / 2).
    fn up(&self) -> f64
        ensures { result ≡ up self.now };

    // exp(−x / 2).
    fn down(&self) -> f64
        ensures { result ≡ down self.now };

    // exp(−(h² + t²) / 2). h and t are handed in, since who asks has them: x / s divided again cost Cody's
    // price alone 6 ns of 125.
    fn bell(&self, h: f64, t: f64) -> f64
        requires { has_bell self.now h t }
        ensures { result ≡ bell_of h t };
}

// Each is computed where it is read.
#[derive(Clone, Copy)]
pub(crate) struct WhereRead {
    pub x: f64,
}

impl Exponentials for WhereRead {
    ghost up = { λ e. up_of e.x };

    ghost down = { λ e. down_of e.x };

    ghost has_bell = { λ e h t. Unit {0} };

    fn up(&self) -> f64 {
        exp(0.5 * self.x)
    }

    fn down(&self) -> f64 {
        exp(-0.5 * self.x)
    }

    fn bell(&self, h: f64, t: f64) -> f64 {
        bell(h, t)
    }
}

// All are at hand.
#[derive(Clone, Copy)]
pub(crate) struct AtHand {
    pub up: f64,
    pub down: f64,
    pub bell: f64,
}

impl Exponentials for AtHand {
    ghost up = { λ e. e.up };

    ghost down = { λ e. e.down };

    ghost has_bell = { λ e h t. e.bell ≡ bell_of h t };

    fn up(&self) -> f64 {
        self.up
    }

    fn down(&self) -> f64 {
        self.down
    }

    fn bell(&self, _h: f64, _t: f64) -> f64 {
        self.bell
    }
}
