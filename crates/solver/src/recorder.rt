// Where the records of a run's steps go: into the lent trail, or nowhere.
ghost use Rattle.std.specs.Prelude.{◌≡◌, Bool, true, false, List, [], ◌∷◌, ◌++◌, ℕ, ◌+◌, ◌*◌, ◌≤◌, length, ltb};
ghost use Rattle.solver.specs.declared.state.Record.{Record};
ghost use Rattle.solver.specs.Trail.{trail_after};
ghost use Rattle.std.proofs.Common.{arith, refl};
ghost use Rattle.std.proofs.lemmas.Bool.{le-ltb, ltb-false};

use crate::state::Record;
use crate::trail::{STEP_BYTES, put_record};

pub(crate) trait Recorder {
    // Whether it has no room for so many records.
    ghost too_short: { Self → ℕ → Bool };

    // What it is after a run with these records.
    ghost after: { List Record → Self → Self };

    fn is_too_short(&self, limit: u32) -> bool
        ensures { result ≡ too_short self.now limit };

    // Puts a step's record behind those of the steps before it, where it has room for one more.
    fn put(&mut self, steps: u32, r: Record)
        requires { too_short self.old (steps + 1) ≡ false }
        ensures room { (n : ℕ) → too_short self.new n ≡ too_short self.old n }
        ensures after { (rs : List Record) (first : Self) → length rs ≡ steps → self.old ≡ after rs first → self.new ≡ after (rs ++ (r ∷ [])) first };

    ghost after_nothing: { (t : Self) → t ≡ after [] t };

    ghost fewer: { (t : Self) (m n : ℕ) → m ≤ n → too_short t n ≡ false → too_short t m ≡ false };
}

// A trail: record i at byte 48 × i.
#[derive(Drop)]
pub(crate) struct LentTrail<'a> {
    pub bytes: &'a mut [u8],
}

impl Recorder for LentTrail<'_> {
    ghost too_short = { λ t n. ltb (length t.bytes.now) (48 * n) };

    ghost after = { λ rs t. record t { bytes = record t.bytes { now = trail_after rs t.bytes.now } } };

    ghost after_nothing = { λ t. unfold trail_after in refl };

    ghost fewer = { λ t m n h e. le-ltb (length t.bytes.now) (48 * m) (omega (arith, ltb-false (length t.bytes.now) (48 * n) e)) };

    fn is_too_short(&self, limit: u32) -> bool {
        self.bytes.len() < limit as usize * STEP_BYTES
    }

    fn put(&mut self, steps: u32, r: Record) {
        put_record(&mut self.bytes[steps as usize * STEP_BYTES..], r);
    }
}

// No trail.
#[derive(Drop)]
pub(crate) struct NoTrail;

impl Recorder for NoTrail {
    ghost too_short = { λ _ _. false };

    ghost after = { λ _ t. t };

    ghost after_nothing = { λ t. refl };

    ghost fewer = { λ t m n _ _. refl };

    fn is_too_short(&self, _limit: u32) -> bool {
        false
    }

    fn put(&mut self, _steps: u32, _r: Record) {}
}
