ghost use Rattle.std.specs.Prelude.{◌≡◌, ℕ, Bool, Ok};
ghost use Rattle.drafting.specs.Keeping.{checked, keep_answer};
ghost use Rattle.offices.specs.Drafting.{Answer, over_after};
ghost use Rattle.offices.specs.Order.{Order, itself_alone};

use answers::Refusal;

// Seniority among 64 roles as one kind of office keeps it: what makes the kinds differ. Senior and junior are two
// parameters, as in an office's own `is_over`.
pub trait Seniority {
    // whether the first role is over the second
    ghost over: { Self → ℕ → ℕ → Bool };

    // what the kind answers to a pair that does not follow already
    ghost own: { Self → ℕ → ℕ → Answer };

    // what the kind promises besides: the seniority before, senior, junior, the answer, the seniority after
    ghost stored: { Self → ℕ → ℕ → Answer → Self → Type 0 };

    // what the kind promises of a new seniority
    ghost blank: { Self → Type 0 };

    // Each role over itself alone.
    fn alone() -> Self
        ensures over { over result ≡ itself_alone 64 }
        ensures blank { blank result };

    fn is_over(&self, senior: u8, junior: u8) -> bool
        ensures { result ≡ over self.now senior junior };

    // Puts the senior over the junior, with all that follows.
    fn keep(&mut self, senior: u8, junior: u8) -> Result<(), Refusal>
        ensures answer { result ≡ keep_answer (over self.old) (own self.old senior junior) senior junior }
        ensures after { over self.new ≡ over_after result (over self.old) senior junior }
        ensures stored { stored self.old senior junior result self.new };

    ghost order: { (x : Self) → Order 64 (over x) };
}

// Whether a kind may store a pair, where `circle` says whether the junior is over the senior. (It does not ask the
// kind itself: `keep` calls it, and the check makes no proof of a circle of calls through a trait.)
pub fn storable(senior: u8, junior: u8, circle: bool) -> Result<(), Refusal>
    ensures { result ≡ checked circle (Ok tt) senior junior }
{
    if senior >= 64 || junior >= 64 {
        return Err(Refusal::NoSuchRole);
    }
    if circle {
        return Err(Refusal::Circular);
    }
    Ok(())
}
