//! What a scan can't pass: nothing, or a slash.
ghost use Rattle.std.specs.Prelude.{◌≡◌, ◌↔◌, ℕ, IsTrue};
ghost use Rattle.glob_matcher.specs.Bytes.{slash};

/// What a scan can't pass. Each kind is a type, so that each has a loop of its own.
pub trait Barrier: Copy {
    ghost use Rattle.std.specs.Prelude.{ℕ};

    ghost stops: { ℕ → Type 0 };

    /// Whether it is a slash; else it is nothing.
    fn is_slash(self) -> bool
        ensures slash { IsTrue result → (b : ℕ) → stops b ↔ (b ≡ slash) }
        ensures nothing { ¬ IsTrue result → (b : ℕ) → ¬ stops b };
}

/// Nothing: the scan crosses slashes.
#[derive(Copy, Clone)]
pub struct NoBarrier;

/// A slash: the scan stays within a component.
#[derive(Copy, Clone)]
pub struct Slash;

impl Barrier for NoBarrier {
    ghost stops = { λ b. ⊥ };

    #[inline(always)]
    fn is_slash(self) -> bool {
        false
    }
}

impl Barrier for Slash {
    ghost stops = { λ b. b ≡ slash };

    #[inline(always)]
    fn is_slash(self) -> bool {
        true
    }
}
