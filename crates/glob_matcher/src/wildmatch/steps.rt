//! The count of what a match takes: contracts see it, and it takes no bytes.
ghost use Rattle.std.specs.Prelude.{◌≡◌, ◌+◌};
ghost use Rattle.glob_matcher.specs.Private.Takes.{TakesExactly};
ghost use Rattle.glob_matcher.specs.Steps.{IsBlankOf};

use std::marker::Model;
use std::sync::ledger::{Blank, Book, Ledger, Share};

/// How many steps, and how many looks, were taken: two amounts of one ledger.
///
/// A step is one token, or the pattern's end, tested at one place of the value, also where the value has ended, and where the
/// token matches nothing; one mark set; or one mark moved by one byte or found unable to move. A look reads at most one byte of
/// the pattern or of the value: it is counted also where the value has none there. The bounds are in
/// `docs/PROOFS.md`.
#[derive(Drop)]
pub struct Steps<L: Ledger> {
    book: Book<L>,
    steps: Share<L>,
    looks: Share<L>,
}

impl<L: Ledger> Model for Steps<L> {
    ghost use Rattle.std.specs.Prelude.{◌<◌};
    ghost use Rattle.glob_matcher.specs.Steps.{Counts};

    ghost Value = { Counts };

    ghost view = { λ s. record { steps = s.steps.amount; looks = s.looks.amount } };

    ghost invariant = { λ s. (0 < s.steps.parts) × (0 < s.looks.parts) };
}

impl<L: Ledger> Steps<L> {
    /// A count of nothing, in a ledger that nothing counts in yet: `Blank::new(2)` makes one.
    pub fn new(blank: Blank) -> Steps<L>
        requires { IsBlankOf L.name L.parts blank }
        ensures { result ≡ record { steps = 0; looks = 0 } }
    {
        let (book, mut steps) = blank.open::<L>();
        let looks = steps.split_off(1, 0);
        Steps { book, steps, looks }
    }

    /// Counts one step.
    #[inline(always)]
    pub(super) fn step(&mut self)
        ensures { TakesExactly self.old self.new 1 0 }
    {
        self.steps(1);
    }

    /// Counts one step that reads a byte of the value, or finds that it has none there.
    #[inline(always)]
    pub(super) fn step_with_look(&mut self)
        ensures { TakesExactly self.old self.new 1 1 }
    {
        self.step();
        self.look();
    }

    /// Counts so many steps.
    #[inline(always)]
    pub(super) fn steps(&mut self, count: usize)
        ensures { TakesExactly self.old self.new count 0 }
    {
        self.book.add(&mut self.steps, count as u64);
    }

    /// Counts one look.
    #[inline(always)]
    pub(super) fn look(&mut self)
        ensures { TakesExactly self.old self.new 0 1 }
    {
        self.looks(1);
    }

    /// Counts looks at so many bytes. A caller that answers without the matcher counts in this way what it reads.
    #[inline(always)]
    pub fn looks(&mut self, count: usize)
        ensures steps { self.new.steps ≡ self.old.steps }
        ensures looks { self.new.looks ≡ self.old.looks + count }
    {
        self.book.add(&mut self.looks, count as u64);
    }
}
