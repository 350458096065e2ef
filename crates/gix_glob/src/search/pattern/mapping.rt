//! A pattern, what stands beside it, and where it was read.
ghost use Rattle.std.specs.Prelude.{IsTrue, IfOk};

use crate::Pattern;
use std::alloc::AllocError;

/// A pattern with its value and its number.
///
/// Mappings are compared by the pattern, then by the value, then by the number.
#[derive(Debug, PartialEq, Eq, Hash, PartialOrd, Ord, Drop)]
pub struct Mapping<T> {
    /// The pattern itself, like `/target/*`.
    pub pattern: Pattern,
    /// What stands beside the pattern.
    pub value: T,
    /// The number of the line from 1, or another number that orders this mapping among the others.
    pub sequence_number: usize,
}

impl<T: Clone + PartialEq> Mapping<T> {
    /// An equal mapping, in memory of its own. A clone of the value must equal the value.
    ///
    /// # Errors
    /// Only where memory was refused.
    #[allow(clippy::should_implement_trait)]
    pub fn clone(&self) -> Result<Mapping<T>, AllocError>
        requires { (copy : T) → T.is_clone self.now.value copy → IsTrue (T.PartialEq.eq self.now.value copy) }
        ensures { IfOk result (λ copy. IsTrue (⟦<Mapping<T> as PartialEq>⟧.eq self.now copy)) }
    {
        Ok(Mapping {
            pattern: self.pattern.clone()?,
            value: self.value.clone()?,
            sequence_number: self.sequence_number,
        })
    }
}
