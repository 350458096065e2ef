//! What a parser of pattern lines is: bytes in, patterns with values out.
use super::pattern::Mapping;
use std::alloc::{AllocError, Global};
use std::fmt::Debug;
use std::hash::Hash;

/// A way to read bytes as patterns, each with a value.
///
/// A parser means something by bytes and a source: a list of entries, as plain data. Whatever it answers holds that
/// list, so two runs of a parser over the same bytes differ at most in that memory is refused.
pub trait Pattern: Clone + PartialEq + Eq + Debug + Hash + Ord + PartialOrd + Default + Drop {
    ghost use Rattle.std.specs.Prelude.{◌≡◌, ℕ, List, IfOk, map};
    ghost use Rattle.gix_glob.specs.Entries.{Entry, entry_of};

    /// What stands beside each pattern.
    type Value: PartialEq + Eq + Debug + Hash + Ord + PartialOrd + Clone + Drop;

    // What a clause sees of a value: data without memory of its own.
    ghost Seen: { Type 0 };

    ghost seen: { Self.Value → Seen };

    // The entries that the bytes of a source mean.
    ghost meaning: { Self → List ℕ → List ℕ → List (Entry Seen) };

    /// Reads all patterns of `bytes`; `source` names where they come from.
    ///
    /// # Errors
    /// Only where memory was refused.
    fn bytes_to_patterns(
        &self,
        alloc: Global,
        bytes: &[u8],
        source: &str,
    ) -> Result<Vec<Mapping<Self::Value>>, AllocError>
        ensures { IfOk result (λ mappings. map (entry_of seen) mappings.items ≡ meaning self.now bytes.now source.now) };
}
