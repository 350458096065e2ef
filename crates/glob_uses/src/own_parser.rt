//! A parser of one's own: all bytes of a source are one pattern.
ghost use Rattle.std.specs.Prelude.{◌≡◌, ◌∷◌, [], true, ℕ, List, Option};
ghost use Rattle.gix_glob.specs.declared.pattern.Mode.{Mode};
ghost use Rattle.gix_glob.specs.Patterns.{HasReading, Reads};
ghost use Rattle.glob_uses.specs.Equations.Whole.{whole_of};

use gix_glob::search::pattern::Mapping;
use gix_glob::{Pattern, laws, search};
use std::alloc::{AllocError, Global};

/// Reads all bytes, line feeds too, as one pattern by `Pattern::from_bytes`. Its number is 1; there is no mapping where the
/// bytes are no pattern.
#[derive(Clone, Copy, PartialEq, Eq, Debug, Hash, PartialOrd, Ord, Default)]
pub struct Whole;

impl search::Pattern for Whole {
    ghost use Rattle.glob_uses.specs.Equations.Whole.{whole_of};

    type Value = ();

    ghost Seen = { Unit {0} };

    ghost seen = { λ _. tt };

    ghost meaning = { λ _ bytes _. whole_of bytes };

    fn bytes_to_patterns(
        &self,
        alloc: Global,
        bytes: &[u8],
        _source: &str,
    ) -> Result<Vec<Mapping<()>>, AllocError> {
        // a law does nothing: it is called for what it ensures
        laws::readings_are_these();
        let mut mappings = Vec::new(alloc);
        if let Some(pattern) = Pattern::from_bytes(alloc, bytes)? {
            mappings.push(Mapping {
                pattern,
                value: (),
                sequence_number: 1,
            })?;
        }
        Ok(mappings)
    }
}

/// What [`Whole`] means: one entry of the bytes' reading, with the number 1, or no entry where they have no reading.
pub fn whole_entries_are_these()
    ensures read { (bytes text : List ℕ) (mode : Mode) (place : Option ℕ) → Reads bytes true text mode place
        → whole_of bytes ≡ record { text = text; mode = mode; place = place; value = tt; number = 1 } ∷ [] }
    ensures blank { (bytes : List ℕ) → ¬ HasReading bytes true → whole_of bytes ≡ [] }
{
    laws::readings_are_these();
}
