//! Names with a byte 0 between each two.
ghost use Rattle.std.specs.Prelude.{◌≡◌, ◌∷◌};
ghost use Rattle.std.specs.Option.{option_copied};
ghost use Rattle.tree_commands.specs.FileTrees.{names_in};
ghost use Rattle.tree_commands.specs.Private.Listing.{names_left};

use memchr::memchr;

/// The first of some names, and those behind it.
pub(crate) fn first_name(names: &[u8]) -> (&[u8], Option<&[u8]>)
    ensures { names_in names.now ≡ result.0.now ∷ names_left (option_copied result.1) }
{
    match memchr(0, names) {
        Some(at) => (&names[..at], Some(&names[at + 1..])),
        None => (names, None),
    }
}
