//! Why a word is no key.
ghost use Rattle.std.specs.Prelude.{◌≡◌, drop};
ghost use Rattle.std.specs.List.{list_any};
ghost use Rattle.std.specs.Str.{byte};
ghost use Rattle.git_config.specs.KeyFaults.{fault_of, has_section};

use thiserror::Error;

/// Why a word is no key.
#[derive(Debug, Clone, Copy, PartialEq, Eq, Error)]
pub enum KeyFault {
    /// It has no full stop, or one at its front alone.
    #[error("key does not contain a section")]
    NoSection,
    /// A full stop ends it.
    #[error("key does not contain variable name")]
    NoName,
    /// A byte of its section or of its name is none that may stand there, or a line feed stands between.
    #[error("invalid key")]
    Byte,
}

/// Why a word is no key, if it is none: what [`canonical_key`](crate::canonical_key) answers tells that.
pub fn key_fault(word: &[u8]) -> KeyFault
    ensures { result ≡ fault_of word.now }
{
    if !has_section(word) {
        KeyFault::NoSection
    } else if word.ends_with(b".") {
        KeyFault::NoName
    } else {
        KeyFault::Byte
    }
}

/// Whether a full stop stands behind the first byte.
fn has_section(word: &[u8]) -> bool
    ensures { result ≡ has_section word.now }
{
    match word {
        [_first, rest @ ..] => rest.contains(&b'.'),
        [] => false,
    }
}
