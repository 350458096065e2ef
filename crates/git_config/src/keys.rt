//! Which entries have a key.
ghost use Rattle.std.specs.Prelude.{◌≡◌, ◌==◌, ◌++◌, position};
ghost use Rattle.std.specs.List.{list_any};
ghost use Rattle.std.specs.Str.{bytes_eq};
ghost use Rattle.git_config.specs.Grammar.{before_zero};

/// Whether an entry of this name has a key, in the section whose keys begin so. A section that is longer than the key is looked at up to
/// the first byte behind the key's length: a byte 0 there, or before, ends the entry's key.
#[tactic(auto, using(crate::proofs::lemmas::KeyLemmas::front_decides))]
pub(crate) fn is_key(section: &[u8], name: &[u8], key: &[u8]) -> bool
    ensures { result ≡ bytes_eq (before_zero (section.now ++ name.now)) key.now }
{
    if key.len() < section.len() {
        is_whole_key(&section[..key.len() + 1], name, key)
    } else {
        is_whole_key(section, name, key)
    }
}

/// The same where the section is looked at as a whole.
fn is_whole_key(section: &[u8], name: &[u8], key: &[u8]) -> bool
    ensures { result ≡ bytes_eq (before_zero (section.now ++ name.now)) key.now }
{
    if has_zero(section) {
        return same_bytes(until_zero(section), key);
    }
    match key.strip_prefix(section) {
        Some(rest) => same_bytes(until_zero(name), rest),
        None => false,
    }
}

/// Whether a byte 0 is among the bytes.
pub(crate) fn has_zero(bytes: &[u8]) -> bool
    ensures { result ≡ list_any (λ b. b == 0) bytes.now }
{
    bytes.contains(&0)
}

/// What stands before the first byte 0.
pub(crate) fn until_zero(bytes: &[u8]) -> &[u8]
    ensures { result.now ≡ before_zero bytes.now }
{
    match first_zero(bytes) {
        Some(place) => &bytes[..place],
        None => bytes,
    }
}

/// The place of the first byte 0.
pub(crate) fn first_zero(bytes: &[u8]) -> Option<usize>
    ensures { result ≡ position (λ b. b == 0) bytes.now }
{
    bytes.iter().position(|b| *b == 0)
}

/// Whether these are the same bytes.
fn same_bytes(a: &[u8], b: &[u8]) -> bool
    ensures { result ≡ bytes_eq a.now b.now }
{
    a == b
}
