//! An asked path in two: what of it is compared as it stands, and the pattern behind.
ghost use Rattle.std.specs.Prelude.{◌≡◌, ◌++◌, position};
ghost use Rattle.glob_matcher.specs.Bytes.{is_special};
ghost use Rattle.git_index.specs.Holding.{front_of};

/// Whether a byte may mean more than itself in a pattern.
fn is_special(byte: u8) -> bool
    ensures { result ≡ is_special byte }
{
    matches!(byte, b'*' | b'?' | b'[' | b'\\')
}

/// The place of the first such byte.
fn first_special(bytes: &[u8]) -> Option<usize>
    ensures { result ≡ position is_special bytes.now }
{
    bytes.iter().position(|byte| is_special(*byte))
}

/// The front of an asked path, and what follows, which begins with a special byte or is empty. The first `literal` bytes are of the front.
pub fn split(asked: &[u8], literal: usize) -> (&[u8], &[u8])
    ensures front { result.0.now ≡ front_of asked.now literal }
    ensures joined { asked.now ≡ result.0.now ++ result.1.now }
{
    let place = literal.min(asked.len());
    match first_special(&asked[place..]) {
        Some(length) => asked.split_at(place + length),
        None => (asked, b""),
    }
}
