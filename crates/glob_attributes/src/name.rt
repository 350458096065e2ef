//! Names of attributes.
ghost use Rattle.std.specs.Prelude.{◌≡◌};
ghost use Rattle.std.specs.List.{list_all};
ghost use Rattle.glob_attributes.specs.Names.{is_name, is_name_byte};

/// Whether an attribute can have this name: a name has a byte, each is a letter or a digit of ASCII, `-`, `_` or `.`, and the first
/// isn't `-`.
pub fn is_name(bytes: &[u8]) -> bool
    ensures { result ≡ is_name bytes.now }
{
    !bytes.is_empty() && !bytes.starts_with(b"-") && has_name_bytes(bytes)
}

/// Whether a name can have each of the bytes.
fn has_name_bytes(bytes: &[u8]) -> bool
    ensures { result ≡ list_all is_name_byte bytes.now }
{
    bytes.iter().all(|b| is_name_byte(*b))
}

/// Whether a name can have this byte.
fn is_name_byte(b: u8) -> bool
    ensures { result ≡ is_name_byte b }
{
    b.is_ascii_alphanumeric() || matches!(b, b'-' | b'_' | b'.')
}
