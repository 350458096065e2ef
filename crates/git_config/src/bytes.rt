//! What a byte of a configuration file is.
ghost use Rattle.std.specs.Prelude.{◌≡◌, ◌==◌, ◌&&◌, not, length};
ghost use Rattle.std.specs.Str.{byte};
ghost use Rattle.git_config.specs.Grammar.{escaped, is_blank, is_gap, is_head_byte, is_mark, is_name_byte, is_space};

/// Whether a byte is a space or a tab.
pub(crate) fn is_gap(b: u8) -> bool
    ensures { result ≡ is_gap b }
{
    matches!(b, b' ' | b'\t')
}

/// Whether a byte is a space, a tab or a carriage return.
pub(crate) fn is_space(b: u8) -> bool
    ensures { result ≡ is_space b }
{
    matches!(b, b' ' | b'\t' | b'\r')
}

/// Whether a byte is a blank: a space, a tab, a carriage return or a line feed.
pub fn is_blank(b: u8) -> bool
    ensures { result ≡ is_blank b }
{
    matches!(b, b' ' | b'\t' | b'\r' | b'\n')
}

/// Whether a byte begins a comment.
pub(crate) fn is_mark(b: u8) -> bool
    ensures { result ≡ is_mark b }
{
    matches!(b, b'#' | b';')
}

/// Whether the name of an entry can have this byte.
pub(crate) fn is_name_byte(b: u8) -> bool
    ensures { result ≡ is_name_byte b }
{
    b.is_ascii_alphanumeric() || b == b'-'
}

/// Whether the name of a section can have this byte.
pub(crate) fn is_head_byte(b: u8) -> bool
    ensures { result ≡ is_head_byte b }
{
    is_name_byte(b) || b == b'.'
}

/// Whether a byte ends the head of a section that has this name.
pub(crate) fn ends_head(b: u8, name: &[u8]) -> bool
    ensures { result ≡ (b == byte "]" && not (length name.now == 0)) }
{
    b == b']' && !name.is_empty()
}

/// What a backslash before this byte stands for in a value.
pub(crate) fn escaped(b: u8) -> Option<u8>
    ensures { result ≡ escaped b }
{
    match b {
        b't' => Some(b'\t'),
        b'b' => Some(8),
        b'n' => Some(b'\n'),
        b'\\' | b'"' => Some(b),
        _ => None,
    }
}
