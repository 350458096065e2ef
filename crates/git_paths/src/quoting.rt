//! Names as Git quotes them: in double quotes, as C writes a text, where a byte is unusual.
ghost use Rattle.std.specs.Prelude.{◌≡◌, ◌++◌, OnOk, codes};
ghost use Rattle.std.specs.Io.{StartsWith};
ghost use Rattle.std.specs.List.{flat_map};
ghost use Rattle.git_paths.specs.Quoting.{escaped, letter_of, quoted};

use crate::unusual::{has_unusual, is_unusual_by};
use std::alloc::AllocError;

/// Which bytes of names are unusual, besides control characters, the double quote and the backslash.
#[derive(Clone, Copy, Debug, PartialEq, Eq)]
pub enum Quoting {
    /// Each byte past ASCII too, as Git has it where nothing is configured.
    Full,
    /// No byte past ASCII, as with `core.quotePath=false`.
    AsciiOnly,
}

/// Appends a name, in quotes where a byte of it is unusual.
///
/// # Errors
/// Only where memory was refused.
pub fn append_quoted(text: &mut Vec<u8>, name: &[u8], quoting: Quoting) -> Result<(), AllocError>
    ensures written { OnOk result (text.new.items ≡ text.old.items ++ quoted quoting name.now) }
    ensures kept { StartsWith text.new.items text.old.items }
{
    if has_unusual(name, quoting) {
        return append_in_quotes(text, name, quoting);
    }
    text.extend_from_slice(name)
}

/// Appends a name in quotes.
#[inline(never)]
fn append_in_quotes(text: &mut Vec<u8>, name: &[u8], quoting: Quoting) -> Result<(), AllocError>
    ensures written { OnOk result (text.new.items ≡ text.old.items ++ (codes "\"" ++ (flat_map (escaped quoting) name.now ++ codes "\""))) }
    ensures kept { StartsWith text.new.items text.old.items }
{
    text.push(b'"')?;
    append_escaped_bytes(text, name, quoting)?;
    text.push(b'"')?;
    Ok(())
}

/// Appends each byte of a name, escaped where it is unusual.
fn append_escaped_bytes(text: &mut Vec<u8>, name: &[u8], quoting: Quoting) -> Result<(), AllocError>
    ensures written { OnOk result (text.new.items ≡ text.old.items ++ flat_map (escaped quoting) name.now) }
    ensures kept { StartsWith text.new.items text.old.items }
{
    'bytes: for byte in name {
        append_escaped(text, *byte, quoting)?;
    }
    Ok(())
}

/// Appends a byte, escaped where it is unusual.
fn append_escaped(text: &mut Vec<u8>, byte: u8, quoting: Quoting) -> Result<(), AllocError>
    ensures written { OnOk result (text.new.items ≡ text.old.items ++ escaped quoting byte) }
    ensures kept { StartsWith text.new.items text.old.items }
{
    if !is_unusual_by(byte, quoting) {
        return text.push(byte).map_err(AllocError::from);
    }
    match letter_of(byte) {
        Some(letter) => text.extend_from_slice(&[b'\\', letter]),
        None => text.extend_from_slice(&[
            b'\\',
            b'0' + byte / 64,
            b'0' + byte / 8 % 8,
            b'0' + byte % 8,
        ]),
    }
}

/// The letter or sign that stands behind the backslash for a byte; `None` where digits do.
fn letter_of(byte: u8) -> Option<u8>
    ensures { result ≡ letter_of byte }
{
    match byte {
        7 => Some(b'a'),
        8 => Some(b'b'),
        9 => Some(b't'),
        10 => Some(b'n'),
        11 => Some(b'v'),
        12 => Some(b'f'),
        13 => Some(b'r'),
        b'"' => Some(b'"'),
        b'\\' => Some(b'\\'),
        _ => None,
    }
}
