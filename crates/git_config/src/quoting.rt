//! A value as a file can hold it.
ghost use Rattle.std.specs.Prelude.{◌≡◌, ◌++◌, IfOk, OnOk};
ghost use Rattle.git_config.specs.Quoting.{quoted_byte, quoted_of};

use std::alloc::{AllocError, Global};

/// A value in quotes: as it stands between an equals sign and the end of a line, it is read as this value, unless a byte 0 is in it,
/// which ends a value. The law is `laws::quoted_values_read_back`.
///
/// # Errors
/// Only where memory was refused.
pub fn quoted(alloc: Global, value: &[u8]) -> Result<Vec<u8>, AllocError>
    ensures { IfOk result (λ text. text.items ≡ quoted_of value.now) }
{
    let mut text = Vec::new(alloc);
    text.push(b'"')?;
    for byte in value {
        push_quoted(&mut text, *byte)?;
    }
    text.push(b'"')?;
    Ok(text)
}

/// Adds a byte within quotes.
fn push_quoted(text: &mut Vec<u8>, byte: u8) -> Result<(), AllocError>
    ensures { OnOk result (text.new.items ≡ text.old.items ++ quoted_byte byte) }
{
    match byte {
        b'\n' => text.extend_from_slice(b"\\n"),
        b'"' => text.extend_from_slice(b"\\\""),
        b'\\' => text.extend_from_slice(b"\\\\"),
        _ => {
            text.push(byte)?;
            Ok(())
        }
    }
}
