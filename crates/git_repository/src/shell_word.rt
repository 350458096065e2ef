//! A path as a word of the shell.

use bstr::BStr;
use std::fmt;

/// A path, which is shown as one word of the shell, as Git does: in quotes where it has more than letters, digits and a few marks.
#[derive(Debug, Clone, Copy, Drop)]
pub struct ShellWord<'a>(pub &'a [u8]);

impl<'a> fmt::Display for ShellWord<'a> {
    fn fmt<W: fmt::Write>(&self, f: &mut fmt::Formatter<W>) -> fmt::Result {
        let path = self.0;
        if !path.is_empty() && path.iter().all(|b| is_plain(*b)) {
            return write!(f, "{}", BStr::new(path));
        }
        write!(f, "'")?;
        write_parts(f, path)?;
        write!(f, "'")
    }
}

/// Tells what stands in quotes: before a quote and before `!` they end, and begin again behind it.
fn write_parts<W: fmt::Write>(f: &mut fmt::Formatter<W>, path: &[u8]) -> fmt::Result {
    let mut is_first = true;
    for part in path.split(|b| *b == b'\'') {
        if !is_first {
            write!(f, "'\\''")?;
        }
        is_first = false;
        write_part(f, part)?;
    }
    Ok(())
}

/// The same for a part that has no quote.
fn write_part<W: fmt::Write>(f: &mut fmt::Formatter<W>, text: &[u8]) -> fmt::Result {
    let mut is_first = true;
    for part in text.split(|b| *b == b'!') {
        if !is_first {
            write!(f, "'\\!'")?;
        }
        is_first = false;
        write!(f, "{}", BStr::new(part))?;
    }
    Ok(())
}

/// Whether a byte needs no quotes.
fn is_plain(b: u8) -> bool {
    b.is_ascii_alphanumeric() || b"+,-./:=@_^".contains(&b)
}
