//! What is told on the standard error: all lines go through here, so that no name changes how a terminal shows them.
ghost use Rattle.std.specs.Prelude.{◌≡◌, ◌++◌, OnOk, string_bytes};
ghost use Rattle.tree_files.specs.Telling.{is_between, is_shown, shown, shown_text};

use std::alloc::{AllocError, Global};
use std::fmt::Display;

/// Tells one line. It may have names in it: what of them no line shows is told as a question mark.
pub fn tell_line<R: Eprint, D: Display + Drop>(
    rt: &R,
    alloc: Global,
    line: D,
) -> Result<(), AllocError> {
    let told = format!(in alloc; "{line}")?;
    let mut text = String::new(alloc);
    append_shown(&mut text, &told)?;
    let _ = eprintln!(rt; "{text}");
    Ok(())
}

/// Appends each character of a line as it is shown: as itself, or as a question mark where no line shows it.
///
/// # Errors
/// Only where memory was refused.
pub fn append_shown(text: &mut String, told: &str) -> Result<(), AllocError>
    ensures { OnOk result (string_bytes text.new ≡ string_bytes text.old ++ shown_text told.now) }
{
    for c in told.chars() {
        text.push(shown(c))?;
    }
    Ok(())
}

/// A character as a line shows it.
fn shown(c: char) -> char
    ensures { result ≡ shown c }
{
    if is_shown(c) { c } else { '?' }
}

/// Whether a line shows a character as it is: a tab, and all but those of control, of direction, and that end a line or a paragraph.
fn is_shown(c: char) -> bool
    ensures { result ≡ is_shown c }
{
    c == '\t'
        || !(c <= '\u{1f}'
            || is_between('\u{7f}', '\u{9f}', c)
            || is_between('\u{2028}', '\u{202e}', c)
            || is_between('\u{2066}', '\u{2069}', c))
}

/// Whether a character is one of these two, or lies between them.
fn is_between(low: char, high: char, c: char) -> bool
    ensures { result ≡ is_between low high c }
{
    low <= c && c <= high
}
