//! Guesses at what a line was meant to be, each beside a fact about how Git reads it.

use crate::lints::Lint;
use crate::outside::OutsideBrackets;
use glob_lines::next_git_line;
use std::alloc::{AllocError, Global};

/// A guess.
#[derive(Debug, Drop)]
pub struct Guess {
    /// Its name.
    pub lint: Lint,
    /// Where in the line what is meant begins, in bytes from 0.
    pub from: usize,
    /// How many bytes it has.
    pub length: usize,
    /// How Git reads it.
    pub text: &'static str,
    /// The line that may be meant, where one can be told.
    pub advice: Option<Vec<u8>>,
}

/// Guesses at a line of an ignore file, which is given without its end. They are asked of its text alone, and not of other lines.
///
/// # Errors
/// Only where memory was refused.
pub fn guesses_at(alloc: Global, line: &[u8]) -> Result<Vec<Guess>, AllocError> {
    let mut guesses = Vec::new(alloc);
    let text = text_of(line);
    if is_blank(text) {
        return Ok(guesses);
    }
    let guesser = Guesser {
        alloc,
        text,
        start: usize::from(text.starts_with(b"!")),
    };
    add(&mut guesses, guesser.blank_in_front()?)?;
    add(&mut guesses, guesser.quotes()?)?;
    add(&mut guesses, guesser.regex()?)?;
    add(&mut guesses, guesser.braces())?;
    add(&mut guesses, guesser.backslash()?)?;
    add(&mut guesses, guesser.comment_behind()?)?;
    add(&mut guesses, guesser.tab_at_end()?)?;
    Ok(guesses)
}

/// What Git reads a pattern from, of a line without its end; no bytes of a comment.
pub(crate) fn text_of(line: &[u8]) -> &[u8] {
    match next_git_line(line) {
        Some(read) => read.text.unwrap_or(b""),
        None => b"",
    }
}

/// Whether a text is blank to a reader.
pub(crate) fn is_blank(text: &[u8]) -> bool {
    text.iter().all(|byte| is_blank_byte(*byte))
}

/// Whether a byte is a space or a tab.
pub(crate) fn is_blank_byte(byte: u8) -> bool {
    matches!(byte, b' ' | b'\t')
}

/// Adds a guess, where there is one.
fn add(guesses: &mut Vec<Guess>, guess: Option<Guess>) -> Result<(), AllocError> {
    if let Some(guess) = guess {
        guesses.push(guess)?;
    }
    Ok(())
}

/// A text that isn't blank, and where its pattern begins: behind a `!`.
#[derive(Drop)]
struct Guesser<'a> {
    alloc: Global,
    text: &'a [u8],
    start: usize,
}

impl<'a> Guesser<'a> {
    /// What follows a `!`.
    fn body(&self) -> &'a [u8] {
        self.text.get(self.start..).unwrap_or(b"")
    }

    /// The line with another pattern; `None` where that has no byte.
    fn line_with(&self, body: &[u8]) -> Result<Option<Vec<u8>>, AllocError> {
        if body.is_empty() {
            return Ok(None);
        }
        let sign = self.text.get(..self.start).unwrap_or(b"");
        let mut line = Vec::from_slice(self.alloc, sign)?;
        line.extend_from_slice(body)?;
        Ok(Some(line))
    }

    /// Blanks in front of the pattern.
    fn blank_in_front(&self) -> Result<Option<Guess>, AllocError> {
        let body = self.body();
        let length = body
            .iter()
            .position(|byte| !is_blank_byte(*byte))
            .unwrap_or(0);
        if length == 0 {
            return Ok(None);
        }
        let advice = self.line_with(&body[length..])?;
        Ok(Some(Guess {
            lint: Lint::BlankInFront,
            from: self.start,
            length,
            text: "a blank in front is of the pattern",
            advice,
        }))
    }

    /// Quotes around the pattern.
    fn quotes(&self) -> Result<Option<Guess>, AllocError> {
        let (quote, inner) = match self.body() {
            [b'"', inner @ .., b'"'] => (b'"', inner),
            [b'\'', inner @ .., b'\''] => (b'\'', inner),
            _ => return Ok(None),
        };
        if inner.is_empty() || inner.contains(&quote) {
            return Ok(None);
        }
        let advice = self.line_with(inner)?;
        Ok(Some(Guess {
            lint: Lint::Quotes,
            from: self.start,
            length: self.body().len(),
            text: "the quotes are of the pattern",
            advice,
        }))
    }

    /// A `^` in front of the pattern.
    fn regex(&self) -> Result<Option<Guess>, AllocError> {
        let Some(rest) = self.body().strip_prefix(b"^") else {
            return Ok(None);
        };
        let rest = rest.strip_suffix(b"$").unwrap_or(rest);
        let rest = rest.strip_prefix(b"/").unwrap_or(rest);
        let mut anchored = Vec::new(self.alloc);
        if !rest.is_empty() && !rest.iter().any(|byte| is_of_expressions(*byte)) {
            anchored.push(b'/')?;
            anchored.extend_from_slice(rest)?;
        }
        let advice = self.line_with(&anchored)?;
        Ok(Some(Guess {
            lint: Lint::Regex,
            from: self.start,
            length: 1,
            text: "no regular expression: ^ stands for itself",
            advice,
        }))
    }

    /// Braces with a comma between them.
    fn braces(&self) -> Option<Guess> {
        let mut open = None;
        let mut has_comma = false;
        'bytes: for (place, byte) in OutsideBrackets::of(self.text) {
            match (byte, open) {
                (b'{', None) => open = Some(place),
                (b',', Some(_)) => has_comma = true,
                (b'}', Some(from)) if has_comma => {
                    return Some(Guess {
                        lint: Lint::Braces,
                        from,
                        length: place.saturating_sub(from).saturating_add(1),
                        text: "braces stand for themselves",
                        advice: None,
                    });
                }
                (b'}', Some(_)) => open = None,
                _ => {}
            }
        }
        None
    }

    /// A backslash before a letter or a digit.
    fn backslash(&self) -> Result<Option<Guess>, AllocError> {
        let text = self.text;
        let mut parts = OutsideBrackets::of(text).filter(|(place, byte)| is_escape_of_name(
            text, *place, *byte,
        ));
        let Some((from, _backslash)) = parts.next() else {
            return Ok(None);
        };
        let advice = self.with_slashes()?;
        Ok(Some(Guess {
            lint: Lint::Backslash,
            from,
            length: 1,
            text: "a backslash is no separator",
            advice,
        }))
    }

    /// The line with slashes for backslashes; `None` where one stands before what is no letter and no digit.
    fn with_slashes(&self) -> Result<Option<Vec<u8>>, AllocError> {
        let mut line = Vec::from_slice(self.alloc, self.text)?;
        'bytes: for (place, byte) in OutsideBrackets::of(self.text) {
            if byte != b'\\' {
                continue;
            }
            if !is_escape_of_name(self.text, place, byte) {
                return Ok(None);
            }
            if let Some(written) = line.get_mut(place) {
                *written = b'/';
            }
        }
        Ok(Some(line))
    }

    /// A `#` behind a blank that stands behind something else.
    fn comment_behind(&self) -> Result<Option<Guess>, AllocError> {
        let Some(from) = comment_start(self.body()) else {
            return Ok(None);
        };
        let body = self.body();
        let advice = self.line_with(body.get(..from).unwrap_or(b""))?;
        Ok(Some(Guess {
            lint: Lint::CommentBehind,
            from: self.start.saturating_add(from),
            length: body.len().saturating_sub(from),
            text: "a comment needs a line of its own; this is of the pattern",
            advice,
        }))
    }

    /// Tabs at the end.
    fn tab_at_end(&self) -> Result<Option<Guess>, AllocError> {
        let body = self.body();
        let front = match body.iter().rposition(|byte| *byte != b'\t') {
            Some(last) => &body[..last + 1],
            None => return Ok(None),
        };
        if front.len() == body.len() || front.ends_with(b"\\") {
            return Ok(None);
        }
        let advice = self.line_with(front)?;
        Ok(Some(Guess {
            lint: Lint::TabAtEnd,
            from: self.start.saturating_add(front.len()),
            length: body.len().saturating_sub(front.len()),
            text: "a tab at the end is of the pattern",
            advice,
        }))
    }
}

/// Whether a byte has a meaning in regular expressions, but for the dot.
fn is_of_expressions(byte: u8) -> bool {
    b"*+?()|[]{}\\^$".contains(&byte)
}

/// Whether a byte at a place of a text is a backslash, and a letter or a digit follows.
fn is_escape_of_name(text: &[u8], place: usize, byte: u8) -> bool {
    if byte != b'\\' {
        return false;
    }
    match text.get(place.saturating_add(1)) {
        Some(next) => next.is_ascii_alphanumeric(),
        None => false,
    }
}

/// Where the blanks begin, behind something else, that stand in front of a `#`.
fn comment_start(body: &[u8]) -> Option<usize> {
    let mut blanks = None;
    let mut last = None;
    'bytes: for (place, byte) in OutsideBrackets::of(body) {
        match (byte, blanks) {
            (b'#', Some(from)) => return Some(from),
            (b' ' | b'\t', None) => blanks = last.map(|_byte| place),
            (b' ' | b'\t', Some(_)) => {}
            _ => {
                blanks = None;
                last = Some(byte);
            }
        }
    }
    None
}
