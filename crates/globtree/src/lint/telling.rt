//! How a finding is told: in a line as compilers write it, and below it the line of the file, with what is meant underlined, and what to do.

use crate::fronts::Fronts;
use git_paths::append_quoted;
use glob_lint::{Looked, Message, shown_line};
use std::alloc::{AllocError, Global};
use tree_files::append_shown;

/// What tells findings of files that were looked at.
#[derive(Clone, Copy)]
pub(crate) struct Teller<'t> {
    pub(crate) alloc: Global,
    /// From where files are told, and how.
    pub(crate) fronts: &'t Fronts,
    pub(crate) looked: &'t Looked<'t>,
}

impl<'t> Teller<'t> {
    /// The name of a file, as it is seen from the current folder.
    pub(crate) fn name_of(&self, file: usize) -> Result<Vec<u8>, AllocError> {
        let mut seen = Vec::new(self.alloc);
        if let Some(file) = self.looked.files.get(file) {
            self.fronts.standpoint.append_seen(&mut seen, &file.path)?;
        }
        Ok(seen)
    }

    /// A line of a file.
    pub(crate) fn line_of(&self, file: usize, line: usize) -> &'t [u8] {
        match self.looked.files.get(file) {
            Some(file) => shown_line(&file.bytes, line),
            None => b"",
        }
    }

    /// Tells a finding.
    pub(crate) fn tell(&self, text: &mut Vec<u8>, message: &Message) -> Result<(), AllocError> {
        let (line, column) = (message.line, message.from.saturating_add(1));
        let (level, name) = (message.level.as_str(), message.lint.as_str());
        append_quoted(text, &self.name_of(message.file)?, self.fronts.quoting)?;
        let head = format!(in self.alloc;
            ":{line}:{column}: {level}: {} [{name}]\n",
            message.text
        )?;
        text.extend_from_slice(head.as_str().as_bytes())?;
        if message.length > 0 {
            self.show_line(text, message)?;
        }
        if let Some((file, line)) = message.because {
            text.extend_from_slice(b"  because of ")?;
            append_quoted(text, &self.name_of(file)?, self.fronts.quoting)?;
            let number = format!(in self.alloc; ":{line}: ")?;
            text.extend_from_slice(number.as_str().as_bytes())?;
            self.show(text, self.line_of(file, line))?;
            text.push(b'\n')?;
        }
        if let Some(advice) = &message.advice {
            text.extend_from_slice(b"  try ")?;
            self.show(text, advice)?;
            text.push(b'\n')?;
        }
        Ok(())
    }

    /// Shows the line that a finding is of, and underlines what is meant.
    fn show_line(&self, text: &mut Vec<u8>, message: &Message) -> Result<(), AllocError> {
        let (front, rest) = parted(self.line_of(message.file, message.line), message.from);
        let (meant, behind) = parted(rest, message.length);
        text.extend_from_slice(b"    ")?;
        let front = self.show(text, front)?;
        let meant = self.show(text, meant)?;
        self.show(text, behind)?;
        text.extend_from_slice(b"\n    ")?;
        'front: for c in front.as_str().chars() {
            // (a tab stays one, so that what is meant is underlined where it stands)
            text.push(if c == '\t' { b'\t' } else { b' ' })?;
        }
        'meant: for _ in meant.as_str().chars() {
            text.push(b'^')?;
        }
        text.push(b'\n')?;
        Ok(())
    }

    /// Shows bytes as text, and answers it.
    fn show(&self, text: &mut Vec<u8>, bytes: &[u8]) -> Result<String, AllocError> {
        let told = String::from_utf8_lossy(self.alloc, bytes)?;
        let mut shown = String::new(self.alloc);
        append_shown(&mut shown, &told)?;
        text.extend_from_slice(shown.as_str().as_bytes())?;
        Ok(shown)
    }
}

/// So many first bytes, and those behind them.
fn parted(bytes: &[u8], count: usize) -> (&[u8], &[u8]) {
    match (bytes.get(..count), bytes.get(count..)) {
        (Some(front), Some(behind)) => (front, behind),
        _ => (bytes, b""),
    }
}
