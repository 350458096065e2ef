//! Messages about ignore files: what was found of their lines, and guesses at what was meant.
ghost use Rattle.std.specs.Prelude.{◌≤◌, length};

use crate::effects::Effect;
use crate::file_lines::{FileLines, allows};
use crate::guesses::{guesses_at, is_blank, text_of};
use crate::lints::{Level, Lint};
use crate::report::{Finding, Report};
use crate::verdicts::{Lines, Verdict};
use gix_glob::search::pattern::List;
use glob_lines::GitIgnoreLines;
use glob_lists::Rules;
use std::alloc::{AllocError, Global};

/// An ignore file that was looked at.
#[derive(Debug, Drop)]
pub struct IgnoreFile {
    /// Its path from the top, as `s/.gitignore`.
    pub path: Vec<u8>,
    /// What it holds; no bytes, where it isn't read.
    pub bytes: Vec<u8>,
    /// What stands in its place where Git doesn't read it, as "a link".
    pub unread: Option<&'static str>,
}

/// How many tracked files a line decides.
#[derive(Debug, Drop)]
pub struct TrackedFiles {
    /// The places of its list and of the line in it, both from 0.
    pub pair: (usize, usize),
    /// How many they are.
    pub count: usize,
    /// What may be done about the first of them, as `git rm --cached debug.log`.
    pub advice: Vec<u8>,
}

/// A message about a line, or about a file.
#[derive(Debug, Drop)]
pub struct Message {
    /// The place of the file, from 0.
    pub file: usize,
    /// The number of the line, from 1.
    pub line: usize,
    /// Where in the line what is meant begins, in bytes from 0.
    pub from: usize,
    /// How many bytes it has; 0 where the file is meant.
    pub length: usize,
    /// How grave it is.
    pub level: Level,
    /// Its name.
    pub lint: Lint,
    /// What is said.
    pub text: String,
    /// What may be tried.
    pub advice: Option<Vec<u8>>,
    /// The place of the file and the number of the line, from 1, that are the reason.
    pub because: Option<(usize, usize)>,
}

/// What was looked at. The file at a place is that of the list there.
#[derive(Drop)]
pub struct Looked<'a> {
    /// The lists that were reported on, in order.
    pub lists: &'a [List<GitIgnoreLines>],
    /// The files that they were read from.
    pub files: &'a [IgnoreFile],
    /// Which lines decide tracked files.
    pub tracked: &'a [TrackedFiles],
    /// The rules of the report.
    pub rules: Rules,
    /// Whether lines are told that a line of another file covers, and those with `!` in front that take nothing back.
    pub all: bool,
    /// What isn't told.
    pub allowed: &'a [Lint],
}

/// The messages about ignore files, by file, line and place in it. Of lines that make no difference those are told that the report calls
/// removable, so that all that errors and warnings name may go together.
///
/// # Errors
/// Only where memory was refused.
pub fn messages_of(
    alloc: Global,
    looked: &Looked<'_>,
    report: &Report,
) -> Result<Vec<Message>, AllocError> {
    let teller = Teller {
        alloc,
        looked,
        report,
    };
    let mut messages: Vec<Message> = Vec::new(alloc);
    let mut findings = report.findings.as_slice();
    'files: for at in 0..looked.files.len() {
        let (of_file, behind) = findings.split_at(count_of(findings, at));
        teller.add_file(at, of_file, &mut messages)?;
        findings = behind;
    }
    messages.sort_by_key(|message| (message.file, message.line, message.from))?;
    Ok(messages)
}

/// The bytes of the file at a place without the lines of which warnings say that they make no difference.
///
/// # Errors
/// Only where memory was refused.
pub fn without_idle_lines(
    alloc: Global,
    file: usize,
    looked: &Looked<'_>,
    report: &Report,
) -> Result<Vec<u8>, AllocError> {
    let teller = Teller {
        alloc,
        looked,
        report,
    };
    let bytes: &[u8] = match looked.files.get(file) {
        Some(ignore_file) => &ignore_file.bytes,
        None => b"",
    };
    let mut kept = Vec::new(alloc);
    let mut from: usize = 0;
    let mut lines = FileLines::of(bytes);
    'findings: for finding in report.findings.as_slice() {
        if finding.pair.0 != file || begins_as_utf16(bytes) {
            continue;
        }
        lines.go_to(teller.lines().number_of(finding.pair).unwrap_or(0));
        if teller.is_idle(finding, &lines) {
            kept.extend_from_slice(bytes.get(from..lines.start).unwrap_or(b""))?;
            from = lines.end;
        }
    }
    kept.extend_from_slice(bytes.get(from..).unwrap_or(b""))?;
    Ok(kept)
}

/// How many of the first findings are of the list at a place.
fn count_of(findings: &[Finding], at: usize) -> usize
    ensures { result ≤ length findings.now }
{
    findings
        .iter()
        .position(|finding| finding.pair.0 != at)
        .unwrap_or(findings.len())
}

/// Whether the bytes of a file begin as UTF-16 does.
fn begins_as_utf16(bytes: &[u8]) -> bool {
    matches!(bytes, [0xff, 0xfe, ..] | [0xfe, 0xff, ..])
}

/// What was looked at, and the report on it.
#[derive(Drop)]
struct Teller<'a, 'l> {
    alloc: Global,
    looked: &'a Looked<'l>,
    report: &'a Report,
}

impl<'a, 'l> Teller<'a, 'l> {
    /// The lists.
    fn lines(&self) -> Lines<'l> {
        Lines {
            lists: self.looked.lists,
            rules: self.looked.rules,
        }
    }

    /// Adds the messages about the file at a place, with these findings.
    fn add_file(
        &self,
        at: usize,
        findings: &[Finding],
        messages: &mut Vec<Message>,
    ) -> Result<(), AllocError> {
        let Some(file) = self.looked.files.get(at) else {
            return Ok(());
        };
        if let Some(what) = file.unread {
            let text = format!(in self.alloc; "Git doesn't read it: it is {what}")?;
            return self.add(
                about_file(at, Level::Warning, Lint::NotRead, text),
                b"",
                messages,
            );
        }
        if begins_as_utf16(&file.bytes) {
            let text = "the file begins as UTF-16, so each line ends at its first byte 0";
            let text = String::from_str(self.alloc, text)?;
            return self.add(
                about_file(at, Level::Error, Lint::Utf16, text),
                b"",
                messages,
            );
        }
        let mut lines = FileLines::of(&file.bytes);
        'findings: for finding in findings {
            let Some(number) = self.lines().number_of(finding.pair) else {
                continue;
            };
            lines.go_to(number);
            let here = Here {
                finding,
                number,
                lines: &lines,
                length: text_of(lines.line).len(),
            };
            self.add_line(&here, messages)?;
        }
        Ok(())
    }

    /// Adds the messages about a line.
    fn add_line(&self, here: &Here<'_>, messages: &mut Vec<Message>) -> Result<(), AllocError> {
        if is_blank(text_of(here.lines.line)) {
            return Ok(());
        }
        if let Some(verdict) = self.told(here.finding) {
            self.add_verdict(here, verdict, messages)?;
        }
        self.add_tracked(here, messages)?;
        self.add_folders(here, messages)?;
        'guesses: for guess in guesses_at(self.alloc, here.lines.line)? {
            let text = String::from_str(self.alloc, guess.text)?;
            let mut message = here.message(Level::Note, guess.lint, text);
            message.from = guess.from;
            message.length = guess.length;
            message.advice = guess.advice;
            self.add(message, here.lines.before, messages)?;
        }
        Ok(())
    }

    /// Adds what is said of a line that makes no difference.
    fn add_verdict(
        &self,
        here: &Here<'_>,
        verdict: Verdict,
        messages: &mut Vec<Message>,
    ) -> Result<(), AllocError> {
        let text = String::from_str(self.alloc, verdict.text)?;
        let mut message = here.message(verdict.level, verdict.lint, text);
        if let Some(by) = verdict.by {
            message.because = self.lines().number_of(by).map(|number| (by.0, number));
        }
        if let Lint::MatchesNothing = verdict.lint {
            let text = text_of(here.lines.line);
            message.advice = self.lines().without_dots(self.alloc, text)?;
        }
        self.add(message, here.lines.before, messages)
    }

    /// Adds how many tracked files a line decides, if any.
    fn add_tracked(&self, here: &Here<'_>, messages: &mut Vec<Message>) -> Result<(), AllocError> {
        let pair = here.finding.pair;
        let Some(tracked) = self
            .looked
            .tracked
            .iter()
            .find(|tracked| tracked.pair == pair)
        else {
            return Ok(());
        };
        let text = match tracked.count {
            1 => String::from_str(self.alloc, "1 tracked file that it matches stays tracked")?,
            count => {
                format!(in self.alloc; "{count} tracked files that it matches stay tracked")?
            }
        };
        let mut message = here.message(Level::Warning, Lint::Tracked, text);
        message.advice = Some(tracked.advice.clone()?);
        self.add(message, here.lines.before, messages)
    }

    /// Adds that a line ignores folders, too, in which later ones are to take something back.
    fn add_folders(&self, here: &Here<'_>, messages: &mut Vec<Message>) -> Result<(), AllocError> {
        if !self.lines().ignores_folders_too(here.finding.pair) {
            return Ok(());
        }
        let text = "ignores folders too, so no line takes back what lies in them";
        let text = String::from_str(self.alloc, text)?;
        let mut message = here.message(Level::Note, Lint::FoldersToo, text);
        message.advice = Some(Vec::from_slice(self.alloc, b"the line !*/ behind it")?);
        self.add(message, here.lines.before, messages)
    }

    /// Adds a message, unless it is allowed, everywhere or by the line before.
    fn add(
        &self,
        message: Message,
        before: &[u8],
        messages: &mut Vec<Message>,
    ) -> Result<(), AllocError> {
        if !self.is_allowed(message.lint, before) {
            messages.push(message)?;
        }
        Ok(())
    }

    /// Whether a finding is allowed, everywhere or by the line before.
    fn is_allowed(&self, lint: Lint, before: &[u8]) -> bool {
        self.looked.allowed.contains(&lint) || allows(before, lint)
    }

    /// What is told of a line that makes no difference; `None` of other lines.
    fn told(&self, finding: &Finding) -> Option<Verdict> {
        let Effect::Idle(why) = &finding.effect else {
            return None;
        };
        if !self.is_removable(finding.pair) {
            return None;
        }
        let verdict = self.lines().verdict(finding.pair, *why);
        if !self.looked.all && verdict.is_seldom_a_mistake(finding.pair) {
            return None;
        }
        Some(verdict)
    }

    /// Whether the line at a pair of places may go with the others.
    fn is_removable(&self, pair: (usize, usize)) -> bool {
        // the last one stands first
        self.report
            .removable
            .binary_search_by(|held| pair.cmp(held))
            .is_ok()
    }

    /// Whether a warning says of a line that it makes no difference.
    fn is_idle(&self, finding: &Finding, lines: &FileLines<'_>) -> bool {
        match self.told(finding) {
            Some(verdict) => {
                matches!(verdict.level, Level::Warning)
                    && !is_blank(text_of(lines.line))
                    && !self.is_allowed(verdict.lint, lines.before)
            }
            None => false,
        }
    }
}

/// A line, and what was found of it.
#[derive(Drop)]
struct Here<'a> {
    finding: &'a Finding,
    /// Its number in the file, from 1.
    number: usize,
    /// The lines of the file, which stand at it.
    lines: &'a FileLines<'a>,
    /// How many bytes of it Git reads.
    length: usize,
}

impl<'a> Here<'a> {
    /// A message about all of the line that Git reads.
    fn message(&self, level: Level, lint: Lint, text: String) -> Message {
        Message {
            file: self.finding.pair.0,
            line: self.number,
            from: 0,
            length: self.length,
            level,
            lint,
            text,
            advice: None,
            because: None,
        }
    }
}

/// A message about the file at a place.
fn about_file(at: usize, level: Level, lint: Lint, text: String) -> Message {
    Message {
        file: at,
        line: 1,
        from: 0,
        length: 0,
        level,
        lint,
        text,
        advice: None,
        because: None,
    }
}
