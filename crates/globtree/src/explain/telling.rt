//! How it is told why a path is ignored or not: in a line, and below it what to write.

use git_paths::append_quoted;
use git_repository::ShellWord;
use gix_glob::search::pattern::{List, Mapping};
use glob_explain::{Cause, Change, Keeping, Near, body_of};
use glob_lines::GitIgnoreLines;
use glob_lists::RepositoryPath;
use std::alloc::{AllocError, Global};
use tree_answers::Form;

/// What a path is, besides what the lines say of it.
#[derive(Clone, Copy, Debug)]
pub(crate) enum Standing {
    /// It is of another repository, whose folder its first bytes name, as many as this.
    Elsewhere(usize),
    /// It is tracked.
    Tracked,
    /// A folder without files.
    Empty,
    /// A folder, all files of which are ignored.
    Overlaid,
    /// Nothing of these.
    Usual,
}

/// What was found out about a path.
#[derive(Drop)]
pub(crate) struct Findings {
    pub(crate) standing: Standing,
    pub(crate) cause: Cause,
    /// The lines that match the path.
    pub(crate) matches: Vec<(usize, usize)>,
    pub(crate) near: Vec<Near>,
    pub(crate) keeping: Option<Keeping>,
}

/// A part of what is told.
#[derive(Clone, Copy)]
enum Part<'p> {
    Text(&'p str),
    Bytes(&'p [u8]),
    /// A name, in quotes where a line needs them.
    Name(&'p [u8]),
    /// The file of the list at this place, which may be missing.
    File(usize),
    /// The file and the number of the line at these places.
    Place((usize, usize)),
    /// The same, and the line.
    Line((usize, usize)),
}

use Part::{Bytes, File, Line, Name, Place, Text};

/// What tells it.
#[derive(Drop)]
pub(crate) struct Teller<'t> {
    pub(crate) alloc: Global,
    pub(crate) text: &'t mut Vec<u8>,
    pub(crate) form: Form,
    pub(crate) lists: &'t [List<GitIgnoreLines>],
}

impl<'t> Teller<'t> {
    /// Tells all that was found out about a told path.
    pub(crate) fn tell(
        &mut self,
        told: &[u8],
        path: &RepositoryPath<'_>,
        found: &Findings,
    ) -> Result<(), AllocError> {
        let is_bare = path.is_dir() && !told.ends_with(b"/");
        self.add(&[Name(told), Text(if is_bare { "/: " } else { ": " })])?;
        match found.standing {
            Standing::Elsewhere(length) => return self.tell_elsewhere(path, length, found.cause),
            Standing::Tracked => return self.tell_tracked(told, path, found.cause),
            Standing::Empty => {
                self.end(&[Text("not ignored, but empty: Git keeps files alone")])?
            }
            Standing::Overlaid => self.end(&[Text("not ignored, but all its files are")])?,
            Standing::Usual => self.tell_cause(path, found)?,
        }
        self.tell_overruled(found)?;
        self.tell_near(found)?;
        match &found.keeping {
            Some(keeping) => self.tell_keeping(keeping),
            None => Ok(()),
        }
    }

    /// Tells that a path is of another repository.
    fn tell_elsewhere(
        &mut self,
        path: &RepositoryPath<'_>,
        length: usize,
        cause: Cause,
    ) -> Result<(), AllocError> {
        let folder = path.bytes().get(..length).unwrap_or(b"");
        self.end(&[Text("of another repository: "), Name(folder), Text("/")])?;
        match pair_of(cause) {
            Some(pair) => self.end(&[Text("  a line here matches: "), Line(pair)]),
            None => Ok(()),
        }
    }

    /// Tells that a path is tracked, and how it would be ignored, where a line ignores it.
    fn tell_tracked(
        &mut self,
        told: &[u8],
        path: &RepositoryPath<'_>,
        cause: Cause,
    ) -> Result<(), AllocError> {
        self.add(&[Text("not ignored, since it is tracked")])?;
        match pair_of(cause) {
            Some(pair) if cause.ignores() => self.end(&[Text("; else by "), Line(pair)])?,
            _ => return self.end(&[]),
        }
        let all = if path.is_dir() { "-r " } else { "" };
        let word = format!(in self.alloc; "{all}{}", ShellWord(told))?;
        self.add(&[Text("  to ignore it: git rm --cached ")])?;
        self.end(&[Text(word.as_str())])
    }

    /// Tells why a path is ignored, or not.
    fn tell_cause(
        &mut self,
        path: &RepositoryPath<'_>,
        found: &Findings,
    ) -> Result<(), AllocError> {
        match (found.cause, found.near.first()) {
            (Cause::InFolder(folder), _) => {
                let name = path.bytes().get(..folder.length).unwrap_or(b"");
                self.add(&[
                    Text("ignored, since its folder "),
                    Name(name),
                    Text("/ is: "),
                ])?;
                self.end(&[Line(folder.pair)])
            }
            (Cause::Ignored(pair), _) => self.end(&[Text("ignored: "), Line(pair)]),
            (Cause::TakenBack(pair), _) => {
                self.end(&[Text("not ignored: taken back by "), Line(pair)])
            }
            (Cause::Unmatched, Some(near)) => {
                self.end(&[Text("not ignored; nearly by "), Line(near.pair)])
            }
            (Cause::Unmatched, None) => self.end(&[Text("not ignored: no line matches")]),
        }
    }

    /// Tells the lines that match the path and say the contrary in vain.
    fn tell_overruled(&mut self, found: &Findings) -> Result<(), AllocError> {
        'matches: for pair in &found.matches {
            let is_negative = match mapping_at(self.lists, *pair) {
                Some(mapping) => mapping.pattern.is_negative(),
                None => continue,
            };
            if is_negative != found.cause.ignores() {
                continue;
            }
            self.add(&[Text("  "), Line(*pair), Text(": ")])?;
            match found.cause {
                Cause::Ignored(by) | Cause::TakenBack(by) => {
                    self.end(&[Text("overruled by "), Place(by)])?
                }
                _ => self.end(&[Text("nothing in an ignored folder is taken back")])?,
            }
        }
        Ok(())
    }

    /// Tells the lines that nearly match, and what to try. The first one may stand in the answer's own line.
    fn tell_near(&mut self, found: &Findings) -> Result<(), AllocError> {
        let mut is_named = matches!(found.cause, Cause::Unmatched);
        'lines: for near in &found.near {
            self.add(&[Text("  ")])?;
            if !is_named {
                self.add(&[Line(near.pair), Text(": ")])?;
            }
            is_named = false;
            self.add(&[Text(advice(near))])?;
            if near.change == Change::Case {
                self.end(&[])?;
            } else {
                self.end(&[Text("; try "), Bytes(&near.line)])?;
            }
        }
        Ok(())
    }

    /// Tells how a path is kept.
    fn tell_keeping(&mut self, keeping: &Keeping) -> Result<(), AllocError> {
        let file = File(keeping.list);
        let Some(lines) = &keeping.lines else {
            return self.end(&[Text("  to keep it: "), file, Text(" would count then")]);
        };
        self.end(&[Text("  to keep it, add to "), file, Text(":")])?;
        'lines: for line in lines.split(|byte| *byte == b'\n') {
            if !line.is_empty() {
                self.end(&[Text("    "), Bytes(line)])?;
            }
        }
        Ok(())
    }

    /// Tells the ignore files that aren't read.
    pub(crate) fn tell_unread(
        &mut self,
        unread: &[(String, &'static str)],
    ) -> Result<(), AllocError> {
        'files: for (file, what) in unread {
            self.add(&[Text("  "), Name(file.as_bytes())])?;
            self.add(&[Text(": not read, since it is ")])?;
            self.end(&[Text(what)])?;
        }
        Ok(())
    }

    /// Tells these parts, and ends the line.
    fn end(&mut self, parts: &[Part<'_>]) -> Result<(), AllocError> {
        self.add(parts)?;
        self.text.push(self.form.end())?;
        Ok(())
    }

    /// Tells these parts.
    fn add(&mut self, parts: &[Part<'_>]) -> Result<(), AllocError> {
        'parts: for part in parts {
            match *part {
                Text(text) => self.text.extend_from_slice(text.as_bytes())?,
                Bytes(bytes) => self.text.extend_from_slice(bytes)?,
                Name(name) => self.name(name)?,
                File(at) => self.file(at)?,
                Place(pair) => self.place(pair)?,
                Line(pair) => self.line(pair)?,
            }
        }
        Ok(())
    }

    /// Tells a name.
    fn name(&mut self, name: &[u8]) -> Result<(), AllocError> {
        match self.form {
            Form::Lines(quoting) => append_quoted(self.text, name, quoting),
            Form::Records => self.text.extend_from_slice(name),
        }
    }

    /// Tells a list's file.
    fn file(&mut self, at: usize) -> Result<(), AllocError> {
        let Some(list) = self.lists.get(at) else {
            return Ok(());
        };
        if let Some(source) = &list.source {
            return self.name(source.as_bytes());
        }
        let mut name = Vec::new(self.alloc);
        if let Some(base) = &list.base {
            name.extend_from_slice(base)?;
        }
        name.extend_from_slice(b".gitignore")?;
        self.name(&name)
    }

    /// Tells where a line stands.
    fn place(&mut self, pair: (usize, usize)) -> Result<(), AllocError> {
        self.file(pair.0)?;
        let Some(mapping) = mapping_at(self.lists, pair) else {
            return Ok(());
        };
        let number = format!(in self.alloc; ":{}", mapping.sequence_number)?;
        self.text.extend_from_slice(number.as_str().as_bytes())
    }

    /// Tells where a line stands, and the line.
    fn line(&mut self, pair: (usize, usize)) -> Result<(), AllocError> {
        self.place(pair)?;
        let Some(mapping) = mapping_at(self.lists, pair) else {
            return Ok(());
        };
        let sign: &[u8] = if mapping.pattern.is_negative() {
            b": !"
        } else {
            b": "
        };
        self.text.extend_from_slice(sign)?;
        self.text
            .extend_from_slice(&body_of(self.alloc, &mapping.pattern)?)
    }
}

/// The mapping at a pair of places.
fn mapping_at(lists: &[List<GitIgnoreLines>], pair: (usize, usize)) -> Option<&Mapping<()>> {
    lists.get(pair.0)?.patterns.get(pair.1)
}

/// The line that decides.
fn pair_of(cause: Cause) -> Option<(usize, usize)> {
    match cause {
        Cause::InFolder(folder) => Some(folder.pair),
        Cause::Ignored(pair) | Cause::TakenBack(pair) => Some(pair),
        Cause::Unmatched => None,
    }
}

/// Why a line matches only once it is changed.
fn advice(near: &Near) -> &'static str {
    match near.change {
        Change::Comment => "what follows the blank is of the pattern",
        Change::Tab => "a tab stands at its end",
        Change::Blank => "a blank stands in front",
        Change::Quotes => "the quotes are of the pattern",
        Change::Anchors => "it is no regular expression: ^ and $ stand for themselves",
        Change::Braces => "braces stand for themselves",
        Change::HereFolder => "no path has ./ in front",
        Change::Backslash => "a backslash parts no folders",
        Change::FolderSlash => "the slash at its end is for folders alone",
        Change::AnyFolder => "a slash ties it to the folder of its file",
        Change::AnyDepth if is_starred(&near.line) => "a star stops at a slash",
        Change::AnyDepth => "a slash stands for no folders between",
        Change::Case => "case counts here, and its letters differ",
    }
}

/// Whether a line has a star besides the two that were put in.
fn is_starred(line: &[u8]) -> bool {
    line.iter().filter(|byte| **byte == b'*').count() > 2
}
