//! The lines of paths that are listed, and how they are written.
ghost use Rattle.std.specs.Prelude.{◌≡◌, ◌++◌, ◌==◌, [], true, OnErr, OnOk};
ghost use Rattle.std.specs.Io.KnownBytes.{Appends};
ghost use Rattle.byte_streams.specs.Watched.{has_failed, inner};
ghost use Rattle.std.specs.List.{list_any};
ghost use Rattle.tree_answers.specs.Lines.{name_text};
ghost use Rattle.tree_answers.specs.declared.form.Form.TheVariants as forms;
ghost use Rattle.tree_commands.specs.Files.{mark_text, marked_name, path_line, spaced_name};
ghost use Rattle.tree_commands.specs.Private.Listing.{WritesOut};

use crate::files::mark::Mark;
use byte_streams::Watched;
use git_paths::{Quoting, Standpoint, append_quoted, has_unusual};
use std::alloc::{AllocError, Global};
use std::io;
use std::io::Write;
use tree_answers::Form;

/// From how many bytes on lines are written although more follow.
const MUCH: usize = 16 * 1024;

/// The lines that aren't written yet.
#[derive(Drop)]
pub(crate) struct PathLines {
    standpoint: Standpoint,
    form: Form,
    mark: Mark,
    pub(crate) text: Vec<u8>,
    /// A path as it is seen from the current folder.
    seen: Vec<u8>,
}

impl PathLines {
    /// There are none.
    pub(crate) fn new(alloc: Global, standpoint: Standpoint, form: Form, mark: Mark) -> PathLines
        ensures { (result.standpoint ≡ standpoint) × (result.form ≡ form) × (result.mark ≡ mark) × (result.text.items ≡ []) }
    {
        PathLines {
            standpoint,
            form,
            mark,
            text: Vec::new(alloc),
            seen: Vec::new(alloc),
        }
    }

    /// Appends that of a path.
    pub(crate) fn append(&mut self, path: &[u8]) -> Result<(), AllocError>
        ensures text { OnOk result (self.new.text.items ≡ self.old.text.items ++ path_line self.old.mark self.old.standpoint self.old.form path.now) }
        ensures standpoint { self.new.standpoint ≡ self.old.standpoint }
        ensures form { self.new.form ≡ self.old.form }
        ensures mark { self.new.mark ≡ self.old.mark }
    {
        append_path_line(
            &mut self.text,
            &mut self.seen,
            &self.standpoint,
            self.form,
            self.mark,
            path,
        )
    }

    /// Writes the lines, where they are many.
    pub(crate) fn write_much<W: Write>(&mut self, writer: &mut Watched<W>) -> io::Result<()>
        ensures ok { OnOk result (WritesOut (W.contents (inner writer.old)) (W.contents (inner writer.new)) self.old.text.items self.new.text.items) }
        ensures failed { OnErr result (has_failed writer.new ≡ true) }
        ensures standpoint { self.new.standpoint ≡ self.old.standpoint }
        ensures form { self.new.form ≡ self.old.form }
        ensures mark { self.new.mark ≡ self.old.mark }
    {
        if self.text.len() < MUCH {
            return Ok(());
        }
        writer.write_all(&self.text)?;
        self.text.clear();
        Ok(())
    }

    /// Writes the lines, and flushes.
    pub(crate) fn write_rest<W: Write>(&self, writer: &mut Watched<W>) -> io::Result<()>
        ensures ok { OnOk result (Appends (W.contents (inner writer.old)) (W.contents (inner writer.new)) self.now.text.items) }
        ensures failed { OnErr result (has_failed writer.new ≡ true) }
    {
        writer.write_all(&self.text)?;
        writer.flush()
    }
}

/// Appends the line of a path. `seen` is memory that may hold anything.
pub(crate) fn append_path_line(
    text: &mut Vec<u8>,
    seen: &mut Vec<u8>,
    standpoint: &Standpoint,
    form: Form,
    mark: Mark,
    path: &[u8],
) -> Result<(), AllocError>
    ensures { OnOk result (text.new.items ≡ text.old.items ++ path_line mark standpoint.now form path.now) }
{
    append_sign(text, mark)?;
    match form {
        Form::Records => standpoint.append_seen(text, path)?,
        Form::Lines(quoting) => {
            seen.clear();
            standpoint.append_seen(seen, path)?;
            append_name(text, seen, quoting, mark)?;
        }
    }
    text.push(form.end())?;
    Ok(())
}

/// Appends what stands before a path.
fn append_sign(text: &mut Vec<u8>, mark: Mark) -> Result<(), AllocError>
    ensures { OnOk result (text.new.items ≡ text.old.items ++ mark_text mark) }
{
    match mark {
        Mark::Bare => Ok(()),
        Mark::Untracked => text.extend_from_slice(b"?? "),
        Mark::Ignored => text.extend_from_slice(b"!! "),
    }
}

/// Appends a name in a line.
fn append_name(
    text: &mut Vec<u8>,
    name: &[u8],
    quoting: Quoting,
    mark: Mark,
) -> Result<(), AllocError>
    ensures { OnOk result (text.new.items ≡ text.old.items ++ marked_name mark (forms.Lines quoting) name.now) }
{
    match mark {
        Mark::Bare => append_quoted(text, name, quoting),
        Mark::Untracked | Mark::Ignored => append_spaced(text, name, quoting),
    }
}

/// Appends a name, in quotes also where it has a space.
fn append_spaced(text: &mut Vec<u8>, name: &[u8], quoting: Quoting) -> Result<(), AllocError>
    ensures { OnOk result (text.new.items ≡ text.old.items ++ spaced_name (forms.Lines quoting) name.now) }
{
    if !has_space(name) || has_unusual(name, quoting) {
        return append_quoted(text, name, quoting);
    }
    text.push(b'"')?;
    text.extend_from_slice(name)?;
    text.push(b'"')?;
    Ok(())
}

/// Whether a name has a space.
fn has_space(name: &[u8]) -> bool
    ensures { result ≡ list_any (λ b. b == 32) name.now }
{
    name.contains(&b' ')
}
