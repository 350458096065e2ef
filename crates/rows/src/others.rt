//! Rows of records, of what words of commands spell, and of folders that are safe.
ghost use Rattle.std.specs.Prelude.{◌≡◌, ◌++◌, OnOk, codes, false};
ghost use Rattle.byte_streams.specs.Watched.{has_failed};

use crate::answer::{Answer, room};
use crate::row::Row;
use anyhow::Result;
use byte_streams::{RecordFault, Records};
use git_repository::trusts;
use gix_glob::search::Watched;
use pathspecs::Pathspec;
use std::alloc::{AllocError, Global};
use std::io::{Read, Write};

/// Writes each record in brackets.
fn put_in_brackets<R: Read, W: Write>(
    alloc: Global,
    end: u8,
    reader: &mut Watched<R>,
    writer: &mut Watched<W>,
) -> Result<(), RecordFault<AllocError>>
    requires readable { has_failed reader.old ≡ false }
    requires writable { has_failed writer.old ≡ false }
{
    let mut records = Records::new(end);
    let (mut text, mut bytes) = (Vec::new(alloc), Vec::new(alloc));
    'records: while records.next(reader, writer, &mut text, &mut bytes)? {
        append_in_brackets(&mut text, &bytes)?;
    }
    Ok(())
}

/// Appends a record in brackets.
fn append_in_brackets(text: &mut Vec<u8>, bytes: &[u8]) -> Result<(), AllocError>
    ensures { OnOk result (text.new.items ≡ text.old.items ++ (codes "<" ++ (bytes.now ++ codes ">"))) }
{
    text.push(b'<')?;
    text.extend_from_slice(bytes)?;
    text.push(b'>')?;
    Ok(())
}

/// Which records bytes are, each in brackets.
pub(crate) fn records(row: &Row, answer: &mut Answer) -> Result<()> {
    let alloc = answer.alloc;
    let end = if row.is(0, b"nul") { 0 } else { b'\n' };
    let (mut reader, mut writer) = (Watched::new(row.bytes(1)), Watched::new(room(alloc)?));
    put_in_brackets(alloc, end, &mut reader, &mut writer)?;
    Ok(answer.push(writer.into_inner())?)
}

/// Whether a word spells a path that is told from the top, and the path; nothing where it spells none.
pub(crate) fn spelt_words(row: &Row, answer: &mut Answer) -> Result<()> {
    match Pathspec::spelt_by(row.bytes(0)) {
        Some(spelt) => {
            answer.tell(spelt.is_from_top)?;
            Ok(answer.copy(spelt.path)?)
        }
        None => {
            answer.skip()?;
            Ok(answer.skip()?)
        }
    }
}

/// Whether values of `safe.directory`, a line each, name a path.
pub(crate) fn safe_directories(row: &Row, answer: &mut Answer) -> Result<()> {
    let is_trusted = trusts(&lines_of(answer.alloc, row.bytes(1))?, row.bytes(0));
    Ok(answer.tell(is_trusted)?)
}

/// The lines of a text.
fn lines_of(alloc: Global, text: &[u8]) -> Result<Vec<Vec<u8>>, AllocError> {
    let mut lines = Vec::new(alloc);
    for line in text.split(|byte| *byte == b'\n') {
        lines.push(Vec::from_slice(alloc, line)?)?;
    }
    Ok(lines)
}
