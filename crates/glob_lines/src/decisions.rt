//! The engine that tells, for each path line, which line of which ignore file decides about it.
ghost use Rattle.std.specs.Prelude.{◌≡◌, ◌++◌, false, map, IsTrue, IfOk, OnOk};
ghost use Rattle.std.specs.Io.KnownBytes.{Appends};
ghost use Rattle.glob_lists.specs.Deciding.{BasesAreFolders};
ghost use Rattle.gix_glob.specs.Entries.{entry_of};
ghost use Rattle.gix_glob.specs.EntryLists.{entry_list_of};
ghost use Rattle.byte_streams.specs.Watched.{has_failed, inner};
ghost use Rattle.glob_lines.specs.Decisions.{DecisionsText, verdict};
ghost use Rattle.glob_lines.specs.Faults.{TellsFaults};
ghost use Rattle.byte_streams.specs.Transfers.{AppendsFront, ReadsWhole, Run};

use crate::fault::EngineFault;
use crate::ignore::IgnoreLines;
use crate::numbers::append_decimal;
use crate::path_lines::{PathReport, report_on};
use crate::transfer::{read_whole, write_output};
use byte_streams::Watched;
use gix_glob::pattern::Case;
use gix_glob::search;
use gix_glob::search::pattern::{List, Mapping};
use glob_lists::{PreparedStack, RepositoryPath, Rules};
use std::alloc::{AllocError, Global};
use std::io::{Read, Write};

/// Reads path lines to the reader's end, and writes for each of them which line of which list decides about it.
///
/// For each path line a line is written: `!` where it is not [`plain_path`](crate::plain_path); else `none` where no pattern of
/// a list matches; else `ignored L:N`, or `kept L:N` for a negative pattern, of the one that [`decide`](crate::decide) answers,
/// with the place L of its list, from 1, and its number N in decimal. A trailing slash marks a directory and is not part of the
/// path.
///
/// The lists have to meet [`bases_are_folders`](crate::bases_are_folders). No call on the reader or the writer may have
/// failed before. All input is read before anything is written: `EngineFault::Memory` and `EngineFault::Read` leave the
/// output as it was, and after `EngineFault::Write` a beginning of the text was written. Lines and texts are told in
/// `docs/PATTERNS.md`.
pub fn run_ignore<R: Read, W: Write>(
    alloc: Global,
    lists: &[List<IgnoreLines>],
    case: Case,
    paths: &mut Watched<R>,
    writer: &mut Watched<W>,
) -> Result<(), EngineFault>
    requires readable { has_failed paths.old ≡ false }
    requires writable { has_failed writer.old ≡ false }
    requires folders { BasesAreFolders (map (entry_list_of {V = Unit {0}} (λ _. tt)) lists.now) }
    // On success, all of the input was read, and all of a text of decisions was written.
    ensures ok { OnOk result
        (Run (ReadsWhole (R.remaining (inner paths.old)) (R.remaining (inner paths.new)))
        (DecisionsText (map (entry_list_of {V = Unit {0}} (λ _. tt)) lists.now) case)
        (Appends (W.contents (inner writer.old)) (W.contents (inner writer.new)))) }
    ensures faults { TellsFaults result writer.old writer.new (has_failed paths.new)
        (Run (ReadsWhole (R.remaining (inner paths.old)) (R.remaining (inner paths.new)))
        (DecisionsText (map (entry_list_of {V = Unit {0}} (λ _. tt)) lists.now) case)
        (AppendsFront (W.contents (inner writer.old)) (W.contents (inner writer.new)))) }
{
    let path_lines = read_whole(alloc, paths)?;
    let text = decisions_of(alloc, lists, case, &path_lines)?;
    write_output(writer, &text)
}

/// The text of decisions for the path lines.
fn decisions_of<T: search::Pattern>(
    alloc: Global,
    lists: &[List<T>],
    case: Case,
    paths: &[u8],
) -> Result<Vec<u8>, AllocError>
    requires { BasesAreFolders (map (entry_list_of T.seen) lists.now) }
    ensures { IfOk result (λ text. DecisionsText (map (entry_list_of T.seen) lists.now) case paths.now text.items) }
{
    let stack = PreparedStack::new(alloc, lists, Rules::by_crate(case))?;
    report_on(alloc, &mut Decision { stack }, paths)
}

/// Reports which pattern decides about a path.
#[derive(Drop)]
struct Decision<'a, T: search::Pattern> {
    stack: PreparedStack<'a, T>,
}

impl<'a, T: search::Pattern> PathReport for Decision<'a, T> {
    ghost use Rattle.std.specs.Prelude.{map};
    ghost use Rattle.gix_glob.specs.EntryLists.{entry_list_of};
    ghost use Rattle.glob_lists.specs.Matches.{RuledLists};
    ghost use Rattle.glob_lines.specs.Decisions.{WritesDecision};

    ghost Basis = { RuledLists T T.Value };

    ghost basis = { λ report. report.stack };

    ghost writes = { λ stack. WritesDecision (map (entry_list_of T.seen) stack.lists) stack.rules };

    fn append(&mut self, text: &mut Vec<u8>, path: &RepositoryPath<'_>) -> Result<(), AllocError> {
        match self.stack.decide(path) {
            Some((i, m)) => {
                let mapping = &self.stack.lists()[i].patterns[m];
                append_verdict(text, i + 1, mapping)
            }
            None => text.extend_from_slice(b"none"),
        }
    }
}

/// Appends what is said of a mapping that decides, of the list with this number.
fn append_verdict<V>(
    text: &mut Vec<u8>,
    list_number: usize,
    mapping: &Mapping<V>,
) -> Result<(), AllocError>
    ensures { OnOk result (text.new.items ≡ text.old.items ++ verdict list_number (entry_of {V = Unit {0}} (λ _. tt) mapping.now)) }
{
    let word: &[u8] = if mapping.pattern.is_negative() {
        b"kept "
    } else {
        b"ignored "
    };
    text.extend_from_slice(word)?;
    append_decimal(text, list_number)?;
    text.push(b':')?;
    append_decimal(text, mapping.sequence_number)
}
