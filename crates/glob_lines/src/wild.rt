//! The engine that matches each line of its input against one pattern.
ghost use Rattle.std.specs.Prelude.{◌≡◌, [], ◌∷◌, ◌++◌, false, IsTrue, IfOk, OnOk};
ghost use Rattle.std.specs.Io.KnownBytes.{Appends};
ghost use Rattle.byte_streams.specs.Watched.{has_failed, inner};
ghost use Rattle.glob_lines.specs.Lines.{line_feed};
ghost use Rattle.glob_lines.specs.Faults.{TellsFaults};
ghost use Rattle.byte_streams.specs.Transfers.{AppendsFront, ReadsWhole, Run};
ghost use Rattle.glob_lines.specs.Values.{ValuesText};
ghost use Rattle.glob_lines.specs.Private.Answering.{word_of};

use crate::fault::EngineFault;
use crate::lines::Lines;
use crate::transfer::{read_whole, write_output};
use byte_streams::Watched;
use gix_glob::wildmatch::{Mode, wildmatch};
use std::alloc::{AllocError, Global};
use std::io::{Read, Write};

/// Reads lines of values to the reader's end, and writes `yes` or `no` for each, as `wildmatch` answers.
///
/// No call on the reader or the writer may have failed before. All input is read before anything is written:
/// `EngineFault::Memory` and `EngineFault::Read` leave the output as it was, and after `EngineFault::Write` a beginning of
/// the text was written. Lines and texts are told in `docs/PATTERNS.md`.
pub fn run_wild<R: Read, W: Write>(
    alloc: Global,
    pattern: &[u8],
    mode: Mode,
    reader: &mut Watched<R>,
    writer: &mut Watched<W>,
) -> Result<(), EngineFault>
    requires readable { has_failed reader.old ≡ false }
    requires writable { has_failed writer.old ≡ false }
    // On success, all of the input was read, and all of the text of its values was written.
    ensures ok { OnOk result
        (Run (ReadsWhole (R.remaining (inner reader.old)) (R.remaining (inner reader.new)))
        (ValuesText pattern.now mode)
        (Appends (W.contents (inner writer.old)) (W.contents (inner writer.new)))) }
    ensures faults { TellsFaults result writer.old writer.new (has_failed reader.new)
        (Run (ReadsWhole (R.remaining (inner reader.old)) (R.remaining (inner reader.new)))
        (ValuesText pattern.now mode)
        (AppendsFront (W.contents (inner writer.old)) (W.contents (inner writer.new)))) }
{
    let input = read_whole(alloc, reader)?;
    let text = answers(alloc, pattern, mode, &input)?;
    write_output(writer, &text)
}

/// The text of answers to the lines of values.
fn answers(alloc: Global, pattern: &[u8], mode: Mode, input: &[u8]) -> Result<Vec<u8>, AllocError>
    ensures { IfOk result (λ text. ValuesText pattern.now mode input.now text.items) }
{
    let mut text = Vec::new(alloc);
    for value in Lines::new(input) {
        text.extend_from_slice(line_of(wildmatch(pattern, value, mode)))?;
    }
    Ok(text)
}

/// `yes` or `no`, with its line feed.
fn line_of(answer: bool) -> &'static [u8]
    ensures { result.now ≡ word_of answer ++ line_feed ∷ [] }
{
    if answer { b"yes\n" } else { b"no\n" }
}
