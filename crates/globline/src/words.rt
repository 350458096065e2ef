//! The words of the command line: what they ask for, and the status that the program ends with.
ghost use Rattle.std.specs.Prelude.{◌≡◌, ◌≢◌, ◌⊎◌, ◌≤◌, ◌↔◌, ℕ, List, false, map, string_bytes, OnOk, OnErr};
ghost use Rattle.std.specs.Io.KnownBytes.{Appends};
ghost use Rattle.byte_streams.specs.Watched.{has_failed, inner};
ghost use Rattle.byte_streams.specs.Transfers.{AppendsFront, ReadsWhole, Run};
ghost use Rattle.globline.specs.Words.{AnswersCommand, AnswersWords, AreWrong, Ask, usage};

#[cfg(test)]
mod tests;

use crate::command::{Command, command_of};
use crate::ignore_files::lists_of;
use byte_streams::Watched;
use glob_lines::{EngineFault, run_ignore, run_list, run_wild};
use std::alloc::Global;
use std::fs;
use std::io::{ErrorKind, Read, Write};
use std::rt::Files;

/// What the program ends with: the number of the variant is the status.
enum Status {
    /// The words were understood, and every line was answered.
    Answered = 0,
    /// Memory was refused, or a read or a write failed.
    Fault = 1,
    /// The words ask for nothing that the program does.
    WrongWords = 2,
}

const USAGE: &str = "\
usage: globline wild plain|fold|path|path-fold PATTERN
       globline list sensitive|fold FILE ROOT
       globline ignore sensitive|fold ROOT FILE..
";

/// Does what the words after the program's name ask for, and answers the status to end with.
///
/// Lines are read from `input` and answered on `output`. Faults and the usage text go to `errors`, whose own faults change nothing.
pub fn run_words<F: Files, I: Read, O: Write, E: Write>(
    rt: &F,
    alloc: Global,
    words: &[String],
    input: &mut Watched<I>,
    output: &mut Watched<O>,
    errors: &mut E,
) -> u8
    requires readable { has_failed input.old ≡ false }
    requires writable { has_failed output.old ≡ false }
    ensures status { result ≤ 2 }
    ensures answered { result ≡ 0 → AnswersWords (map string_bytes words.now)
        (I.remaining (inner input.old)) (I.remaining (inner input.new)) (Appends (O.contents (inner output.old)) (O.contents (inner output.new))) }
    ensures fault { result ≡ 1 → (output.new ≡ output.old) ⊎ AnswersWords (map string_bytes words.now)
        (I.remaining (inner input.old)) (I.remaining (inner input.new)) (AppendsFront (O.contents (inner output.old)) (O.contents (inner output.new))) }
    ensures wrong { (result ≡ 2) ↔ AreWrong (map string_bytes words.now) }
    ensures unread { result ≡ 2 → input.new ≡ input.old }
    ensures unwritten { result ≡ 2 → output.new ≡ output.old }
    ensures told { result ≡ 2 → AppendsFront (E.contents errors.old) (E.contents errors.new) usage }
{
    let Some(command) = command_of(words) else {
        return tell_usage(errors);
    };
    match run(rt, alloc, command, input, output) {
        Ok(()) => Status::Answered as u8,
        Err(fault) => tell_fault(fault, errors),
    }
}

/// The status where the words could not be had, for want of memory or because they are no text.
pub(crate) fn without_words<E: Write>(refused: ErrorKind, errors: &mut E) -> u8
    ensures memory { refused ≡ ErrorKind.OutOfMemory → result ≡ 1 }
    ensures other { refused ≢ ErrorKind.OutOfMemory → (result ≡ 2) × AppendsFront (E.contents errors.old) (E.contents errors.new) usage }
{
    match refused {
        ErrorKind::OutOfMemory => tell_fault(EngineFault::Memory, errors),
        _ => tell_usage(errors),
    }
}

/// Runs the engine that the command asks for.
fn run<F: Files, I: Read, O: Write>(
    rt: &F,
    alloc: Global,
    command: Command<'_>,
    input: &mut Watched<I>,
    output: &mut Watched<O>,
) -> Result<(), EngineFault>
    requires readable { has_failed input.old ≡ false }
    requires writable { has_failed output.old ≡ false }
    requires asked { (words : List (List ℕ)) × Ask words command }
    ensures ok { OnOk result (Run (ReadsWhole (I.remaining (inner input.old)) (I.remaining (inner input.new)))
        (AnswersCommand command.entry) (Appends (O.contents (inner output.old)) (O.contents (inner output.new)))) }
    ensures err { OnErr result ((output.new ≡ output.old) ⊎ Run (ReadsWhole (I.remaining (inner input.old)) (I.remaining (inner input.new)))
        (AnswersCommand command.entry) (AppendsFront (O.contents (inner output.old)) (O.contents (inner output.new)))) }
{
    match command {
        Command::Wild { mode, pattern } => run_wild(alloc, pattern, mode, input, output),
        Command::List { case, file, root } => {
            let mut patterns = Watched::new(open(rt, file)?);
            run_list(alloc, &mut patterns, file, root, case, input, output)
        }
        Command::Ignore { case, root, files } => {
            let lists = lists_of(rt, alloc, root, files)?;
            run_ignore(alloc, &lists, case, input, output)
        }
    }
}

/// Opens the file of pattern lines.
fn open<F: Files>(rt: &F, file: &str) -> Result<F::File, EngineFault> {
    fs::open(rt, file).map_err(|error| match error.kind() {
        ErrorKind::OutOfMemory => EngineFault::Memory,
        _ => EngineFault::Read,
    })
}

/// Tells a fault.
fn tell_fault<E: Write>(fault: EngineFault, errors: &mut E) -> u8
    ensures { result ≡ 1 }
{
    let _ = writeln!(errors, "globline: {fault}");
    Status::Fault as u8
}

/// Tells how the program is used, up to where that isn't taken.
fn tell_usage<E: Write>(errors: &mut E) -> u8
    ensures status { result ≡ 2 }
    ensures told { AppendsFront (E.contents errors.old) (E.contents errors.new) usage }
{
    let text = USAGE.as_bytes();
    let mut at = 0;
    'pieces: while at < text.len() {
        match errors.write(&text[at..]) {
            Ok(0) | Err(_) => break,
            Ok(count) => at += count,
        }
    }
    Status::WrongWords as u8
}
