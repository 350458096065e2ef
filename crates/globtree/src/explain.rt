//! The command `explain`.
ghost use Rattle.std.specs.Prelude.{◌≡◌, IfOk, false};
ghost use Rattle.std.specs.Io.{StartsWith};
ghost use Rattle.byte_streams.specs.Watched.{has_failed};
ghost use Rattle.globtree.specs.Running.{IsAnswered};

mod explainer;
mod leading;
mod lists;
mod telling;

use crate::explain::explainer::Explainer;
use crate::fault::{Fault, Result};
use crate::fronts::{case_of, fronts_of};
use crate::index_use::IndexUse;
use crate::outcomes::ANSWERED;
use crate::pathspec_settings::{refuse_settings, refuse_settings_for};
use crate::words::Options;
use crate::words::explain::Explain;
use byte_streams::{RecordFault, Records, Watched, write_text};
use git_index::{Index, TrackedPaths};
use std::alloc::{AllocError, Global};
use std::io::{Read, Write};
use std::mem;
use std::rt::{Clock, Env, Files};
use tree_answers::{Form, ToldPath};
use tree_files::CheckFault;

const NAME: &str = "explain";

/// Tells why paths are ignored or not, and what to write.
pub(crate) fn explain<
    R: Files + Env + Clock + Eprint + AllocGlobal + Clone + Drop,
    I: Read,
    O: Write,
>(
    rt: &R,
    alloc: Global,
    options: &Options<'_>,
    asked: Explain<'_>,
    input: &mut Watched<I>,
    output: &mut Watched<O>,
) -> Result<u8>
    requires readable { has_failed input.old ≡ false }
    requires writable { has_failed output.old ≡ false }
    ensures { IfOk result IsAnswered }
{
    if let Some(message) = asked.disagreement() {
        return Err(Fault::told(String::from_str(alloc, message)));
    }
    let index = if asked.no_index {
        IndexUse::Nothing
    } else {
        IndexUse::Paths
    };
    let mut fronts = fronts_of(rt, alloc, options, index)?;
    let index = mem::replace(&mut fronts.tracked, Index::empty(alloc));
    let form = Form::ended_by(asked.nul, fronts.quoting);
    let case = case_of(options, fronts.folds);
    let tracked = TrackedPaths::new(index);
    let mut explainer = Explainer::new(rt, alloc, &fronts, tracked, form, case)?;
    if asked.stdin {
        refuse_settings_for(rt, alloc, options.pathspecs, NAME, input)?;
        answer_records(alloc, &mut explainer, form, input, output).map_err(fault_of)?;
        return Ok(ANSWERED);
    }
    refuse_settings(rt, alloc, options.pathspecs, NAME)?;
    let mut text = Vec::new(alloc);
    'paths: for path in &asked.paths {
        explainer.answer(&mut text, path.as_bytes())?;
    }
    write_text(output, &text).map_err(fault_of)?;
    Ok(ANSWERED)
}

/// Explains each path that is read, as it comes.
fn answer_records<R: Files + Env + Clock + Eprint + AllocGlobal + Clone + Drop, I: Read, O: Write>(
    alloc: Global,
    explainer: &mut Explainer<'_, R>,
    form: Form,
    input: &mut Watched<I>,
    output: &mut Watched<O>,
) -> Result<(), RecordFault<Fault>>
    requires readable { has_failed input.old ≡ false }
    requires writable { has_failed output.old ≡ false }
{
    let mut records = Records::new(form.end());
    let mut text = Vec::new(alloc);
    let mut bytes = Vec::new(alloc);
    'records: while records.next(input, output, &mut text, &mut bytes)? {
        let answered = text.len();
        if let Err(fault) = answer_record(alloc, explainer, form, &mut text, &bytes) {
            return records.stop(output, &mut text, answered, fault);
        }
    }
    Ok(())
}

/// Explains the path that a record names. What stood in the text before stays.
fn answer_record<R: Files + Env + Clock + Eprint + AllocGlobal + Clone + Drop>(
    alloc: Global,
    explainer: &mut Explainer<'_, R>,
    form: Form,
    text: &mut Vec<u8>,
    bytes: &[u8],
) -> Result<()>
    ensures { StartsWith text.new.items text.old.items }
{
    let mut answer = Vec::new(alloc);
    let mut spelt = Vec::new(alloc);
    let told = match ToldPath::named_by(alloc, form, bytes, &mut spelt) {
        Ok(told) => told,
        Err(fault) => return Err(CheckFault::from(fault).into()),
    };
    explainer.answer(&mut answer, told.bytes)?;
    text.extend_from_slice(&answer)?;
    Ok(())
}

/// Why a run over records ended.
fn fault_of(fault: RecordFault<Fault>) -> Fault {
    match fault {
        RecordFault::Answer(fault) => fault,
        RecordFault::Memory => AllocError.into(),
        RecordFault::Read(error) => Fault::Read(error),
        RecordFault::Write(error) => Fault::Write(error),
        RecordFault::Endless => Fault::EndlessRecords,
    }
}
