//! The variables of the environment, and the options, by which pathspecs are read otherwise.
ghost use Rattle.std.specs.Prelude.{◌≡◌, [], IfOk, IsTrue, OnOk, false};
ghost use Rattle.std.specs.Io.KnownBytes.{Consumes};
ghost use Rattle.byte_streams.specs.Watched.{has_failed, inner};

use crate::fault::{Fault, Result};
use byte_streams::Watched;
use pathspecs::Settings;
use std::alloc::Global;
use std::io;
use std::io::Read;
use std::rt::Env;
use system_files::is_true;

const LITERAL: &str = "GIT_LITERAL_PATHSPECS";

const GLOB: &str = "GIT_GLOB_PATHSPECS";

const NOGLOB: &str = "GIT_NOGLOB_PATHSPECS";

const ICASE: &str = "GIT_ICASE_PATHSPECS";

/// What counts for pathspecs: an option, or else its variable.
pub(crate) fn settings_by<R: Env>(rt: &R, alloc: Global, options: Settings) -> Result<Settings> {
    Ok(Settings {
        literal: options.literal || is_true(rt, alloc, LITERAL)?,
        glob: options.glob || is_true(rt, alloc, GLOB)?,
        noglob: options.noglob || is_true(rt, alloc, NOGLOB)?,
        icase: options.icase || is_true(rt, alloc, ICASE)?,
    })
}

/// The same for these words: without one nothing counts, and no variable is read.
pub(crate) fn settings_for<R: Env>(
    rt: &R,
    alloc: Global,
    options: Settings,
    words: &[&str],
) -> Result<Settings> {
    if words.is_empty() {
        return Ok(Settings::default());
    }
    settings_by(rt, alloc, options)
}

/// Refuses an option, a variable that is true, and one that is no boolean, as Git does where a path is told. The command is named.
pub(crate) fn refuse_settings<R: Env>(
    rt: &R,
    alloc: Global,
    options: Settings,
    command: &str,
) -> Result<()> {
    if options != Settings::default() {
        return Err(Fault::told(format!(in alloc; "{command} takes no setting for pathspecs")));
    }
    'names: for name in [LITERAL, GLOB, NOGLOB, ICASE] {
        if is_true(rt, alloc, name)? {
            return Err(Fault::told(format!(in alloc;
                "{name} is true: {command} takes no such setting"
            )));
        }
    }
    Ok(())
}

/// The same, where paths are read: an input without a path isn't refused, and nothing is taken of it.
pub(crate) fn refuse_settings_for<R: Env, I: Read>(
    rt: &R,
    alloc: Global,
    options: Settings,
    command: &str,
    input: &mut Watched<I>,
) -> Result<()>
    requires { has_failed input.old ≡ false }
    ensures working { OnOk result (has_failed input.new ≡ false) }
    ensures kept { OnOk result (Consumes (I.remaining (inner input.old)) (I.remaining (inner input.new)) []) }
{
    let Err(refusal) = refuse_settings(rt, alloc, options, command) else {
        return Ok(());
    };
    if is_at_end(input).map_err(Fault::Read)? {
        return Ok(());
    }
    Err(refusal)
}

/// Whether nothing is left of an input; else a byte of it is gone.
fn is_at_end<I: Read>(input: &mut Watched<I>) -> io::Result<bool>
    requires { has_failed input.old ≡ false }
    ensures working { IfOk result (λ _. has_failed input.new ≡ false) }
    ensures kept { IfOk result (λ is_end. IsTrue is_end → Consumes (I.remaining (inner input.old)) (I.remaining (inner input.new)) []) }
{
    let mut byte = [0];
    Ok(input.read(&mut byte)? == 0)
}
