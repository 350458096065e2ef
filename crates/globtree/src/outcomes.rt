//! What a command ends with, and what a run over paths comes to.
ghost use Rattle.std.specs.Prelude.{◌≡◌, IsErr, MatchResult, Ok, if◌then◌else◌};

use crate::fault::{Fault, Result};
use byte_streams::RecordFault;
use std::alloc::AllocError;
use tree_files::CheckFault;

/// What the program ends with.
pub(crate) const ANSWERED: u8 = 0;

const NO_ANSWER: u8 = 1;

/// What a command ends with, by whether there is an answer: a path that is ignored, or the value of a key.
pub(crate) fn status_by(has_answer: bool) -> u8
    ensures { result ≡ (if has_answer then 0 else 1) }
{
    if has_answer { ANSWERED } else { NO_ANSWER }
}

/// What a run over paths answers. The fault of a path is told by these words.
pub(crate) fn answer_of<T, F: Drop, W: FnOnce(F) -> CheckFault>(
    outcome: std::result::Result<T, RecordFault<F>>,
    words: W,
) -> Result<T>
    requires { W.IsAlwaysCallable words }
    ensures { MatchResult result (λ answer. outcome ≡ Ok answer) (λ _. IsErr outcome) }
{
    match outcome {
        Ok(answer) => Ok(answer),
        Err(RecordFault::Answer(fault)) => Err(Fault::Check(words(fault))),
        Err(RecordFault::Memory) => Err(AllocError.into()),
        Err(RecordFault::Read(error)) => Err(Fault::Read(error)),
        Err(RecordFault::Write(error)) => Err(Fault::Write(error)),
        Err(RecordFault::Endless) => Err(Fault::EndlessRecords),
    }
}
