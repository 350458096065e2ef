//! Why a run over records stopped before all of them were answered.
ghost use Rattle.std.specs.Prelude.{◌≡◌};
ghost use Rattle.byte_streams.specs.declared.fault.RecordFault.TheVariants.{Memory};

use std::alloc::AllocError;
use std::fmt::Display;
use std::io;
use thiserror::Error;

/// The fault that ended a run over records.
#[derive(Debug, Drop, Error)]
#[error_bound(F: Display)]
pub enum RecordFault<F> {
    /// Memory was refused, for a record or for texts.
    #[error("no memory for records")]
    Memory,
    /// A read failed.
    #[error("reading records: {0}")]
    Read(io::Error),
    /// A write or a flush failed. What was written may end anywhere.
    #[error("writing answers: {0}")]
    Write(io::Error),
    /// A record got no answer.
    #[error("{0}")]
    Answer(F),
    /// The reader gave 2^64 - 1 pieces, and didn't end.
    #[error("records without an end")]
    Endless,
}

impl<F> From<AllocError> for RecordFault<F> {
    ghost from_gives = { λ _ fault. fault ≡ Memory };

    fn from(_refused: AllocError) -> RecordFault<F> {
        RecordFault::Memory
    }
}
