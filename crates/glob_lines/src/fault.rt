//! Why an engine stopped before its whole output was out.
ghost use Rattle.std.specs.Prelude.{◌≡◌};
ghost use Rattle.glob_lines.specs.declared.fault.EngineFault.TheVariants.{Memory};

use std::alloc::AllocError;
use thiserror::Error;

/// The first fault that an engine met.
#[derive(Debug, Clone, Copy, PartialEq, Eq, Error)]
pub enum EngineFault {
    /// Memory was refused. Nothing was written.
    #[error("no memory")]
    Memory = 1,
    /// A read failed. Nothing was written.
    #[error("read failed")]
    Read = 2,
    /// A write failed. A beginning of the output was written.
    #[error("write failed")]
    Write = 3,
}

impl From<AllocError> for EngineFault {
    ghost from_gives = { λ _ fault. fault ≡ Memory };

    fn from(_refused: AllocError) -> EngineFault {
        EngineFault::Memory
    }
}
