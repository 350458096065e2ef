//! The command `check-ignore`: which line of which ignore file decides about each told path.

mod asking;
mod fault;
mod finding;
mod flags;
mod kinds;
mod running;
mod top;
mod unlinked;

pub use fault::IgnoreFault;
pub use flags::IgnoreFlags;
pub use kinds::PathKinds;
pub use running::{IgnoreSources, check_ignore_paths, run_check_ignore};
