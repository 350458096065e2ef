//! Why a path of a work tree is ignored or isn't, and which small changes of ignore lines would turn that. Each is tried before it is told.
#![tactic(auto)]

mod cause;
mod changes;
mod keeping;
mod near;
mod trying;

pub use cause::{Cause, cause_of};
pub use changes::Change;
pub use keeping::{Keeping, keeping_lines};
pub use near::{MOST_TRIES, Near, body_of, near_lines};
