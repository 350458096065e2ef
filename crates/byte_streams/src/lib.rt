//! Readers and writers that remember a failure, texts that are written whole, and records that are read one after the other, each of
//! which is answered before the next read: paths that come by `--stdin`, for instance.
#![tactic(auto)]

mod fault;
mod records;
mod transfer;
mod watched;

pub use fault::RecordFault;
pub use records::Records;
pub use transfer::{write_text, write_whole};
pub use watched::Watched;
