//! What a pattern asks of a path, and what a path shows: a pattern that asks for something else than the path shows doesn't match it.
pub(crate) mod literals;
pub(crate) mod part;
pub(crate) mod probe;
pub(crate) mod row;
pub(crate) mod sight;
