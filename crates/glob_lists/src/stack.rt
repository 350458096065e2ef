//! Stacks of prepared lists: which patterns of them match a path.
pub(crate) mod changing;
mod lists;
pub(crate) mod prepared_stack;
