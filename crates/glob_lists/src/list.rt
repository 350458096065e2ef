//! The prepared list: its patterns, what they ask of a path, and so the last of them that matches a path, found by few tests.
pub(crate) mod answering;
pub(crate) mod chains;
pub(crate) mod prepared_list;
pub(crate) mod question;
pub(crate) mod rows;
pub(crate) mod walk;
