//! Calls that want memory, of which no row asks what they leave: each tells that it was refused, or answers as with ample memory.
//!
//! `.ci/refuse-memory` runs each of these tests with each of its allocations refused in turn. The test then ends with the
//! fault of memory, and with no other; what the call leaves is looked at first. Here, with ample memory, each one answers. What
//! rows ask is refused memory in `rows`.
mod attributes;
mod copies;
mod lists;
mod trees;
