//! One comparison for all rows: what proves a formatted text is proved once, here.
use std::process::Abort;

/// Tells what isn't so of which row, counted from 0.
pub(crate) fn same(rt: &impl Abort, is_so: bool, asked: &str, row: usize) {
    assert!(rt; is_so, "{asked}: row {row}");
}
