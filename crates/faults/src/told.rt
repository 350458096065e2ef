//! What loading comes to, in words.
use crate::compare::same;
use gix_glob::search::LoadFault;
use gix_glob::search::pattern::List;
use glob_lines::LabelLines;
use std::alloc::{AllocError, Global};
use std::process::Abort;

/// How many patterns the list has, where there is one.
pub(crate) fn count_of(
    answer: Result<Option<List<LabelLines>>, LoadFault>,
) -> Result<Option<usize>, LoadFault> {
    match answer? {
        Some(list) => Ok(Some(list.patterns.len())),
        None => Ok(None),
    }
}

/// The fault's text, `none` where there is no list, or how many patterns it has.
fn words_of(alloc: Global, answer: Result<Option<usize>, LoadFault>) -> Result<String, AllocError> {
    match answer {
        Err(fault) => format!(in alloc; "{fault}"),
        Ok(None) => String::from_str(alloc, "none"),
        Ok(Some(count)) => format!(in alloc; "{count} patterns"),
    }
}

/// Compares what loading came to with the words of a row.
pub(crate) fn same_words(
    rt: &(impl Abort + AllocGlobal),
    answer: Result<Option<usize>, LoadFault>,
    words: &str,
    row: usize,
) -> Result<(), AllocError> {
    let told = words_of(rt.alloc(), answer)?;
    same(rt, told.as_str() == words, words, row);
    Ok(())
}
