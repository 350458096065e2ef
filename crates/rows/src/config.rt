//! Rows of the sources of a configuration: which files and words are read, or what is wrong behind them.

use crate::answer::Answer;
use crate::row::Row;
use anyhow::Result;
use git_config::split_word;
use git_repository::{
    ConfigSource, ConfigSources, FindFault, OpenFault, Pair, VariableFault, Variables,
    config_sources as sources_of,
};
use std::alloc::{AllocError, Global};

/// A variable of the environment and its value.
type Variable<'a> = (&'a [u8], &'a [u8]);

/// Which files and words are read.
pub(crate) fn config_sources(row: &Row, answer: &mut Answer) -> Result<()> {
    let ConfigSources { list, fault } = sources_in(answer.alloc, row)?;
    match fault {
        Some(fault) => {
            answer.skip()?;
            Ok(answer.push(fault_text(answer.alloc, fault)?)?)
        }
        None => {
            answer.push(list_text(answer.alloc, &list)?)?;
            Ok(answer.skip()?)
        }
    }
}

/// The sources by the variables, the two paths and the words of a row.
fn sources_in(alloc: Global, row: &Row) -> Result<ConfigSources> {
    let mut variables = Variables::none(alloc);
    set_variables(alloc, &mut variables, &variables_of(alloc, row.bytes(0))?)?;
    let words = words_of(alloc, row.bytes(3))?;
    Ok(sources_of(alloc, &variables, row.option(1), row.option(2), &words)?)
}

/// The variables of lines.
fn variables_of(alloc: Global, text: &[u8]) -> Result<Vec<Variable<'_>>, AllocError> {
    let mut variables = Vec::new(alloc);
    for line in text.split(|byte| *byte == b'\n') {
        if let (name, Some(value)) = split_word(line) {
            variables.push((name, value))?;
        }
    }
    Ok(variables)
}

/// The lines that aren't empty.
fn words_of(alloc: Global, text: &[u8]) -> Result<Vec<&[u8]>, AllocError> {
    let mut lines = Vec::new(alloc);
    for line in text.split(|byte| *byte == b'\n') {
        if !line.is_empty() {
            lines.push(line)?;
        }
    }
    Ok(lines)
}

/// The value of a variable.
fn value_of(
    alloc: Global,
    variables: &[Variable<'_>],
    asked: &[u8],
) -> Result<Option<Vec<u8>>, AllocError> {
    for (name, value) in variables {
        if *name == asked {
            return Ok(Some(Vec::from_slice(alloc, value)?));
        }
    }
    Ok(None)
}

/// Sets the variables that say where files of configuration are; `installed` tells of the installation's.
fn set_variables(
    alloc: Global,
    variables: &mut Variables,
    told: &[Variable<'_>],
) -> Result<(), AllocError> {
    variables.home = value_of(alloc, told, b"HOME")?;
    variables.config_home = value_of(alloc, told, b"XDG_CONFIG_HOME")?;
    variables.no_system = value_of(alloc, told, b"GIT_CONFIG_NOSYSTEM")?;
    variables.system = value_of(alloc, told, b"GIT_CONFIG_SYSTEM")?;
    if variables.system.is_none() {
        variables.system = value_of(alloc, told, b"installed")?;
    }
    variables.global = value_of(alloc, told, b"GIT_CONFIG_GLOBAL")?;
    variables.count = value_of(alloc, told, b"GIT_CONFIG_COUNT")?;
    variables.pairs = pairs_of(alloc, told)?;
    variables.parameters = value_of(alloc, told, b"GIT_CONFIG_PARAMETERS")?;
    Ok(())
}

/// The pairs of the environment, up to the first that has no key.
fn pairs_of(alloc: Global, variables: &[Variable<'_>]) -> Result<Vec<Pair>, AllocError> {
    let mut pairs = Vec::new(alloc);
    for number in 0..variables.len() {
        let name = format!(in alloc; "GIT_CONFIG_KEY_{number}")?;
        let Some(key) = value_of(alloc, variables, name.as_bytes())? else {
            return Ok(pairs);
        };
        let name = format!(in alloc; "GIT_CONFIG_VALUE_{number}")?;
        let value = value_of(alloc, variables, name.as_bytes())?;
        pairs.push(Pair { key, value })?;
    }
    Ok(pairs)
}

/// A line for each source: the path of a file, or a space, a key and its value.
fn list_text(alloc: Global, sources: &[ConfigSource]) -> Result<Vec<u8>, AllocError> {
    let mut text = Vec::new(alloc);
    for source in sources {
        push_source(&mut text, source)?;
        text.push(b'\n')?;
    }
    Ok(text)
}

/// Adds a source.
fn push_source(text: &mut Vec<u8>, source: &ConfigSource) -> Result<(), AllocError> {
    match source {
        ConfigSource::File { path, .. } => text.extend_from_slice(path),
        ConfigSource::Word { key, value } => {
            text.push(b' ')?;
            text.extend_from_slice(key)?;
            if let Some(value) = value {
                text.push(b'=')?;
                text.extend_from_slice(value)?;
            }
            Ok(())
        }
    }
}

/// What Git says of a fault: of pairs in two lines.
fn fault_text(alloc: Global, fault: VariableFault) -> Result<Vec<u8>, AllocError> {
    let first = format!(in alloc; "{fault}\n")?;
    let last: OpenFault<FindFault> = OpenFault::Variable(fault);
    let last = format!(in alloc; "{last}\n")?;
    if first.as_str() == last.as_str() {
        return Ok(last.into_bytes());
    }
    Ok(format!(in alloc; "{first}{last}")?.into_bytes())
}
