//! The macros that an attribute file defines.
ghost use Rattle.std.specs.Prelude.{◌≡◌, IfOk, map};
ghost use Rattle.glob_attributes.specs.Macros.{macros_of};
ghost use Rattle.glob_attributes.specs.Views.{seen_macro};

use crate::assignment::Assignment;
use crate::line::{LineReading, read_line};
use crate::parser::file_lines;
use glob_lines::next_ended_line;
use std::alloc::{AllocError, Global};

/// A macro: setting the attribute of its name gives a path what the macro assigns.
#[derive(Debug, PartialEq, Eq, Drop)]
pub struct Macro {
    /// The name.
    pub name: Vec<u8>,
    /// What the macro assigns, in the order of its line.
    pub assignments: Vec<Assignment<Vec<u8>>>,
}

/// The macros that the lines of an attribute file define, in order, also those of one name. Only a file at the top of a work tree
/// and those outside it define any, so this is asked for no other.
///
/// # Errors
/// Only where memory was refused.
pub fn macros_of(alloc: Global, bytes: &[u8]) -> Result<Vec<Macro>, AllocError>
    ensures { IfOk result (λ macros. map seen_macro macros.items ≡ macros_of bytes.now) }
{
    let mut macros = Vec::new(alloc);
    let mut rest = file_lines(bytes);
    'lines: while let Some((line, more)) = next_ended_line(rest) {
        if let LineReading::Macro { name, assignments } = read_line(alloc, line, true)? {
            macros.push(Macro { name, assignments })?;
        }
        rest = more;
    }
    Ok(macros)
}
