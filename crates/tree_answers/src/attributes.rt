//! What is written about an attribute of a path.
ghost use Rattle.std.specs.Prelude.{◌≡◌, ◌++◌, IfOk, OnOk};
ghost use Rattle.std.specs.Io.{StartsWith};
ghost use Rattle.glob_attributes.specs.Views.{state_with};
ghost use Rattle.tree_answers.specs.Attributes.{answer_text, label_text};
ghost use Rattle.tree_answers.specs.Lines.{name_text};

use crate::form::Form;
use git_paths::{append_quoted, has_unusual};
use glob_attributes::{State, state_text};
use std::alloc::AllocError;

/// A path as it stands before each of its attributes: as it was told, or, in lines, in quotes where a byte is unusual. `quoted` is
/// where the quotes are written.
///
/// # Errors
/// Only where memory was refused.
pub fn path_text<'t>(
    quoted: &'t mut Vec<u8>,
    told: &'t [u8],
    form: Form,
) -> Result<&'t [u8], AllocError>
    ensures { IfOk result (λ text. text.now ≡ name_text form told.entry.now) }
{
    let Form::Lines(quoting) = form else {
        return Ok(told);
    };
    if !has_unusual(told, quoting) {
        return Ok(told);
    }
    quoted.clear();
    append_quoted(quoted, told, quoting)?;
    Ok(quoted)
}

/// Appends the name of an attribute, with what parts it from the path before it and the state behind it: a colon and a space, or a NUL.
///
/// # Errors
/// Only where memory was refused.
pub fn append_label(text: &mut Vec<u8>, name: &[u8], form: Form) -> Result<(), AllocError>
    ensures { OnOk result (text.new.items ≡ text.old.items ++ label_text form name.now) }
{
    match form {
        Form::Lines(_) => {
            text.extend_from_slice(b": ")?;
            text.extend_from_slice(name)?;
            text.extend_from_slice(b": ")
        }
        Form::Records => {
            text.push(0)?;
            text.extend_from_slice(name)?;
            text.push(0)?;
            Ok(())
        }
    }
}

/// Appends the path as it is shown, the label of an attribute and its state, and then a line feed or a NUL.
///
/// # Errors
/// Only where memory was refused.
pub fn append_answer(
    text: &mut Vec<u8>,
    shown: &[u8],
    label: &[u8],
    state: &State<&[u8]>,
    form: Form,
) -> Result<(), AllocError>
    ensures written { OnOk result (text.new.items ≡ text.old.items ++ answer_text form shown.now label.now (state_with (λ bytes. bytes.now) state.now)) }
    ensures kept { StartsWith text.new.items text.old.items }
{
    text.extend_from_slice(shown)?;
    text.extend_from_slice(label)?;
    text.extend_from_slice(state_text(state))?;
    text.push(form.end())?;
    Ok(())
}
