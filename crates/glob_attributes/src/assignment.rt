//! What a word of a line assigns: a state to the name of an attribute.
ghost use Rattle.std.specs.Prelude.{◌≡◌, IfOk, None, Some, if◌then◌else◌, option_map, position};
ghost use Rattle.std.specs.List.{before_first};
ghost use Rattle.std.specs.Vec.{vec_items};
ghost use Rattle.glob_attributes.specs.Answers.{state_text};
ghost use Rattle.glob_attributes.specs.Names.{is_name};
ghost use Rattle.glob_attributes.specs.Assignments.{assignment_of};
ghost use Rattle.glob_attributes.specs.Private.Filling.{is_set};
ghost use Rattle.glob_attributes.specs.Private.Readings.{is_equals};
ghost use Rattle.glob_attributes.specs.Views.{assignment_with, state_with};

use crate::name::is_name;
use std::alloc::{AllocError, Global};

/// What an attribute is for a path. `B` holds the bytes of a value.
#[derive(Debug, Clone, PartialEq, Eq, Hash, PartialOrd, Ord, Drop)]
pub enum State<B> {
    /// The attribute is set, as `name` says.
    Set,
    /// The attribute is unset, as `-name` says.
    Unset,
    /// Nothing is said of the attribute, as `!name` says.
    Unspecified,
    /// The attribute has these bytes as its value, as `name=value` says.
    Value(B),
}

impl<B> State<B> {
    /// Whether the attribute is set.
    pub(crate) fn is_set(&self) -> bool
        ensures { result ≡ is_set self.now }
    {
        matches!(self, State::Set)
    }
}

/// The text of a state: `set`, `unset`, `unspecified`, or the bytes of the value.
pub fn state_text<'a>(state: &State<&'a [u8]>) -> &'a [u8]
    ensures { result.now ≡ state_text (state_with (λ bytes. bytes.now) state.now) }
{
    match state {
        State::Set => b"set",
        State::Unset => b"unset",
        State::Unspecified => b"unspecified",
        State::Value(value) => value,
    }
}

/// A state for the attribute of a name. `B` holds the bytes of a name, and those of a value.
#[derive(Debug, Clone, PartialEq, Eq, Hash, PartialOrd, Ord, Drop)]
pub struct Assignment<B> {
    /// The name of the attribute.
    pub name: B,
    /// The state that it is given.
    pub state: State<B>,
}

/// Reads a word that stands behind the head of a line: `name`, `-name`, `!name` or `name=value`. Behind `-` and `!` an equals sign
/// and all that follows it are dropped. `None` where the name isn't valid, as [`is_name`] says.
pub fn read_assignment(word: &[u8]) -> Option<Assignment<&[u8]>>
    ensures { option_map (assignment_with (λ bytes. bytes.now)) result
        ≡ (if is_name (assignment_of word.now).name then Some (assignment_of word.now) else None) }
{
    let assignment = split_word(word);
    if is_name(assignment.name) {
        Some(assignment)
    } else {
        None
    }
}

/// The same assignment in memory of its own.
pub(crate) fn own_assignment(
    alloc: Global,
    assignment: &Assignment<&[u8]>,
) -> Result<Assignment<Vec<u8>>, AllocError>
    ensures { IfOk result (λ own. assignment_with vec_items own ≡ assignment_with (λ bytes. bytes.now) assignment.now) }
{
    let name = Vec::from_slice(alloc, assignment.name)?;
    let state = match &assignment.state {
        State::Set => State::Set,
        State::Unset => State::Unset,
        State::Unspecified => State::Unspecified,
        State::Value(value) => State::Value(Vec::from_slice(alloc, value)?),
    };
    Ok(Assignment { name, state })
}

/// The name of a word and the state that it gives, whether the name is valid or not.
pub(crate) fn split_word(word: &[u8]) -> Assignment<&[u8]>
    ensures { assignment_with (λ bytes. bytes.now) result ≡ assignment_of word.now }
{
    if let Some(rest) = word.strip_prefix(b"-") {
        return Assignment {
            name: before_equals(rest),
            state: State::Unset,
        };
    }
    if let Some(rest) = word.strip_prefix(b"!") {
        return Assignment {
            name: before_equals(rest),
            state: State::Unspecified,
        };
    }
    match first_equals(word) {
        Some(place) => Assignment {
            name: &word[..place],
            state: State::Value(&word[place + 1..]),
        },
        None => Assignment {
            name: word,
            state: State::Set,
        },
    }
}

/// What stands before the first equals sign.
fn before_equals(text: &[u8]) -> &[u8]
    ensures { result.now ≡ before_first is_equals text.now }
{
    match first_equals(text) {
        Some(place) => &text[..place],
        None => text,
    }
}

/// The place of the first equals sign.
fn first_equals(text: &[u8]) -> Option<usize>
    ensures { result ≡ position is_equals text.now }
{
    text.iter().position(|b| *b == b'=')
}
