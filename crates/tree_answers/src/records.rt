//! Paths as they are told, by words, or by records that name them.
ghost use Rattle.std.specs.Prelude.{◌≡◌, IfOk, IsTrue, false};
ghost use Rattle.std.specs.List.{before_first, list_any};
ghost use Rattle.glob_lists.specs.Paths.{IsPlainPath};
ghost use Rattle.git_paths.specs.declared.quoting.Quoting.TheVariants.{Full};
ghost use Rattle.git_paths.specs.Quoting.{is_unusual};
ghost use Rattle.tree_answers.specs.Records.{LeadsAsTold, NamesPath, begins_with_quote, is_zero};

use crate::form::Form;
use git_paths::are_usual_names;
use glob_attributes::read_quoted;
use memchr::memchr;
use std::alloc::{AllocError, Global};
use thiserror::Error;

/// Why a record names no path.
#[derive(Debug, Drop, Error)]
pub enum NameFault {
    /// Memory was refused.
    #[error("no memory")]
    Memory,
    /// A record in quotes isn't spelt as Git writes a name.
    #[error("a name in quotes can't be read")]
    BadlyQuoted,
}

impl From<AllocError> for NameFault {
    ghost use Rattle.std.specs.Prelude.{◌≡◌};
    ghost use Rattle.tree_answers.specs.declared.records.NameFault.TheVariants.{Memory};

    ghost from_gives = { λ _ fault. fault ≡ Memory };

    fn from(_refused: AllocError) -> NameFault {
        NameFault::Memory
    }
}

/// A path as it was told.
#[derive(Drop)]
pub struct ToldPath<'t> {
    /// The path.
    pub bytes: &'t [u8],
    /// Whether it is known that all its parts are names of usual bytes, so that it leads where it is told.
    pub is_usual: bool,
    ghost plain: { IsTrue is_usual → IsPlainPath bytes.now },
    ghost usual: { IsTrue is_usual → list_any (is_unusual Full) bytes.now ≡ false },
    ghost leads: { IsTrue is_usual → LeadsAsTold bytes.now },
}

impl<'t> ToldPath<'t> {
    /// The path that a word tells.
    pub fn of_word(word: &'t [u8]) -> ToldPath<'t>
        ensures { result.bytes.now ≡ word.entry.now }
    {
        ToldPath {
            bytes: word,
            is_usual: are_usual_names(word),
        }
    }

    /// The path that a record names. In lines a record in quotes is read as Git writes names; what follows the last quote is passed over,
    /// as Git does. A byte 0 ends a name wherever it stands. `spelt` is where a name goes that stands in quotes.
    ///
    /// # Errors
    /// [`NameFault::BadlyQuoted`] where it names none, and [`NameFault::Memory`] where memory was refused.
    #[inline(always)]
    pub fn named_by(
        alloc: Global,
        form: Form,
        bytes: &'t [u8],
        spelt: &'t mut Vec<u8>,
    ) -> Result<ToldPath<'t>, NameFault>
        ensures { IfOk result (λ told. NamesPath form bytes.entry.now told.bytes.now) }
    {
        // most records are usual names, in which there is no byte 0 and no quote to look for
        if are_usual_names(bytes) {
            return Ok(ToldPath {
                bytes,
                is_usual: true,
            });
        }
        Ok(ToldPath::of_word(told_path(alloc, bytes, form, spelt)?))
    }
}

/// The told path that a record names. `spelt` is where a name goes that stands in quotes.
///
/// # Errors
/// [`NameFault::BadlyQuoted`] where it names none, and [`NameFault::Memory`] where memory was refused.
fn told_path<'t>(
    alloc: Global,
    bytes: &'t [u8],
    form: Form,
    spelt: &'t mut Vec<u8>,
) -> Result<&'t [u8], NameFault>
    ensures { IfOk result (λ told. NamesPath form bytes.entry.now told.now) }
{
    let front = before_zero(bytes);
    if !begins_with_quote(form, front) {
        return Ok(front);
    }
    match read_quoted(alloc, front) {
        Ok(Some((name, _behind))) => {
            *spelt = name;
            Ok(before_zero(spelt))
        }
        Ok(None) => Err(NameFault::BadlyQuoted),
        Err(refused) => Err(NameFault::from(refused)),
    }
}

/// Whether a name stands in quotes.
fn begins_with_quote(form: Form, name: &[u8]) -> bool
    ensures { result ≡ begins_with_quote form name.now }
{
    matches!(form, Form::Lines(_)) && name.starts_with(b"\"")
}

/// What stands before the first byte 0, which ends a name wherever it comes from.
fn before_zero(name: &[u8]) -> &[u8]
    ensures { result.now ≡ before_first is_zero name.entry.now }
{
    match memchr(0, name) {
        Some(place) => &name[..place],
        None => name,
    }
}
