//! What is written about a path: the path, and the line of the file that decides about it.
ghost use Rattle.std.specs.Prelude.{◌≡◌, ◌++◌, ◌∷◌, [], false, IsTrue, OnOk, codes, decimal, if◌then◌else◌};
ghost use Rattle.std.specs.Io.{StartsWith};
ghost use Rattle.std.specs.List.{list_any};
ghost use Rattle.std.specs.Option.{option_map};
ghost use Rattle.gix_glob.specs.PatternParts.{mode_of, text_of};
ghost use Rattle.git_paths.specs.declared.quoting.Quoting.TheVariants.{Full};
ghost use Rattle.git_paths.specs.Quoting.{is_unusual};
ghost use Rattle.tree_answers.specs.Lines.{begins_with_sign, behind, decision_text, line_text, name_text, pattern_line};

use crate::form::Form;
use bitflags::Flags;
use git_paths::append_quoted;
use gix_glob::Pattern;
use gix_glob::pattern::Mode;
use itoa::Buffer;
use std::alloc::AllocError;
use std::marker::Model;

/// The line of a file that decides about a path.
#[derive(Drop)]
pub struct DecidingLine<'a> {
    /// The name of the file.
    pub source: &'a [u8],
    /// The number of the line, from 1.
    pub number: usize,
    /// The pattern of the line.
    pub pattern: &'a Pattern,
}

impl<'a> Model for DecidingLine<'a> {
    ghost use Rattle.gix_glob.specs.PatternParts.{mode_of, text_of};
    ghost use Rattle.tree_answers.specs.Lines.{Decision};

    ghost Value = { Decision };

    ghost view = { λ line. record { source = line.source.now; number = line.number; mode = mode_of line.pattern.now; text = text_of line.pattern.now } };
}

/// Appends what is written about a path that is told so: with `verbose` the line that decides about it, or that none does; then the path.
/// It may be known that no byte of it is unusual even where names are quoted in full.
///
/// # Errors
/// Only where memory was refused.
pub fn append_line(
    text: &mut Vec<u8>,
    told: &[u8],
    is_usual: bool,
    line: &Option<DecidingLine<'_>>,
    verbose: bool,
    form: Form,
) -> Result<(), AllocError>
    requires { IsTrue is_usual → list_any (is_unusual Full) told.now ≡ false }
    ensures written { OnOk result (text.new.items ≡ text.old.items ++ line_text verbose form line.now told.now) }
    ensures kept { StartsWith text.new.items text.old.items }
{
    if verbose {
        append_decision(text, line, form)?;
    }
    append_told(text, told, is_usual, form)?;
    text.push(form.end())?;
    Ok(())
}

/// The byte behind a part of an answer.
fn behind(form: Form, sign: u8) -> u8
    ensures { result ≡ behind form sign }
{
    match form {
        Form::Lines(_) => sign,
        Form::Records => 0,
    }
}

/// Appends the name of the file, the number of the line and its pattern, each with the byte behind it.
fn append_decision(
    text: &mut Vec<u8>,
    line: &Option<DecidingLine<'_>>,
    form: Form,
) -> Result<(), AllocError>
    ensures written { OnOk result (text.new.items ≡ text.old.items ++ decision_text form line.now) }
    ensures kept { StartsWith text.new.items text.old.items }
{
    if let Some(line) = line {
        return append_deciding(text, line, form);
    }
    let colon = behind(form, b':');
    text.extend_from_slice(&[colon, colon, behind(form, b'\t')])
}

/// Appends them of a line that decides.
fn append_deciding(
    text: &mut Vec<u8>,
    line: &DecidingLine<'_>,
    form: Form,
) -> Result<(), AllocError>
    ensures written { OnOk result (text.new.items ≡ text.old.items ++ decision_text form (Some line.now)) }
    ensures kept { StartsWith text.new.items text.old.items }
{
    let colon = behind(form, b':');
    append_name(text, line.source, form)?;
    text.push(colon)?;
    append_number(text, line.number)?;
    text.push(colon)?;
    append_pattern(text, line.pattern, behind(form, b'\t'))
}

/// Appends the number of a line.
#[inline(always)]
fn append_number(text: &mut Vec<u8>, number: usize) -> Result<(), AllocError>
    ensures written { OnOk result (text.new.items ≡ text.old.items ++ decimal number) }
    ensures kept { StartsWith text.new.items text.old.items }
{
    if number < 10 {
        // most lines of a folder's own file have one digit, which needs no buffer
        text.push(b'0' + number as u8)?;
        return Ok(());
    }
    let mut buffer = Buffer::new();
    text.extend_from_slice(buffer.format(number).as_bytes())
}

/// Appends a told path, in quotes where a line needs them.
#[tactic(auto, using(crate::proofs::lemmas::NameLemmas::usual_name_text))]
fn append_told(
    text: &mut Vec<u8>,
    told: &[u8],
    is_usual: bool,
    form: Form,
) -> Result<(), AllocError>
    requires { IsTrue is_usual → list_any (is_unusual Full) told.now ≡ false }
    ensures written { OnOk result (text.new.items ≡ text.old.items ++ name_text form told.now) }
    ensures kept { StartsWith text.new.items text.old.items }
{
    if is_usual {
        return text.extend_from_slice(told);
    }
    append_name(text, told, form)
}

/// Appends a name, in quotes where a line needs them.
fn append_name(text: &mut Vec<u8>, name: &[u8], form: Form) -> Result<(), AllocError>
    ensures written { OnOk result (text.new.items ≡ text.old.items ++ name_text form name.now) }
    ensures kept { StartsWith text.new.items text.old.items }
{
    match form {
        Form::Lines(quoting) => append_quoted(text, name, quoting),
        Form::Records => text.extend_from_slice(name),
    }
}

/// Appends a pattern as its line has it, and the byte behind it.
fn append_pattern(text: &mut Vec<u8>, pattern: &Pattern, last: u8) -> Result<(), AllocError>
    ensures written { OnOk result (text.new.items ≡ text.old.items ++ (pattern_line (mode_of pattern.now) (text_of pattern.now) ++ last ∷ [])) }
    ensures kept { StartsWith text.new.items text.old.items }
{
    let is_absolute = pattern.mode().contains(Mode::ABSOLUTE);
    let is_escaped = !pattern.is_negative() && !is_absolute && begins_with_sign(pattern.text());
    append_if(text, b'\\', is_escaped)?;
    append_if(text, b'!', pattern.is_negative())?;
    append_if(text, b'/', is_absolute)?;
    text.extend_from_slice(pattern.text())?;
    append_if(text, b'/', pattern.mode().contains(Mode::MUST_BE_DIR))?;
    text.push(last)?;
    Ok(())
}

/// Appends a byte, where it is wanted.
fn append_if(text: &mut Vec<u8>, byte: u8, is_wanted: bool) -> Result<(), AllocError>
    ensures written { OnOk result (text.new.items ≡ text.old.items ++ (if is_wanted then byte ∷ [] else [])) }
    ensures kept { StartsWith text.new.items text.old.items }
{
    if is_wanted {
        text.push(byte)?;
    }
    Ok(())
}

/// Whether a text begins with a byte that would mean something else at the front of a line.
fn begins_with_sign(text: &[u8]) -> bool
    ensures { result ≡ begins_with_sign text.now }
{
    text.starts_with(b"!") || text.starts_with(b"#")
}
