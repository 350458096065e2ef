//! The boolean that a value says.
ghost use Rattle.std.specs.Prelude.{◌≡◌};
ghost use Rattle.std.specs.Option.{option_copied};
ghost use Rattle.git_config.specs.Numbers.{boolean_of, same_letters, says_no, says_yes};

use crate::number::magnitude;

/// The boolean of a value: no value, `true`, `yes`, `on` and each number but 0 is true; an empty value, `false`, `no`, `off` and 0 are
/// false. The case of letters doesn't count, and a number is what [`integer`](crate::integer) reads. `None` where the value is
/// another text.
pub fn boolean(value: Option<&[u8]>) -> Option<bool>
    ensures { result ≡ boolean_of (option_copied value.entry) }
{
    let Some(text) = value else {
        return Some(true);
    };
    if says_yes(text) {
        return Some(true);
    }
    if says_no(text) {
        return Some(false);
    }
    let number = magnitude(text)?;
    Some(number != 0)
}

/// Whether a text is a word for true.
fn says_yes(text: &[u8]) -> bool
    ensures { result ≡ says_yes text.now }
{
    same_letters(text, b"true") || same_letters(text, b"yes") || same_letters(text, b"on")
}

/// Whether a text is empty, or a word for false.
fn says_no(text: &[u8]) -> bool
    ensures { result ≡ says_no text.now }
{
    text.is_empty()
        || same_letters(text, b"false")
        || same_letters(text, b"no")
        || same_letters(text, b"off")
}

/// Whether two texts are the same but for the case of letters.
pub(crate) fn same_letters(a: &[u8], b: &[u8]) -> bool
    ensures { result ≡ same_letters a.now b.now }
{
    a.eq_ignore_ascii_case(b)
}
