//! The pattern of a line, borrowed.
ghost use Rattle.std.specs.Prelude.{◌≡◌, ◌||◌, codes, false, nat_eq};
ghost use Rattle.std.specs.List.{starts_with};
ghost use Rattle.gix_glob.specs.Patterns.{IsPattern};
ghost use Rattle.glob_attributes.specs.Patterns.{IsPatternAs, IsPatternOf};

use gix_glob::pattern::{Mode, PatternView};
use glob_lists::Reading;

/// The pattern of bytes that don't begin with `!`, as this reading has it.
pub(crate) fn view_as(bytes: &[u8], reading: Reading) -> PatternView<'_>
    requires { starts_with nat_eq bytes.now (codes "!") ≡ false }
    ensures reads { IsPatternAs reading bytes.now result.text.now result.mode result.first_wildcard_pos }
    ensures lawful { IsPattern result.text.now result.mode result.first_wildcard_pos }
{
    match reading {
        Reading::Crate => view_of(bytes),
        Reading::Git => PatternView::from_git_line(bytes),
    }
}

/// The pattern of bytes that don't begin with `!`. White space alone is a pattern too, and so are no bytes.
fn view_of(bytes: &[u8]) -> PatternView<'_>
    requires { starts_with nat_eq bytes.now (codes "!") ≡ false }
    ensures reads { IsPatternOf bytes.now result.text.now result.mode result.first_wildcard_pos }
    ensures lawful { IsPattern result.text.now result.mode result.first_wildcard_pos }
{
    let Some(view) = PatternView::from_bytes(bytes) else {
        return PatternView {
            text: bytes,
            mode: Mode::NO_SUB_DIR,
            first_wildcard_pos: None,
        };
    };
    if !is_escaped(bytes) {
        return view;
    }
    // as a line of an ignore file it lost the backslash at its front
    PatternView {
        text: &bytes[..view.text.len() + 1],
        mode: view.mode,
        first_wildcard_pos: Some(0),
    }
}

/// Whether bytes begin with `\!` or `\#`.
fn is_escaped(bytes: &[u8]) -> bool
    ensures { result ≡ (starts_with nat_eq bytes.now (codes "\\!") || starts_with nat_eq bytes.now (codes "\\#")) }
{
    bytes.starts_with(b"\\!") || bytes.starts_with(b"\\#")
}
