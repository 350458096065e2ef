//! The pattern of a line.
ghost use Rattle.std.specs.Prelude.{IfOk};
ghost use Rattle.gix_glob.specs.PatternParts.{mode_of, place_of, text_of};
ghost use Rattle.glob_attributes.specs.Patterns.{IsPatternAs, IsPatternOf};

use gix_glob::Pattern;
use gix_glob::pattern::Mode;
use glob_lists::Reading;
use std::alloc::{AllocError, Global};

/// The pattern of these bytes, as this reading has it.
pub(crate) fn read_pattern(
    alloc: Global,
    bytes: &[u8],
    reading: Reading,
) -> Result<Pattern, AllocError>
    ensures { IfOk result (λ pattern. IsPatternAs reading bytes.now (text_of pattern) (mode_of pattern) (place_of pattern)) }
{
    match reading {
        Reading::Crate => read_as_crate(alloc, bytes),
        Reading::Git => Pattern::from_git_line(alloc, bytes),
    }
}

/// The pattern of these bytes, which a leading `!` doesn't negate. White space alone is a pattern too, and so are no bytes.
fn read_as_crate(alloc: Global, bytes: &[u8]) -> Result<Pattern, AllocError>
    ensures { IfOk result (λ pattern. IsPatternOf bytes.now (text_of pattern) (mode_of pattern) (place_of pattern)) }
{
    if let Some(pattern) = Pattern::from_bytes_without_negation(alloc, bytes)? {
        return Ok(pattern);
    }
    let text = Vec::from_slice(alloc, bytes)?;
    match Pattern::from_parts(text, Mode::NO_SUB_DIR, None) {
        Ok(pattern) => Ok(pattern),
        Err(_) => unreachable!(),
    }
}
