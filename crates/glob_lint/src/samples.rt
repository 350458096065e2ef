//! Sample paths of a line: what its tokens could stand for.
ghost use Rattle.std.specs.Prelude.{All, IfOk, IfSome};
ghost use Rattle.glob_lint.specs.Lines.{IsReal};

use crate::line::Line;
use crate::reading::way_of;
use crate::real::is_real;
use crate::tokens::LineTokens;
use gix_glob::wildmatch::{TokenKind, Way};
use glob_lists::Rules;
use std::alloc::{AllocError, Global};

/// A path that a line may match. Whether it does has to be asked.
#[derive(Debug, Drop)]
pub struct Sample {
    /// The path.
    pub path: Vec<u8>,
    /// Whether it is a folder's.
    pub is_dir: bool,
}

/// What stars within a part stand for, what folders of any name do, and whether the path is a folder's.
const FILLINGS: [(&str, &str, bool); 6] = [
    ("", "", false),
    ("", "", true),
    ("x", "", false),
    ("x", "", true),
    ("x", "x/", false),
    ("x", "x/", true),
];

/// How many samples a line has at most.
pub(crate) const MOST_SAMPLES: usize = FILLINGS.len();

/// At most six paths that a line may match, by Git's rules: its stars stand for nothing, for a name, or for a name and folders, each path as a
/// file and as a folder. None has a part `.git`, which Git passes over.
///
/// # Errors
/// Only where memory was refused.
pub fn samples_of(alloc: Global, line: &Line<'_>, rules: Rules) -> Result<Vec<Sample>, AllocError>
    ensures { IfOk result (λ samples. All (λ sample. IsReal sample.path.items) samples.items) }
{
    let mut samples = Vec::new(alloc);
    'fillings: for n in 0..MOST_SAMPLES {
        if let Some(sample) = sample_of(alloc, line, n, rules)? {
            samples.push(sample)?;
        }
    }
    Ok(samples)
}

/// The sample of a number, from 0; `None` where the line has none, or has the same with a lower number.
///
/// # Errors
/// Only where memory was refused.
pub(crate) fn sample_of(
    alloc: Global,
    line: &Line<'_>,
    n: usize,
    rules: Rules,
) -> Result<Option<Sample>, AllocError>
    ensures { IfOk result (λ sample. IfSome sample (λ sample. IsReal sample.path.items)) }
{
    let Some((name, folder, is_dir)) = FILLINGS.get(n) else {
        return Ok(None);
    };
    if line.is_for_folders() && !*is_dir || is_repeated(line, n) {
        return Ok(None);
    }
    let Some(tokens) = line.tokens() else {
        return Ok(None);
    };
    let Some(path) = path_of(alloc, tokens, (name, folder), way_of(rules.case))? else {
        return Ok(None);
    };
    if !is_real(&path) || has_git_part(&path) {
        return Ok(None);
    }
    Ok(Some(Sample {
        path,
        is_dir: *is_dir,
    }))
}

/// Whether a line has no star within a part that a sample of this number could fill in otherwise than the ones before.
fn is_repeated(line: &Line<'_>, n: usize) -> bool {
    matches!(n, 2 | 3) && line.pattern.first_wildcard_pos.is_none()
}

/// The path that tokens stand for, where stars within a part stand for the one text, and folders of any name for the other; `None` where they
/// stand for none.
fn path_of(
    alloc: Global,
    mut left: LineTokens<'_>,
    (name, folder): (&str, &str),
    way: Way,
) -> Result<Option<Vec<u8>>, AllocError> {
    let mut path = Vec::new(alloc);
    'tokens: while let Some(next) = left.next(way) {
        match next.kind {
            TokenKind::Byte(byte) => path.push(byte)?,
            TokenKind::Any => path.push(b'x')?,
            TokenKind::Set => match byte_of_set(&left, way) {
                Some(byte) => path.push(byte)?,
                None => return Ok(None),
            },
            TokenKind::Local | TokenKind::Free => path.extend_from_slice(name.as_bytes())?,
            TokenKind::Dirs => path.extend_from_slice(folder.as_bytes())?,
            TokenKind::Nothing => return Ok(None),
        }
        left = next.after;
    }
    Ok(Some(path))
}

/// The first byte, from `a` on, that the set in front takes.
fn byte_of_set(tokens: &LineTokens<'_>, way: Way) -> Option<u8> {
    (0..=255u8)
        .map(|n| b'a'.wrapping_add(n))
        .find(|byte| tokens.fits(TokenKind::Set, *byte, way))
}

/// Whether a part of a path is `.git`.
fn has_git_part(path: &[u8]) -> bool {
    path.split(|byte| *byte == b'/')
        .any(|part| part == b".git".as_slice())
}
