//! What the engines over path lines share: for each path line, a line of what is reported of its path.
ghost use Rattle.std.specs.Prelude.{◌≡◌, IfOk, OnOk};
ghost use Rattle.glob_lines.specs.Lines.{WritesLines};
ghost use Rattle.glob_lines.specs.PathLines.{WritesForPath};
ghost use Rattle.glob_lines.specs.Private.Growing.{Adds};

use crate::lines::Lines;
use glob_lists::RepositoryPath;
use std::alloc::{AllocError, Global};

/// What is reported of a path.
pub(crate) trait PathReport {
    ghost use Rattle.std.specs.Prelude.{◌≡◌, ℕ, Bool, List, OnOk};
    ghost use Rattle.glob_lines.specs.Private.Growing.{Adds};

    // What stays the same from path to path.
    ghost Basis: { Type 0 };

    ghost basis: { Self → Basis };

    // Whether these bytes may be written for a path, which is its own bytes, and whether it is a directory's.
    ghost writes: { Basis → List ℕ → Bool → List ℕ → Type 0 };

    /// Appends what is reported of a path.
    fn append(&mut self, text: &mut Vec<u8>, path: &RepositoryPath<'_>) -> Result<(), AllocError>
        ensures same { basis self.new ≡ basis self.old }
        ensures written { OnOk result (Adds (writes (basis self.old) path.now.bytes path.now.is_dir) text.old.items text.new.items) };
}

/// The text of lines for the path lines.
pub(crate) fn report_on<R: PathReport>(
    alloc: Global,
    report: &mut R,
    paths: &[u8],
) -> Result<Vec<u8>, AllocError>
    ensures { IfOk result (λ text. WritesLines (WritesForPath (R.writes (R.basis report.old))) paths.now text.items) }
{
    let mut text = Vec::new(alloc);
    for line in Lines::new(paths) {
        append_line(&mut text, report, line)?;
        text.push(b'\n')?;
    }
    Ok(text)
}

/// Appends what is written for a path line, without the line feed.
fn append_line<R: PathReport>(
    text: &mut Vec<u8>,
    report: &mut R,
    line: &[u8],
) -> Result<(), AllocError>
    ensures same { R.basis report.new ≡ R.basis report.old }
    ensures written { OnOk result (Adds (WritesForPath (R.writes (R.basis report.old)) line.now) text.old.items text.new.items) }
{
    let Some(path) = RepositoryPath::of_line(line) else {
        text.push(b'!')?;
        return Ok(());
    };
    report.append(text, &path)
}
