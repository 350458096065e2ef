//! How much of a folder's path stays in front of where a told path leads from there.
ghost use Rattle.std.specs.Prelude.{◌≡◌, ◌∷◌, ◌+◌, ◌<◌, ◌≤◌, ℕ, List, length};
ghost use Rattle.git_paths.specs.Paths.{folder_of, parts_of};
ghost use Rattle.git_paths.specs.Private.Fronts.{front_by};
ghost use Rattle.git_paths.specs.Standpoints.{front_left};

use crate::paths::{first_part, goes_up, stays};
use memchr::memrchr;

/// How many bytes of a folder's path stay: the least length of a path on the way.
pub(crate) fn front_left(folder: &[u8], told: &[u8]) -> usize
    ensures { result ≡ front_left (length folder.now) folder.now (parts_of told.now) }
{
    let mut front = folder;
    let mut depth = 0;
    let mut rest = Some(told);
    'parts: while let Some(left) = rest {
        let (part, behind) = first_part(left);
        let (kept, count) = step(front, depth, part);
        front = kept;
        depth = count;
        rest = behind;
    }
    front.len()
}

/// Goes by one part, from so many names behind a front.
fn step<'a>(front: &'a [u8], depth: usize, part: &[u8]) -> (&'a [u8], usize)
    requires { depth < usize.MAX }
    ensures kept { (parts : List (List ℕ)) → front_by result.1 result.0.now parts ≡ front_by depth front.entry.now (part.now ∷ parts) }
    ensures few { result.1 ≤ depth + 1 }
{
    if stays(part) {
        return (front, depth);
    }
    if !goes_up(part) {
        return (front, depth + 1);
    }
    if depth > 0 {
        return (front, depth - 1);
    }
    (folder_of(front), 0)
}

/// The folder of a path: what stands before its last slash, and no bytes where it has none.
pub fn folder_of(path: &[u8]) -> &[u8]
    ensures { result.now ≡ folder_of path.entry.now }
{
    match memrchr(b'/', path) {
        Some(at) => &path[..at],
        None => &[],
    }
}
