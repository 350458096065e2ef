//! Several paths that one call asks about: `struct gix_glob_path` of the header.
ghost use Rattle.std.specs.Prelude.{◌≡◌, ◌↔◌, ◌<◌, drop, length, take, true, false};
ghost use Rattle.std.specs.List.{AllZip};
ghost use Rattle.gix_glob_c.specs.Lists.{IsToldOf};

use crate::lists::{GlobList, gix_glob_last_match};

/// `struct gix_glob_path`: a path that is asked about.
#[repr(C)]
#[derive(Copy, Clone)]
pub struct GlobPath<'a> {
    /// The path, from the folder of the patterns on.
    pub bytes: &'a [u8],
    /// Whether it is a directory's.
    pub is_dir: bool,
}

/// What [`gix_glob_last_match`] answers for each of several paths, in order.
/// `false` is answered, and nothing written, where there are fewer places than paths; where there are more, the others stay as they
/// were.
#[unsafe(no_mangle)]
pub extern "C" fn gix_glob_last_matches(
    list: &GlobList<'_>,
    paths: &[GlobPath<'_>],
    places: &mut [usize],
    fold: bool,
) -> bool
    ensures room { (result ≡ false) ↔ (length places.old < length paths.now) }
    ensures kept { result ≡ false → places.new ≡ places.old }
    ensures rest { drop (length paths.now) places.new ≡ drop (length paths.now) places.old }
    ensures told { result ≡ true → AllZip (IsToldOf list.now fold) paths.now (take (length paths.now) places.new) }
{
    if places.len() < paths.len() {
        return false;
    }
    'paths: for i in 0..paths.len() {
        places[i] = last_match_of(list, &paths[i], fold);
    }
    true
}

/// What is told of one path.
fn last_match_of(list: &GlobList<'_>, path: &GlobPath<'_>, fold: bool) -> usize
    ensures { IsToldOf list.now fold path.now result }
{
    gix_glob_last_match(list, path.bytes, path.is_dir, fold)
}
