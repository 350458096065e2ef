//! Adding the patterns of a file to those of others.
ghost use Rattle.std.specs.Prelude.{◌≡◌, IsTrue, IfOk, OnErr, MatchBool};
ghost use Rattle.std.specs.Option.{ForSome, option_copied};
ghost use Rattle.std.specs.String.{string_bytes};
ghost use Rattle.gix_glob.specs.Loading.{AddsLoadedList};
ghost use Rattle.gix_glob.specs.Paths.{has_file_part};

use super::pattern::List;
use super::{LoadFault, Pattern};
use std::alloc::Global;
use std::rt::Files;

/// Adds the list of the file `source` to `patterns`, where there is such a file, and answers whether it did.
///
/// The file is read as by [`List::from_file`], with the same conditions, into `buf`, which is cleared first. Where no
/// list was added, after an error too, `patterns` is as it was.
///
/// # Errors
/// Those of [`List::from_file`], and [`LoadFault::Memory`] where memory was refused for the vector.
pub fn add_patterns_file<T: Pattern, F: Files>(
    rt: &F,
    alloc: Global,
    patterns: &mut Vec<List<T>>,
    source: String,
    root: Option<&str>,
    buf: &mut Vec<u8>,
    parse: T,
) -> Result<bool, LoadFault>
    requires { ForSome root (λ _. IsTrue (has_file_part (string_bytes source))) }
    ensures answer { IfOk result (λ is_added. MatchBool is_added
        (AddsLoadedList T.seen (T.meaning parse) buf.new.items (string_bytes source) (option_copied root.entry) patterns.old.items patterns.new.items)
        (patterns.new.items ≡ patterns.old.items)) }
    ensures refused { OnErr result (patterns.new.items ≡ patterns.old.items) }
{
    match List::from_file(rt, alloc, source, root, buf, parse)? {
        Some(list) => {
            patterns.push(list).map_err(|_| LoadFault::Memory)?;
            Ok(true)
        }
        None => Ok(false),
    }
}
