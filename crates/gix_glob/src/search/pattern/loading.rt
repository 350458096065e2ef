//! Lists of patterns from bytes, from a reader and from a file.
ghost use Rattle.std.specs.Prelude.{◌≡◌, false, IsTrue, IfOk, IfSome, IsNone};
ghost use Rattle.std.specs.Option.{ForSome, option_copied};
ghost use Rattle.std.specs.String.{string_bytes};
ghost use Rattle.gix_glob.specs.EntryLists.{entry_list_of};
ghost use Rattle.gix_glob.specs.Loading.{IsBeginningOf, IsLoaded, is_unread};
ghost use Rattle.gix_glob.specs.Paths.{has_file_part};
ghost use Rattle.byte_streams.specs.Watched.{has_failed, inner};

use super::List;
use crate::search::base::base_of;
use crate::search::reading::read_whole;
use crate::search::{LoadFault, Pattern, Watched};
use std::alloc::{AllocError, Global};
use std::io::{ErrorKind, Read};
use std::rt::Files;
use std::{fs, io};

impl<T: Pattern> List<T> {
    /// Reads `bytes` by `parse` as a list of patterns of the path text `source_file`.
    ///
    /// The base of the list is that of the source under `root`; with no root it has none, and the root `""` takes each
    /// relative source as lying below it. With a root some part of the source must be able to name a file, which
    /// [`has_file_part`](crate::search::has_file_part) tells. The rule is in `docs/PATTERNS.md`, "The base of a source".
    ///
    /// # Errors
    /// Only where memory was refused.
    pub fn from_bytes(
        alloc: Global,
        bytes: &[u8],
        source_file: String,
        root: Option<&str>,
        parse: T,
    ) -> Result<List<T>, AllocError>
        requires { ForSome root (λ _. IsTrue (has_file_part (string_bytes source_file))) }
        ensures { IfOk result (λ list. IsLoaded (T.meaning parse) bytes.now (string_bytes source_file) (option_copied root.entry) (entry_list_of T.seen list)) }
    {
        let patterns = parse.bytes_to_patterns(alloc, bytes, source_file.as_str())?;
        let base = base_of(alloc, source_file.as_str(), root)?;
        Ok(List {
            patterns,
            source: Some(source_file),
            base,
        })
    }

    /// Reads all that `reader` has left into `buf`, in place of what stood there, and then as [`List::from_bytes`].
    ///
    /// Answers `None` where a read says that the source is a directory, or that it lies below what is none. No failed
    /// read is tried again. After `Some` the buffer holds the bytes that the list was made of, and after any other
    /// answer a beginning of what the reader had. The reader must not have failed before.
    ///
    /// # Errors
    /// [`LoadFault::Read`] with the error of the read that failed otherwise, and [`LoadFault::Memory`].
    pub fn from_reader<R: Read>(
        alloc: Global,
        reader: &mut Watched<R>,
        source: String,
        root: Option<&str>,
        buf: &mut Vec<u8>,
        parse: T,
    ) -> Result<Option<List<T>>, LoadFault>
        requires fresh { has_failed reader.old ≡ false }
        requires file { ForSome root (λ _. IsTrue (has_file_part (string_bytes source))) }
        ensures list { IfOk result (λ answer. IfSome answer (λ list.
            IsLoaded (T.meaning parse) buf.new.items (string_bytes source) (option_copied root.entry) (entry_list_of T.seen list))) }
        ensures whole { IfOk result (λ answer. IfSome answer (λ _.
            IfSome (R.remaining (inner reader.old)) (λ bytes. buf.new.items ≡ bytes))) }
        ensures beginning { IfSome (R.remaining (inner reader.old)) (IsBeginningOf buf.new.items) }
        ensures flag { has_failed reader.new ≡ is_unread result }
    {
        match read_whole(reader, buf) {
            Ok(()) => {}
            Err(LoadFault::Read(error)) if is_no_file(&error) => return Ok(None),
            Err(fault) => return Err(fault),
        }
        let list = List::from_bytes(alloc, buf, source, root, parse)?;
        Ok(Some(list))
    }

    /// Reads the file `source` into `buf`, in place of what stood there, and then as [`List::from_bytes`].
    ///
    /// Answers `None` where there is no such file: it is missing, it is a directory, or a part of its path is no
    /// directory. A link is followed. After `Some` the buffer holds the bytes that the list was made of, after any other
    /// answer a beginning of the file, and nothing where it was not opened.
    ///
    /// # Errors
    /// [`LoadFault::Memory`] where memory was refused, to open the file too, and [`LoadFault::Read`] with the error of
    /// the opening or of the read that failed otherwise.
    pub fn from_file<F: Files>(
        rt: &F,
        alloc: Global,
        source: String,
        root: Option<&str>,
        buf: &mut Vec<u8>,
        parse: T,
    ) -> Result<Option<List<T>>, LoadFault>
        requires { ForSome root (λ _. IsTrue (has_file_part (string_bytes source))) }
        ensures { IfOk result (λ answer. IfSome answer (λ list.
            IsLoaded (T.meaning parse) buf.new.items (string_bytes source) (option_copied root.entry) (entry_list_of T.seen list))) }
    {
        buf.clear();
        let file = match fs::open(rt, source.as_str()) {
            Ok(file) => file,
            Err(error) => return open_failure(error),
        };
        let mut reader = Watched::new(file);
        List::from_reader(alloc, &mut reader, source, root, buf, parse)
    }
}

/// Why there is no list of a file that could not be opened.
fn open_failure<L>(error: io::Error) -> Result<Option<L>, LoadFault>
    ensures { IfOk result IsNone }
{
    match error.kind() {
        ErrorKind::NotFound => Ok(None),
        ErrorKind::OutOfMemory => Err(LoadFault::Memory),
        _ if is_no_file(&error) => Ok(None),
        _ => Err(LoadFault::Read(error)),
    }
}

/// Whether the error says that a directory stands where a file was wanted, or something else where a directory was.
fn is_no_file(error: &io::Error) -> bool {
    matches!(
        error.kind(),
        ErrorKind::IsADirectory | ErrorKind::NotADirectory
    )
}
