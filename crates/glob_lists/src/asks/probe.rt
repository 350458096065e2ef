//! What a path shows: the numbers of its ends, and the sets of its bytes and pairs.
ghost use Rattle.std.specs.Prelude.{◌≡◌, ◌+◌, ◌-◌, ◌*◌, ◌/◌, ◌%◌, ◌^◌, ◌≤◌, length, min, if◌then◌else◌};
ghost use Rattle.gix_glob.specs.RepositoryPaths.{IsBasenameStart};
ghost use Rattle.glob_lists.specs.Private.Asks.Literals.{without_bytes};
ghost use Rattle.glob_lists.specs.Private.Looking.{LooksUpTo};
ghost use Rattle.glob_lists.specs.Private.Asks.Parts.{is_name};
ghost use Rattle.glob_lists.specs.Private.Asks.Showing.{IsWithout, Lacks, Shows, front_part, last_part};

use crate::asks::literals::{
    ALL_BITS, ALL_PAIRS, LONGEST_END, bits_of, bytes_of, end_number, has_plain_end, without_bytes,
};
use crate::asks::part::{PARTS, Part};
use gix_glob::wildmatch::Steps;
use std::sync::ledger::Ledger;

/// What a path shows of itself.
#[derive(Debug, Copy, Clone)]
pub(crate) struct Probe {
    /// The number of the longest end that is looked at; past the front of the path it has zeros.
    end: u64,
    /// Whether that is the number of the path's last bytes as they are, of which none is a capital letter.
    has_plain_end: bool,
    /// The bytes of the path, as a set, with all pairs: a whole path has too many for them to tell much.
    bytes: u64,
    /// The bytes and pairs of the last part of the path, as a set.
    name_bytes: u64,
}

impl Probe {
    /// What a path shows whose last part begins at `basename_start`. Where `has_sets` is false the sets have all.
    ///
    /// A look is counted at each byte that is read.
    pub(crate) fn new<L: Ledger>(
        path: &[u8],
        basename_start: Option<usize>,
        has_sets: bool,
        counts: &mut Steps<L>,
    ) -> Probe
        requires basename { IsBasenameStart path.now basename_start }
        ensures shows { Shows path.now result }
        ensures looks { LooksUpTo counts.old counts.new (3 * length path.now + 1) }
    {
        let probe = Probe::of_end(path, counts);
        if !has_sets {
            return probe;
        }
        probe
            .with_name(path, basename_start, counts)
            .with_path(path, basename_start, counts)
    }

    /// What the end of a path shows. The sets have all.
    ///
    /// A look is counted at each byte that is read.
    #[inline(always)]
    pub(crate) fn of_end<L: Ledger>(path: &[u8], counts: &mut Steps<L>) -> Probe
        ensures shows { Shows path.now result }
        ensures looks { LooksUpTo counts.old counts.new (length path.now + 1) }
        ensures each { counts.old.looks + min (length path.now) LONGEST_END + 1 ≤ counts.new.looks }
    {
        counts.looks(path.len().min(LONGEST_END) + 1);
        Probe {
            end: end_number(path),
            has_plain_end: has_plain_end(path),
            bytes: ALL_BITS,
            name_bytes: ALL_BITS,
        }
    }

    /// The same, with the set of the last part of the path, which begins at `basename_start`. A look is counted at each of its
    /// bytes.
    #[inline(always)]
    pub(crate) fn with_name<L: Ledger>(
        self,
        path: &[u8],
        basename_start: Option<usize>,
        counts: &mut Steps<L>,
    ) -> Probe
        requires basename { IsBasenameStart path.now basename_start }
        requires shows { Shows path.now self }
        ensures shows { Shows path.now result }
        ensures looks { LooksUpTo counts.old counts.new (length path.now) }
        ensures each { counts.old.looks + length (last_part basename_start path.now) ≤ counts.new.looks }
    {
        let name = last_part(path, basename_start);
        counts.looks(name.len());
        Probe {
            name_bytes: bits_of(name),
            ..self
        }
    }

    /// The same, with the set of the whole path, whose last part begins at `basename_start`: what the set of that part has isn't
    /// read again. A look is counted at each byte of the path.
    #[inline(always)]
    pub(crate) fn with_path<L: Ledger>(
        self,
        path: &[u8],
        basename_start: Option<usize>,
        counts: &mut Steps<L>,
    ) -> Probe
        requires basename { IsBasenameStart path.now basename_start }
        requires shows { Shows path.now self }
        ensures shows { Shows path.now result }
        ensures looks { LooksUpTo counts.old counts.new (length path.now) }
        ensures each { counts.old.looks + length path.now ≤ counts.new.looks }
    {
        counts.looks(path.len());
        Probe {
            bytes: self.name_bytes | bytes_of(front_part(path, basename_start)) | ALL_PAIRS,
            ..self
        }
    }

    /// Whether that is the number of the path's last bytes as they are, of which none is a capital letter.
    #[inline(always)]
    pub(crate) fn has_plain_end(&self) -> bool
        ensures { result ≡ self.now.has_plain_end }
    {
        self.has_plain_end
    }

    /// The number of the end of this length, in bytes; that of the longest end past its length.
    #[inline(always)]
    pub(crate) fn key(&self, length: u8) -> u64
        ensures { result ≡ without_bytes self.now.end (LONGEST_END - length) }
    {
        without_bytes(self.end, LONGEST_END.saturating_sub(usize::from(length)))
    }

    /// The number of the longest end, without so many of its last bits modulo 64.
    #[inline(always)]
    pub(crate) fn key_without(&self, spare: u8) -> u64
        ensures { result ≡ self.now.end / 2 ^ (spare % 64) }
    {
        self.end >> (spare % 64)
    }

    /// What the path lacks.
    #[inline(always)]
    pub(crate) fn lacking(&self) -> Lacking
        ensures { Lacks self.now result }
    {
        Lacking {
            sets: [!self.bytes, !self.name_bytes, !self.name_bytes, !self.bytes],
        }
    }

    /// The set of the last part or of the whole path.
    #[inline(always)]
    pub(crate) fn bytes_for(&self, is_name: bool) -> u64
        ensures { result ≡ (if is_name then self.now.name_bytes else self.now.bytes) }
    {
        if is_name { self.name_bytes } else { self.bytes }
    }
}

/// The bytes and pairs that a path lacks.
#[derive(Debug, Copy, Clone)]
pub(crate) struct Lacking {
    /// The set of those that each part lacks at which a pattern may look.
    sets: [u64; PARTS],
}

impl Lacking {
    /// The set of those that a part lacks. To take it by its place costs less than a choice.
    #[inline(always)]
    pub(crate) fn of(&self, part: Part) -> u64
        ensures { (probe : Probe) → Lacks probe self.now → IsWithout (if is_name part then probe.name_bytes else probe.bytes) result }
    {
        self.sets[part.place()]
    }
}

/// The last part of a path, which begins at `basename_start`, or the whole path.
#[inline(always)]
pub(crate) fn last_part(path: &[u8], basename_start: Option<usize>) -> &[u8]
    requires { IsBasenameStart path.now basename_start }
    ensures { result.now ≡ last_part basename_start path.now }
{
    match basename_start {
        Some(start) => &path[start..],
        None => path,
    }
}

/// What stands before the last part of a path, which begins at `basename_start`; nothing where the whole path is that part.
#[inline(always)]
fn front_part(path: &[u8], basename_start: Option<usize>) -> &[u8]
    requires { IsBasenameStart path.now basename_start }
    ensures { result.now ≡ front_part basename_start path.now }
{
    match basename_start {
        Some(start) => &path[..start],
        None => &[],
    }
}
