//! Which paths a work tree can have.
ghost use Rattle.std.specs.Prelude.{◌≡◌, ◌↔◌, IsTrue};
ghost use Rattle.std.specs.List.{list_all};
ghost use Rattle.gix_glob.specs.Paths.{pieces};
ghost use Rattle.glob_lint.specs.Lines.{IsReal, is_part};

/// Whether a work tree can have a path: no part of it, between slashes, is empty, `.` or `..`.
pub fn is_real(path: &[u8]) -> bool
    ensures { IsTrue result ↔ IsReal path.now }
{
    has_real_parts(path)
}

/// Whether a path can have each of the parts of this one.
fn has_real_parts(path: &[u8]) -> bool
    ensures { result ≡ list_all is_part (pieces path.now) }
{
    path.split(|byte| *byte == b'/').all(|part| is_part(part))
}

/// Whether a path can have a part.
fn is_part(part: &[u8]) -> bool
    ensures { result ≡ is_part part.now }
{
    !(part == b"".as_slice() || part == b".".as_slice() || part == b"..".as_slice())
}
