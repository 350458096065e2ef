//! The parts of a path, which stand between its slashes.
ghost use Rattle.std.specs.Prelude.{◌<◌, IfSome, length};

/// The first part of a path, and what follows it; `None` where only slashes are left.
pub(crate) fn first_part(path: &[u8]) -> Option<(&[u8], &[u8])>
    ensures shorter { IfSome result (λ parts. length parts.1.now < length path.now) }
{
    let start = path.iter().position(|b| *b != b'/')?;
    let rest = &path[start..];
    match rest.iter().position(|b| *b == b'/') {
        Some(len) => Some((&rest[..len], &rest[len..])),
        None => Some((rest, &[])),
    }
}

/// Leaves the last part of a path that has no slash at its end: what stands before its last slash is left, and of a path without one
/// nothing.
pub(crate) fn leave(path: &mut Vec<u8>) {
    let len = path.iter().rposition(|b| *b == b'/').unwrap_or(0);
    path.truncate(len);
}
