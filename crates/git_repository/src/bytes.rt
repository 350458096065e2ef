//! Bytes that may be there.

use std::alloc::{AllocError, Global};

/// A copy of bytes, where there are any.
pub(crate) fn copied(alloc: Global, bytes: Option<&[u8]>) -> Result<Option<Vec<u8>>, AllocError> {
    match bytes {
        Some(bytes) => Ok(Some(Vec::from_slice(alloc, bytes)?)),
        None => Ok(None),
    }
}
