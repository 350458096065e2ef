//! An index file that is cut at each byte, and paths that are long.
use crate::{Index, IndexFault, ObjectFormat};
use std::alloc::{AllocError, Global};
use std::process::Abort;
use std::test::Fail;

/// A file of version 4 with so many paths: one of `longest` bytes, and then each a byte longer than the one before.
fn growing(alloc: Global, count: u32, longest: usize) -> Result<Vec<u8>, AllocError> {
    let mut bytes = b"DIRC\0\0\0\x04".to_vec(alloc)?;
    bytes.extend_from_slice(&count.to_be_bytes())?;
    for number in 0..count {
        bytes.extend_from_slice(&[0; 24])?;
        bytes.extend_from_slice(b"\0\0\x81\xa4")?;
        bytes.extend_from_slice(&[0; 32])?;
        bytes.extend_from_slice(b"\x0f\xff\0")?;
        let added = if number == 0 { longest } else { 1 };
        let long = bytes.len().saturating_add(added);
        bytes.resize(long, b'a')?;
        bytes.push(0)?;
    }
    bytes.extend_from_slice(&[0; 20])?;
    Ok(bytes)
}

/// Tells at which number of bytes or entries it isn't so.
fn same(rt: &impl Abort, is_so: bool, asked: &str, number: usize) {
    assert!(rt; is_so, "{asked}: {number}");
}

#[test]
fn a_file_cut_at_any_byte_is_a_fault(rt: HostRuntime) -> Result<(), Fail> {
    let bytes = growing(rt.alloc(), 3, 20)?;
    for (len, _byte) in bytes.iter().enumerate() {
        let index = Index::from_bytes(rt.alloc(), &bytes[..len], ObjectFormat::Sha1);
        same(&rt, index.is_err(), "cut", len);
    }
    Ok(())
}

#[test]
fn long_paths_are_read_and_too_long_ones_are_a_fault(rt: HostRuntime) -> Result<(), Fail> {
    let bytes = growing(rt.alloc(), 2, 20_000)?;
    let index = Index::from_bytes(rt.alloc(), &bytes, ObjectFormat::Sha1)?;
    same(&rt, index.entries().len() == 2, "long", 2);
    for (number, entry) in index.entries().iter().enumerate() {
        let is_long = entry.path.as_slice().len() == number.saturating_add(20_000);
        same(&rt, is_long, "the length of the path", number);
    }
    let bytes = growing(rt.alloc(), 257, 20_000)?;
    let index = Index::from_bytes(rt.alloc(), &bytes, ObjectFormat::Sha1);
    let is_told = matches!(index, Err(IndexFault::PathsTooLong));
    same(&rt, is_told, "too long", 257);
    Ok(())
}
