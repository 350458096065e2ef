//! How a program begins: with what stands in for standard streams that were closed, and with the words of its command line.
#![tactic(auto)]

use std::fs::File;
use std::os::fd::{AsRawFd, RawFd};
use std::rt::{Env, Files};
use std::{env, fs, io};

/// The last of the three descriptors that a program begins with.
const STANDARD_ERROR: RawFd = 2;

/// The root folder in the place of each standard stream that was closed, as long as the files are kept: reading it fails, and so
/// does writing to it. Else a file that is opened later would take the place.
#[must_use]
pub fn stand_ins<F: Files<File = File>>(rt: &F) -> [Option<File>; 3] {
    // a file that is opened takes the lowest number that is free
    [stand_in(rt), stand_in(rt), stand_in(rt)]
}

/// The root folder, where it took the number of a standard stream.
fn stand_in<F: Files<File = File>>(rt: &F) -> Option<File> {
    let folder = fs::open(rt, "/").ok()?;
    if folder.as_raw_fd() <= STANDARD_ERROR {
        Some(folder)
    } else {
        None
    }
}

/// The words after the program's name.
///
/// # Errors
/// Where memory was refused, or a word is no UTF-8 text.
pub fn command_line<R: Env + AllocGlobal>(rt: &R) -> io::Result<Vec<String>> {
    let words = env::args(rt)?.skip(1).collect(rt.alloc())?;
    Ok(words)
}
