//! Reading attribute files: their bytes, and the lines that say nothing.

use crate::fault::CheckFault;
use crate::indexed_files::IndexedFiles;
use crate::seen_files::{is_there, pass_over, read_seen};
use crate::standing::{OwnFile, Standing, file_in, own_file, path_text, what_stands};
use crate::telling::tell_line;
use glob_attributes::{Silence, SilentLine, silent_lines};
use std::alloc::{AllocError, Global};
use std::fs::Metadata;
use std::rt::Files;
use std::{fs, io};
use system_files::Sight;
use tree_commands::check_attr::AttributeFolders;

/// The name of a folder's own file of attributes.
const ATTRIBUTE_FILE: &str = ".gitattributes";

/// The length in bytes from which on a file is passed over.
const FILE_LIMIT: u64 = 104_857_600;

/// The attribute files below the folder that the program stands in, and those that lie elsewhere. It tells what is passed over.
#[derive(Drop)]
pub struct AttributeFiles<'a, R> {
    rt: &'a R,
    alloc: Global,
    indexed: &'a IndexedFiles,
}

impl<'a, R> AttributeFiles<'a, R> {
    /// None was read yet. Where one of those that are in the index isn't in the work tree, its folder is a fault.
    pub fn new(rt: &'a R, alloc: Global, indexed: &'a IndexedFiles) -> AttributeFiles<'a, R> {
        AttributeFiles { rt, alloc, indexed }
    }
}

impl<'a, R: Files + Eprint> AttributeFiles<'a, R> {
    /// The bytes of a file that lies outside all folders; none where there is no file. A link is followed.
    pub fn file(&self, file: String) -> Result<Vec<u8>, CheckFault> {
        let mut bytes = Vec::new(self.alloc);
        let found = fs::metadata(self.rt, file.as_str());
        self.read_found(file.as_str(), found, &mut bytes, true)?;
        Ok(bytes)
    }

    /// The bytes of the file of the top.
    pub fn top(&self) -> Result<Vec<u8>, CheckFault> {
        self.check_indexed(b"")?;
        let mut bytes = Vec::new(self.alloc);
        let file = String::from_str(self.alloc, ATTRIBUTE_FILE)?;
        self.read_own(file, &mut bytes, true)?;
        Ok(bytes)
    }

    /// Refuses a folder whose file Git reads from the index: one that is passed over in the work tree.
    fn check_indexed(&self, folder: &[u8]) -> Result<(), CheckFault> {
        self.indexed
            .check(self.rt, folder, ATTRIBUTE_FILE, FILE_LIMIT)
    }

    /// Reads a folder's own file; no bytes where there is none. It answers whether the folder can be looked into. A link isn't followed.
    fn read_own(
        &self,
        file: String,
        bytes: &mut Vec<u8>,
        is_top: bool,
    ) -> Result<bool, CheckFault> {
        bytes.clear();
        let found = match own_file(self.rt, self.alloc, file.as_str())? {
            OwnFile::Found(found) => found,
            OwnFile::Nothing => return Ok(true),
            OwnFile::Shut => return Ok(false),
        };
        self.read_found(file.as_str(), Ok(found), bytes, is_top)?;
        Ok(true)
    }

    /// Reads what was found under a name, and tells its lines that say nothing, and why it can't be read.
    fn read_found(
        &self,
        name: &str,
        found: io::Result<Metadata>,
        bytes: &mut Vec<u8>,
        is_top: bool,
    ) -> Result<(), CheckFault> {
        let read = match found {
            Ok(found) if found.is_file() && found.len() >= FILE_LIMIT => {
                return Ok(self.tell_too_large(name)?);
            }
            Ok(found) => read_seen(self.rt, name, &Sight::of(&found), Some(FILE_LIMIT), bytes),
            Err(error) => is_there(error),
        };
        if let Err(fault) = read {
            pass_over(self.rt, self.alloc, name, fault, bytes)?;
        }
        if bytes.len() as u64 >= FILE_LIMIT {
            bytes.clear();
            self.tell_too_large(name)?;
        }
        Ok(self.tell_silences(name, bytes, is_top)?)
    }

    /// Tells the lines of a file that say nothing.
    fn tell_silences(&self, name: &str, bytes: &[u8], is_top: bool) -> Result<(), AllocError> {
        for line in &silent_lines(self.alloc, bytes, is_top)? {
            tell_silent(self.rt, self.alloc, name, line)?;
        }
        Ok(())
    }

    /// Tells that a file is so large that it is passed over.
    fn tell_too_large(&self, name: &str) -> Result<(), AllocError> {
        tell_line(
            self.rt,
            self.alloc,
            format_args!("warning: '{name}' is passed over: it has {FILE_LIMIT} bytes or more"),
        )
    }
}

impl<'a, R: Files + Eprint> AttributeFolders for AttributeFiles<'a, R> {
    type Fault = CheckFault;

    ghost shows = { λ _ _ _. Unit {0} };

    fn read_file(&mut self, folder: &[u8], bytes: &mut Vec<u8>) -> Result<bool, CheckFault> {
        self.check_indexed(folder)?;
        let name = path_text(self.alloc, folder)?;
        match what_stands(self.rt, self.alloc, name.as_str())? {
            Standing::Nothing | Standing::Unseen => return Ok(false),
            Standing::Folder | Standing::Link => {}
        }
        let file = file_in(self.alloc, name.as_str(), ATTRIBUTE_FILE)?;
        self.read_own(file, bytes, false)
    }
}

/// Tells a line that says nothing, and why.
fn tell_silent<R: Eprint>(
    rt: &R,
    alloc: Global,
    source: &str,
    line: &SilentLine,
) -> Result<(), AllocError> {
    let reason = reason(line.silence);
    let number = line.number;
    tell_line(
        rt,
        alloc,
        format_args!("warning: {source}:{number} says nothing: {reason}"),
    )
}

/// Why a line says nothing, in words.
fn reason(silence: Silence) -> &'static str {
    match silence {
        Silence::TooLong => "it has 2048 bytes or more",
        Silence::MacroBelowTop => "a macro can't be defined in a folder below the top",
        Silence::MacroName => "the name of the macro isn't valid",
        Silence::AttributeName => "the name of an attribute isn't valid",
        Silence::Negative => "a pattern can't begin with !",
    }
}
