//! A file system in which one name alone can be opened: as a real file, or with an error.
use std::alloc::Allocator;
use std::fs::{Metadata, OpenOptions};
use std::io;
use std::io::ErrorKind;
use std::rt::Files;

/// What comes of opening the name.
#[derive(Clone, Copy)]
pub(crate) enum Opening<'a> {
    /// The real file of this path is opened.
    Opens(&'a str),
    /// An error of this kind with the text `told at opening`.
    Fails(ErrorKind),
}

/// The file system. Every other name is missing, and what isn't an opening goes to the real file system.
#[derive(Drop)]
pub(crate) struct OneFile<'a, F: Files> {
    real: &'a F,
    name: &'a str,
    opening: Opening<'a>,
}

impl<'a, F: Files> OneFile<'a, F> {
    /// The file system in which opening this name comes to that.
    pub(crate) fn new(real: &'a F, name: &'a str, opening: Opening<'a>) -> OneFile<'a, F> {
        OneFile {
            real,
            name,
            opening,
        }
    }
}

impl<F: Files> Files for OneFile<'_, F> {
    type File = F::File;

    type Dir = F::Dir;

    fn open_file(&self, how: &OpenOptions, path: &str) -> io::Result<F::File> {
        if path != self.name {
            return Err(io::Error::from(ErrorKind::NotFound));
        }
        match self.opening {
            Opening::Opens(real) => self.real.open_file(how, real),
            Opening::Fails(kind) => Err(io::Error::new(kind, "told at opening")),
        }
    }

    fn open_dir(&self, path: &str) -> io::Result<F::Dir> {
        self.real.open_dir(path)
    }

    fn metadata(&self, path: &str) -> io::Result<Metadata> {
        self.real.metadata(path)
    }

    fn symlink_metadata(&self, path: &str) -> io::Result<Metadata> {
        self.real.symlink_metadata(path)
    }

    fn copy(&self, from: &str, to: &str) -> io::Result<u64> {
        self.real.copy(from, to)
    }

    fn rename(&self, from: &str, to: &str) -> io::Result<()> {
        self.real.rename(from, to)
    }

    fn remove_file(&self, path: &str) -> io::Result<()> {
        self.real.remove_file(path)
    }

    fn create_dir(&self, path: &str) -> io::Result<()> {
        self.real.create_dir(path)
    }

    fn remove_dir(&self, path: &str) -> io::Result<()> {
        self.real.remove_dir(path)
    }

    fn remove_dir_all<B: Allocator>(&self, alloc: B, path: &str) -> io::Result<()> {
        self.real.remove_dir_all(alloc, path)
    }
}
