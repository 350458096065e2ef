//! What was found in ignore files, and what of it is told.

use crate::fault::{Fault, Result};
use crate::lint::object::append_object;
use crate::lint::place::Place;
use crate::lint::telling::Teller;
use glob_lint::{Effect, Looked, Report, messages_of, without_idle_lines};
use std::alloc::{AllocError, Global};
use tree_files::{CheckFault, tell_line};

/// What was found in the ignore files of a work tree.
#[derive(Clone, Copy)]
pub(crate) struct Findings<'f> {
    pub(crate) alloc: Global,
    pub(crate) place: &'f Place,
    pub(crate) looked: &'f Looked<'f>,
    pub(crate) report: &'f Report,
}

impl<'f> Findings<'f> {
    /// The text of the findings that are told, or an object of each.
    pub(crate) fn text(&self, is_json: bool) -> Result<Vec<u8>, AllocError> {
        let teller = Teller {
            alloc: self.alloc,
            fronts: &self.place.fronts,
            looked: self.looked,
        };
        let mut text = Vec::new(self.alloc);
        'messages: for message in &messages_of(self.alloc, self.looked, self.report)? {
            if !self.is_told(message.file) {
                continue;
            }
            if is_json {
                append_object(&teller, &mut text, message)?;
            } else {
                teller.tell(&mut text, message)?;
            }
        }
        Ok(text)
    }

    /// Whether findings of a file are told: it lies at or below the folder that is asked about.
    fn is_told(&self, file: usize) -> bool {
        match self.looked.files.get(file) {
            Some(file) => self.place.holds(&file.path),
            None => false,
        }
    }

    /// The text of a file, which is told from the current folder, without the lines that may go.
    pub(crate) fn fixed_file(&self, told: &str) -> Result<Vec<u8>> {
        let mut path = Vec::new(self.alloc);
        let standpoint = &self.place.fronts.standpoint;
        if let Err(fault) = standpoint.lead(self.alloc, &mut path, told.as_bytes()) {
            return Err(CheckFault::of_lead(self.alloc, told.as_bytes(), fault).into());
        }
        match self.read_file(&path) {
            Some(at) => Ok(without_idle_lines(self.alloc, at, self.looked, self.report)?),
            None => Err(Fault::told(format!(in self.alloc;
                "'{told}' isn't among the ignore files that were read"
            ))),
        }
    }

    /// The place of the file with this path, where it was read.
    fn read_file(&self, path: &[u8]) -> Option<usize> {
        self.looked.files.iter().position(|file| file.unread.is_none()
            && file.path.as_slice() == path)
    }

    /// Tells how many lines got no verdict, where all findings are told or the report is cut.
    pub(crate) fn tell_unknown<R: Eprint>(&self, rt: &R) -> Result<(), AllocError> {
        if !self.looked.all && !self.report.is_cut {
            return Ok(());
        }
        let lines = match self.unknown_lines() {
            0 => return Ok(()),
            1 => String::from_str(self.alloc, "1 line")?,
            count => format!(in self.alloc; "{count} lines")?,
        };
        tell_line(
            rt,
            self.alloc,
            format_args!("warning: {lines} got no verdict"),
        )
    }

    /// How many lines of files whose findings are told got no verdict.
    fn unknown_lines(&self) -> usize {
        self.report
            .findings
            .iter()
            .filter(|finding| matches!(finding.effect, Effect::Unknown)
                && self.is_told(finding.pair.0))
            .count()
    }
}
