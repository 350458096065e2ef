//! The names of attributes, in the order in which they are first read.
ghost use Rattle.std.specs.Prelude.{◌≡◌, ◌∷◌, [], IfOk, OnErr, OnOk, codes, map, true};
ghost use Rattle.std.specs.Vec.{vec_items};
ghost use Rattle.glob_attributes.specs.Private.Filling.{HasNames};
ghost use Rattle.glob_attributes.specs.Views.{seen_assignments, seen_reading};
ghost use Rattle.glob_attributes.specs.Told.{AddsSome, names_given, names_read, with_names};

use crate::assignment::Assignment;
use crate::line::{LineReading, read_line};
use crate::parser::file_lines;
use crate::places::Places;
use glob_lines::next_ended_line;
use std::alloc::{AllocError, Global};
use std::marker::Model;

/// Names of attributes, each once, in the order in which they were first read. Contracts see them in this order.
#[derive(Debug, Drop)]
pub struct AttributeNames {
    names: Vec<Vec<u8>>,
    /// A number for each name.
    known: Places,
}

impl Model for AttributeNames {
    ghost use Rattle.std.specs.Prelude.{ℕ, List, map};
    ghost use Rattle.std.specs.Vec.{vec_items};
    ghost use Rattle.glob_attributes.specs.Private.Filling.{HasNames};

    ghost Value = { List (List ℕ) };

    ghost view = { λ names. map vec_items names.names.items };

    ghost invariant = { λ names. HasNames names.known (map vec_items names.names.items) };
}

impl AttributeNames {
    /// The names of the line that is built in: `binary`, `diff`, `merge` and `text`.
    ///
    /// # Errors
    /// Only where memory was refused.
    pub fn new(alloc: Global) -> Result<AttributeNames, AllocError>
        ensures { IfOk result (λ names. names ≡ with_names [] (names_read true (codes "[attr]binary -diff -merge -text"))) }
    {
        let mut names = AttributeNames {
            names: Vec::new(alloc),
            known: Places::new(alloc),
        };
        names.add_file(alloc, b"[attr]binary -diff -merge -text", true)?;
        Ok(names)
    }

    /// Adds the names of an attribute file that aren't there yet: of each line that says something that of a macro first, and then
    /// those that it assigns to. Macros are defined where `is_top` says that the file is no attribute file of a folder below the top.
    ///
    /// # Errors
    /// Only where memory was refused. Then those of the file's names are added that were read before, in their order: the names that
    /// stood before stay.
    pub fn add_file(&mut self, alloc: Global, bytes: &[u8], is_top: bool) -> Result<(), AllocError>
        ensures added { OnOk result (self.new ≡ with_names self.old (names_read is_top bytes.now)) }
        ensures err { OnErr result (AddsSome self.old (names_read is_top bytes.now) self.new) }
    {
        let mut rest = file_lines(bytes);
        'lines: while let Some((line, more)) = next_ended_line(rest) {
            self.add_line(alloc, &read_line(alloc, line, is_top)?)?;
            rest = more;
        }
        Ok(())
    }

    /// Adds a name, where it isn't there yet.
    ///
    /// # Errors
    /// Only where memory was refused: the names are then as they were.
    pub fn add_name(&mut self, alloc: Global, name: &[u8]) -> Result<(), AllocError>
        ensures added { OnOk result (self.new ≡ with_names self.old (name.now ∷ [])) }
        ensures err { OnErr result (self.new ≡ self.old) }
    {
        if self.known.get(name).is_some() {
            return Ok(());
        }
        let count = self.names.len();
        let own = Vec::from_slice(alloc, name)?;
        self.names.push(own)?;
        if let Err(refused) = self.known.set(alloc, name, count) {
            self.names.truncate(count);
            return Err(refused);
        }
        Ok(())
    }

    /// The names.
    pub fn as_slice(&self) -> &[Vec<u8>]
        ensures { map vec_items result.now ≡ self.now }
    {
        &self.names
    }

    /// Adds the names of what a line gives.
    fn add_line(&mut self, alloc: Global, reading: &LineReading) -> Result<(), AllocError>
        ensures added { OnOk result (self.new ≡ with_names self.old (names_given (seen_reading reading.now))) }
        ensures err { OnErr result (AddsSome self.old (names_given (seen_reading reading.now)) self.new) }
    {
        match reading {
            LineReading::Nothing | LineReading::Silent(_) => Ok(()),
            LineReading::Macro { name, assignments } => {
                self.add_name(alloc, name)?;
                self.add_each(alloc, assignments)
            }
            LineReading::Pattern { assignments, .. } => self.add_each(alloc, assignments),
        }
    }

    /// Adds the names of assignments.
    fn add_each(
        &mut self,
        alloc: Global,
        assignments: &Vec<Assignment<Vec<u8>>>,
    ) -> Result<(), AllocError>
        ensures added { OnOk result (self.new ≡ with_names self.old (map (λ assigned. assigned.name) (seen_assignments assignments.now))) }
        ensures err { OnErr result (AddsSome self.old (map (λ assigned. assigned.name) (seen_assignments assignments.now)) self.new) }
    {
        for assignment in assignments {
            self.add_name(alloc, &assignment.name)?;
        }
        Ok(())
    }
}
