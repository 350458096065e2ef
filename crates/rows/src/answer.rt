//! The fields that answer a row.

ghost use Rattle.std.specs.Prelude.{◌≡◌, [], IfOk};

use crate::row::Field;
use std::alloc::{AllocError, Global};
use std::fmt::Display;

/// The fields that answer a row, added one by one: who adds one has no other in hand.
#[derive(Drop)]
pub(crate) struct Answer {
    pub(crate) alloc: Global,
    fields: Vec<Field>,
}

impl Answer {
    /// No field yet.
    pub(crate) fn none(alloc: Global) -> Answer {
        Answer {
            alloc,
            fields: Vec::new(alloc),
        }
    }

    /// The fields.
    pub(crate) fn fields(&self) -> &[Field] {
        &self.fields
    }

    /// Adds a field of these bytes.
    pub(crate) fn push(&mut self, bytes: Vec<u8>) -> Result<(), AllocError> {
        self.fields.push(Some(bytes))?;
        Ok(())
    }

    /// Adds a field without bytes.
    pub(crate) fn skip(&mut self) -> Result<(), AllocError> {
        self.fields.push(None)?;
        Ok(())
    }

    /// Adds a field of a copy of bytes.
    pub(crate) fn copy(&mut self, bytes: &[u8]) -> Result<(), AllocError> {
        let bytes = Vec::from_slice(self.alloc, bytes)?;
        self.push(bytes)
    }

    /// Adds a field of a copy of bytes, where there are some.
    pub(crate) fn copy_some(&mut self, bytes: Option<&[u8]>) -> Result<(), AllocError> {
        match bytes {
            Some(bytes) => self.copy(bytes),
            None => self.skip(),
        }
    }

    /// Adds a field of what is shown of a value.
    pub(crate) fn show<T: Display>(&mut self, value: &T) -> Result<(), AllocError> {
        let text = format!(in self.alloc; "{value}")?;
        self.push(text.into_bytes())
    }

    /// Adds a field of a number, where there is one.
    pub(crate) fn number(&mut self, number: Option<usize>) -> Result<(), AllocError> {
        match number {
            Some(number) => self.show(&number),
            None => self.skip(),
        }
    }

    /// Adds a field, `yes` or `no`.
    pub(crate) fn tell(&mut self, is_so: bool) -> Result<(), AllocError> {
        self.copy(if is_so { b"yes" } else { b"no" })
    }
}

/// Room for what most rows answer: so a refusal of memory is told by the call itself, and not as a failed write.
pub(crate) fn room(alloc: Global) -> Result<Vec<u8>, AllocError>
    ensures { IfOk result (λ text. text.items ≡ []) }
{
    Vec::with_capacity(alloc, 4_096)
}
