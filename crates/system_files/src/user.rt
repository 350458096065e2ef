//! Which files belong to the user.
ghost use Rattle.std.specs.Prelude.{◌↔◌, IsTrue};
ghost use Rattle.system_files.specs.User.{Owns};

use crate::reading::answered;
use crate::variables::variable;
use std::alloc::{AllocError, Global};
use std::fs;
use std::os::unix::fs::MetadataExt;
use std::rt::{Env, Files};

/// The user who asks.
#[derive(Debug, Clone, Copy, PartialEq, Eq)]
pub struct User {
    /// The user's number; `None` where it isn't known, so that nothing is known to belong to the user.
    pub number: Option<u32>,
    /// The number of the user for whom the superuser, whose number is 0, asks.
    pub asks_for: Option<u32>,
}

/// The number of the superuser.
const SUPERUSER: u32 = 0;

impl User {
    /// The user for whom the process runs. The kit has no call that tells the user's number: it is the owner of the process's folder in
    /// `/proc`, which is the user by whom the system judges what the process may do. `SUDO_UID` tells for whom the superuser asks; what
    /// is no decimal number there tells nothing.
    ///
    /// # Errors
    /// Only where memory was refused.
    pub fn of_process<R: Files + Env>(rt: &R, alloc: Global) -> Result<User, AllocError> {
        let process = answered(fs::metadata(rt, "/proc/self"))?;
        let told = variable(rt, alloc, "SUDO_UID")?;
        Ok(User {
            number: process.map(|found| found.uid()),
            asks_for: told.and_then(|text| number_of(&text)),
        })
    }

    /// Whether a file with this owner belongs to the user. To the superuser belongs also what belongs to the user for whom he asks.
    pub fn owns(&self, owner: u32) -> bool
        ensures { IsTrue result ↔ Owns self.now owner }
    {
        match self.number {
            None => false,
            Some(SUPERUSER) => owner == SUPERUSER || self.asks_for == Some(owner),
            Some(number) => owner == number,
        }
    }
}

/// The number that a text tells.
fn number_of(text: &[u8]) -> Option<u32> {
    str::from_utf8(text).ok()?.parse().ok()
}
