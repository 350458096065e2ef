//! The users' home folders: the user's own, and those that `/etc/passwd` tells.

use git_config::{Surroundings, UserFolder};
use std::alloc::{AllocError, Global};

/// The file that names the users.
pub(crate) const USERS: &[u8] = b"/etc/passwd";

/// So many bytes of it are looked at: 1 MiB.
pub(crate) const USERS_LIMIT: usize = 1 << 20;

/// What paths of a configuration are told from outside a repository: the folder that `HOME` tells. Those of users are looked up where one
/// is named, and of the installation nothing is known.
///
/// # Errors
/// Only where memory was refused.
pub fn surroundings(alloc: Global, home: Option<&[u8]>) -> Result<Surroundings, AllocError> {
    let home = match home {
        Some(home) => Some(Vec::from_slice(alloc, home)?),
        None => None,
    };
    Ok(Surroundings {
        home,
        real_home: None,
        installed: None,
        users: Vec::new(alloc),
        git_folders: Vec::new(alloc),
        branch: None,
        urls: None,
    })
}

/// The users that a text names, a line each: the first of seven fields is the name, and the sixth the folder. Others, which a service may
/// know, aren't told.
pub(crate) fn users_in(alloc: Global, text: &[u8]) -> Result<Vec<UserFolder>, AllocError> {
    let mut users = Vec::new(alloc);
    for line in text.split(|b| *b == b'\n') {
        let fields: Vec<&[u8]> = line.split(|b| *b == b':').collect(alloc)?;
        if let [name, _, _, _, _, folder, _, ..] = fields.as_slice() {
            users.push(UserFolder {
                name: Vec::from_slice(alloc, name)?,
                folder: Vec::from_slice(alloc, folder)?,
            })?;
        }
    }
    Ok(users)
}
