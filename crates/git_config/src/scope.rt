//! A section, and whether its entries include files: that is looked up once, since a condition can be long.
ghost use Rattle.std.specs.Prelude.{◌≡◌, ◌↔◌, ◌⊎◌, ◌==◌, ◌++◌, IfOk, IsTrue, ℕ, List, MatchOption, codes, false, nat_eq, true};
ghost use Rattle.std.specs.List.{ends_with, list_any};
ghost use Rattle.std.specs.Option.{option_copied};
ghost use Rattle.git_config.specs.Grammar.{before_zero};
ghost use Rattle.git_config.specs.Includes.{Includes};
ghost use Rattle.git_config.specs.Private.Scopes.{IsScope, conditional};

use crate::conditions::holds;
use crate::keys::{has_zero, until_zero};
use crate::section::Section;
use crate::surroundings::Surroundings;
use git_paths::joined;
use std::alloc::{AllocError, Global};
use std::rc::Rc;

/// A section.
#[derive(Drop)]
pub(crate) struct Scope {
    /// The section, which its entries share.
    pub(crate) section: Rc<Section>,
    /// Whether a byte 0 in it ends each key.
    is_cut: bool,
    /// Whether its entries of the name `path` include a file, and where it is cut all others too.
    includes: bool,
}

impl Scope {
    /// A section whose keys begin so, in a file of this path and this real path.
    pub(crate) fn new(
        alloc: Global,
        around: &Surroundings,
        real: Option<&[u8]>,
        file: Option<Rc<Vec<u8>>>,
        keys: Vec<u8>,
    ) -> Result<Scope, AllocError>
        ensures file { IfOk result (λ scope. scope.section.value.file ≡ file) }
        ensures keys { IfOk result (λ scope. scope.section.value.keys.items ≡ keys.items) }
        ensures scope { IfOk result (λ scope. IsScope around.now (option_copied real.entry) scope) }
    {
        let is_cut = has_zero(&keys);
        let key = joined(alloc, &keys, b"path")?;
        let includes = includes(alloc, around, real, until_zero(&key))?;
        Ok(Scope {
            section: Rc::new(alloc, Section { file, keys })?,
            is_cut,
            includes,
        })
    }

    /// Whether its entry of a name includes a file.
    pub(crate) fn has_include(
        &self,
        alloc: Global,
        around: &Surroundings,
        real: Option<&[u8]>,
        name: &[u8],
    ) -> Result<bool, AllocError>
        requires { IsScope around.now (option_copied real) self.now }
        ensures { IfOk result (λ so. IsTrue so ↔ Includes around.now (option_copied real.entry) (before_zero (self.now.section.value.keys.items ++ name.now))) }
    {
        let told = until_zero(name);
        if self.is_cut {
            return Ok(self.includes);
        }
        if is_same(told, b"path") {
            return Ok(self.includes);
        }
        if ends_section(&self.section.keys, told) {
            return Ok(false);
        }
        let key = joined(alloc, &self.section.keys, name)?;
        includes(alloc, around, real, until_zero(&key))
    }
}

/// Whether two texts are the same.
fn is_same(a: &[u8], b: &[u8]) -> bool
    ensures { IsTrue result ↔ (a.now ≡ b.now) }
{
    a == b
}

/// Whether a full stop stands before this name, and none in it.
fn ends_section(section: &[u8], name: &[u8]) -> bool
    ensures { IsTrue result ↔ ((ends_with nat_eq section.now (codes ".") ≡ true) × (list_any (λ b. b == 46) name.now ≡ false)) }
{
    section.ends_with(b".") && !has_stop(name)
}

/// Whether a full stop is among the bytes.
fn has_stop(bytes: &[u8]) -> bool
    ensures { result ≡ list_any (λ b. b == 46) bytes.now }
{
    bytes.contains(&b'.')
}

/// Whether an entry of a key includes a file.
fn includes(
    alloc: Global,
    around: &Surroundings,
    real: Option<&[u8]>,
    key: &[u8],
) -> Result<bool, AllocError>
    ensures { IfOk result (λ so. IsTrue so ↔ Includes around.now (option_copied real.entry) key.now) }
{
    if is_same(key, b"include.path") {
        return Ok(true);
    }
    match condition_of(key) {
        Some(condition) => holds(alloc, around, real, condition),
        None => Ok(false),
    }
}

/// The condition of a key.
fn condition_of(key: &[u8]) -> Option<&[u8]>
    ensures { MatchOption result ((condition : List ℕ) → ¬ (key.now ≡ conditional condition)) (λ condition. key.now ≡ conditional condition.now) }
{
    let Some(rest) = key.strip_prefix(b"includeif.") else {
        return None;
    };
    rest.strip_suffix(b".path")
}
