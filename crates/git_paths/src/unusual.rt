//! Bytes that are no letter or sign of ASCII by themselves, so that a name that has one is written in quotes.
ghost use Rattle.std.specs.Prelude.{◌≡◌, ◌+◌, ◌≤◌, ◌<◌, length, IsTrue};
ghost use Rattle.std.specs.List.{list_any};
ghost use Rattle.git_paths.specs.declared.quoting.Quoting.TheVariants.{Full};
ghost use Rattle.git_paths.specs.Quoting.{is_unusual};
ghost use Rattle.git_paths.specs.Private.Usual.{HasNoneUnusual};

use crate::quoting::Quoting;
use std::simd::prelude::*;

/// So many bytes are looked at in one step.
pub(crate) const BLOCK_SIZE: usize = 16;

/// So many of a name that is shorter than a block.
const HALF_SIZE: usize = 8;

/// Whether some byte of a name is unusual.
#[tactic(auto, using(crate::proofs::lemmas::UsualLemmas::has_no_unusual))]
pub fn has_unusual(name: &[u8], quoting: Quoting) -> bool
    ensures { result ≡ list_any (is_unusual quoting) name.now }
{
    // a name that has no unusual byte where bytes past ASCII are some has none where they aren't
    if is_usual_by_blocks(name) {
        return false;
    }
    has_unusual_byte(name, quoting)
}

/// Whether a byte is a control character, a double quote, a backslash, or, where names are quoted in full, one past ASCII.
pub(crate) fn is_unusual_by(byte: u8, quoting: Quoting) -> bool
    ensures { result ≡ is_unusual quoting byte }
{
    // so a usual byte takes no other test than where names are quoted in full
    is_unusual(byte) && (byte < 128 || quoting == Quoting::Full)
}

/// Whether a byte is one of these where names are quoted in full.
pub(crate) fn is_unusual(byte: u8) -> bool
    ensures { result ≡ is_unusual Full byte }
{
    byte < 32 || byte >= 127 || byte == b'"' || byte == b'\\'
}

/// Whether it is seen in few steps that no byte of a name is unusual where it is quoted in full. The last block may overlap the one before.
#[tactic(auto, using(crate::proofs::lemmas::UsualLemmas::both_usual_runs))]
fn is_usual_by_blocks(name: &[u8]) -> bool
    ensures { IsTrue result → HasNoneUnusual name.now 0 (length name.now) }
{
    if name.len() < BLOCK_SIZE {
        return is_usual_by_halves(name);
    }
    let mut place = 0;
    'steps: while name.len() - place > BLOCK_SIZE {
        if !is_usual_block::<BLOCK_SIZE>(name, place) {
            return false;
        }
        place += BLOCK_SIZE;
    }
    is_usual_block::<BLOCK_SIZE>(name, name.len() - BLOCK_SIZE)
}

/// The same of a name that is shorter than a block. One that is shorter than a half isn't looked at.
#[tactic(auto, using(crate::proofs::lemmas::UsualLemmas::both_usual_runs))]
fn is_usual_by_halves(name: &[u8]) -> bool
    requires { length name.now < BLOCK_SIZE }
    ensures { IsTrue result → HasNoneUnusual name.now 0 (length name.now) }
{
    name.len() >= HALF_SIZE
        && is_usual_block::<HALF_SIZE>(name, 0)
        && is_usual_block::<HALF_SIZE>(name, name.len() - HALF_SIZE)
}

/// Whether no byte of a block is unusual where names are quoted in full.
#[inline(always)]
pub(crate) fn is_usual_block<const N: usize>(bytes: &[u8], place: usize) -> bool
    requires { (0 < N) × (N ≤ 64) × (place + N ≤ length bytes.now) }
    ensures { IsTrue result → HasNoneUnusual bytes.now place (place + N) }
{
    let block = Simd::<u8, N>::from_slice(&bytes[place..]);
    let is_no_sign = block.simd_lt(Simd::splat(32)) | block.simd_ge(Simd::splat(127));
    let is_escaped = block.simd_eq(Simd::splat(b'"')) | block.simd_eq(Simd::splat(b'\\'));
    (is_no_sign | is_escaped).to_bitmask() == 0
}

/// Whether some byte of a name is unusual, seen byte by byte.
#[inline(never)]
fn has_unusual_byte(name: &[u8], quoting: Quoting) -> bool
    ensures { result ≡ list_any (is_unusual quoting) name.now }
{
    'bytes: for byte in name {
        if is_unusual_by(*byte, quoting) {
            return true;
        }
    }
    false
}
