//! The extensions of an index file, each of which may be passed over or has to be understood.
ghost use Rattle.std.specs.Prelude.{◌≡◌, ◌↔◌, IfOk, IsTrue, List, MatchResult, ℕ};
ghost use Rattle.git_index.specs.declared.fault.IndexFault.TheVariants.{Memory};
ghost use Rattle.git_index.specs.Format.{ArePassedOver};
ghost use Rattle.git_index.specs.Private.Reading.{Ends, Gives, extension_at};

use crate::fault::IndexFault;
use crate::fields::{skip, u32_at};

/// Fewer bytes than the head of an extension has may stand at the end.
pub const HEAD_LEN: usize = 8;

/// `sdir`, the name of a sparse index's extension.
const SDIR: u32 = 0x7364_6972;

/// What follows the extension at the front, which may be passed over.
#[tactic(auto, unfolding(crate::specs::Private::Reading::extension_at))]
fn skip_extension(bytes: &[u8]) -> Result<&[u8], IndexFault>
    ensures { Gives (λ x. x.now) result (extension_at bytes.now) }
{
    let (name, rest) = u32_at(bytes)?;
    let (len, rest) = u32_at(rest)?;
    if name == SDIR {
        return Err(IndexFault::Sparse);
    }
    if name < 0x4100_0000 || name > 0x5AFF_FFFF {
        return Err(IndexFault::Extension(name));
    }
    skip(rest, len as usize)
}

/// Whether nothing more is passed over: a link stands here, or nothing but the end.
fn is_end(bytes: &[u8]) -> bool
    ensures { IsTrue result ↔ Ends bytes.now }
{
    bytes.len() < HEAD_LEN || bytes.starts_with(b"link")
}

/// Passes over extensions, up to a link or the end.
pub fn skip_extensions(bytes: &[u8]) -> Result<&[u8], IndexFault>
    ensures found { IfOk result (λ rest. ArePassedOver bytes.now rest.now × Ends rest.now) }
    ensures only { (rest : List ℕ) → ArePassedOver bytes.now rest → Ends rest → MatchResult result (λ found. found.now ≡ rest) (λ fault. fault ≡ Memory) }
{
    let mut rest = bytes;
    while !is_end(rest) {
        rest = skip_extension(rest)?;
    }
    Ok(rest)
}
