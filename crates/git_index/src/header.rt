//! The header of an index file.
ghost use Rattle.std.specs.Prelude.{◌≡◌};
ghost use Rattle.git_index.specs.Private.Reading.{Gives, header_at};

use crate::fault::IndexFault;
use crate::fields::{skip, u32_at};

/// The version, the number of entries, and what follows the header.
#[tactic(auto, unfolding(crate::specs::Private::Reading::header_at))]
pub fn header_of(bytes: &[u8]) -> Result<(u32, u32, &[u8]), IndexFault>
    ensures { Gives (λ x. ((x.0, x.1), x.2.now)) result (header_at bytes.now) }
{
    let rest = skip(bytes, 4)?;
    let (version, rest) = u32_at(rest)?;
    let (count, rest) = u32_at(rest)?;
    if !bytes.starts_with(b"DIRC") {
        return Err(IndexFault::Signature);
    }
    if version < 2 || version > 4 {
        return Err(IndexFault::Version(version));
    }
    Ok((version, count, rest))
}
