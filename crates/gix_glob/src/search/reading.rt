//! Reading a source whole, by a loop of reads that tries none of them again.
ghost use Rattle.std.specs.Prelude.{◌≡◌, ◌||◌, OnOk, IfSome};
ghost use Rattle.byte_streams.specs.Watched.{has_failed, inner};
ghost use Rattle.gix_glob.specs.Loading.{IsBeginningOf};
ghost use Rattle.gix_glob.specs.Private.Reading.{is_read_fault};

use super::Watched;
use super::fault::LoadFault;
use std::io::Read;

/// How many bytes one read may give. The piece lies on the stack, so it is small.
const PIECE: usize = 16 * 1024;

/// Puts all that the reader has left into `buf`, in place of what stood there.
pub(crate) fn read_whole<R: Read>(
    reader: &mut Watched<R>,
    buf: &mut Vec<u8>,
) -> Result<(), LoadFault>
    ensures whole { OnOk result (IfSome (R.remaining (inner reader.old)) (λ bytes. buf.new.items ≡ bytes)) }
    ensures beginning { IfSome (R.remaining (inner reader.old)) (IsBeginningOf buf.new.items) }
    ensures flag { has_failed reader.new ≡ (has_failed reader.old || is_read_fault result) }
{
    buf.clear();
    let mut piece = [0u8; PIECE];
    'reads: loop {
        let count = reader.read(&mut piece).map_err(LoadFault::Read)?;
        if count == 0 {
            return Ok(());
        }
        buf.extend_from_slice(&piece[..count])?;
    }
}
