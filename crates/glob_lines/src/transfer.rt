//! What the engines read and write: a reader to its end, and a whole output.
ghost use Rattle.std.specs.Prelude.{◌≡◌, ◌↔◌, false, IsTrue, IfOk, OnOk, OnErr, IsErrOf};
ghost use Rattle.std.specs.Io.KnownBytes.{Appends};
ghost use Rattle.byte_streams.specs.Watched.{has_failed, inner};
ghost use Rattle.byte_streams.specs.Transfers.{AppendsFront, ReadsWhole};

use crate::fault::EngineFault;
use byte_streams::{Watched, write_whole};
use std::alloc::Global;
use std::io::{Read, Write};

/// How many bytes one read asks for. The piece lies on the stack, so it is small.
const PIECE: usize = 16 * 1024;

/// All bytes that the reader has left. A read that fails is not tried again.
pub(crate) fn read_whole<R: Read>(
    alloc: Global,
    reader: &mut Watched<R>,
) -> Result<Vec<u8>, EngineFault>
    requires { has_failed reader.old ≡ false }
    ensures ok { IfOk result (λ bytes.
        ReadsWhole (R.remaining (inner reader.old)) (R.remaining (inner reader.new)) bytes.items) }
    ensures read { IsErrOf result EngineFault.Read ↔ IsTrue (has_failed reader.new) }
    ensures write { ¬ IsErrOf result EngineFault.Write }
{
    let mut bytes = Vec::new(alloc);
    let mut piece = [0u8; PIECE];
    'pieces: loop {
        match reader.read(&mut piece) {
            Ok(0) => return Ok(bytes),
            Ok(count) => bytes.extend_from_slice(&piece[..count])?,
            Err(_) => return Err(EngineFault::Read),
        }
    }
}

/// Writes an engine's whole output.
pub(crate) fn write_output<W: Write>(
    writer: &mut Watched<W>,
    text: &[u8],
) -> Result<(), EngineFault>
    requires { has_failed writer.old ≡ false }
    ensures ok { OnOk result (Appends (W.contents (inner writer.old)) (W.contents (inner writer.new)) text.now) }
    ensures err { OnErr result
        (AppendsFront (W.contents (inner writer.old)) (W.contents (inner writer.new)) text.now) }
    ensures write { IsErrOf result EngineFault.Write ↔ IsTrue (has_failed writer.new) }
    ensures only { OnErr result (IsErrOf result EngineFault.Write) }
{
    write_whole(writer, text).map_err(|_| EngineFault::Write)
}
