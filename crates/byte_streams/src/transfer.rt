//! Writing a text whole.
ghost use Rattle.std.specs.Prelude.{◌≡◌, [], false, OnOk, OnErr, is_err};
ghost use Rattle.std.specs.Io.KnownBytes.{Appends};
ghost use Rattle.byte_streams.specs.Transfers.{AppendsFront};
ghost use Rattle.byte_streams.specs.Faults.{is_endless, is_read_fault, is_write_fault, told_refusal};
ghost use Rattle.byte_streams.specs.Watched.{has_failed, inner};

use crate::fault::RecordFault;
use crate::watched::Watched;
use std::io;
use std::io::{ErrorKind, Write};

/// Writes the whole text. No call on the writer may have failed before, and a write that fails is not tried again, an interrupted
/// one neither.
///
/// # Errors
/// The fault of the write that failed, and [`ErrorKind::WriteZero`] where a write took no byte. A beginning of the text was
/// written.
pub fn write_whole<W: Write>(writer: &mut Watched<W>, text: &[u8]) -> io::Result<()>
    requires { has_failed writer.old ≡ false }
    ensures ok { OnOk result (Appends (W.contents (inner writer.old)) (W.contents (inner writer.new)) text.now) }
    ensures err { OnErr result
        (AppendsFront (W.contents (inner writer.old)) (W.contents (inner writer.new)) text.now) }
    ensures flag { has_failed writer.new ≡ is_err result }
{
    let mut at = 0;
    'pieces: while at < text.len() {
        match writer.write(&text[at..]) {
            Ok(0) => return Err(io::Error::from(ErrorKind::WriteZero)),
            Ok(count) => at += count,
            Err(error) => return Err(error),
        }
    }
    Ok(())
}

/// Writes a text, and flushes.
#[tactic(auto, using(crate::proofs::lemmas::TransferLemmas::flushed))]
pub fn write_text<W: Write, F>(writer: &mut Watched<W>, text: &[u8]) -> Result<(), RecordFault<F>>
    requires { has_failed writer.old ≡ false }
    ensures ok { OnOk result (Appends (W.contents (inner writer.old)) (W.contents (inner writer.new)) text.now) }
    ensures cut { OnErr result (AppendsFront (W.contents (inner writer.old)) (W.contents (inner writer.new)) text.now) }
    ensures none { told_refusal result ≡ [] }
    ensures read { is_read_fault result ≡ false }
    ensures endless { is_endless result ≡ false }
    ensures write { is_write_fault result ≡ has_failed writer.new }
    ensures only { is_err result ≡ has_failed writer.new }
{
    if let Err(error) = write_whole(writer, text) {
        return Err(RecordFault::Write(error));
    }
    match writer.flush() {
        Ok(()) => Ok(()),
        Err(error) => Err(RecordFault::Write(error)),
    }
}
