//! Reads and writes that are tried again if a signal interrupted them.
ghost use Rattle.std.specs.Prelude.{◌≡◌, true, is_err};
ghost use Rattle.std.specs.Io.{ReadsAtMost, WritesAtMost};
ghost use Rattle.std.specs.Io.KnownBytes.{ReadConsumes, WriteAppends};

use std::io;
use std::io::{ErrorKind, Read, Write};

/// How many times a call is tried at most. No process gets that many signals during one call.
const MOST_TRIES: usize = 1_000;

/// Whether a signal interrupted the call.
fn is_interrupted<T>(tried: &io::Result<T>) -> bool
    ensures { result ≡ true → is_err tried.now ≡ true }
{
    match tried {
        Ok(_) => false,
        Err(fault) => fault.kind() == ErrorKind::Interrupted,
    }
}

/// Reads once. A read that a signal interrupted is tried again.
///
/// # Errors
/// The error of the reader. `Interrupted` only if signals interrupted all `MOST_TRIES` reads.
#[tactic(auto, using(crate::proofs::Trying::stays, crate::proofs::Trying::read_then, crate::proofs::Trying::read_failed))]
pub(crate) fn read_once<R: Read>(reader: &mut R, room: &mut [u8]) -> io::Result<usize>
    ensures bound { ReadsAtMost result room.new }
    ensures bytes { ReadConsumes (R.remaining reader.old) (R.remaining reader.new) result room.new }
{
    'tries: for _try in 0..MOST_TRIES {
        let tried = reader.read(room);
        if !is_interrupted(&tried) {
            return tried;
        }
    }
    Err(io::Error::from(ErrorKind::Interrupted))
}

/// Writes once. A write that a signal interrupted is tried again.
///
/// # Errors
/// The error of the writer. `Interrupted` only if signals interrupted all `MOST_TRIES` writes.
#[tactic(auto, using(crate::proofs::Trying::stays, crate::proofs::Trying::write_then, crate::proofs::Trying::write_failed))]
pub(crate) fn write_once<W: Write>(writer: &mut W, piece: &[u8]) -> io::Result<usize>
    ensures bound { WritesAtMost result piece.now }
    ensures bytes { WriteAppends (W.contents writer.old) (W.contents writer.new) result piece.now }
{
    'tries: for _try in 0..MOST_TRIES {
        let tried = writer.write(piece);
        if !is_interrupted(&tried) {
            return tried;
        }
    }
    Err(io::Error::from(ErrorKind::Interrupted))
}
