//! Reads a whole input.
ghost use Rattle.std.specs.Prelude.{◌≡◌, ◌≢◌, ◌<◌, ◌≤◌, ◌++◌, length, take, Err, IfOk, IsErrOf, OnOk};
ghost use Rattle.unl_base.specs.Faults.{Rose};
ghost use Rattle.unl_input.specs.Input.{HasRead};

use std::alloc::{AllocError, Global};
use thiserror::Error;
use unl_base::Source;
use unl_documents::{List, Memory};

/// The number of bytes requested by each read.
const ROOM: usize = 65_536;

/// The largest allowed size of an input, in bytes.
const LONGEST: usize = 16_777_216;

/// Why an input could not be read whole.
#[derive(Clone, Copy, Debug, PartialEq, Eq, Error)]
pub enum InputFault {
    /// The input has more than 16,777,216 bytes.
    #[error("the input is too large")]
    TooLarge,
    /// The source failed.
    #[error("the input failed")]
    ReadFault,
    /// Out of memory.
    #[error("out of memory")]
    Memory,
}

impl From<AllocError> for InputFault {
    ghost use Rattle.std.specs.Prelude.{◌≡◌};
    ghost use Rattle.unl_input.specs.declared.reading.InputFault.TheVariants.{Memory as memory};

    ghost from_gives = { λ _ e. e ≡ memory };

    fn from(_: AllocError) -> Self {
        InputFault::Memory
    }
}

impl From<Memory> for InputFault {
    ghost use Rattle.std.specs.Prelude.{◌≡◌};
    ghost use Rattle.unl_input.specs.declared.reading.InputFault.TheVariants.{Memory as memory};

    ghost from_gives = { λ _ e. e ≡ memory };

    fn from(_: Memory) -> Self {
        InputFault::Memory
    }
}

/// Reads all remaining bytes of the source, if there are at most 16,777,216.
///
/// # Errors
/// `TooLarge` if there are more bytes, some of which may be left unread; `ReadFault` if the source failed; `Memory` if
/// memory ran out.
pub fn read_input<S: Source>(alloc: Global, source: &mut S) -> Result<List<u8>, InputFault>
    ensures read { HasRead result (S.left source.old) (S.left source.new) }
    ensures failed { IsErrOf result InputFault.ReadFault → Rose (S.faults source.old) (S.faults source.new) }
    ensures later { S.faults source.old ≤ S.faults source.new }
    ensures untouched { result ≢ Err InputFault.ReadFault → S.faults source.new ≡ S.faults source.old }
{
    let mut room = new_room(alloc)?;
    read_to_end(alloc, source, &mut room)
}

/// Like [`read_input`], through the buffer `room`.
fn read_to_end<S: Source>(
    alloc: Global,
    source: &mut S,
    room: &mut [u8],
) -> Result<List<u8>, InputFault>
    requires { 0 < length room.old }
    ensures read { HasRead result (S.left source.old) (S.left source.new) }
    ensures failed { IsErrOf result InputFault.ReadFault → Rose (S.faults source.old) (S.faults source.new) }
    ensures later { S.faults source.old ≤ S.faults source.new }
    ensures untouched { result ≢ Err InputFault.ReadFault → S.faults source.new ≡ S.faults source.old }
{
    let mut bytes = Vec::new(alloc);
    'reads: while bytes.len() <= LONGEST {
        match source.read(room) {
            Ok(0) => return Ok(List::from_vec(bytes)),
            Ok(count) => take_prefix(&mut bytes, room, count)?,
            Err(_) => return Err(InputFault::ReadFault),
        }
    }
    Err(InputFault::TooLarge)
}

/// Allocates the read buffer.
fn new_room(alloc: Global) -> Result<Vec<u8>, AllocError>
    ensures { IfOk result (λ room. 0 < length room.items) }
{
    vec![in alloc; 0u8; ROOM]
}

/// Appends the first `count` bytes of the read buffer to `bytes`.
fn take_prefix(bytes: &mut Vec<u8>, room: &[u8], count: usize) -> Result<(), Memory>
    requires { count ≤ length room.now }
    ensures { OnOk result (bytes.new.items ≡ bytes.old.items ++ take count room.now) }
{
    bytes.extend_from_slice(&room[..count])?;
    Ok(())
}
