//! Adds readers to a publication.
ghost use Rattle.std.specs.Prelude.{◌≡◌, IfOk};
ghost use Rattle.unl_publication.specs.Rule.{shared_knowledge};
ghost use Rattle.unl_publication.specs.Seen.{IsFresh, is_closed, written};

use crate::reader::Reader;
use crate::rule::Rules;
use crate::value::Counted;
use crate::writer::{Writer, fresh_seat};
use std::alloc::AllocError;

/// Adds a reader that knows what the writer knows.
///
/// # Errors
///
/// Fails if there is no room for another reader, or if it runs out of memory.
pub fn new_reader<T: Counted<I> + Drop, I: Drop, P: Rules<T, I>>(
    writer: &mut Writer<T, I, P>,
) -> Result<Reader<T, I, P>, AllocError>
    ensures same { written writer.new ≡ written writer.old }
    ensures closed { is_closed writer.new ≡ is_closed writer.old }
    ensures reader { IfOk result (IsFresh (shared_knowledge (written writer.old))) }
{
    let front = writer.sides.published().front();
    let seat = fresh_seat(&mut writer.sides)?;
    Ok(Reader {
        seat,
        past: None,
        front,
        least: 0,
    })
}
