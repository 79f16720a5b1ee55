//! Appends header lines to the text of a request or a reply.
ghost use Rattle.std.specs.Prelude.{◌≡◌, ◌++◌, OnOk, codes};
ghost use Rattle.std.specs.Fmt.{decimal};
ghost use Rattle.unl_http_api.specs.Reply.{header};

use itoa::Buffer;
use unl_documents::Memory;

/// Appends a header line: the name, a colon, a space, the value and CRLF.
pub(crate) fn push_header(text: &mut Vec<u8>, name: &str, value: &[u8]) -> Result<(), Memory>
    ensures { OnOk result (text.new.items ≡ text.old.items ++ header name.now value.now) }
{
    text.extend_from_slice(name.as_bytes())?;
    text.extend_from_slice(b": ")?;
    text.extend_from_slice(value)?;
    text.extend_from_slice(b"\r\n")?;
    Ok(())
}

/// Appends a number in decimal.
pub(crate) fn push_number(text: &mut Vec<u8>, number: usize) -> Result<(), Memory>
    ensures { OnOk result (text.new.items ≡ text.old.items ++ decimal number) }
{
    let mut room = Buffer::new();
    text.extend_from_slice(room.format(number).as_bytes())?;
    Ok(())
}

/// Appends the `Content-Length` header with a length in bytes.
pub(crate) fn push_length(text: &mut Vec<u8>, length: usize) -> Result<(), Memory>
    ensures { OnOk result (text.new.items ≡ text.old.items ++ header (codes "Content-Length") (decimal length)) }
{
    text.extend_from_slice(b"Content-Length: ")?;
    push_number(text, length)?;
    text.extend_from_slice(b"\r\n")?;
    Ok(())
}
