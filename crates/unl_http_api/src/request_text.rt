//! Writes requests, for the client side of this crate.
ghost use Rattle.std.specs.Prelude.{◌≡◌, ◌≢◌, ◌++◌, [], IfOk, OnOk, IsTrue, codes, option_copied};
ghost use Rattle.std.specs.Option.{option_map_or};
ghost use Rattle.unl_http_api.specs.declared.request.Method.{Method};
ghost use Rattle.unl_http_api.specs.Reply.{header};
ghost use Rattle.unl_http_api.specs.RequestText.{fits_line, fits_if_any, method_name, request_line, json_headers, body_headers};
ghost use Rattle.unl_http_api.specs.RequestText.{request_text};

use crate::header::{push_header, push_length};
use crate::request::{Bytes, Method};
use std::alloc::Global;
use unl_documents::{List, Memory};

/// Whether text fits in a header line: it has no CR, LF or NUL.
pub fn fits_line(text: &[u8]) -> bool
    ensures { result ≡ fits_line text.now }
{
    text.iter().all(|byte| !matches!(*byte, 0 | b'\n' | b'\r'))
}

/// The text of an HTTP/1.0 request by GET or POST, with `Connection: close`. The token becomes the `Authorization`
/// field, the tag the `If-None-Match` field. Only a POST has `Content-Type` and `Content-Length` fields, so the body of
/// a GET should be empty. The target, the host, the token and the tag must have no CR, LF or NUL.
///
/// # Errors
/// `Memory`: out of memory.
#[tactic(auto, unfolding(crate::specs::RequestText::request_text))]
pub fn write_request(
    alloc: Global,
    method: Method,
    target: &str,
    host: &str,
    token: Option<&str>,
    tag: Option<&[u8]>,
    body: &[u8],
) -> Result<Bytes, Memory>
    requires method { method ≢ Method.Other }
    requires target { IsTrue (fits_line target.now) }
    requires host { IsTrue (fits_line host.now) }
    requires token { IsTrue (fits_if_any (option_copied token)) }
    requires tag { IsTrue (fits_if_any (option_copied tag)) }
    ensures { IfOk result (λ text. text
        ≡ request_text method target.now host.now (option_copied token.entry) (option_copied tag.entry) body.now) }
{
    let mut text = Vec::new(alloc);
    push_request_line(&mut text, method, target)?;
    push_header(&mut text, "Host", host.as_bytes())?;
    push_token(&mut text, token)?;
    push_tag(&mut text, tag)?;
    push_body_headers(&mut text, method, body)?;
    push_header(&mut text, "Connection", b"close")?;
    text.extend_from_slice(b"\r\n")?;
    text.extend_from_slice(body)?;
    Ok(List::from_vec(text))
}

/// The name of a method in the request line. Empty for `Other`, which `write_request` excludes.
fn method_name(method: Method) -> &'static str
    ensures { result.now ≡ method_name method }
{
    match method {
        Method::Get => "GET",
        Method::Post => "POST",
        Method::Other => "",
    }
}

/// Appends the request line.
fn push_request_line(text: &mut Vec<u8>, method: Method, target: &str) -> Result<(), Memory>
    ensures { OnOk result (text.new.items ≡ text.old.items ++ request_line method target.now) }
{
    text.extend_from_slice(method_name(method).as_bytes())?;
    text.extend_from_slice(b" ")?;
    text.extend_from_slice(target.as_bytes())?;
    text.extend_from_slice(b" HTTP/1.0\r\n")?;
    Ok(())
}

/// Appends the `Authorization` field with the token, if there is a token.
fn push_token(text: &mut Vec<u8>, token: Option<&str>) -> Result<(), Memory>
    ensures { OnOk result (text.new.items
        ≡ text.old.items ++ option_map_or (header (codes "Authorization")) (option_copied token.entry) []) }
{
    match token {
        Some(token) => push_header(text, "Authorization", token.as_bytes()),
        None => Ok(()),
    }
}

/// Appends the `If-None-Match` field with the tag, if there is a tag.
fn push_tag(text: &mut Vec<u8>, tag: Option<&[u8]>) -> Result<(), Memory>
    ensures { OnOk result (text.new.items
        ≡ text.old.items ++ option_map_or (header (codes "If-None-Match")) (option_copied tag.entry) []) }
{
    match tag {
        Some(tag) => push_header(text, "If-None-Match", tag),
        None => Ok(()),
    }
}

/// Appends the `Content-Type` and `Content-Length` fields, for a POST.
fn push_body_headers(text: &mut Vec<u8>, method: Method, body: &[u8]) -> Result<(), Memory>
    ensures { OnOk result (text.new.items ≡ text.old.items ++ body_headers method body.now) }
{
    match method {
        Method::Post => push_json_headers(text, body),
        Method::Get => Ok(()),
        Method::Other => Ok(()),
    }
}

/// Appends `Content-Type: application/json` and the `Content-Length` field.
fn push_json_headers(text: &mut Vec<u8>, body: &[u8]) -> Result<(), Memory>
    ensures { OnOk result (text.new.items ≡ text.old.items ++ json_headers body.now) }
{
    push_header(text, "Content-Type", b"application/json")?;
    push_length(text, body.len())
}
