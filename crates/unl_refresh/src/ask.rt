//! The request for the events or the feed of a slot (the part of the board for one environment): its parameters and its
//! text. An event is a change of the environment's flags, and a feed is all of them.
ghost use Rattle.std.specs.Prelude.{◌≡◌, IfOk, IsTrue, option_copied};
ghost use Rattle.unl_http_api.specs.RequestText.{fits_if_any, fits_line};
ghost use Rattle.unl_refresh.specs.Refresh.{refresh_request, target_path};

use std::alloc::Global;
use unl_documents::{Memory, Text};
use unl_http_api::{Bytes, Method, write_request};

/// The parameters of a request to a server for events or a feed.
#[derive(Debug, Drop)]
pub struct Ask {
    /// The server's `HOST:PORT`, sent in the header field `Host`.
    pub host: Text,
    /// The token that authorizes the request, sent in the header field `Authorization`.
    pub token: Text,
    /// If true, the request is for events; if false, for a whole feed.
    pub delta: bool,
    /// The entity tag of the last reply whose content the slot has in full, sent as `If-None-Match`. The server can
    /// then reply with status 304 if nothing is newer, or send only newer events. `None`: the server sends everything.
    pub tag: Option<Bytes>,
}

/// Returns the text of the request with the parameters `ask`, but with `tag` in place of the tag in `ask`.
///
/// # Errors
/// `Memory`: out of memory.
#[tactic(auto, unfolding(crate::specs::Refresh::refresh_request))]
pub(crate) fn request_of(alloc: Global, ask: &Ask, tag: &Option<Bytes>) -> Result<Bytes, Memory>
    requires host { IsTrue (fits_line ask.now.host) }
    requires token { IsTrue (fits_line ask.now.token) }
    requires tag { IsTrue (fits_if_any tag.now) }
    ensures { IfOk result (λ text. text ≡ refresh_request ask.now.delta ask.now.host ask.now.token tag.now) }
{
    write_request(
        alloc,
        Method::Get,
        target_path(ask.delta),
        ask.host.as_str(),
        Some(ask.token.as_str()),
        slice_of(tag),
        &[],
    )
}

/// Returns the path in the Unleash client API: of events if `delta`, otherwise of a feed.
fn target_path(delta: bool) -> &'static str
    ensures target { result.now ≡ target_path delta }
    ensures fits { IsTrue (fits_line result.now) }
{
    if delta {
        "/api/client/delta"
    } else {
        "/api/client/features"
    }
}

/// Borrows the bytes of the tag, if there is one.
fn slice_of(tag: &Option<Bytes>) -> Option<&[u8]>
    ensures { option_copied result ≡ tag.now }
{
    match tag {
        Some(bytes) => Some(bytes.as_slice()),
        None => None,
    }
}
