//! What a request asks for: a command to apply, or only a reply.

use crate::command::Command;
use unl_http_api::Reply;

/// Whether a request gives a command, or needs only a reply.
#[derive(Drop)]
pub(crate) enum CommandOrReply {
    /// The request gives this command, which is to be applied.
    Execute(Command),
    /// The request gives no command, and this is its reply.
    Reply(Reply),
}
