//! One exchange on a connection: receives a request, passes it to the handler, counts it, and sends the reply.
ghost use Rattle.std.specs.Prelude.{◌≡◌, ◌<◌, ◌≤◌, if◌then◌else◌};
ghost use Rattle.http.specs.StatusCode.{IsStatusCode};
ghost use Rattle.unl_base.specs.Faults.{Rose};
ghost use Rattle.unl_http_api.specs.Reply.{reply_text};
ghost use Rattle.unl_server.specs.Handling.{HandlesRequest, RunsOutOfMemory, handler_state};
ghost use Rattle.unl_server.specs.Exchange.{ServesTurn, SendsRefusal, Replied, Sends500, Writes};

use crate::receive::{PIECE, Received, receive};
use crate::request_handler::{MOST_REQUESTS, RequestHandler};
use std::alloc::Global;
use unl_base::{Draws, Link};
use unl_documents::{List, Memory};
use unl_http_api::{End, Reader, Reply, Request, WriteRefusal, write_500, write_reply};

/// Serves one request. Returns `None` if the whole reply was sent and the request did not ask to close the connection,
/// otherwise why the connection ended. `last`: whether this is the last request that the connection may serve; if so,
/// the reply closes the connection.
pub(crate) fn serve_request<A: RequestHandler, L: Link, R: Draws>(
    alloc: Global,
    reader: &mut Reader,
    room: &mut [u8; PIECE],
    state: &mut A::State,
    count: &mut usize,
    link: &mut L,
    draws: &mut R,
    last: bool,
) -> Option<End>
    requires fits { A.fits count.old state.old }
    requires few { count.old < MOST_REQUESTS }
    ensures turn { ServesTurn (HandlesRequest A.gives) (RunsOutOfMemory A.out_of_memory) last
        (record {
          held = reader.old;
          left = L.left link.old;
          state = handler_state state.old count.old (R.coming draws.old);
          sent = L.sent link.old;
        })
        result
        (record {
          held = reader.new;
          left = L.left link.new;
          state = handler_state state.new count.new (R.coming draws.new);
          sent = L.sent link.new;
        }) }
    ensures fits { A.fits count.new state.new }
    ensures keeps { A.keeps state.old state.new }
    ensures later { L.Source.faults link.old ≤ L.Source.faults link.new }
    ensures read_cause { result ≡ Some End.ReadFault → Rose (L.Source.faults link.old) (L.Source.faults link.new) }
    ensures write_cause { result ≡ Some End.WriteFault → Rose (L.Source.faults link.old) (L.Source.faults link.new) }
    ensures sent_500 { result ≡ Some End.Memory
        → Sends500 (L.sent link.old) (L.Source.faults link.old) (L.sent link.new) (L.Source.faults link.new) }
{
    match receive(alloc, reader, link, room) {
        Received::Request(request) => {
            let close = request.close || last;
            match reply_to::<A, L, R>(alloc, state, count, link, draws, &request, close) {
                Some(end) => Some(end),
                None => asked(request.close),
            }
        }
        Received::Bad(status) => Some(refuse(alloc, link, status)),
        Received::Closed => Some(End::Closed),
        Received::CutOff => Some(End::CutOff),
        Received::ReadFault => Some(End::ReadFault),
        Received::Memory => Some(send_500(link)),
    }
}

/// `End::Asked` if the request asked to close the connection (`close`), otherwise `None`.
fn asked(close: bool) -> Option<End>
    ensures { result ≡ (if close then Some End.Asked else None) }
{
    if close { Some(End::Asked) } else { None }
}

/// Passes a request to the handler, counts it as answered, and sends the reply. If the handler runs out of memory, a
/// 500 reply is sent instead if possible, and the request is not counted. `close`: whether the reply closes the
/// connection. Returns `None` if the whole reply was sent, otherwise why the connection ended.
fn reply_to<A: RequestHandler, L: Link, R: Draws>(
    alloc: Global,
    state: &mut A::State,
    count: &mut usize,
    link: &mut L,
    draws: &mut R,
    request: &Request,
    close: bool,
) -> Option<End>
    requires fits { A.fits count.old state.old }
    requires few { count.old < MOST_REQUESTS }
    ensures replied { Replied (HandlesRequest A.gives) (RunsOutOfMemory A.out_of_memory) request.now close
        (handler_state state.old count.old (R.coming draws.old)) (handler_state state.new count.new (R.coming draws.new))
        (L.sent link.old) result (L.sent link.new) }
    ensures fits { A.fits count.new state.new }
    ensures keeps { A.keeps state.old state.new }
    ensures left { L.left link.new ≡ L.left link.old }
    ensures later { L.Source.faults link.old ≤ L.Source.faults link.new }
    ensures cause { result ≡ Some End.WriteFault → Rose (L.Source.faults link.old) (L.Source.faults link.new) }
    ensures sent_500 { result ≡ Some End.Memory
        → Sends500 (L.sent link.old) (L.Source.faults link.old) (L.sent link.new) (L.Source.faults link.new) }
{
    let draw = draws.draw();
    let reply = match A::answer(alloc, state, *count, request, &draw) {
        Ok(reply) => reply,
        Err(Memory) => return Some(send_500(link)),
    };
    *count += 1;
    send(alloc, &reply, close, link)
}

/// Refuses bytes: sends a reply with this status and no body, which closes the connection. Returns why the connection
/// ended.
fn refuse<L: Link>(alloc: Global, link: &mut L, status: u16) -> End
    requires { IsStatusCode status }
    ensures refuses { SendsRefusal status (L.sent link.old) result (L.sent link.new) }
    ensures left { L.left link.new ≡ L.left link.old }
    ensures later { L.Source.faults link.old ≤ L.Source.faults link.new }
    ensures cause { result ≡ End.WriteFault → Rose (L.Source.faults link.old) (L.Source.faults link.new) }
    ensures sent_500 { result ≡ End.Memory
        → Sends500 (L.sent link.old) (L.Source.faults link.old) (L.sent link.new) (L.Source.faults link.new) }
{
    let reply = Reply {
        status,
        tag: None,
        allow: None,
        body: List::new(alloc),
    };
    match send(alloc, &reply, true, link) {
        None => End::Refused(status),
        Some(end) => end,
    }
}

/// Sends a reply. `close`: whether the reply closes the connection. If memory runs out, tries to send a 500 reply
/// instead. Returns `None` if all of the reply was sent, otherwise why the connection ended.
fn send<L: Link>(alloc: Global, reply: &Reply, close: bool, link: &mut L) -> Option<End>
    requires { IsStatusCode reply.now.status }
    ensures writes { Writes (reply_text reply.now close) (L.sent link.old) result (L.sent link.new) }
    ensures left { L.left link.new ≡ L.left link.old }
    ensures later { L.Source.faults link.old ≤ L.Source.faults link.new }
    ensures cause { result ≡ Some End.WriteFault → Rose (L.Source.faults link.old) (L.Source.faults link.new) }
    ensures sent_500 { result ≡ Some End.Memory
        → Sends500 (L.sent link.old) (L.Source.faults link.old) (L.sent link.new) (L.Source.faults link.new) }
{
    match write_reply(alloc, reply, close, link) {
        Ok(()) => None,
        Err(WriteRefusal::Fault) => Some(End::WriteFault),
        Err(WriteRefusal::Memory) => Some(send_500(link)),
    }
}

/// Tries to send a 500 reply after memory ran out. Returns `End::Memory`, even if the write fails.
fn send_500<L: Link>(link: &mut L) -> End
    ensures end { result ≡ End.Memory }
    ensures sends { Sends500 (L.sent link.old) (L.Source.faults link.old) (L.sent link.new) (L.Source.faults link.new) }
    ensures left { L.left link.new ≡ L.left link.old }
    ensures later { L.Source.faults link.old ≤ L.Source.faults link.new }
{
    let _ = write_500(link);
    End::Memory
}
