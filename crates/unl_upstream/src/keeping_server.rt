//! Answers requests with an upstream and its keeper, and serves connections with them.
ghost use Rattle.unl_server.specs.Conversation.{Converses};
ghost use Rattle.unl_server.specs.Links.{link_view};
ghost use Rattle.std.specs.Prelude.{◌≡◌, true, IfOk, OnErr};
ghost use Rattle.unl_upstream.specs.Command.{IsValidCommand};
ghost use Rattle.unl_upstream.specs.Kept.{kept_state};
ghost use Rattle.unl_upstream.specs.KeptServing.{AnswersByKeeping, CarriesAnswer, RepliesTo, ServesKept};
ghost use Rattle.unl_upstream.specs.KeptServing.{KeptServingRunsOut, ServesKeptRequest, kept_serving_state};

use crate::answering::{numbered, refused};
use crate::command::Command;
use crate::command_or_reply::CommandOrReply;
use crate::keeping::{prepare_put, put};
use crate::refusal::KeepCommandRefusal;
use crate::upstream::Upstream;
use std::alloc::Global;
use std::marker::PhantomData;
use unl_base::{Draw, Draws, Link};
use unl_documents::Memory;
use unl_http_api::{End, Reply, Request};
use unl_keeper::{KeepRefusal, Keeper};
use unl_server::{RequestHandler, Server, serve_requests};

/// Answers a request as [`Upstream::answer`] does. But if the request gives a command, the keeper stores the command
/// before the reply acknowledges it. If the keeper is full, the reply is 409 `TooMany`; if the keeper fails, it is 503
/// `KeeperFault`. In both cases the upstream and the kept commands are unchanged.
///
/// # Errors
/// `Memory`: out of memory. The upstream and the keeper are then unchanged.
pub fn answer_kept<K: Keeper>(
    alloc: Global,
    up: &mut Upstream,
    keeper: &mut K,
    request: &Request,
    draw: &Draw,
) -> Result<Reply, Memory>
    requires { (K.state keeper.old).opened ≡ true }
    ensures stays { (K.state keeper.new).opened ≡ true }
    ensures answers { IfOk result (λ reply. CarriesAnswer (kept_state up.old (K.state keeper.old)) request.now draw.entry.now reply
        (kept_state up.new (K.state keeper.new))) }
    ensures same { OnErr result (kept_state up.new (K.state keeper.new) ≡ kept_state up.old (K.state keeper.old)) }
{
    answer_one(alloc, up, keeper, request, draw)
}

/// Answers a request. The clause `answers` of [`answer_kept`] adds what an attempt to keep a command preserves.
fn answer_one<K: Keeper>(
    alloc: Global,
    up: &mut Upstream,
    keeper: &mut K,
    request: &Request,
    draw: &Draw,
) -> Result<Reply, Memory>
    requires { (K.state keeper.old).opened ≡ true }
    ensures stays { (K.state keeper.new).opened ≡ true }
    ensures gives { IfOk result (λ reply. AnswersByKeeping (kept_state up.old (K.state keeper.old)) request.now draw.entry.now reply
        (kept_state up.new (K.state keeper.new))) }
    ensures same { OnErr result (kept_state up.new (K.state keeper.new) ≡ kept_state up.old (K.state keeper.old)) }
{
    match up.command_or_reply_of(alloc, request, draw)? {
        CommandOrReply::Execute(command) => keep_and_reply(alloc, up, keeper, &command),
        CommandOrReply::Reply(reply) => Ok(reply),
    }
}

/// Stores a command with the keeper, publishes it, and returns the reply, which may be a refusal. The replies for
/// success and for a fault of the keeper are both built before the put, so that nothing after the put can run out of
/// memory.
fn keep_and_reply<K: Keeper>(
    alloc: Global,
    up: &mut Upstream,
    keeper: &mut K,
    command: &Command,
) -> Result<Reply, Memory>
    requires valid { IsValidCommand command.now }
    requires opened { (K.state keeper.old).opened ≡ true }
    ensures stays { (K.state keeper.new).opened ≡ true }
    ensures replies { IfOk result (λ reply. RepliesTo command.now (kept_state up.old (K.state keeper.old)) reply
        (kept_state up.new (K.state keeper.new))) }
    ensures same { OnErr result (kept_state up.new (K.state keeper.new) ≡ kept_state up.old (K.state keeper.old)) }
{
    match prepare_put(alloc, up, keeper, command) {
        Ok(pending) => {
            let kept = numbered(alloc, pending.ready.number())?;
            let failed = refused(alloc, KeepCommandRefusal::KeeperFault)?;
            match put(alloc, up, keeper, pending) {
                Ok(_) => Ok(kept),
                Err(KeepRefusal::Fault) => Ok(failed),
                Err(KeepRefusal::Memory) => Err(Memory),
            }
        }
        Err(refusal) => match refusal {
            KeepCommandRefusal::Memory => Err(Memory),
            _ => refused(alloc, refusal),
        },
    }
}

/// An upstream, and the keeper of its commands.
#[derive(Drop)]
pub(crate) struct DurableUpstream<'a, K> {
    pub up: &'a mut Upstream,
    pub keeper: &'a mut K,
}

/// The request handler of an upstream that keeps its commands.
pub(crate) struct ByKept<'a, K>(PhantomData<&'a K>);

impl<'a, K: Keeper> RequestHandler for ByKept<'a, K> {
    ghost use Rattle.std.specs.Prelude.{◌≡◌, true};
    ghost use Rattle.std.proofs.Common.{◌∙◌, refl};
    ghost use Rattle.unl_upstream.specs.KeptServing.{AnswersByKeeping, KeptStateUnchanged, kept_in};

    type State = DurableUpstream<'a, K>;

    ghost fits = { λ count state. (K.state state.keeper.now).opened ≡ true };

    ghost keeps = { λ state after. (after.up.ghost_name ≡ state.up.ghost_name) × (after.keeper.ghost_name ≡ state.keeper.ghost_name) };

    ghost gives = { λ state request draw reply after. AnswersByKeeping (kept_in K.state state) request draw reply (kept_in K.state after) };

    ghost out_of_memory = { λ state request draw after. KeptStateUnchanged (kept_in K.state state) request draw (kept_in K.state after) };

    fn answer(
        alloc: Global,
        state: &mut DurableUpstream<'a, K>,
        _count: usize,
        request: &Request,
        draw: &Draw,
    ) -> Result<Reply, Memory> {
        let reply = answer_one(alloc, state.up, state.keeper, request, draw)?;
        Ok(reply)
    }

    ghost keeps_itself = { λ state. (refl, refl) };

    ghost keeps_on = { λ first next last one two. (two.0 ∙ one.0, two.1 ∙ one.1) };
}

/// Serves a connection as [`Upstream::serve`] does, but the keeper stores each command before the reply acknowledges
/// it. Returns how many requests were answered, and how the connection ended.
pub fn serve_kept<K: Keeper, L: Link, R: Draws>(
    alloc: Global,
    up: &mut Upstream,
    keeper: &mut K,
    link: &mut L,
    draws: &mut R,
) -> (usize, End)
    requires { (K.state keeper.old).opened ≡ true }
    ensures stays { (K.state keeper.new).opened ≡ true }

    // The whole conversation: the requests that were read, the replies that were sent, how it ended, how many requests
    // were answered (each with the next draw), and the cause of each failure.
    ensures converses { Converses ServesKeptRequest KeptServingRunsOut
        (link_view (L.left link.old) (L.sent link.old) (L.Source.faults link.old))
        (kept_serving_state (kept_state up.old (K.state keeper.old)) 0 (R.coming draws.old)) result.1
        (kept_serving_state (kept_state up.new (K.state keeper.new)) result.0 (R.coming draws.new)) result.0
        (link_view (L.left link.new) (L.sent link.new) (L.Source.faults link.new)) }

    // In every case, nothing but attempts to keep the commands of the answered requests changed the upstream and its
    // keeper.
    ensures keeps { ServesKept
        (kept_serving_state (kept_state up.old (K.state keeper.old)) 0 (R.coming draws.old)) result.1 result.0
        (kept_serving_state (kept_state up.new (K.state keeper.new)) result.0 (R.coming draws.new)) }
{
    let mut kept = DurableUpstream { up, keeper };
    let conversed = serve_requests::<ByKept<K>, L, R>(alloc, &mut kept, link, draws);
    conversed
}
