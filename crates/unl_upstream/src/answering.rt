//! Answers a request with an upstream: applies the request's command, or replies from the upstream's current versions.
ghost use Rattle.std.specs.Prelude.{◌≡◌, IfOk, OnErr, option_to_list};
ghost use Rattle.serde_json.specs.Data.{object, no_members};
ghost use Rattle.serde_json.specs.View.{view};
ghost use Rattle.unl_core.specs.Answer.{refusal};
ghost use Rattle.unl_documents.specs.declared.field.Field.TheVariants as field;
ghost use Rattle.unl_documents.specs.Writing.{count, with};
ghost use Rattle.unl_http_api.specs.Route.{route_of};
ghost use Rattle.unl_upstream.specs.Answer.{IsValidCommandOrReply, command_or_reply_at, command_or_reply_in, command_or_reply_of};
ghost use Rattle.unl_upstream.specs.Answer.{is_commands_route, numbered, refused, replied, upstream_answer};
ghost use Rattle.unl_upstream.specs.Command.{IsValidCommand, command_in};
ghost use Rattle.unl_upstream.specs.History.{AreAdded, accepted};
ghost use Rattle.unl_upstream.specs.Requests.{command_given};
ghost use Rattle.unl_upstream.specs.Upstream.{apply_command};

use crate::command::Command;
use crate::command_or_reply::CommandOrReply;
use crate::reading::read_command_bytes;
use crate::refusal::{CommandRefusal, KeepCommandRefusal};
use crate::upstream::Upstream;
use serde_json::{Map, Value};
use std::alloc::Global;
use unl_base::Draw;
use unl_core::reply::{made, refuse, refuse_method};
use unl_core::{answer, status};
use unl_documents::kind::AnyWhole;
use unl_documents::to_value::put;
use unl_documents::{BadDocument, Field, List, Memory};
use unl_http_api::{Reply, Request, Route, is_post};

impl Upstream {
    /// Answers a request. On the route `/commands`, which this project defines, a `POST` with the secret as its token
    /// and a command as its body applies this command, and the reply is 200 with the new version number of the
    /// environment, or 404 or 409 if the upstream refuses the command. Any other request on that route is refused: 405
    /// for another method, 401 without a token, 403 for another token, and 400 for a body that is no command. A refusal
    /// changes nothing. On all other routes the reply is that of [`unl_core::answer`] for the upstream's board. A
    /// report of metrics is answered but not stored.
    ///
    /// # Errors
    /// `Memory`: out of memory. The upstream is then unchanged.
    pub fn answer(&mut self, alloc: Global, request: &Request, draw: &Draw) -> Result<Reply, Memory>
        ensures answer { IfOk result (λ reply. upstream_answer self.old request.now draw.entry.now
            ≡ record { reply = reply; up = self.new }) }
        ensures versions { IfOk result
            (λ reply. AreAdded (accepted (option_to_list (command_given self.old.secret request.now)) self.old) self.old self.new) }
        ensures same { OnErr result (self.new ≡ self.old) }
    {
        self.answer_one(alloc, request, draw)
    }

    /// Answers a request. [`Upstream::answer`] adds the clause about the histories of the versions.
    #[tactic(auto, unfolding(crate::specs::Answer::upstream_answer))]
    fn answer_one(&mut self, alloc: Global, request: &Request, draw: &Draw) -> Result<Reply, Memory>
        ensures answer { IfOk result (λ reply. upstream_answer self.old request.now draw.entry.now
            ≡ record { reply = reply; up = self.new }) }
        ensures same { OnErr result (self.new ≡ self.old) }
    {
        match self.command_or_reply_of(alloc, request, draw)? {
            CommandOrReply::Execute(command) => self.apply_and_reply(alloc, &command),
            CommandOrReply::Reply(reply) => Ok(reply),
        }
    }

    /// Returns the command that a request gives, or the reply to a request that gives none.
    #[tactic(auto, unfolding(crate::specs::Answer::command_or_reply_of))]
    pub(crate) fn command_or_reply_of(
        &self,
        alloc: Global,
        request: &Request,
        draw: &Draw,
    ) -> Result<CommandOrReply, Memory>
        ensures given { IfOk result (λ given. given ≡ command_or_reply_of self.now request.now draw.entry.now) }
        ensures valid { IfOk result IsValidCommandOrReply }
    {
        if is_commands_route(alloc, request.target.as_slice())? {
            return self.command_or_reply_at(alloc, request);
        }
        let answer = answer(alloc, self.board(), request, draw)?;
        Ok(CommandOrReply::Reply(answer.reply))
    }

    /// Returns the command that a request on the route of commands gives, or the reply that refuses the request.
    fn command_or_reply_at(
        &self,
        alloc: Global,
        request: &Request,
    ) -> Result<CommandOrReply, Memory>
        ensures given { IfOk result (λ given. given ≡ command_or_reply_at self.now request.now) }
        ensures valid { IfOk result IsValidCommandOrReply }
    {
        if !is_post(request.method) {
            return Ok(CommandOrReply::Reply(refuse_method(alloc, &Route::Commands)?));
        }
        let Some(token) = &request.token else {
            return Ok(CommandOrReply::Reply(refuse(alloc, status::UNAUTHORIZED, "NoToken")?));
        };
        if !self.is_secret(token.as_slice()) {
            return Ok(CommandOrReply::Reply(refuse(alloc, status::FORBIDDEN, "UnknownToken")?));
        }
        command_or_reply_in(alloc, request.body.as_slice())
    }

    /// Applies a command and returns its reply, which may be a refusal. The reply is built before the command is
    /// committed, so running out of memory changes nothing.
    fn apply_and_reply(&mut self, alloc: Global, command: &Command) -> Result<Reply, Memory>
        requires { IsValidCommand command.now }
        ensures answer { IfOk result (λ reply. replied self.old (apply_command command.now self.old)
            ≡ record { reply = reply; up = self.new }) }
        ensures same { OnErr result (self.new ≡ self.old) }
    {
        match self.prepare(alloc, command) {
            Ok(ready) => {
                let reply = numbered(alloc, ready.number())?;
                self.commit(ready);
                Ok(reply)
            }
            Err(refusal) => match refusal {
                CommandRefusal::Memory => Err(Memory),
                _ => refused(alloc, KeepCommandRefusal::from(refusal)),
            },
        }
    }
}

/// Returns the command in the body of a request that came with the secret, or the reply 400 `BadBody` if the body is no
/// command.
fn command_or_reply_in(alloc: Global, body: &[u8]) -> Result<CommandOrReply, Memory>
    ensures given { IfOk result (λ given. given ≡ command_or_reply_in (command_in body.now)) }
    ensures valid { IfOk result IsValidCommandOrReply }
{
    match read_command_bytes(alloc, body) {
        Ok(command) => Ok(CommandOrReply::Execute(command)),
        Err(BadDocument::Memory) => Err(Memory),
        Err(_) => Ok(CommandOrReply::Reply(refuse(alloc, status::BAD_REQUEST, "BadBody")?)),
    }
}

/// Returns whether a request's target is on the route of commands, `/commands`. False if its route is unknown.
fn is_commands_route(alloc: Global, target: &[u8]) -> Result<bool, Memory>
    ensures { IfOk result (λ is. is ≡ is_commands_route (route_of target.now)) }
{
    match Route::of(alloc, target)? {
        Some(route) => Ok(route.is_commands()),
        None => Ok(false),
    }
}

/// Returns the reply to an accepted command: 200 with the new version number of the command's environment.
pub(crate) fn numbered(alloc: Global, number: u64) -> Result<Reply, Memory>
    ensures { IfOk result (λ reply. reply ≡ numbered number) }
{
    let body = number_object(alloc, number)?;
    made(alloc, status::OK, &body)
}

/// Returns an object with the member `number`.
fn number_object(alloc: Global, number: u64) -> Result<Value, Memory>
    ensures { IfOk result (λ v. view v ≡ object (with field.Number (count number) no_members)) }
{
    let mut members = Map::new(alloc);
    put::<AnyWhole>(&mut members, alloc, Field::Number, &number)?;
    Ok(Value::Object(members))
}

/// Returns the reply to a command that is refused or not stored: 404, 409 or 503 with the name of the refusal.
/// The name for `KeeperFull` is `TooMany`. For `Memory` there is no reply, and `Memory` is returned as the error.
pub(crate) fn refused(alloc: Global, refusal: KeepCommandRefusal) -> Result<Reply, Memory>
    ensures { IfOk result (λ reply. reply ≡ refused refusal) }
{
    match refusal {
        KeepCommandRefusal::NoSuchEnvironment => {
            refuse(alloc, status::NOT_FOUND, "NoSuchEnvironment")
        }
        KeepCommandRefusal::NoSuchFeature => refuse(alloc, status::NOT_FOUND, "NoSuchFeature"),
        KeepCommandRefusal::NoSuchSegment => refuse(alloc, status::NOT_FOUND, "NoSuchSegment"),
        KeepCommandRefusal::TooMany(_) => refuse(alloc, status::CONFLICT, "TooMany"),
        KeepCommandRefusal::KeeperFull(_) => refuse(alloc, status::CONFLICT, "TooMany"),
        KeepCommandRefusal::KeeperFault => {
            refuse(alloc, status::SERVICE_UNAVAILABLE, "KeeperFault")
        }
        KeepCommandRefusal::Memory => Err(Memory),
    }
}
