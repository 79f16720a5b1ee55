//! Computes the answer to a request from a board: the known tokens, and the current version of each environment.
ghost use Rattle.std.specs.Prelude.{◌≡◌, ◌≢◌, ◌∷◌, [], codes, IfOk, IfSome, Err, Ok, Some};
ghost use Rattle.unl_core.specs.Answer.{answer_of, asked_context, at_route, delta_reply, document_reply, feature_reply, feed_for};
ghost use Rattle.unl_core.specs.Answer.{feed_reply, feed_state, feed_tag, feed_with, has_tag, listed, news_since, one_text, plain};
ghost use Rattle.unl_core.specs.Answer.{registered, reply, reported, reported_by, seen, not_modified_at, tag_at, toggles_for};
ghost use Rattle.unl_core.specs.Answer.{toggles_reply, validated};
ghost use Rattle.unl_core.specs.Board.{AreSlots};
ghost use Rattle.unl_core.specs.Shown.{ready_by, shown_by};
ghost use Rattle.unl_dependencies.specs.Evaluation.{feature_named};
ghost use Rattle.unl_context.specs.Json.{body_of};
ghost use Rattle.unl_context.specs.Query.{query_context};
ghost use Rattle.unl_context.specs.declared.fault.BadContext.TheVariants.{Memory as memory};
ghost use Rattle.unl_documents.specs.Results.{Gives};
ghost use Rattle.unl_documents.specs.States.{IsValidState};
ghost use Rattle.unl_http_api.specs.Route.{query_of};
ghost use Rattle.unl_metrics.specs.Reports.{IsReport, bulk_report_of, single_report_of};
ghost use Rattle.unl_tokens.specs.Requests.{asked_in};

use crate::board::Board;
use crate::client::knows_no_segments;
use crate::desk::Answer;
use crate::reply::{
    refuse, refuse_method, refuse_token, status_only, tagged_text, unchanged, with_text,
};
use crate::shown::{Ready, ready_by, shown_by};
use crate::status;
use crate::tag::{inlined_tag_of, since_of, tag_of};
use std::alloc::Global;
use unl_base::Draw;
use unl_context::{BadContext, Context};
use unl_delta::{DeltaAnswer, answer as delta_answer, view};
use unl_documents::parsing::read_object;
use unl_documents::write_json::text_of;
use unl_documents::{
    FeedHead, InlineRefusal, List, Memory, State, Text, TryClone, feed_text, inline,
};
use unl_http_api::{Reply, Request, Route, is_post, query_of};
use unl_metrics::{BadReport, Report};
use unl_strategies::Moment;
use unl_tokens::{BadRequest, Kind, Projects, Token, answer_text, read_request};

/// Answers a request: with 404 `NoSuchRoute` if no route has its path, with 405 `BadMethod` if the route doesn't accept
/// its method, otherwise with the route's own answer. `/commands` counts as an unknown path, whatever the method.
/// `draw` has the time and the random word for an evaluation. The board must have at most eight slots, of different
/// environments.
///
/// An answer shows a token only the features of the token's projects, and all segments of its environment.
///
/// # Errors
/// `Memory`: out of memory.
#[tactic(auto, unfolding(crate::specs::Answer::answer_of))]
pub fn answer(
    alloc: Global,
    board: &Board,
    request: &Request,
    draw: &Draw,
) -> Result<Answer, Memory>
    requires { AreSlots board.now.slots }
    ensures answer { IfOk result (λ a. a ≡ answer_of board.now request.now draw.entry.now) }
    ensures report { IfOk result (λ a. IfSome a.report IsReport) }
{
    let Some(route) = Route::of(alloc, request.target.as_slice())? else {
        return Ok(plain(refuse(alloc, status::NOT_FOUND, "NoSuchRoute")?));
    };
    if !route.is_commands() && !route.methods().allows(request.method) {
        return Ok(plain(refuse_method(alloc, &route)?));
    }
    at_route(alloc, board, request, draw, &route)
}

/// The answer with this reply and without a report.
fn plain(reply: Reply) -> Answer
    ensures { result ≡ plain reply }
{
    Answer {
        reply,
        report: None,
        environment: None,
    }
}

/// The answer of a known route. Whether the route accepts the request's method is not checked here. `/commands` is
/// refused like an unknown path.
fn at_route(
    alloc: Global,
    board: &Board,
    request: &Request,
    draw: &Draw,
    route: &Route,
) -> Result<Answer, Memory>
    ensures answer { IfOk result (λ a. a ≡ at_route board.now request.now draw.entry.now route.now) }
    ensures report { IfOk result (λ a. IfSome a.report IsReport) }
{
    match route {
        Route::Health => Ok(plain(healthy(alloc)?)),
        Route::Validate => Ok(plain(validate(alloc, board, request)?)),
        Route::Features => Ok(plain(feed(alloc, board, request)?)),
        Route::Feature(name) => Ok(plain(feature(alloc, board, request, name)?)),
        Route::Delta => Ok(plain(changes(alloc, board, request)?)),
        Route::Enabled => Ok(plain(toggles(alloc, board, request, draw, false)?)),
        Route::All => Ok(plain(toggles(alloc, board, request, draw, true)?)),
        Route::Register => Ok(plain(register(alloc, board, request, Kind::Client)?)),
        Route::FrontRegister => Ok(plain(register(alloc, board, request, Kind::Frontend)?)),
        Route::Metrics => report(alloc, board, request, Kind::Client),
        Route::FrontMetrics => report(alloc, board, request, Kind::Frontend),
        Route::Bulk => bulk_report(alloc, board, request),
        Route::Commands => Ok(plain(refuse(alloc, status::NOT_FOUND, "NoSuchRoute")?)),
    }
}

/// Answers a report of metrics from one application, or refuses the request's token, which must be of this kind.
fn report(alloc: Global, board: &Board, request: &Request, kind: Kind) -> Result<Answer, Memory>
    ensures answer { IfOk result (λ a. a ≡ reported (shown_by board.now request.now kind) (single_report_of request.now.body)) }
    ensures report { IfOk result (λ a. IfSome a.report IsReport) }
{
    match shown_by(board, request, kind) {
        Err(unseen) => Ok(plain(refuse_token(alloc, unseen)?)),
        Ok(shown) => {
            let reading = Report::read_single(alloc, request.body.as_slice());
            reported_by(alloc, shown.token, reading)
        }
    }
}

/// Answers a bulk report (counts that an edge has summed up), or refuses the request's token, which must be a client
/// token.
fn bulk_report(alloc: Global, board: &Board, request: &Request) -> Result<Answer, Memory>
    ensures answer { IfOk result (λ a. a ≡ reported (shown_by board.now request.now Kind.Client) (bulk_report_of request.now.body)) }
    ensures report { IfOk result (λ a. IfSome a.report IsReport) }
{
    match shown_by(board, request, Kind::Client) {
        Err(unseen) => Ok(plain(refuse_token(alloc, unseen)?)),
        Ok(shown) => {
            let reading = Report::read_bulk(alloc, request.body.as_slice());
            reported_by(alloc, shown.token, reading)
        }
    }
}

/// The answer to a report: 202 with the report, for the token's environment, or 400 `BadReport` if it wasn't readable.
/// A report that was read must be valid.
fn reported_by(
    alloc: Global,
    token: &Token,
    reading: Result<Report, BadReport>,
) -> Result<Answer, Memory>
    requires { IfOk reading IsReport }
    ensures answer { IfOk result (λ a. (reading ≢ Err BadReport.Memory) × (a ≡ reported_by token.now reading)) }
    ensures report { IfOk result (λ a. IfSome a.report IsReport) }
{
    match reading {
        Err(BadReport::Memory) => Err(Memory),
        Err(_) => Ok(plain(refuse(alloc, status::BAD_REQUEST, "BadReport")?)),
        Ok(report) => Ok(Answer {
            reply: status_only(alloc, status::ACCEPTED)?,
            report: Some(report),
            environment: Some(token.environment.copy(alloc)?),
        }),
    }
}

/// The health reply: 200 with the body `{"status":"OK"}`. Health checks are frequent, so the text is a constant.
fn healthy(alloc: Global) -> Result<Reply, Memory>
    ensures { IfOk result (λ r. r ≡ reply 200 (one_text (codes "status") (codes "OK"))) }
{
    let text = List::from_slice(alloc, br#"{"status":"OK"}"#)?;
    Ok(with_text(status::OK, text))
}

/// The reply with those tokens of the book that the request lists, or 400 `BadBody` if the body can't be read.
fn validate(alloc: Global, board: &Board, request: &Request) -> Result<Reply, Memory>
    ensures { IfOk result (λ r. r ≡ validated board.now (asked_in request.now.body)) }
{
    match read_request(alloc, request.body.as_slice()) {
        Err(BadRequest::Memory) => Err(Memory),
        Err(_) => refuse(alloc, status::BAD_REQUEST, "BadBody"),
        Ok(texts) => {
            let text = answer_text(alloc, board.book.get(), &texts)?;
            Ok(with_text(status::OK, text))
        }
    }
}

/// Registers a client: 202 (nothing is stored), 400 `BadReport` if the body isn't an object, or the token's refusal.
fn register(alloc: Global, board: &Board, request: &Request, kind: Kind) -> Result<Reply, Memory>
    ensures { IfOk result (λ r. r ≡ registered request.now (shown_by board.now request.now kind)) }
{
    match shown_by(board, request, kind) {
        Err(unseen) => refuse_token(alloc, unseen),
        Ok(_) => match read_object(alloc, request.body.as_slice())? {
            Some(_) => status_only(alloc, status::ACCEPTED),
            None => refuse(alloc, status::BAD_REQUEST, "BadReport"),
        },
    }
}

/// The reply with the toggles that the request's token sees, or the token's refusal. If `all`, also those that are off.
fn toggles(
    alloc: Global,
    board: &Board,
    request: &Request,
    draw: &Draw,
    all: bool,
) -> Result<Reply, Memory>
    ensures { IfOk result (λ r. r ≡ toggles_reply board.now request.now draw.entry.now all (ready_by board.now request.now Kind.Frontend)) }
{
    match ready_by(board, request, Kind::Frontend) {
        Err(unseen) => refuse_token(alloc, unseen),
        Ok(ready) => toggles_for(alloc, board, request, draw, all, &ready),
    }
}

/// Like `toggles`, for an accepted token. 400 `BadContext` if the context in the request can't be read.
fn toggles_for(
    alloc: Global,
    board: &Board,
    request: &Request,
    draw: &Draw,
    all: bool,
    ready: &Ready,
) -> Result<Reply, Memory>
    ensures { IfOk result (λ r. r ≡ toggles_for board.now draw.entry.now all ready.now (asked_context request.now)) }
{
    match asked_context(alloc, request) {
        Err(BadContext::Memory) => Err(Memory),
        Err(_) => refuse(alloc, status::BAD_REQUEST, "BadContext"),
        Ok(context) => {
            let context = placed(alloc, context, ready.token.environment.as_str())?;
            let moment = Moment {
                now: draw.now,
                word: draw.word,
                host: board.host.as_str(),
            };
            let projects = &ready.token.projects;
            let text = ready
                .snapshot
                .toggles_text(alloc, projects, all, &context, &moment)?;
            Ok(with_text(status::OK, text))
        }
    }
}

/// The context of a request: from the body of a POST, otherwise from the query.
fn asked_context(alloc: Global, request: &Request) -> Result<Context, BadContext>
    ensures { Gives memory result (asked_context request.now) }
{
    if is_post(request.method) {
        return body_context(alloc, request);
    }
    query_context(alloc, request)
}

fn body_context(alloc: Global, request: &Request) -> Result<Context, BadContext>
    ensures { Gives memory result (body_of request.now.body) }
{
    Context::read_body(alloc, request.body.as_slice())
}

fn query_context(alloc: Global, request: &Request) -> Result<Context, BadContext>
    ensures { Gives memory result (query_context (query_of request.now.target)) }
{
    Context::read_query(alloc, query_of(request.target.as_slice()))
}

/// The context with its environment set to `environment`.
fn placed(alloc: Global, mut context: Context, environment: &str) -> Result<Context, Memory>
    ensures { IfOk result (λ c. c ≡ record context { environment = Some environment.now }) }
{
    match context.set_environment(alloc, environment) {
        Ok(()) => Ok(context),
        Err(_) => Err(Memory),
    }
}

/// The reply with a feature's document, or the token's refusal. 404 `NoSuchFeature` if the token sees no such feature.
fn feature(
    alloc: Global,
    board: &Board,
    request: &Request,
    name: &Option<Text>,
) -> Result<Reply, Memory>
    ensures { IfOk result (λ r. r ≡ feature_reply name.now (ready_by board.now request.now Kind.Client)) }
{
    match ready_by(board, request, Kind::Client) {
        Err(unseen) => refuse_token(alloc, unseen),
        Ok(ready) => match name {
            None => refuse(alloc, status::NOT_FOUND, "NoSuchFeature"),
            Some(name) => feature_of(alloc, &ready, name.as_str()),
        },
    }
}

/// Like `feature`, for an accepted token.
fn feature_of(alloc: Global, ready: &Ready, name: &str) -> Result<Reply, Memory>
    ensures { IfOk result (λ r. r ≡ document_reply (feature_named name.now (seen ready.now).features)) }
{
    match ready.snapshot.feature(name, &ready.token.projects) {
        None => refuse(alloc, status::NOT_FOUND, "NoSuchFeature"),
        Some(feature) => {
            let text = text_of(alloc, feature)?;
            Ok(with_text(status::OK, text))
        }
    }
}

/// The reply with the feed, or the refusal of the request's token. The feed has the features and segments that the
/// token sees. For clients that don't know segments, the segments are inlined: their constraints are copied into the
/// strategies that use them. 304 if the request has the feed's tag.
fn feed(alloc: Global, board: &Board, request: &Request) -> Result<Reply, Memory>
    ensures { IfOk result (λ r. r ≡ feed_reply board.now request.now (ready_by board.now request.now Kind.Client)) }
{
    match ready_by(board, request, Kind::Client) {
        Err(unseen) => refuse_token(alloc, unseen),
        Ok(ready) => {
            let inlined = knows_no_segments(alloc, request)?;
            feed_for(alloc, board, request, inlined, &ready)
        }
    }
}

/// Like `feed`, for an accepted token. 503 `TooManyConstraints` if inlining gives a strategy more than 100 constraints.
fn feed_for(
    alloc: Global,
    board: &Board,
    request: &Request,
    inlined: bool,
    ready: &Ready,
) -> Result<Reply, Memory>
    ensures { IfOk result (λ r. r ≡ feed_for board.now request.now inlined ready.now) }
{
    let tag = feed_tag(alloc, board, inlined, ready)?;
    if has_tag(request, tag.as_str()) {
        return unchanged(alloc, tag);
    }
    match feed_state(alloc, inlined, ready) {
        Err(InlineRefusal::Memory) => Err(Memory),
        Err(InlineRefusal::TooMany(_)) => {
            refuse(alloc, status::SERVICE_UNAVAILABLE, "TooManyConstraints")
        }
        Ok(state) => feed_with(alloc, ready, tag, &state),
    }
}

/// The tag of a feed for the token. `inlined`: whether the feed's segments are inlined.
fn feed_tag(alloc: Global, board: &Board, inlined: bool, ready: &Ready) -> Result<Text, Memory>
    ensures { IfOk result (λ tag. tag ≡ feed_tag board.now inlined ready.now) }
{
    let version = ready.snapshot.version();
    if inlined {
        return inlined_tag_of(alloc, board, ready.place, version.epoch, version.number);
    }
    tag_of(alloc, board, ready.place, version.epoch, version.number)
}

/// The content of a feed: the state that the token sees, with its segments inlined if `inlined`.
///
/// # Errors
/// - `TooMany`: inlining would give a strategy more than 100 constraints.
/// - `Memory`: out of memory.
fn feed_state(alloc: Global, inlined: bool, ready: &Ready) -> Result<State, InlineRefusal>
    ensures state { Gives InlineRefusal.Memory result (feed_state inlined (seen ready.now)) }
    ensures valid { IfOk result IsValidState }
{
    let seen = view(
        alloc,
        &ready.snapshot.version().state,
        &ready.token.projects,
    )?;
    if inlined {
        inline(alloc, &seen)
    } else {
        Ok(seen)
    }
}

/// The reply 200 with this tag and the feed of this state, which must be valid.
fn feed_with(alloc: Global, ready: &Ready, tag: Text, state: &State) -> Result<Reply, Memory>
    requires { IsValidState state.now }
    ensures { IfOk result (λ r. r ≡ feed_with ready.now tag (Ok state.now)) }
{
    let version = ready.snapshot.version();
    let head = FeedHead {
        environment: ready.token.environment.copy(alloc)?,
        projects: listed(alloc, &ready.token.projects)?,
        tag: tag.copy(alloc)?,
        number: version.number,
        epoch: version.epoch,
    };
    let text = feed_text(alloc, &head, state)?;
    Ok(tagged_text(tag, text))
}

/// The reply with the changes since the number in the request's tag, or with the whole state, as the request's token
/// sees them; or the refusal of the token.
fn changes(alloc: Global, board: &Board, request: &Request) -> Result<Reply, Memory>
    ensures { IfOk result (λ r. r ≡ delta_reply board.now request.now (ready_by board.now request.now Kind.Client)) }
{
    match ready_by(board, request, Kind::Client) {
        Err(unseen) => refuse_token(alloc, unseen),
        Ok(ready) => changes_for(alloc, board, request, &ready),
    }
}

/// Like `changes`, for an accepted token.
fn changes_for(
    alloc: Global,
    board: &Board,
    request: &Request,
    ready: &Ready,
) -> Result<Reply, Memory>
    ensures { IfOk result (λ r. r ≡ delta_reply board.now request.now (Ok ready.now)) }
{
    let since = since_of(alloc, board, ready.place, epoch_of(ready), &request.tag)?;
    news_since(alloc, board, ready, since)
}

/// The reply with the changes after the number `since`, as the token sees them, or with a hydration (the whole state)
/// if `since` is `None`, above the version's number, or so old that changes after it are gone. 304 if nothing is new.
fn news_since(
    alloc: Global,
    board: &Board,
    ready: &Ready,
    since: Option<u64>,
) -> Result<Reply, Memory>
    ensures { IfOk result (λ r. r ≡ news_since board.now ready.now since) }
{
    match delta_answer(
        alloc,
        ready.snapshot.version(),
        since,
        &ready.token.projects,
    )? {
        DeltaAnswer::Same => not_modified_at(alloc, board, ready, since),
        DeltaAnswer::Batch(batch) => {
            let number = batch.number().unwrap_or(0);
            let tag = tag_at(alloc, board, ready, number)?;
            let text = text_of(alloc, &batch)?;
            Ok(tagged_text(tag, text))
        }
    }
}

/// The reply 304 with the tag of this number, or without a tag if there is no number.
fn not_modified_at(
    alloc: Global,
    board: &Board,
    ready: &Ready,
    since: Option<u64>,
) -> Result<Reply, Memory>
    ensures { IfOk result (λ r. r ≡ not_modified_at board.now ready.now since) }
{
    match since {
        None => status_only(alloc, status::NOT_MODIFIED),
        Some(number) => {
            let tag = tag_at(alloc, board, ready, number)?;
            unchanged(alloc, tag)
        }
    }
}

/// The tag of the content at this number, in the epoch of the token's environment.
fn tag_at(alloc: Global, board: &Board, ready: &Ready, number: u64) -> Result<Text, Memory>
    ensures { IfOk result (λ tag. tag ≡ tag_at board.now ready.now number) }
{
    tag_of(alloc, board, ready.place, epoch_of(ready), number)
}

/// The epoch of the version of the token's environment.
fn epoch_of(ready: &Ready) -> u64
    ensures { result ≡ ready.now.version.epoch }
{
    ready.snapshot.version().epoch
}

/// Whether the request's tag is present and equal to this tag, byte by byte.
fn has_tag(request: &Request, tag: &str) -> bool
    ensures { result ≡ has_tag tag.now request.now.tag }
{
    match &request.tag {
        None => false,
        Some(asked) => asked.as_slice() == tag.as_bytes(),
    }
}

/// The project names in a feed: those of the token, or `*` if it gives access to all projects.
fn listed(alloc: Global, projects: &Projects) -> Result<List<Text>, Memory>
    ensures { IfOk result (λ names. names ≡ listed projects.now) }
{
    match projects {
        Projects::All => one_name(alloc, "*"),
        Projects::Only(names) => names.copy(alloc),
    }
}

/// A list of one name.
fn one_name(alloc: Global, name: &str) -> Result<List<Text>, Memory>
    ensures { IfOk result (λ names. names ≡ name.now ∷ []) }
{
    let name = Text::new(alloc, name)?;
    let mut names = List::new(alloc);
    names.push(name)?;
    Ok(names)
}
