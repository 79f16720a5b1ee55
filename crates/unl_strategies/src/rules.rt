//! The rules of the activation strategies of the Unleash reference, selected by the name of the strategy.
ghost use Rattle.std.specs.Prelude.{◌≡◌, IfOk, []};
ghost use Rattle.std.specs.Fmt.{decimal};
ghost use Rattle.unl_strategies.specs.Percent.{percent_of as percent_in};
ghost use Rattle.unl_strategies.specs.Random.{random_id as id_number};
ghost use Rattle.unl_strategies.specs.Strategy.{parameter_or as value_or, random_at as number_at, is_user_listed as user_listed};
ghost use Rattle.unl_strategies.specs.Strategy.{is_address_listed as address_listed, is_field_rolled_out as field_rolled_out};
ghost use Rattle.unl_strategies.specs.Strategy.{is_randomly_rolled_out as randomly_rolled_out};
ghost use Rattle.unl_strategies.specs.Strategy.{is_flexibly_rolled_out as flexibly_rolled_out, is_id_rolled_out as id_rolled_out};
ghost use Rattle.unl_strategies.specs.Strategy.{rule_holds};

use crate::ids::{RolloutId, id_by};
use crate::lists::{is_host_listed, is_in_nets, is_listed};
use crate::moment::{Mark, Moment};
use crate::parameters::parameter_or;
use crate::percent::percent_of;
use crate::random::{random_for, random_id};
use crate::rollout::{is_drawn, is_rolled_out};
use std::alloc::Global;
use unl_context::Context;
use unl_documents::{List, Memory, Pair, Strategy, Text};

/// Whether a strategy's own rule holds, regardless of its constraints and segments. `feature` is the name of the
/// strategy's feature, and `index` is the strategy's index in the feature, from 0. The rule of a strategy with an
/// unknown name never holds. The only error is out of memory.
#[tactic(auto, unfolding(crate::specs::Strategy::rule_holds))]
pub fn rule(
    alloc: Global,
    strategy: &Strategy,
    feature: &Text,
    index: u32,
    context: &Context,
    moment: &Moment,
) -> Result<bool, Memory>
    ensures { IfOk result (λ b. b ≡ rule_holds strategy.now feature.now index context.now moment.entry.now) }
{
    let parameters = &strategy.parameters;
    match strategy.name.as_str() {
        "default" => Ok(true),
        "userWithId" => Ok(is_user_listed(parameters, context)),
        "gradualRolloutUserId" => Ok(is_field_rolled_out("userId", parameters, context)),
        "gradualRolloutSessionId" => Ok(is_field_rolled_out("sessionId", parameters, context)),
        "gradualRolloutRandom" => {
            let random = random_at(feature, index, moment);
            Ok(is_randomly_rolled_out(parameters, random))
        }
        "remoteAddress" => Ok(is_address_listed(parameters, context)),
        "applicationHostname" => {
            let hosts = parameter_or(parameters, "hostNames", "");
            Ok(is_host_listed(hosts, moment.host))
        }
        "flexibleRollout" => {
            is_flexibly_rolled_out(alloc, parameters, feature, index, context, moment)
        }
        _ => Ok(false),
    }
}

/// Returns the random number of the strategy at an index in its feature.
fn random_at(feature: &Text, index: u32, moment: &Moment) -> u32
    ensures { result ≡ number_at feature.now index moment.entry.now }
{
    random_for(feature.as_str(), Mark::Strategy(index), moment.word)
}

/// Returns the percentage in the parameter with the given key, or 0 if the parameter is absent or not a percentage.
fn percent_at(parameters: &List<Pair>, key: &str) -> u32
    ensures { result ≡ percent_in (value_or [] key.now parameters.now) }
{
    percent_of(parameter_or(parameters, key, ""))
}

/// Whether the context has a userId that is an item of the list in the parameter `userIds`.
#[tactic(auto, unfolding(crate::specs::Strategy::is_user_listed))]
fn is_user_listed(parameters: &List<Pair>, context: &Context) -> bool
    ensures { result ≡ user_listed parameters.now context.now }
{
    match context.get("userId") {
        None => false,
        Some(user) => is_listed(parameter_or(parameters, "userIds", ""), user),
    }
}

/// Whether the context has a remoteAddress that is an address, and an address block of the list in the parameter `IPs`
/// contains this address.
#[tactic(auto, unfolding(crate::specs::Strategy::is_address_listed))]
fn is_address_listed(parameters: &List<Pair>, context: &Context) -> bool
    ensures { result ≡ address_listed parameters.now context.now }
{
    match context.get("remoteAddress") {
        None => false,
        Some(address) => is_in_nets(parameter_or(parameters, "IPs", ""), address),
    }
}

/// Whether the percentage in the parameter `percentage` includes the value of a field of the context. False if the
/// context lacks the field. The group (the text that is hashed with this value) is the parameter `groupId`, or empty if
/// that is absent.
#[tactic(auto, unfolding(crate::specs::Strategy::is_field_rolled_out))]
fn is_field_rolled_out(name: &str, parameters: &List<Pair>, context: &Context) -> bool
    ensures { result ≡ field_rolled_out name.now parameters.now context.now }
{
    match context.get(name) {
        None => false,
        Some(id) => {
            let group = parameter_or(parameters, "groupId", "");
            is_rolled_out(percent_at(parameters, "percentage"), group, id)
        }
    }
}

/// Whether the percentage in the parameter `percentage` includes the random number.
#[tactic(auto, unfolding(crate::specs::Strategy::is_randomly_rolled_out))]
fn is_randomly_rolled_out(parameters: &List<Pair>, random: u32) -> bool
    ensures { result ≡ randomly_rolled_out parameters.now random }
{
    is_drawn(percent_at(parameters, "percentage"), random)
}

/// Whether the percentage in the parameter `rollout` includes the id that the parameter `stickiness` (`default` if
/// absent or empty) selects. False if the context lacks the selected field. The group is the parameter `groupId`, or
/// the feature's name if that is absent or empty. The only error is out of memory.
#[tactic(auto, unfolding(crate::specs::Strategy::is_flexibly_rolled_out))]
fn is_flexibly_rolled_out(
    alloc: Global,
    parameters: &List<Pair>,
    feature: &Text,
    index: u32,
    context: &Context,
    moment: &Moment,
) -> Result<bool, Memory>
    ensures { IfOk result (λ b. b
        ≡ flexibly_rolled_out parameters.now feature.now (number_at feature.now index moment.entry.now) context.now) }
{
    match id_by(parameter_or(parameters, "stickiness", "default"), context) {
        RolloutId::Field(id) => Ok(is_id_rolled_out(parameters, feature, id)),
        RolloutId::Random => {
            let id = random_text(alloc, random_at(feature, index, moment))?;
            Ok(is_id_rolled_out(parameters, feature, id.as_str()))
        }
        RolloutId::Absent => Ok(false),
    }
}

/// Whether the percentage in the parameter `rollout` includes an id. The group is the parameter `groupId`, or the
/// feature's name if that is absent or empty.
fn is_id_rolled_out(parameters: &List<Pair>, feature: &Text, id: &str) -> bool
    ensures { result ≡ id_rolled_out parameters.now feature.now id.now }
{
    let group = parameter_or(parameters, "groupId", feature.as_str());
    is_rolled_out(percent_at(parameters, "rollout"), group, id)
}

/// Returns the random id in decimal. `random` is the random number of the strategy.
fn random_text(alloc: Global, random: u32) -> Result<Text, Memory>
    ensures { IfOk result (λ t. t ≡ decimal (id_number random)) }
{
    let id = random_id(random);
    Ok(Text::from(format!(in alloc; "{id}")?))
}
