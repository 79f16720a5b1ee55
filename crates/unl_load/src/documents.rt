//! Generates the features of the command `load`, and builds the snapshot in which they are evaluated.
ghost use Rattle.std.specs.Prelude.{◌≡◌, ◌∷◌, [], None, IfOk, OnOk, decimal, string_bytes};
ghost use Rattle.unl_delta.specs.Valid.{IsValidBatch};
ghost use Rattle.unl_delta.specs.declared.event.Event.TheVariants.{Hydration};
ghost use Rattle.unl_documents.specs.States.{IsValidState};
ghost use Rattle.unl_load.specs.Input.{generated_feature, features_from, name_of, pair, state_by, generated_strategy};
ghost use Rattle.unl_load.specs.Words.{behind};

use crate::words::take;
use rand_pcg::Lcg64Xsh32;
use std::alloc::{AllocError, Global};
use unl_compiled::Snapshot;
use unl_delta::{Batch, Event, Place, apply};
use unl_documents::{ChunkedList, Feature, List, Memory, Pair, Shared, State, Strategy, Text};

/// The number of features.
pub(crate) const FEATURES: u32 = 1000;

/// Generates a state with 1,000 features and no segments. Takes one random word for each feature.
pub(crate) fn state(alloc: Global, words: &mut Lcg64Xsh32) -> Result<State, Memory>
    ensures made { IfOk result (λ state. state ≡ state_by words.old) }
    ensures valid { IfOk result IsValidState }
    ensures taken { OnOk result (words.new ≡ behind 1000 words.old) }
{
    let features = features(alloc, words)?;
    Ok(State {
        features: ChunkedList::of_list(alloc, &features)?,
        segments: List::new(alloc),
    })
}

/// Generates the 1,000 features. Takes one random word for each feature.
fn features(alloc: Global, words: &mut Lcg64Xsh32) -> Result<List<Shared<Feature>>, Memory>
    ensures made { IfOk result (λ features. features ≡ features_from 0 1000 words.old) }
    ensures taken { OnOk result (words.new ≡ behind 1000 words.old) }
{
    let mut features = List::new(alloc);
    for place in 0..FEATURES {
        let feature = feature(alloc, place, take(words))?;
        features.push(Shared::new(alloc, feature)?)?;
    }
    Ok(features)
}

/// Returns the feature with this index. Its rollout percentage is `word % 101`.
#[tactic(auto, unfolding(crate::specs::Input::generated_feature))]
fn feature(alloc: Global, place: u32, word: u32) -> Result<Feature, Memory>
    ensures { IfOk result (λ feature. feature ≡ generated_feature place word) }
{
    let name = name(alloc, place)?;
    let mut strategies = List::new(alloc);
    strategies.push(strategy(alloc, name.as_str(), word % 101)?)?;
    Ok(Feature {
        name,
        project: Text::new(alloc, "default")?,
        kind: Text::new(alloc, "release")?,
        description: None,
        enabled: true,
        stale: false,
        impression: false,
        strategies,
        variants: List::new(alloc),
        dependencies: List::new(alloc),
    })
}

/// Returns the `flexibleRollout` strategy of the feature with this name, for this rollout percentage.
#[tactic(auto, unfolding(crate::specs::Input::generated_strategy))]
fn strategy(alloc: Global, name: &str, rollout: u32) -> Result<Strategy, Memory>
    ensures { IfOk result (λ strategy. strategy ≡ generated_strategy name.now rollout) }
{
    let rollout = decimal_text(alloc, rollout)?;
    let mut parameters = List::new(alloc);
    parameters.push(pair(alloc, "groupId", name)?)?;
    parameters.push(pair(alloc, "rollout", rollout.as_str())?)?;
    parameters.push(pair(alloc, "stickiness", "userId")?)?;
    Ok(Strategy {
        name: Text::new(alloc, "flexibleRollout")?,
        parameters,
        constraints: List::new(alloc),
        segments: List::new(alloc),
        variants: List::new(alloc),
    })
}

/// Returns a strategy parameter with this key and value.
fn pair(alloc: Global, key: &str, value: &str) -> Result<Pair, Memory>
    ensures { IfOk result (λ made. made ≡ pair key.now value.now) }
{
    Ok(Pair {
        key: Text::new(alloc, key)?,
        value: Text::new(alloc, value)?,
    })
}

/// Returns a number in decimal.
pub(crate) fn decimal_text(alloc: Global, number: u32) -> Result<String, AllocError>
    ensures { IfOk result (λ text. string_bytes text ≡ decimal number) }
{
    format!(in alloc; "{number}")
}

/// Returns the name of the feature with this index: `f` and the last four decimal digits of the index, with leading
/// zeros.
pub(crate) fn name(alloc: Global, place: u32) -> Result<Text, Memory>
    ensures { IfOk result (λ name. name ≡ name_of place) }
{
    Ok(Text::from(name_of(alloc, place)?))
}

/// Returns the same name as [`name`], as a string.
#[tactic(auto, unfolding(crate::specs::Input::name_of))]
fn name_of(alloc: Global, place: u32) -> Result<String, AllocError>
    ensures { IfOk result (λ name. string_bytes name ≡ name_of place) }
{
    let thousands = place / 1000 % 10;
    let hundreds = place / 100 % 10;
    let tens = place / 10 % 10;
    let ones = place % 10;
    format!(in alloc; "f{thousands}{hundreds}{tens}{ones}")
}

/// Applies this state, as a hydration with number 1, to a place that has no version yet, and returns the snapshot of
/// the new version.
pub(crate) fn installed(alloc: Global, state: State) -> Result<Snapshot, Memory>
    requires { IsValidState state }
    ensures { IfOk result (λ snapshot. snapshot.state ≡ state) }
{
    let place = Place {
        version: None,
        held: false,
    };
    let batch = hydration(alloc, state)?;
    let version = apply(alloc, &place, &batch)?;
    Snapshot::build(alloc, version)
}

/// Returns a batch of one hydration, which has this state and number 1. The epoch is 0.
fn hydration(alloc: Global, state: State) -> Result<Batch, Memory>
    requires { IsValidState state }
    ensures valid { IfOk result IsValidBatch }
    ensures batch { IfOk result (λ batch. batch ≡ record { epoch = 0; after = None; events = Hydration 1 state ∷ [] }) }
{
    let mut events = List::new(alloc);
    events.push(Event::Hydration { number: 1, state })?;
    Ok(Batch {
        epoch: 0,
        after: None,
        events,
    })
}
