//! Selects the id that decides whether a percentage rollout includes a context.
ghost use Rattle.std.specs.Prelude.{◌≡◌, List, Some, ℕ};
ghost use Rattle.unl_strategies.specs.Ids.{id_with};
ghost use Rattle.unl_strategies.specs.Strategy.{id_by as id_that, default_id as id_by_default};

use unl_context::Context;

/// The id that decides whether a rollout includes a context.
#[derive(Clone, Copy)]
pub(crate) enum RolloutId<'a> {
    /// The value of a field of the context.
    Field(&'a str),
    /// The random id, a pseudo-random number from 1 to 10,000. Its digits are formatted only if they are needed.
    Random,
    /// No id: the context lacks the selected field.
    Absent,
}

/// Returns the id that the parameter `stickiness` selects: `default` selects the userId, or else the sessionId, or else
/// the random id. `random` selects the random id. Any other text selects the field or property of the context with this
/// name, and the result is `Absent` if the context lacks it.
#[tactic(auto, unfolding(crate::specs::Strategy::id_by))]
pub(crate) fn id_by<'a>(stickiness: &str, context: &'a Context) -> RolloutId<'a>
    ensures { (random : List ℕ) → id_with result random ≡ id_that stickiness.now context.now random }
{
    match stickiness {
        "default" => default_id(context),
        "random" => RolloutId::Random,
        name => match context.get(name) {
            Some(field) => RolloutId::Field(field),
            None => RolloutId::Absent,
        },
    }
}

/// Returns the userId, or else the sessionId, or else the random id.
fn default_id<'a>(context: &'a Context) -> RolloutId<'a>
    ensures { (random : List ℕ) → id_with result random ≡ Some (id_by_default context.now random) }
{
    if let Some(user) = context.get("userId") {
        return RolloutId::Field(user);
    }
    match context.get("sessionId") {
        Some(session) => RolloutId::Field(session),
        None => RolloutId::Random,
    }
}
