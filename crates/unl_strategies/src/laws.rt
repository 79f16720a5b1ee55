//! Laws about rollouts to a percentage of ids. Each law is the contract of a function that does nothing.
ghost use Rattle.unl_strategies.specs.Laws.{EmptyRolloutsTakeNone, FullRolloutsTakeAll, RolloutsGrow};

/// If a rollout to a percentage includes an id, so does a rollout to any greater percentage with the same group (the
/// text that is hashed with the id).
pub fn rollouts_grow()
    ensures { RolloutsGrow }
{}

/// A rollout to a percentage of 100 or more includes every id, and a rollout to 0 percent includes none.
pub fn full_rollouts_take_all()
    ensures all { FullRolloutsTakeAll }
    ensures none { EmptyRolloutsTakeNone }
{}
