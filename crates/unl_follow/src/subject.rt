//! The feature that a run of `follow` evaluates, and the context of the evaluation.
use std::marker::Model;
use unl_context::Context;

/// The feature that a run evaluates, and the context of the evaluation.
#[derive(Debug, Drop)]
pub struct Subject<'a> {
    /// The name of the feature.
    pub feature: &'a str,
    /// The context of the evaluation, including its environment.
    pub context: &'a Context,
}

impl<'a> Model for Subject<'a> {
    ghost use Rattle.unl_follow.specs.Replica.{Subject as Plain};

    ghost Value = { Plain };

    ghost view = { λ subject. record { feature = subject.feature.now; context = subject.context.now } };
}
