//! The types of an explanation: a result for each part of an evaluation.
use unl_dependencies::Evaluation;
use unl_documents::{List, Text};

/// The explanation of why a feature is on or off. Every dependency and every strategy is explained, even if the feature
/// is off.
#[derive(Debug, Drop)]
pub struct Reason {
    /// The feature's evaluation: whether the feature is on, and its variant.
    pub evaluation: Evaluation,
    /// Whether the feature is enabled in its document.
    pub enabled: bool,
    /// The results for the parents of the feature's dependencies, in the order of the dependencies.
    pub parents: List<ParentReason>,
    /// The results for the feature's strategies, in their order.
    pub strategies: List<StrategyReason>,
    /// The index, from 0, of the first active strategy, if there is one.
    pub first: Option<u32>,
    /// Where the feature's variant comes from.
    pub source: Origin,
}

/// Whether the parent of a dependency (the feature that the dependency names) satisfies the dependency, and why.
#[derive(Debug, Drop)]
pub struct ParentReason {
    /// The parent's name.
    pub feature: Text,
    /// The parent's status.
    pub cause: ParentCause,
    /// Whether the parent satisfies the dependency.
    pub met: bool,
}

/// The status of a parent, as it matters to a feature that depends on it.
#[derive(Debug, Drop)]
pub enum ParentCause {
    /// The state lacks the parent. An absent parent satisfies no dependency.
    Absent,
    /// The parent has dependencies of its own. Such a parent satisfies no dependency.
    HasParents,
    /// The parent is on. The text is the name of its variant, or `disabled` if it has no variant.
    On(Text),
    /// The parent is off.
    Off,
}

/// Whether a strategy is active, and why.
#[derive(Debug, Drop)]
pub struct StrategyReason {
    /// The strategy's name, which selects its rule.
    pub name: Text,
    /// Whether each of the strategy's own constraints holds, in their order.
    pub constraints: List<bool>,
    /// The results for the segments that the strategy refers to, in their order.
    pub segments: List<SegmentReason>,
    /// Whether the strategy's rule holds, regardless of constraints and segments.
    pub rule: bool,
    /// Whether the strategy is active: its rule and all of its constraints hold, and each of its segments is found and
    /// has only constraints that hold.
    pub active: bool,
}

/// The result for a segment that a strategy refers to.
#[derive(Debug, Drop)]
pub struct SegmentReason {
    /// The segment's id.
    pub id: u64,
    /// Whether the state has the segment.
    pub found: bool,
    /// Whether each of the segment's constraints holds, in their order. Empty if the segment was not found.
    pub constraints: List<bool>,
}

/// Where the variant of a feature comes from.
#[derive(Clone, Copy, PartialEq, Eq, Debug)]
pub enum Origin {
    /// There is no variant: the feature is off, or no variant is chosen.
    NoVariant,
    /// The variants of the first active strategy.
    Strategy,
    /// The feature's own variants.
    Own,
}
