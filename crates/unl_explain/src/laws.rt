//! Laws about explanations: they relate the feature's evaluation to the results for the parts of that evaluation. Each
//! law is the contract of a function that does nothing.
ghost use Rattle.unl_explain.specs.Laws.{ActiveIsExplained, EvaluationIsExplained, OnIsExplained};

/// The evaluation in an explanation is the feature's evaluation, and there is an explanation if and only if there is an
/// evaluation.
pub fn evaluation_is_explained()
    ensures { EvaluationIsExplained }
{}

/// In each explanation the feature is on if and only if it is enabled, each of its dependencies is met, and it has an
/// active strategy or no strategies.
pub fn on_is_explained()
    ensures { OnIsExplained }
{}

/// In each explanation a strategy is active if and only if each of its constraints holds, each of its segments is found
/// and has only constraints that hold, and the strategy's own rule holds.
pub fn active_is_explained()
    ensures { ActiveIsExplained }
{}
