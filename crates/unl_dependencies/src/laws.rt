//! Laws on the evaluations of a whole state. Each law is the contract of a function that does nothing.
ghost use Rattle.unl_dependencies.specs.Laws.{NoneWhereLacking, EachIsFound, ParentEvaluatesAlone, InliningChangesNothing, FirstIsLeast};
ghost use Rattle.unl_dependencies.specs.Laws.{NoneIsActive, SeenAmongAll};

/// [`evaluate`](crate::evaluate) returns `Ok(None)` exactly if no feature of the state has the name.
pub fn none_exactly_if_absent()
    ensures { NoneWhereLacking }
{}

/// Evaluating by name finds each feature of a valid state: the result is the evaluation of that feature.
pub fn each_is_found()
    ensures { EachIsFound }
{}

/// Of the state, the evaluation of a feature without dependencies depends only on the feature itself and the segments,
/// not on the other features. Only such a feature can satisfy a dependency as its parent.
pub fn parent_evaluates_alone()
    ensures { ParentEvaluatesAlone }
{}

/// Inlining the segments of a state changes no evaluation by name. Inlining copies the constraints of each segment into
/// the strategies that refer to the segment.
pub fn inlining_changes_nothing()
    ensures { InliningChangesNothing }
{}

/// [`first_active`](crate::first_active) returns the least index whose strategy is active, and `None` exactly if no
/// strategy is active.
pub fn first_is_least()
    ensures least { FirstIsLeast }
    ensures none { NoneIsActive }
{}

/// Suppose that the names of the features are strictly ascending. Then looking up a name among the features of visible
/// projects returns the feature with that name if its project is visible, and `None` if it isn't or if no feature has
/// the name.
pub fn seen_among_all()
    ensures { SeenAmongAll }
{}
