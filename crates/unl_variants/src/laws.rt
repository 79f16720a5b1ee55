//! Theorems: the function `choice_of`, which computes the chosen variant, and the relation `IsChosen`, which defines
//! it, agree. Each function here has an empty body; its `ensures` clause is the theorem.
ghost use Rattle.unl_variants.specs.Laws.{ChoiceIsChosen, OnlyChoiceIsChosen};

/// The result of `choice_of` satisfies `IsChosen`.
pub fn choice_is_chosen()
    ensures { ChoiceIsChosen }
{}

/// Any choice that satisfies `IsChosen` is the result of `choice_of`. So at most one choice satisfies it.
pub fn only_choice_is_chosen()
    ensures { OnlyChoiceIsChosen }
{}
