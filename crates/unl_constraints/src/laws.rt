//! Laws on the operators of constraints and on the order of numbers. Each law is the contract of a function that does
//! nothing.
ghost use Rattle.std.specs.Cmp.{IsTotalOrder};
ghost use Rattle.unl_constraints.specs.Decimal.{number_cmp};
ghost use Rattle.unl_constraints.specs.Laws.{InvertedNegates, NotInIsContraryOfIn, NumbersCompare, NumGteIsContraryOfNumLt};
ghost use Rattle.unl_constraints.specs.Laws.{NumLteIsContraryOfNumGt};

/// Inverting a constraint with a known operator negates its result.
pub fn inverted_negates()
    ensures { InvertedNegates }
{}

/// A constraint with NOT_IN holds exactly if the same constraint with IN doesn't.
pub fn not_in_is_contrary_of_in()
    ensures { NotInIsContraryOfIn }
{}

/// The order of numbers is total: of any two numbers one is below the other or they are equal, no matter how they are
/// written, and the order is transitive.
pub fn number_order_is_total()
    ensures compare { NumbersCompare }
    ensures total { IsTotalOrder number_cmp }
{}

/// If the field and the value are both numbers, a constraint with NUM_GTE holds exactly if the same constraint with
/// NUM_LT doesn't, and likewise for NUM_LTE and NUM_GT.
pub fn number_operators_are_contraries()
    ensures gte { NumGteIsContraryOfNumLt }
    ensures lte { NumLteIsContraryOfNumGt }
{}
