//! The right sides of constraints (their value or values), parsed as their operators need.
ghost use Rattle.std.specs.Prelude.{◌≡◌, ℕ, List, Bool, IfOk, map, option_map, option_and_then};
ghost use Rattle.std.specs.List.{list_any};
ghost use Rattle.semver.specs.Identifiers.{parts_of};
ghost use Rattle.unl_documents.specs.Parameters.{AreRising};
ghost use Rattle.unl_documents.specs.declared.constraint.Constraint.{Constraint};
ghost use Rattle.unl_context.specs.Known.{known_by};
ghost use Rattle.unl_constraints.specs.Decimal.{number_of, IsRead};
ghost use Rattle.unl_constraints.specs.Instant.{instant_of};
ghost use Rattle.unl_constraints.specs.Operands.{kind_of as kind_by, is_folded as is_folded_by, compared_values};
ghost use Rattle.unl_constraints.specs.Operands.{IsScalarOperand, IsOperand};
ghost use Rattle.unl_constraints.specs.Texts.{compared as compared_by, is_among as among, has_some_part_at as some_there};
ghost use Rattle.unl_constraints.specs.Version.{version_of};
ghost use Rattle.unl_constraints.specs.declared.operand.OperandKind.TheVariants as kind;

use crate::decimal::Decimal;
use crate::instant::read_instant;
use crate::texts::{
    TextPosition, compared, has_some_part_at, has_some_raw_part_at, is_among, is_among_unsorted,
};
use crate::version::read_version;
use semver::Version;
use std::alloc::Global;
use unl_context::KnownField;
use unl_documents::{Constraint, List, Memory, Operator, Text};

/// The kind of comparison that an operator makes.
#[derive(Clone, Copy)]
pub(crate) enum OperandKind {
    /// The context's field is tested for equality with each of the constraint's values.
    Member,
    /// The context's field is searched for each of the constraint's values as a substring.
    Part,
    /// The context's field and the constraint's value are compared as numbers.
    Number,
    /// The context's `currentTime`, or else the time of the evaluation, and the constraint's value are compared as
    /// instants.
    Instant,
    /// The context's field and the constraint's value are compared as versions.
    Version,
}

/// The right side of a constraint, prepared for many evaluations: the values are sorted, and the single value is
/// parsed.
#[derive(Drop)]
pub(crate) struct Operand {
    /// The constraint's values in ascending byte order, without duplicates. They are case-folded if the operator
    /// compares substrings and the constraint is case-insensitive.
    pub values: List<Text>,
    /// The constraint's single value, parsed.
    pub single: ScalarOperand,
    /// The constraint's field, if that is one of the six fields of a context. `None` if it is a property.
    pub known: Option<KnownField>,
}

/// The single value of a constraint, parsed as its operator needs.
#[derive(Drop)]
pub(crate) enum ScalarOperand {
    /// Nothing is parsed: the operator uses the list of values, or is unknown.
    Values,
    /// The value as a number, or `None` if the value is absent or not a number.
    Number(Option<Decimal>),
    /// The value as an instant in nanoseconds since 1970, or `None` if the value is absent or not an instant.
    Instant(Option<i128>),
    /// The value as a version, or `None` if the value is absent or not a version.
    Version(Option<Version>),
}

/// The right side of a constraint, ready for the comparison with a context. [`Operand`] is prepared once for many
/// evaluations, and [`ScalarOperand`] for a single evaluation.
pub(crate) trait OperandSide {
    /// `self` is the prepared right side of the constraint.
    ghost is_of: { Constraint → Self → Type 0 };

    /// Whether a string is one of the constraint's values.
    fn has(&self, constraint: &Constraint, text: &str) -> bool
        requires right { is_of constraint.now self.now }
        requires kind { kind_by constraint.now.operator ≡ kind.Member }
        ensures { result ≡ among constraint.now.values text.now };

    /// Whether a string contains one of the constraint's values at this position. If the constraint is
    /// case-insensitive, the string and the values are case-folded first. The only error is out of memory.
    fn has_part(
        &self,
        alloc: Global,
        position: TextPosition,
        constraint: &Constraint,
        text: &str,
    ) -> Result<bool, Memory>
        requires right { is_of constraint.now self.now }
        requires kind { kind_by constraint.now.operator ≡ kind.Part }
        ensures { IfOk result (λ r. r ≡ some_there position constraint.now.caseless text.now constraint.now.values) };

    /// Returns the constraint's field if that is one of the six fields of a context, or `None` if it is a property.
    fn known(&self, constraint: &Constraint) -> Option<KnownField>
        requires { is_of constraint.now self.now }
        ensures { result ≡ known_by constraint.now.field };

    /// Returns the constraint's single value, parsed as its operator needs.
    fn single(&self, constraint: &Constraint) -> &ScalarOperand
        requires { is_of constraint.now self.now }
        ensures { IsScalarOperand (kind_by constraint.now.operator) constraint.now.value result.now };
}

/// The values are sorted, so a binary search can be used.
impl OperandSide for Operand {
    ghost is_of = { IsOperand };

    fn has(&self, constraint: &Constraint, text: &str) -> bool {
        is_among(text, self.values.as_slice())
    }

    fn has_part(
        &self,
        alloc: Global,
        position: TextPosition,
        constraint: &Constraint,
        text: &str,
    ) -> Result<bool, Memory> {
        let values = self.values.as_slice();
        has_some_part_at(alloc, position, constraint.caseless, text, values)
    }

    fn known(&self, _constraint: &Constraint) -> Option<KnownField> {
        self.known
    }

    fn single(&self, _constraint: &Constraint) -> &ScalarOperand {
        &self.single
    }
}

/// The constraint's values are searched in their original order: for a single evaluation, copying and sorting them
/// doesn't pay.
impl OperandSide for ScalarOperand {
    ghost is_of = { λ c s. IsScalarOperand (kind_by c.operator) c.value s };

    fn has(&self, constraint: &Constraint, text: &str) -> bool {
        is_among_unsorted(text, constraint.values.as_slice())
    }

    fn has_part(
        &self,
        alloc: Global,
        position: TextPosition,
        constraint: &Constraint,
        text: &str,
    ) -> Result<bool, Memory> {
        let values = constraint.values.as_slice();
        has_some_raw_part_at(alloc, position, constraint.caseless, text, values)
    }

    fn known(&self, constraint: &Constraint) -> Option<KnownField> {
        KnownField::by(constraint.field.as_str())
    }

    fn single(&self, _constraint: &Constraint) -> &ScalarOperand {
        self
    }
}

impl Operand {
    /// Prepares the right side of a constraint. The only error is out of memory.
    pub(crate) fn of(alloc: Global, constraint: &Constraint) -> Result<Operand, Memory>
        ensures { IfOk result (IsOperand constraint.now) }
    {
        Ok(Operand {
            values: values_of(alloc, constraint)?,
            single: ScalarOperand::of(alloc, constraint)?,
            known: KnownField::by(constraint.field.as_str()),
        })
    }
}

impl ScalarOperand {
    /// Parses the single value of a constraint as its operator needs. The only error is out of memory.
    pub(crate) fn of(alloc: Global, constraint: &Constraint) -> Result<ScalarOperand, Memory>
        ensures { IfOk result (IsScalarOperand (kind_by constraint.now.operator) constraint.now.value) }
    {
        let text = constraint.value.as_ref().map(Text::as_str);
        match kind_of(&constraint.operator) {
            OperandKind::Member => Ok(ScalarOperand::Values),
            OperandKind::Part => Ok(ScalarOperand::Values),
            OperandKind::Number => Ok(ScalarOperand::Number(number(text))),
            OperandKind::Instant => Ok(ScalarOperand::Instant(instant(alloc, text)?)),
            OperandKind::Version => Ok(ScalarOperand::Version(version(alloc, text)?)),
        }
    }
}

/// Returns the kind of comparison that the operator makes. An unknown operator has the kind `Member`, but its
/// constraint never holds.
fn kind_of(operator: &Operator) -> OperandKind
    ensures { result ≡ kind_by operator.now }
{
    match operator {
        Operator::In => OperandKind::Member,
        Operator::NotIn => OperandKind::Member,
        Operator::StrContains => OperandKind::Part,
        Operator::StrStartsWith => OperandKind::Part,
        Operator::StrEndsWith => OperandKind::Part,
        Operator::NumEq => OperandKind::Number,
        Operator::NumGt => OperandKind::Number,
        Operator::NumGte => OperandKind::Number,
        Operator::NumLt => OperandKind::Number,
        Operator::NumLte => OperandKind::Number,
        Operator::DateAfter => OperandKind::Instant,
        Operator::DateBefore => OperandKind::Instant,
        Operator::SemverEq => OperandKind::Version,
        Operator::SemverGt => OperandKind::Version,
        Operator::SemverLt => OperandKind::Version,
        Operator::Unknown(_) => OperandKind::Member,
    }
}

/// Whether the constraint's values are case-folded before they are compared: the operator compares substrings, and the
/// constraint is case-insensitive.
fn is_folded(constraint: &Constraint) -> bool
    ensures { result ≡ is_folded_by constraint.now }
{
    match kind_of(&constraint.operator) {
        OperandKind::Part => constraint.caseless,
        _ => false,
    }
}

/// Returns the constraint's values, sorted in ascending byte order and without duplicates. They are case-folded first
/// if [`is_folded`] is true.
fn values_of(alloc: Global, constraint: &Constraint) -> Result<List<Text>, Memory>
    ensures rising { IfOk result AreRising }
    ensures same { IfOk result (λ values. (test : List ℕ → Bool) → list_any test values ≡ list_any test (compared_values constraint.now)) }
{
    let folded = is_folded(constraint);
    let values = compared_each(alloc, folded, constraint.values.as_slice())?;
    in_order(values)
}

/// Copies the strings. If `folded`, the copies are case-folded.
fn compared_each(alloc: Global, folded: bool, texts: &[Text]) -> Result<Vec<Text>, Memory>
    ensures { IfOk result (λ all. all.items ≡ map (compared_by folded) texts.now) }
{
    let mut all = Vec::with_capacity(alloc, texts.len())?;
    for text in texts {
        all.push(compared(alloc, folded, text.as_str())?)?;
    }
    Ok(all)
}

/// Sorts the strings in ascending byte order and removes duplicates.
fn in_order(texts: Vec<Text>) -> Result<List<Text>, Memory>
    ensures rising { IfOk result AreRising }
    ensures same { IfOk result (λ ordered. (test : List ℕ → Bool) → list_any test ordered ≡ list_any test texts.items) }
{
    let mut texts = texts;
    texts.sort()?;
    texts.dedup();
    Ok(List::from_vec(texts))
}

/// Parses a number. Returns `None` if there is no string or the string is not a number.
pub(crate) fn number(text: Option<&str>) -> Option<Decimal>
    ensures { IsRead (option_and_then number_of (option_map (λ t. t.now) text.entry)) result }
{
    match text {
        None => None,
        Some(text) => Decimal::read(text),
    }
}

/// Parses a version. Returns `None` if there is no string or the string is not a version. The only error is out of
/// memory.
pub(crate) fn version(alloc: Global, text: Option<&str>) -> Result<Option<Version>, Memory>
    ensures { IfOk result (λ v. option_map parts_of v ≡ option_and_then version_of (option_map (λ t. t.now) text.entry)) }
{
    match text {
        None => Ok(None),
        Some(text) => read_version(alloc, text),
    }
}

/// Parses an instant, in nanoseconds since 1970. Returns `None` if there is no string or the string is not an instant.
/// The only error is out of memory.
fn instant(alloc: Global, text: Option<&str>) -> Result<Option<i128>, Memory>
    ensures { IfOk result (λ i. i ≡ option_and_then instant_of (option_map (λ t. t.now) text.entry)) }
{
    match text {
        None => Ok(None),
        Some(text) => read_instant(alloc, text),
    }
}
