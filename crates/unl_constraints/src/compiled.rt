//! Compiled constraints: prepared once, then evaluated with many contexts.
ghost use Rattle.std.specs.Prelude.{◌≡◌, IfOk};
ghost use Rattle.unl_constraints.specs.Constraint.{constraint_holds, all_hold as all_hold_spec};
ghost use Rattle.unl_constraints.specs.Operands.{AreValues};

use crate::constraint::compare;
use crate::operand::Operand;
use std::alloc::Global;
use std::marker::Model;
use unl_context::Context;
use unl_documents::{Constraint, List, Memory, Text, TryClone};

/// A constraint whose list of values is sorted and whose single value is parsed, for evaluation with many contexts. In
/// contracts, the value of a `Compiled` is the constraint itself.
#[derive(Drop)]
pub struct Compiled {
    constraint: Constraint,
    right: Operand,
}

impl Model for Compiled {
    ghost use Rattle.unl_constraints.specs.Operands.{IsOperand};
    ghost use Rattle.unl_documents.specs.declared.constraint.Constraint.{Constraint};

    ghost Value = { Constraint };

    ghost view = { λ c. c.constraint };

    ghost invariant = { λ c. IsOperand c.constraint c.right };
}

impl Compiled {
    /// Compiles a constraint. The only error is out of memory.
    pub fn new(alloc: Global, constraint: &Constraint) -> Result<Compiled, Memory>
        ensures { IfOk result (λ c. c ≡ constraint.now) }
    {
        let right = Operand::of(alloc, constraint)?;
        let constraint = constraint.copy(alloc)?;
        Ok(Compiled { constraint, right })
    }

    /// Whether a context satisfies the constraint, by the rules of [`holds`](crate::holds). `now` is in milliseconds
    /// since 1970. The only error is out of memory.
    pub fn holds(&self, alloc: Global, context: &Context, now: u64) -> Result<bool, Memory>
        ensures { IfOk result (λ r. r ≡ constraint_holds self.now context.now now) }
    {
        compare(alloc, &self.constraint, &self.right, context, now)
    }

    /// Returns the constraint's values in ascending byte order, without duplicates. If the operator is STR_CONTAINS,
    /// STR_STARTS_WITH or STR_ENDS_WITH and the constraint is case-insensitive, each value is in its case-folded form,
    /// by the default folding of the Unicode Standard. Does not allocate.
    pub fn values(&self) -> &List<Text>
        ensures { AreValues self.now result.now }
    {
        &self.right.values
    }

    /// Whether a context satisfies all of the constraints; true if there are none. `now` is in milliseconds since 1970.
    /// The only error is out of memory.
    pub fn all_hold(
        alloc: Global,
        constraints: &[Compiled],
        context: &Context,
        now: u64,
    ) -> Result<bool, Memory>
        ensures { IfOk result (λ r. r ≡ all_hold_spec constraints.now context.now now) }
    {
        all_compiled_hold(alloc, constraints, context, now)
    }
}

/// Like [`Compiled::all_hold`].
#[tactic(auto, unfolding(crate::specs::Constraint::all_hold))]
fn all_compiled_hold(
    alloc: Global,
    constraints: &[Compiled],
    context: &Context,
    now: u64,
) -> Result<bool, Memory>
    ensures { IfOk result (λ r. r ≡ all_hold_spec constraints.now context.now now) }
{
    for constraint in constraints {
        if !constraint.holds(alloc, context, now)? {
            return Ok(false);
        }
    }
    Ok(true)
}
