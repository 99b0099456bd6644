//! What comes of a judgement in each configuration alike.
ghost use Rattle.std.specs.Prelude.{ℕ, Bool, true, IfOk};
ghost use Rattle.conditional.specs.Judgements.{refused, checked, Shows};
ghost use Rattle.operand_rules.specs.PlainOperandTypes.{reason};

use cond_formula::{Formula, NoMemory};
use conditional::{Outcomes, Plain};
use operand_rules::Refused;
use std::alloc::Global;

/// One outcome in each configuration.
pub(crate) fn everywhere<T: Plain>(
    alloc: Global,
    what: Result<T, Refused>,
) -> Result<Outcomes<T, Refused>, NoMemory>
    ensures { IfOk result (λ all. (on : ℕ → Bool) → Shows T.form reason on true (checked T.form reason what) all) }
{
    let mut all = Outcomes::nothing(alloc);
    all.place(alloc, Formula::True, what)?;
    Ok(all)
}

/// A refusal in each configuration.
pub(crate) fn refused_everywhere<T: Plain>(alloc: Global) -> Result<Outcomes<T, Refused>, NoMemory>
    ensures { IfOk result (λ all. (on : ℕ → Bool) → Shows T.form reason on true (refused tt) all) }
{
    everywhere(alloc, Err(Refused))
}
