//! The arguments of a call, each where it is there.
ghost use Rattle.std.specs.Prelude.{◌≡◌, ℕ, Bool, false, List, [], ◌∷◌, ◌++◌, ◌||◌, IsTrue, IfOk, OnOk};
ghost use Rattle.cond_formula.specs.Conditions.{condition_of, value};
ghost use Rattle.expression_types.specs.Known.{Callable};
ghost use Rattle.expression_types.specs.Reading.{Read};
ghost use Rattle.cond_nodes.specs.Reads.{EachRead, ShowsEach};
ghost use Rattle.cond_typing.specs.Progress.{ArgumentSoFar};

use cond_formula::{Formula, NoMemory};
use cond_nodes::CondRead;
use cond_operands::Operands;
use conditional::{Guarded, Outcomes};
use reduced_conditions::{either, is_never};
use std::alloc::Global;

/// No argument in any configuration yet.
pub(crate) fn no_argument(alloc: Global) -> Guarded<Operands>
    ensures { (on : ℕ → Bool) (reads : List Read) → ArgumentSoFar on reads false result }
{
    Guarded {
        when: Formula::False,
        what: Outcomes::nothing(alloc),
    }
}

/// An argument, and one variant of it more.
pub(crate) fn with_argument(
    alloc: Global,
    argument: Guarded<Operands>,
    when: &Formula,
    operands: &[CondRead],
) -> Result<Guarded<Operands>, NoMemory>
    ensures { IfOk result (λ z. (on : ℕ → Bool) (callable : ℕ → Callable) (reads xs : List Read) (held : Bool) → EachRead on callable xs operands.now
        → (IsTrue (value on (condition_of when.now)) → xs ≡ reads) → ArgumentSoFar on reads held argument → ArgumentSoFar on reads (held || value on (condition_of when.now)) z) }
{
    if operands.is_empty() {
        return Ok(argument);
    }
    let Guarded {
        when: before,
        mut what,
    } = argument;
    what.place_under(alloc, when, &operands[0].outcomes)?;
    let either = either(alloc, before, when.try_clone(alloc)?)?;
    Ok(Guarded { when: either, what })
}

/// One argument more, if it is there in any configuration.
pub(crate) fn push_argument(
    all: &mut Vec<Guarded<Operands>>,
    argument: Guarded<Operands>,
) -> Result<(), NoMemory>
    ensures { OnOk result ((on : ℕ → Bool) (before reads : List Read) → ShowsEach on before all.old.items → ShowsEach on reads (argument ∷ []) → ShowsEach on (before ++ reads) all.new.items) }
{
    if is_never(&argument.when) {
        return Ok(());
    }
    all.push(argument)?;
    Ok(())
}
