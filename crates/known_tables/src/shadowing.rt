//! Declarations in blocks, which hide what is declared around them (6.2.1).
ghost use Rattle.std.specs.Prelude.{ℕ, Bool, Option, if◌then◌else◌, IfOk, OnOk};
ghost use Rattle.cond_formula.specs.Conditions.{Inverse, condition_of, value};
ghost use Rattle.conditional.specs.Entries.{alternatives, Sees, Places, PlacesUnder};

use cond_formula::{Formula, NoMemory};
use conditional::{CondValue, Guarded, Plain};
use reduced_conditions::{is_never, without};
use std::alloc::Global;

/// One more alternative, if its condition may be true.
fn place_where<T: Plain>(
    alloc: Global,
    all: &mut CondValue<T>,
    when: Formula,
    what: T,
) -> Result<(), NoMemory>
    ensures { OnOk result ((on : ℕ → Bool) → Places on (condition_of when) (T.form what) (alternatives T.form all.old) (alternatives T.form all.new)) }
{
    if is_never(&when) {
        return Ok(());
    }
    all.place(alloc, when, what)
}

/// The alternatives of the other too, where the condition isn't true.
fn place_elsewhere<T: Plain>(
    alloc: Global,
    all: &mut CondValue<T>,
    when: &Formula,
    other: CondValue<T>,
) -> Result<(), NoMemory>
    ensures { OnOk result ((on : ℕ → Bool) → PlacesUnder on (Inverse (condition_of when.now)) (alternatives T.form other) (alternatives T.form all.old) (alternatives T.form all.new)) }
{
    for alternative in other.alternatives {
        let Guarded { when: there, what } = alternative;
        let elsewhere = without(alloc, there, when)?;
        place_where(alloc, all, elsewhere, what)?;
    }
    Ok(())
}

/// What is seen behind a declaration in a block: what it declares where the condition is true, and elsewhere what is seen around it.
pub(crate) fn shadowed<T: Plain>(
    alloc: Global,
    when: &Formula,
    declared: &CondValue<T>,
    around: CondValue<T>,
) -> Result<CondValue<T>, NoMemory>
    ensures { IfOk result (λ x. (on : ℕ → Bool) (p q : Option T.Form) → Sees on p (alternatives T.form declared.now) → Sees on q (alternatives T.form around) → Sees on (if value on (condition_of when.now) then p else q) (alternatives T.form x)) }
{
    let mut all = CondValue::nothing(alloc);
    all.place_under(alloc, when, declared)?;
    place_elsewhere(alloc, &mut all, when, around)?;
    Ok(all)
}
