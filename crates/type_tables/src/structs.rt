//! Structs that are declared and completed (6.7.2.1, 6.7.2.3).
ghost use Rattle.std.specs.Prelude.{◌≡◌, ℕ, ◌<◌, Bool, [], length, if◌then◌else◌, OnOk, IfOk};
ghost use Rattle.core_meaning.specs.Constancy.{capped};
ghost use Rattle.cond_sums.specs.Sums.{sum_at};
ghost use Rattle.cond_formula.specs.Conditions.{condition_of, value};
ghost use Rattle.conditional.specs.Entries.{seen, listed};
ghost use Rattle.type_tables.specs.Forms.{member_form};
ghost use Rattle.type_tables.specs.Changes.{IsUndeclared, Declares, Completes, BecomesAt};

use crate::entries::{CondStruct, Member};
use cond_formula::{Formula, NoMemory};
use cond_sums::CondSum;
use conditional::CondList;
use reduced_conditions::either;
use std::alloc::Global;
use std::mem;

/// A struct that is declared nowhere.
#[tactic(auto, using(cond_formula::specs::ConditionLaws::formula_kinds))]
pub(crate) fn undeclared(alloc: Global, tag: &[u8]) -> Result<CondStruct, NoMemory>
    ensures { IfOk result (λ s. IsUndeclared tag.now s) }
{
    let tag = Vec::from_slice(alloc, tag)?;
    Ok(CondStruct {
        tag,
        declared: Formula::False,
        complete: Formula::False,
        members: CondList::empty(alloc),
        scalars: CondSum::nothing(alloc),
    })
}

/// A struct that is declared where a condition is true too.
fn declared_too(alloc: Global, s: &mut CondStruct, when: Formula) -> Result<(), NoMemory>
    ensures { OnOk result ((on : ℕ → Bool) → Declares on (value on (condition_of when)) s.old s.new) }
{
    let before = mem::replace(&mut s.declared, Formula::False);
    s.declared = either(alloc, before, when)?;
    Ok(())
}

/// The scalars of a struct where a condition is true, and those that it had elsewhere.
#[tactic(auto, using(crate::proofs::Scalars::replaced))]
fn replace_scalars(
    alloc: Global,
    all: &mut CondSum,
    when: &Formula,
    scalars: &CondSum,
) -> Result<(), NoMemory>
    ensures { OnOk result ((on : ℕ → Bool) → capped (sum_at on all.new) ≡ (if value on (condition_of when.now) then capped (sum_at on scalars.now) else capped (sum_at on all.old))) }
{
    let elsewhere = Formula::not(alloc, when.try_clone(alloc)?)?;
    *all = all.restrict(alloc, &elsewhere)?;
    all.push_under(alloc, when, scalars)?;
    Ok(())
}

/// A struct that is complete where a condition is true too, with these members and so many scalars there.
fn completed_too(
    alloc: Global,
    s: &mut CondStruct,
    when: Formula,
    members: &CondList<Member>,
    scalars: &CondSum,
) -> Result<(), NoMemory>
    ensures { OnOk result ((on : ℕ → Bool) → Completes on (value on (condition_of when)) (seen on (listed member_form members.now)) (capped (sum_at on scalars.now)) s.old s.new) }
{
    let elsewhere = Formula::not(alloc, when.try_clone(alloc)?)?;
    s.members = s.members.restrict(alloc, &elsewhere)?;
    s.members.append_under(alloc, &when, members)?;
    replace_scalars(alloc, &mut s.scalars, &when, scalars)?;
    let before = mem::replace(&mut s.complete, Formula::False);
    s.complete = either(alloc, before, when)?;
    Ok(())
}

/// A struct of the list that is declared where a condition is true too.
pub(crate) fn declare_at(
    alloc: Global,
    structs: &mut Vec<CondStruct>,
    number: u32,
    when: Formula,
) -> Result<(), NoMemory>
    requires { number < length structs.old.items }
    ensures { OnOk result ((on : ℕ → Bool) → BecomesAt (Declares on (value on (condition_of when))) number structs.old.items structs.new.items) }
{
    declared_too(alloc, &mut structs[number as usize], when)
}

/// A struct of the list that is complete where a condition is true too.
pub(crate) fn complete_at(
    alloc: Global,
    structs: &mut Vec<CondStruct>,
    number: u32,
    when: Formula,
    members: &CondList<Member>,
    scalars: &CondSum,
) -> Result<(), NoMemory>
    requires { number < length structs.old.items }
    ensures { OnOk result ((on : ℕ → Bool) → BecomesAt (Completes on (value on (condition_of when)) (seen on (listed member_form members.now)) (capped (sum_at on scalars.now))) number structs.old.items structs.new.items) }
{
    completed_too(alloc, &mut structs[number as usize], when, members, scalars)
}
