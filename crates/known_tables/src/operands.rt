//! Operands of declared types, and where there are none.
ghost use Rattle.std.specs.Prelude.{◌≡◌, ℕ, Bool, false, [], ◌∷◌, ◌++◌, Option, Some, IfOk, OnOk};
ghost use Rattle.cond_formula.specs.Conditions.{condition_of, value};
ghost use Rattle.c_types.specs.Types.{plain_type};
ghost use Rattle.conditional.specs.Entries.{alternatives, listed, seen, under, Places, Sees};
ghost use Rattle.operand_types.specs.OperandTypes as spec;
ghost use Rattle.operand_rules.specs.PlainOperandTypes.{plain_category, plain_operand_type, reason};
ghost use Rattle.cond_operands.specs.Operands.{ShowsOperand};
ghost use Rattle.type_tables.specs.Seen.{seen_tables};
ghost use Rattle.known_tables.specs.Lookups.{operand_of, outcome_of};

use c_types::CType;
use cond_formula::{Formula, NoMemory};
use cond_operands::Operands;
use conditional::{CondList, CondValue, Outcomes, when_some_hold};
use operand_rules::{Category, OperandType, Refused};
use plain_scope::copied;
use reduced_conditions::is_never;
use std::alloc::Global;
use type_tables::Tables;

/// An operand whose struct is complete or not.
fn operand(
    alloc: Global,
    ty: &CType,
    category: Category,
    has_complete_struct: bool,
) -> Result<OperandType, NoMemory>
    ensures { IfOk result (λ o. plain_operand_type o ≡ record { ty = plain_type ty.now; category = plain_category category; is_null = false; has_complete_struct = has_complete_struct }) }
{
    let ty = copied(alloc, ty)?;
    Ok(OperandType {
        ty,
        category,
        is_null: false,
        has_complete_struct,
    })
}

/// One more alternative, if its condition may be true.
fn place_operand(
    alloc: Global,
    all: &mut CondValue<OperandType>,
    when: Formula,
    ty: &CType,
    category: Category,
    has_complete_struct: bool,
) -> Result<(), NoMemory>
    ensures { OnOk result ((on : ℕ → Bool) → Places on (condition_of when) (record { ty = plain_type ty.now; category = plain_category category; is_null = false; has_complete_struct = has_complete_struct })
        (alternatives plain_operand_type all.old) (alternatives plain_operand_type all.new)) }
{
    if is_never(&when) {
        return Ok(());
    }
    let operand = operand(alloc, ty, category, has_complete_struct)?;
    all.place(alloc, when, operand)
}

/// An operand of a type, whose struct may be complete in some configurations alone.
pub(crate) fn operand_of_type(
    alloc: Global,
    tables: &Tables,
    ty: &CType,
    category: Category,
) -> Result<CondValue<OperandType>, NoMemory>
    ensures { IfOk result (λ z. (on : ℕ → Bool) → Sees on (Some (operand_of (seen_tables on tables.now) (plain_category category) (plain_type ty.now))) (alternatives plain_operand_type z)) }
{
    let complete = tables.where_struct_in_complete(alloc, ty)?;
    let elsewhere = Formula::not(alloc, complete.try_clone(alloc)?)?;
    let mut all = CondValue::nothing(alloc);
    place_operand(alloc, &mut all, complete, ty, category, true)?;
    place_operand(alloc, &mut all, elsewhere, ty, category, false)?;
    Ok(all)
}

/// One more refusal, if its condition may be true.
pub(crate) fn refuse(refusals: &mut CondList<Refused>, when: Formula) -> Result<(), NoMemory>
    ensures { OnOk result ((on : ℕ → Bool) → seen on (listed reason refusals.new) ≡ seen on (listed reason refusals.old) ++ under (value on (condition_of when)) (tt ∷ [])) }
{
    if is_never(&when) {
        return Ok(());
    }
    refusals.push(when, Refused)
}

/// The operand, or a refusal where there is none.
pub(crate) fn or_refused(alloc: Global, fine: CondValue<OperandType>) -> Result<Operands, NoMemory>
    ensures { IfOk result (λ z. (on : ℕ → Bool) (o : Option spec.OperandType) → Sees on o (alternatives plain_operand_type fine) → ShowsOperand on (outcome_of o) z) }
{
    let some = when_some_hold(alloc, &fine.alternatives)?;
    let elsewhere = Formula::not(alloc, some)?;
    let mut refused = CondList::empty(alloc);
    refuse(&mut refused, elsewhere)?;
    Ok(Outcomes { fine, refused })
}
