//! Where operands are refused that statements use, whatever the type of the function's result is in a configuration (6.8.3 to 6.8.6).
ghost use Rattle.std.specs.Prelude.{◌≡◌, ℕ, Bool, true, ◌&&◌, IfOk};
ghost use Rattle.cond_formula.specs.Conditions.{condition_of, value};
ghost use Rattle.c_types.specs.Types.{PlainType, plain_type};
ghost use Rattle.conditional.specs.Entries.{alternatives, Stands};
ghost use Rattle.conditional.specs.Judgements.{bind};
ghost use Rattle.choice_trees.specs.ChoiceTrees.{semicolon};
ghost use Rattle.conditional_steps.specs.Here.{is_refused};
ghost use Rattle.operand_types.specs.Operators.{fitted_type};
ghost use Rattle.cond_operands.specs.Operands.{Judged, ShowsOperand};
ghost use Rattle.type_tables.specs.Forms.{declared_type_form};
ghost use Rattle.statement_readings.specs.Walks.{condition, discarded};
ghost use Rattle.cond_statements.specs.Uses.{use_of};
ghost use Rattle.cond_statements.specs.Results as spec;
ghost use Rattle.cond_statements.specs.Results.{return_refused, bare_return_refused};

use crate::uses::Use;
use c_tree::Kind;
use c_types::CType;
use cond_formula::{Formula, NoMemory};
use cond_operands::{Operands, fitted, loaded, tested};
use conditional::{CondValue, Outcomes};
use conditional_steps::{never, where_refused};
use plain_scope::is_void;
use reduced_conditions::{both, either};
use std::alloc::Global;
use type_tables::DeclaredType;

/// The same operand.
fn copied(alloc: Global, a: &Operands) -> Result<Operands, NoMemory>
    ensures { IfOk result (λ z. (on : ℕ → Bool) (x : Judged) → ShowsOperand on x a.now → ShowsOperand on x z) }
{
    let mut all = Outcomes::nothing(alloc);
    all.place_under(alloc, &Formula::True, a)?;
    Ok(all)
}

/// A condition that is always true.
#[tactic(auto, using(cond_formula::specs::ConditionLaws::formula_kinds))]
fn always() -> Result<Formula, NoMemory>
    ensures { IfOk result (λ f. (on : ℕ → Bool) → value on (condition_of f) ≡ true) }
{
    Ok(Formula::True)
}

/// Where an operand is refused as one of the type.
fn where_unfit(alloc: Global, ty: &CType, operands: &Operands) -> Result<Formula, NoMemory>
    ensures { IfOk result (λ f. (on : ℕ → Bool) (x : Judged) → ShowsOperand on x operands.now → value on (condition_of f) ≡ is_refused (bind x (fitted_type semicolon (plain_type ty.now)))) }
{
    let operand = copied(alloc, operands)?;
    let tests = fitted(alloc, ty, operand)?;
    where_refused(alloc, &tests)
}

/// Where a returned operand is refused, if the result is of the type.
fn type_refused(alloc: Global, ty: &CType, operands: &Operands) -> Result<Formula, NoMemory>
    ensures { IfOk result (λ f. (on : ℕ → Bool) (x : Judged) → ShowsOperand on x operands.now → value on (condition_of f) ≡ return_refused x (plain_type ty.now)) }
{
    if is_void(ty) {
        return always();
    }
    where_unfit(alloc, ty, operands)
}

/// Where a returned operand is refused and the result is of the type.
fn alternative_refused(
    alloc: Global,
    when: &Formula,
    ty: &CType,
    operands: &Operands,
) -> Result<Formula, NoMemory>
    ensures { IfOk result (λ f. (on : ℕ → Bool) (x : Judged) → ShowsOperand on x operands.now → value on (condition_of f) ≡ (value on (condition_of when.now) && return_refused x (plain_type ty.now))) }
{
    let refused = type_refused(alloc, ty, operands)?;
    both(alloc, when.try_clone(alloc)?, refused)
}

/// Where a returned operand is refused.
fn where_return_refused(
    alloc: Global,
    returns: &CondValue<DeclaredType>,
    operands: &Operands,
) -> Result<Formula, NoMemory>
    ensures { IfOk result (λ f. (on : ℕ → Bool) (x : Judged) (ty : PlainType) → ShowsOperand on x operands.now → Stands on ty (alternatives declared_type_form returns.now)
        → value on (condition_of f) ≡ return_refused x ty) }
{
    let mut refused = never()?;
    for alternative in &returns.alternatives {
        let here = alternative_refused(alloc, &alternative.when, &alternative.what.ty, operands)?;
        refused = either(alloc, refused, here)?;
    }
    Ok(refused)
}

/// Where the result is of the type and needs a value.
fn alternative_valued(alloc: Global, when: &Formula, ty: &CType) -> Result<Formula, NoMemory>
    ensures { IfOk result (λ f. (on : ℕ → Bool) → value on (condition_of f) ≡ (value on (condition_of when.now) && bare_return_refused (plain_type ty.now))) }
{
    if is_void(ty) {
        return never();
    }
    when.try_clone(alloc)
}

/// Where a `return` without a value is refused (6.8.6.4).
fn where_bare_return_refused(
    alloc: Global,
    returns: &CondValue<DeclaredType>,
) -> Result<Formula, NoMemory>
    ensures { IfOk result (λ f. (on : ℕ → Bool) (ty : PlainType) → Stands on ty (alternatives declared_type_form returns.now) → value on (condition_of f) ≡ bare_return_refused ty) }
{
    let mut refused = never()?;
    for alternative in &returns.alternatives {
        let here = alternative_valued(alloc, &alternative.when, &alternative.what.ty)?;
        refused = either(alloc, refused, here)?;
    }
    Ok(refused)
}

/// Where it is refused that a part of a node is left out.
pub(crate) fn where_absence_refused(
    alloc: Global,
    kind: Kind,
    returns: &CondValue<DeclaredType>,
) -> Result<Formula, NoMemory>
    ensures { IfOk result (λ f. (on : ℕ → Bool) (ty : PlainType) → Stands on ty (alternatives declared_type_form returns.now) → value on (condition_of f) ≡ spec.absence_refused kind ty) }
{
    match kind {
        Kind::Return => where_bare_return_refused(alloc, returns),
        _ => never(),
    }
}

fn where_condition_refused(alloc: Global, operands: Operands) -> Result<Formula, NoMemory>
    ensures { IfOk result (λ f. (on : ℕ → Bool) (x : Judged) (ty : PlainType) → ShowsOperand on x operands → value on (condition_of f) ≡ spec.operand_refused condition x ty) }
{
    let tests = tested(alloc, operands)?;
    where_refused(alloc, &tests)
}

fn where_value_refused(alloc: Global, operands: Operands) -> Result<Formula, NoMemory>
    ensures { IfOk result (λ f. (on : ℕ → Bool) (x : Judged) (ty : PlainType) → ShowsOperand on x operands → value on (condition_of f) ≡ spec.operand_refused discarded x ty) }
{
    let values = loaded(alloc, operands)?;
    where_refused(alloc, &values)
}

/// Where an operand is refused that is used so.
pub(crate) fn where_operand_refused(
    alloc: Global,
    returns: &CondValue<DeclaredType>,
    usage: Use,
    operands: Operands,
) -> Result<Formula, NoMemory>
    ensures { IfOk result (λ f. (on : ℕ → Bool) (x : Judged) (ty : PlainType) → ShowsOperand on x operands → Stands on ty (alternatives declared_type_form returns.now)
        → value on (condition_of f) ≡ spec.operand_refused (use_of usage) x ty) }
{
    match usage {
        Use::Condition => where_condition_refused(alloc, operands),
        Use::Discarded => where_value_refused(alloc, operands),
        Use::Returned => where_return_refused(alloc, returns, &operands),
    }
}
