//! Calls, casts and the results of `?:`, where one part decides about another.
ghost use Rattle.std.specs.Prelude.{◌≡◌, Bool, Some, List, Option, IsTrue, IfOk};
ghost use Rattle.cond_formula.specs.Features.{has};
ghost use Rattle.cond_formula.specs.Conditions.{value};
ghost use Rattle.conditional.specs.Entries.{alternatives, Stands};
ghost use Rattle.conditional.specs.Judgements.{bind};
ghost use Rattle.c_text.specs.Token.{PlainToken};
ghost use Rattle.c_types.specs.Types.{PlainType};
ghost use Rattle.operand_types.specs.Operators.{cast_type, chosen_type, tested_type};
ghost use Rattle.cond_operands.specs.Operands.{Judged, ShowsOperand, HasNumberIfNull};
ghost use Rattle.expression_types.specs.Known.{Callable};
ghost use Rattle.expression_types.specs.Reading as spec;
ghost use Rattle.expression_types.specs.Reading.{Read};
ghost use Rattle.cond_nodes.specs.Reads as reads;
ghost use Rattle.cond_nodes.specs.Reads.{ShowsCallee, ShowsEach};

use crate::knowledge::Knowledge;
use crate::leading::{Leading, bound, led_or_refused};
use crate::operands::copied;
use crate::parts::{Callee, CastType};
use cond_formula::{NoMemory, Oracle};
use cond_operands::{Operands, Passed, cast, chosen, tested};
use conditional::{CondValue, Guarded};
use std::alloc::Global;

/// The arguments of a call of a function.
#[derive(Drop)]
struct Arguments<'k, K> {
    known: &'k K,
    arguments: &'k [Guarded<Operands>],
}

impl<'k, K: Knowledge> Leading<Callee> for Arguments<'k, K> {
    ghost leads = { λ self c callee z. (xs : List Read) → IsTrue (value (has c) (K.admits self.known.now)) → ShowsEach (has c) xs self.arguments.now
        → ShowsOperand (has c) (spec.called (Some (K.callable self.known.now c callee.number)) xs) z };

    fn lead<O: Oracle>(
        &self,
        alloc: Global,
        oracle: &mut O,
        callee: &Callee,
    ) -> Result<Operands, NoMemory> {
        let result = self.known.called(alloc, oracle, *callee, self.arguments)?;
        Ok(result)
    }
}

/// What a call gives.
pub(crate) fn call<K: Knowledge, O: Oracle>(
    alloc: Global,
    known: &K,
    oracle: &mut O,
    callee: &CondValue<Callee>,
    arguments: &[Guarded<Operands>],
) -> Result<Operands, NoMemory>
    ensures kept { O.admits oracle.new ≡ O.admits oracle.old }
    ensures shows { IfOk result (λ z. (c : List Bool) (f : Option Callable) (xs : List Read) → IsTrue (value (has c) (K.admits known.now)) → IsTrue (value (has c) (O.admits oracle.old))
        → ShowsCallee (has c) (K.callable known.now c) f callee.now → ShowsEach (has c) xs arguments.now → ShowsOperand (has c) (spec.called f xs) z) }
{
    led_or_refused(alloc, &Arguments { known, arguments }, oracle, callee)
}

/// A value that is cast.
#[derive(Drop)]
struct Casting<'v> {
    operand: &'v Operands,
}

impl<'v> Leading<CastType> for Casting<'v> {
    ghost leads = { λ self c ty z. (bracket : PlainToken) (x : Judged) → ShowsOperand (has c) x self.operand.now
        → ShowsOperand (has c) (bind x (cast_type bracket (reads.cast_type ty))) z };

    fn lead<O: Oracle>(
        &self,
        alloc: Global,
        _oracle: &mut O,
        ty: &CastType,
    ) -> Result<Operands, NoMemory> {
        let a = copied(alloc, self.operand)?;
        let x = cast(alloc, &ty.plain(), a)?;
        Ok(x)
    }
}

/// A value that is cast.
pub(crate) fn cast_to<O: Oracle>(
    alloc: Global,
    oracle: &mut O,
    words: &CondValue<CastType>,
    operand: &Operands,
) -> Result<Operands, NoMemory>
    ensures kept { O.admits oracle.new ≡ O.admits oracle.old }
    ensures shows { IfOk result (λ z. (bracket : PlainToken) (c : List Bool) (ty : PlainType) (x : Judged) → IsTrue (value (has c) (O.admits oracle.old))
        → Stands (has c) ty (alternatives reads.cast_type words.now) → ShowsOperand (has c) x operand.now → ShowsOperand (has c) (bind x (cast_type bracket ty)) z) }
{
    led_or_refused(alloc, &Casting { operand }, oracle, words)
}

/// What stands behind a test.
#[derive(Drop)]
struct Behind<'v> {
    operand: &'v Operands,
}

impl<'v> Leading<Passed> for Behind<'v> {
    ghost leads = { λ self c test z. (x : Judged) → ShowsOperand (has c) x self.operand.now → ShowsOperand (has c) x z };

    fn lead<O: Oracle>(
        &self,
        alloc: Global,
        _oracle: &mut O,
        _test: &Passed,
    ) -> Result<Operands, NoMemory> {
        let a = copied(alloc, self.operand)?;
        Ok(a)
    }
}

/// `?:` with a condition and two values.
pub(crate) fn either<O: Oracle>(
    alloc: Global,
    oracle: &mut O,
    condition: Operands,
    a: Operands,
    b: Operands,
) -> Result<Operands, NoMemory>
    ensures kept { O.admits oracle.new ≡ O.admits oracle.old }
    ensures shows { IfOk result (λ z. (first question : PlainToken) (c : List Bool) (t x y : Judged) → IsTrue (value (has c) (O.admits oracle.old)) → HasNumberIfNull x
        → ShowsOperand (has c) t condition → ShowsOperand (has c) x a → ShowsOperand (has c) y b
        → ShowsOperand (has c) (bind (bind t (tested_type first)) (λ test. bind x (λ x. bind y (λ y. chosen_type question x y)))) z) }
{
    let test = tested(alloc, condition)?;
    let operand = chosen(alloc, oracle, a, b)?;
    bound(alloc, &Behind { operand: &operand }, oracle, test)
}
