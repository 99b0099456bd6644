//! Operators on one operand.
ghost use Rattle.std.specs.Prelude.{◌≡◌, ℕ, Bool, IfOk, None};
ghost use Rattle.c_text.specs.Token.{PlainToken, plain_token};
ghost use Rattle.c_types.specs.Types.{plain_type};
ghost use Rattle.conditional.specs.Judgements.{bind};
ghost use Rattle.operand_types.specs.OperandTypes.{struct_in};
ghost use Rattle.operand_types.specs.Operators.{loaded_type, prefixed_type, stepped_type, cast_type, tested_type, fitted_type};
ghost use Rattle.cond_operands.specs.Operands.{Judged, ShowsOperand, ShowsTest};

use crate::judgements::{Casting, Fitting, Loading, Operands, Prefixing, Stepping, Testing, Tests};
use c_text::Token;
use c_types::CType;
use cond_formula::NoMemory;
use conditional::judged;
use std::alloc::Global;

/// The value of an operand: that of an array is a pointer to its first element.
pub fn loaded(alloc: Global, a: Operands) -> Result<Operands, NoMemory>
    ensures { IfOk result (λ z. (at : PlainToken) (on : ℕ → Bool) (x : Judged) → ShowsOperand on x a → ShowsOperand on (bind x (loaded_type at)) z) }
{
    judged(alloc, &Loading, a)
}

/// One of `& * + - ~ !` before its operand.
pub fn prefixed(alloc: Global, sign: &Token, a: Operands) -> Result<Operands, NoMemory>
    ensures { IfOk result (λ z. (on : ℕ → Bool) (x : Judged) → ShowsOperand on x a → ShowsOperand on (bind x (prefixed_type (plain_token sign.now))) z) }
{
    judged(alloc, &Prefixing { sign }, a)
}

/// `++` and `--`, behind their operand or before it.
pub fn stepped(alloc: Global, sign: &Token, a: Operands) -> Result<Operands, NoMemory>
    ensures { IfOk result (λ z. (on : ℕ → Bool) (x : Judged) → ShowsOperand on x a → ShowsOperand on (bind x (stepped_type (plain_token sign.now))) z) }
{
    judged(alloc, &Stepping { sign }, a)
}

/// A cast of a value to a type that is made of no struct.
pub fn cast(alloc: Global, ty: &CType, a: Operands) -> Result<Operands, NoMemory>
    ensures { IfOk result (λ z. struct_in (plain_type ty.now) ≡ None → (bracket : PlainToken) (on : ℕ → Bool) (x : Judged) → ShowsOperand on x a → ShowsOperand on (bind x (cast_type bracket (plain_type ty.now))) z) }
{
    judged(alloc, &Casting { ty }, a)
}

/// Whether an operand may be a condition.
pub fn tested(alloc: Global, a: Operands) -> Result<Tests, NoMemory>
    ensures { IfOk result (λ z. (first : PlainToken) (on : ℕ → Bool) (x : Judged) → ShowsOperand on x a → ShowsTest on (bind x (tested_type first)) z) }
{
    judged(alloc, &Testing, a)
}

/// Whether an operand's value may be assigned, passed or returned as one of the type.
pub fn fitted(alloc: Global, ty: &CType, a: Operands) -> Result<Tests, NoMemory>
    ensures { IfOk result (λ z. (first : PlainToken) (on : ℕ → Bool) (x : Judged) → ShowsOperand on x a → ShowsTest on (bind x (fitted_type first (plain_type ty.now))) z) }
{
    judged(alloc, &Fitting { ty }, a)
}
