//! Operators before their operand (6.5.3).
ghost use Rattle.std.specs.Prelude.{◌≡◌, IfOk, if◌then◌else◌};
ghost use Rattle.c_text.specs.Token.{plain_token};
ghost use Rattle.c_types.specs.Types as types;
ghost use Rattle.c_types.specs.Types.{plain_type, int};
ghost use Rattle.c_types.specs.Integers as integer;
ghost use Rattle.core_meaning.specs.Typing as typing;
ghost use Rattle.conditional.specs.Judgements.{refused, bind};
ghost use Rattle.operand_types.specs.Operators.{prefixed_type};
ghost use Rattle.operand_rules.specs.PlainOperandTypes.{plain_operand_type, judgement};
ghost use Rattle.operand_rules.specs.Rules as rule;

use crate::operands::{Category, Judged, OperandType, Refused};
use crate::structs::{derived, value};
use crate::values::loaded_by_rule;
use c_text::Token;
use c_types::CType;
use cond_formula::NoMemory;
use plain_scope::{copied, is_integer, is_scalar, promoted_type};
use std::alloc::Global;

/// What a pointer points to.
#[tactic(auto, using(c_types::specs::TypeLaws::type_kinds))]
pub(crate) fn target_of(alloc: Global, o: &OperandType) -> Result<Judged, NoMemory>
    ensures { IfOk result (λ r. judgement r ≡ rule.target_of (plain_operand_type o.now) (plain_operand_type o.now).ty) }
{
    match &o.ty {
        CType::Pointer(target) => {
            let ty = copied(alloc, target)?;
            Ok(Ok(derived(o, ty, Category::Object(true))))
        }
        CType::Void
        | CType::Char
        | CType::UChar
        | CType::Int
        | CType::UInt
        | CType::Long
        | CType::ULong
        | CType::Array(..)
        | CType::Struct(_) => Ok(Err(Refused)),
    }
}

#[tactic(auto, using(c_types::specs::TypeLaws::type_kinds))]
fn pointer_to(alloc: Global, o: &OperandType) -> Result<CType, NoMemory>
    ensures { IfOk result (λ ty. plain_type ty ≡ types.pointer_to (plain_operand_type o.now).ty) }
{
    let target = Box::new(alloc, copied(alloc, &o.ty)?)?;
    Ok(CType::Pointer(target))
}

fn address_of(alloc: Global, o: &OperandType) -> Result<Judged, NoMemory>
    ensures { IfOk result (λ r. judgement r ≡ rule.address_of (plain_operand_type o.now) (plain_operand_type o.now).category) }
{
    match o.category {
        Category::Object(true) => {
            let ty = pointer_to(alloc, o)?;
            Ok(value(o, ty))
        }
        Category::Object(false) | Category::Value => Ok(Err(Refused)),
    }
}

#[tactic(auto, using(c_types::specs::TypeLaws::type_kinds))]
fn negated(x: &OperandType) -> Judged
    ensures { judgement result ≡ (if typing.is_scalar_type (plain_operand_type x.now).ty then rule.given (plain_operand_type x.now) int else refused tt) }
{
    if is_scalar(&x.ty) {
        value(x, CType::Int)
    } else {
        Err(Refused)
    }
}

fn signed(alloc: Global, x: &OperandType) -> Result<Judged, NoMemory>
    ensures { IfOk result (λ r. judgement r ≡ (if integer.is_integer (plain_operand_type x.now).ty then rule.given (plain_operand_type x.now) (typing.promoted (plain_operand_type x.now).ty) else refused tt)) }
{
    if is_integer(&x.ty) {
        let ty = promoted_type(alloc, &x.ty)?;
        Ok(value(x, ty))
    } else {
        Ok(Err(Refused))
    }
}

fn on_value(alloc: Global, text: &[u8], x: &OperandType) -> Result<Judged, NoMemory>
    ensures { IfOk result (λ r. judgement r ≡ rule.on_value text.now (plain_operand_type x.now)) }
{
    if text == b"*".as_slice() {
        target_of(alloc, x)
    } else if text == b"!".as_slice() {
        Ok(negated(x))
    } else {
        signed(alloc, x)
    }
}

fn on_loaded(alloc: Global, text: &[u8], o: &OperandType) -> Result<Judged, NoMemory>
    ensures { IfOk result (λ r. judgement r ≡ bind (rule.loaded_rule (plain_operand_type o.now)) (rule.on_value text.now)) }
{
    match loaded_by_rule(alloc, o)? {
        Ok(x) => on_value(alloc, text, &x),
        Err(Refused) => Ok(Err(Refused)),
    }
}

fn prefixed_by_rule(alloc: Global, text: &[u8], o: &OperandType) -> Result<Judged, NoMemory>
    ensures { IfOk result (λ r. judgement r ≡ rule.prefixed_rule text.now (plain_operand_type o.now)) }
{
    if text == b"&".as_slice() {
        address_of(alloc, o)
    } else {
        on_loaded(alloc, text, o)
    }
}

/// One of `& * + - ~ !` before its operand.
pub fn prefixed(alloc: Global, sign: &Token, o: &OperandType) -> Result<Judged, NoMemory>
    ensures { IfOk result (λ r. judgement r ≡ prefixed_type (plain_token sign.now) (plain_operand_type o.now)) }
{
    prefixed_by_rule(alloc, sign.text.as_slice(), o)
}
