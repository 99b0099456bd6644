//! Parts of core programs in boxes of their own. What finds no memory is dropped here, and nowhere else.
ghost use Rattle.std.specs.Prelude.{◌≡◌, IfOk};
ghost use Rattle.c_types.specs.Types.{plain_type};
ghost use Rattle.core_meaning.specs.Plain.{plain_expression, plain_place};

use c_types::CType;
use cond_formula::NoMemory;
use core_meaning::{Expression, Place};
use std::alloc::Global;

pub fn expression_in_box(alloc: Global, e: Expression) -> Result<Box<Expression>, NoMemory>
    ensures { IfOk result (λ b. plain_expression b.value ≡ plain_expression e) }
{
    Ok(Box::new(alloc, e)?)
}

pub fn place_in_box(alloc: Global, place: Place) -> Result<Box<Place>, NoMemory>
    ensures { IfOk result (λ b. plain_place b.value ≡ plain_place place) }
{
    Ok(Box::new(alloc, place)?)
}

pub fn type_in_box(alloc: Global, ty: CType) -> Result<Box<CType>, NoMemory>
    ensures { IfOk result (λ b. plain_type b.value ≡ plain_type ty) }
{
    Ok(Box::new(alloc, ty)?)
}
