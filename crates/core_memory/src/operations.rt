//! Operations on scalars (6.5.5 to 6.5.12), and conversions (6.3.1.3).

ghost use Rattle.std.specs.Prelude.{◌≡◌, IsTrue, IfOk, option_map, option_and_then};
ghost use Rattle.c_types.specs.Types.{plain_type};
ghost use Rattle.c_types.specs.Integers as integer;
ghost use Rattle.c_types.specs.Arithmetic as arithmetic;
ghost use Rattle.core_meaning.specs.Program.{type_of};
ghost use Rattle.core_meaning.specs.Values as plain;
ghost use Rattle.core_meaning.specs.Meaning as meaning;
ghost use Rattle.core_cells.specs.Forms.{plain_pointer, plain_scalar};
ghost use Rattle.core_memory.specs.MemoryForms.{plain_memory, structs_of};
ghost use Rattle.core_memory.specs.OperationForms.{in_type_value, operated_value, changed_value};

use crate::memory::Memory;
use crate::pointers::defined_value;
use c_types::{BinaryOp, CType, a_conversion_is_the_one_value, binary, convert};
use cond_formula::NoMemory;
use core_cells::{Pointer, Scalar};
use core_meaning::{Change, IntegerType, Operation};
use std::alloc::Global;

#[tactic(auto, using(c_types::specs::TypeLaws::type_kinds))]
pub fn c_type(ty: IntegerType) -> CType
    ensures type_of { plain_type result ≡ type_of ty }
    ensures integer { IsTrue (integer.is_integer (plain_type result)) }
{
    match ty {
        IntegerType::Char => CType::Char,
        IntegerType::UnsignedChar => CType::UChar,
        IntegerType::Int => CType::Int,
        IntegerType::UnsignedInt => CType::UInt,
        IntegerType::Long => CType::Long,
        IntegerType::UnsignedLong => CType::ULong,
    }
}

/// A number in an integer type (6.3.1.3).
pub fn converted(ty: IntegerType, number: i128) -> i128
    ensures { result ≡ integer.converted (type_of ty) number }
{
    convert(&c_type(ty), number)
}

/// A scalar in an integer type; None for a pointer.
pub fn scalar_in_type(ty: IntegerType, scalar: Scalar) -> Option<Scalar>
    ensures { option_map plain_scalar result ≡ in_type_value ty (plain_scalar scalar) }
{
    match scalar {
        Scalar::Number(number) => Some(Scalar::Number(converted(ty, number))),
        Scalar::Pointer(_) => None,
    }
}

fn right_operand(op: BinaryOp, ty: IntegerType, number: i128) -> i128
    ensures value { result ≡ meaning.right_operand op (type_of ty) number }
    ensures right { arithmetic.IsRightOperand op (type_of ty) result }
{
    a_conversion_is_the_one_value();
    match op {
        BinaryOp::Shl | BinaryOp::Shr => number,
        BinaryOp::Mul
        | BinaryOp::Div
        | BinaryOp::Rem
        | BinaryOp::Add
        | BinaryOp::Sub
        | BinaryOp::Lt
        | BinaryOp::Gt
        | BinaryOp::Le
        | BinaryOp::Ge
        | BinaryOp::Eq
        | BinaryOp::Ne
        | BinaryOp::BitAnd
        | BinaryOp::BitXor
        | BinaryOp::BitOr => converted(ty, number),
    }
}

/// An operation on two numbers in a type; None where it is undefined.
fn computed(op: BinaryOp, ty: IntegerType, a: i128, b: i128) -> Option<i128>
    ensures { result ≡ meaning.computed op (type_of ty) a b }
{
    a_conversion_is_the_one_value();
    let left = converted(ty, a);
    let right = right_operand(op, ty, b);
    defined_value(binary(op, &c_type(ty), left, right))
}

/// The result of an operation on two values; None where it is undefined.
pub fn operated(
    alloc: Global,
    memory: &Memory,
    op: Operation,
    a: &Scalar,
    b: &Scalar,
) -> Result<Option<Scalar>, NoMemory>
    ensures { IfOk result (λ v. option_map plain_scalar v ≡ operated_value (structs_of memory.now) (plain_memory memory.now) op (plain_scalar a.now) (plain_scalar b.now)) }
{
    match a {
        Scalar::Number(number) => {
            let result = from_number(alloc, memory, op, *number, b)?;
            Ok(result)
        }
        Scalar::Pointer(pointer) => {
            let result = from_pointer(alloc, memory, op, pointer, b)?;
            Ok(result)
        }
    }
}

fn from_number(
    alloc: Global,
    memory: &Memory,
    op: Operation,
    a: i128,
    b: &Scalar,
) -> Result<Option<Scalar>, NoMemory>
    ensures { IfOk result (λ v. option_map plain_scalar v ≡ operated_value (structs_of memory.now) (plain_memory memory.now) op (plain.number a) (plain_scalar b.now)) }
{
    match b {
        Scalar::Number(b) => Ok(on_numbers(memory, op, a, *b)),
        Scalar::Pointer(b) => {
            let result = on_number_and_pointer(alloc, memory, op, a, b)?;
            Ok(result)
        }
    }
}

fn from_pointer(
    alloc: Global,
    memory: &Memory,
    op: Operation,
    a: &Pointer,
    b: &Scalar,
) -> Result<Option<Scalar>, NoMemory>
    ensures { IfOk result (λ v. option_map plain_scalar v ≡ operated_value (structs_of memory.now) (plain_memory memory.now) op (plain.pointer (plain_pointer a.now)) (plain_scalar b.now)) }
{
    match b {
        Scalar::Number(b) => {
            let result = on_pointer_and_number(alloc, memory, op, a, *b)?;
            Ok(result)
        }
        Scalar::Pointer(b) => Ok(on_pointers(memory, op, a, b)),
    }
}

fn on_numbers(memory: &Memory, op: Operation, a: i128, b: i128) -> Option<Scalar>
    ensures { option_map plain_scalar result ≡ operated_value (structs_of memory.now) (plain_memory memory.now) op (plain.number a) (plain.number b) }
{
    match op {
        Operation::Numbers(op, ty) => number_scalar(computed(op, ty, a, b)),
        Operation::Forward => None,
        Operation::ForwardBy => None,
        Operation::Back => None,
        Operation::Distance => None,
        Operation::Pointers(_) => None,
    }
}

fn on_pointer_and_number(
    alloc: Global,
    memory: &Memory,
    op: Operation,
    a: &Pointer,
    b: i128,
) -> Result<Option<Scalar>, NoMemory>
    ensures { IfOk result (λ v. option_map plain_scalar v ≡ operated_value (structs_of memory.now) (plain_memory memory.now) op (plain.pointer (plain_pointer a.now)) (plain.number b)) }
{
    match op {
        Operation::Forward => Ok(pointer_scalar(memory.moved(alloc, a, b)?)),
        Operation::Back => Ok(pointer_scalar(memory.moved_back(alloc, a, b)?)),
        Operation::Numbers(_, _) => Ok(None),
        Operation::ForwardBy => Ok(None),
        Operation::Distance => Ok(None),
        Operation::Pointers(_) => Ok(None),
    }
}

fn on_number_and_pointer(
    alloc: Global,
    memory: &Memory,
    op: Operation,
    a: i128,
    b: &Pointer,
) -> Result<Option<Scalar>, NoMemory>
    ensures { IfOk result (λ v. option_map plain_scalar v ≡ operated_value (structs_of memory.now) (plain_memory memory.now) op (plain.number a) (plain.pointer (plain_pointer b.now))) }
{
    match op {
        Operation::ForwardBy => Ok(pointer_scalar(memory.moved(alloc, b, a)?)),
        Operation::Numbers(_, _) => Ok(None),
        Operation::Forward => Ok(None),
        Operation::Back => Ok(None),
        Operation::Distance => Ok(None),
        Operation::Pointers(_) => Ok(None),
    }
}

fn on_pointers(memory: &Memory, op: Operation, a: &Pointer, b: &Pointer) -> Option<Scalar>
    ensures { option_map plain_scalar result ≡ operated_value (structs_of memory.now) (plain_memory memory.now) op (plain.pointer (plain_pointer a.now)) (plain.pointer (plain_pointer b.now)) }
{
    match op {
        Operation::Distance => number_scalar(memory.distance(a, b)),
        Operation::Pointers(op) => number_scalar(memory.compared(op, a, b)),
        Operation::Numbers(_, _) => None,
        Operation::Forward => None,
        Operation::ForwardBy => None,
        Operation::Back => None,
    }
}

/// The new value of a compound assignment; None where it is undefined (6.5.16.2).
pub fn changed(
    alloc: Global,
    memory: &Memory,
    change: Change,
    old: &Scalar,
    right: &Scalar,
) -> Result<Option<Scalar>, NoMemory>
    ensures { IfOk result (λ v. option_map plain_scalar v ≡ changed_value (structs_of memory.now) (plain_memory memory.now) change (plain_scalar old.now) (plain_scalar right.now)) }
{
    match change {
        Change::Numbers(op, ty, place_type) => {
            let computed = operated(alloc, memory, Operation::Numbers(op, ty), old, right)?;
            Ok(all_in_type(place_type, computed))
        }
        Change::Forward => {
            let moved = operated(alloc, memory, Operation::Forward, old, right)?;
            Ok(moved)
        }
        Change::Back => {
            let moved = operated(alloc, memory, Operation::Back, old, right)?;
            Ok(moved)
        }
    }
}

fn all_in_type(ty: IntegerType, scalar: Option<Scalar>) -> Option<Scalar>
    ensures { option_map plain_scalar result ≡ option_and_then (in_type_value ty) (option_map plain_scalar scalar) }
{
    match scalar {
        None => None,
        Some(scalar) => scalar_in_type(ty, scalar),
    }
}

fn number_scalar(number: Option<i128>) -> Option<Scalar>
    ensures { option_map plain_scalar result ≡ option_map plain.number number }
{
    match number {
        None => None,
        Some(number) => Some(Scalar::Number(number)),
    }
}

fn pointer_scalar(pointer: Option<Pointer>) -> Option<Scalar>
    ensures { option_map plain_scalar result ≡ option_map plain.pointer (option_map plain_pointer pointer) }
{
    match pointer {
        None => None,
        Some(pointer) => Some(Scalar::Pointer(pointer)),
    }
}
