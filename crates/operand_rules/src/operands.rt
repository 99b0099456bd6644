//! What operands are to the operators around them.
ghost use Rattle.std.specs.Prelude.{◌≡◌, IsTrue};
ghost use Rattle.operand_types.specs.OperandTypes as spec;
ghost use Rattle.operand_rules.specs.PlainOperandTypes.{plain_category, plain_operand_type, reason};

use c_types::CType;
use cond_formula::NoMemory;
use conditional::Plain;
use plain_scope::{copied, same_type};
use std::alloc::Global;

/// What an expression stands for (6.3.2.1).
#[derive(Clone, Copy, Debug)]
pub enum Category {
    /// A value alone.
    Value,
    /// An object or a part of one, and whether it may be assigned to and pointed at.
    Object(bool),
}

/// All that operators ask of an operand.
#[derive(Drop)]
pub struct OperandType {
    pub ty: CType,
    pub category: Category,
    /// It is the null constant.
    pub is_null: bool,
    /// The struct that the type is made of is complete, or there is none.
    pub has_complete_struct: bool,
}

/// An operand that an operator refuses, for whatever reason.
#[derive(Clone, Copy, Debug)]
pub struct Refused;

/// What an operator gives of types.
pub type Judged = Result<OperandType, Refused>;

fn is_same_category(a: Category, b: Category) -> bool
    ensures { IsTrue result → plain_category a ≡ plain_category b }
{
    match a {
        Category::Value => matches!(b, Category::Value),
        Category::Object(free) => is_object(b, free),
    }
}

fn is_object(category: Category, free: bool) -> bool
    ensures { IsTrue result → plain_category category ≡ spec.lvalue free }
{
    match category {
        Category::Value => false,
        Category::Object(other) => other == free,
    }
}

fn has_same_flags(a: &OperandType, b: &OperandType) -> bool
    ensures null { IsTrue result → a.now.is_null ≡ b.now.is_null }
    ensures complete { IsTrue result → a.now.has_complete_struct ≡ b.now.has_complete_struct }
{
    a.is_null == b.is_null && a.has_complete_struct == b.has_complete_struct
}

impl Plain for OperandType {
    ghost Form = { spec.OperandType };

    ghost form = { plain_operand_type };

    fn is_same(&self, other: &OperandType) -> bool {
        if !same_type(&self.ty, &other.ty) {
            return false;
        }
        if !is_same_category(self.category, other.category) {
            return false;
        }
        has_same_flags(self, other)
    }

    fn try_clone(&self, alloc: Global) -> Result<OperandType, NoMemory> {
        let ty = copied(alloc, &self.ty)?;
        Ok(OperandType {
            ty,
            category: self.category,
            is_null: self.is_null,
            has_complete_struct: self.has_complete_struct,
        })
    }
}

impl Plain for Refused {
    ghost Form = { Unit {0} };

    ghost form = { reason };

    fn is_same(&self, _other: &Refused) -> bool {
        true
    }

    fn try_clone(&self, _alloc: Global) -> Result<Refused, NoMemory> {
        Ok(*self)
    }
}
