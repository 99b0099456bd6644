//! The object that a name stands for (6.5.1).
ghost use Rattle.std.specs.Prelude.{ℕ, Bool, None, Some, IfOk};
ghost use Rattle.conditional.specs.Entries.{alternatives, Sees};
ghost use Rattle.operand_rules.specs.PlainOperandTypes.{plain_operand_type};
ghost use Rattle.cond_operands.specs.Operands.{ShowsOperand};
ghost use Rattle.expression_types.specs.Reading.{object_in};
ghost use Rattle.type_tables.specs.Tables.{object_of, known_in};
ghost use Rattle.type_tables.specs.Seen.{seen_tables};

use crate::lookups::{Sought, looked_up};
use crate::operands::{operand_of_type, or_refused};
use c_types::CType;
use cond_formula::NoMemory;
use cond_operands::Operands;
use conditional::CondValue;
use operand_rules::{Category, OperandType};
use std::alloc::Global;
use type_tables::Tables;

/// Objects are looked for.
#[derive(Drop)]
struct Objects<'t> {
    tables: &'t Tables,
}

impl<'t> Sought<OperandType> for Objects<'t> {
    ghost objects = { λ self on ty z. Sees on (Some (object_of (seen_tables on self.tables.now) ty)) (alternatives plain_operand_type z) };

    ghost functions = { λ self on number z. Sees on None (alternatives plain_operand_type z) };

    fn of_object(&self, alloc: Global, ty: &CType) -> Result<CondValue<OperandType>, NoMemory> {
        operand_of_type(alloc, self.tables, ty, Category::Object(true))
    }

    fn of_function(&self, alloc: Global, _number: u32) -> Result<CondValue<OperandType>, NoMemory> {
        Ok(CondValue::nothing(alloc))
    }
}

/// The object that a name stands for, and a refusal where it stands for none.
pub(crate) fn object(alloc: Global, tables: &Tables, name: &[u8]) -> Result<Operands, NoMemory>
    ensures { IfOk result (λ z. (on : ℕ → Bool) → ShowsOperand on (object_in ((known_in (seen_tables on tables.now)).ordinary name.now)) z) }
{
    let found = looked_up(alloc, tables, &Objects { tables }, name)?;
    or_refused(alloc, found)
}
