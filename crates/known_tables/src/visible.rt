//! The tables, as expressions ask for what is known.
ghost use Rattle.cond_formula.specs.Features.{has};
ghost use Rattle.cond_formula.specs.Conditions.{Always};
ghost use Rattle.type_tables.specs.Tables.{known_in, callable_in};
ghost use Rattle.type_tables.specs.Seen.{seen_tables};
ghost use Rattle.known_tables.specs.Numbers.{has_numbers};

use crate::callees::callee;
use crate::calls::called;
use crate::members::member;
use crate::objects::object;
use cond_formula::{NoMemory, Oracle};
use cond_nodes::{Callee, Knowledge};
use cond_operands::Operands;
use conditional::{CondValue, Guarded};
use operand_rules::OperandType;
use std::alloc::Global;
use type_tables::Tables;

/// What is visible where an expression stands.
#[derive(Drop)]
pub struct Visible<'t> {
    pub tables: &'t Tables,
}

impl<'t> Knowledge for Visible<'t> {
    ghost admits = { λ x. Always };

    ghost known = { λ x c. known_in (seen_tables (has c) x.tables.now) };

    ghost callable = { λ x c. callable_in (seen_tables (has c) x.tables.now) };

    ghost numbers = { λ x c admitted. has_numbers (seen_tables (has c) x.tables.now) };

    fn object(&self, alloc: Global, name: &[u8]) -> Result<Operands, NoMemory> {
        object(alloc, self.tables, name)
    }

    fn callee(&self, alloc: Global, name: &[u8]) -> Result<CondValue<Callee>, NoMemory> {
        callee(alloc, self.tables, name)
    }

    fn member(
        &self,
        alloc: Global,
        structure: u32,
        name: &[u8],
    ) -> Result<CondValue<OperandType>, NoMemory> {
        member(alloc, self.tables, structure, name)
    }

    fn called<O: Oracle>(
        &self,
        alloc: Global,
        oracle: &mut O,
        callee: Callee,
        arguments: &[Guarded<Operands>],
    ) -> Result<Operands, NoMemory> {
        called(alloc, oracle, self.tables, callee.number, arguments)
    }
}
