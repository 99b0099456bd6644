//! The function that a name stands for (6.5.1).
ghost use Rattle.std.specs.Prelude.{ℕ, Bool, None, Some, IfOk};
ghost use Rattle.conditional.specs.Entries.{alternatives, Sees};
ghost use Rattle.expression_types.specs.Reading.{callee_in};
ghost use Rattle.cond_nodes.specs.Reads.{callee_number, ShowsCallee};
ghost use Rattle.type_tables.specs.Tables.{callable_in, known_in};
ghost use Rattle.type_tables.specs.Seen.{seen_tables};

use crate::lookups::{Sought, looked_up};
use c_types::CType;
use cond_formula::NoMemory;
use cond_nodes::Callee;
use conditional::CondValue;
use std::alloc::Global;
use type_tables::Tables;

/// Functions are looked for.
#[derive(Clone, Copy)]
struct Functions;

impl Sought<Callee> for Functions {
    ghost objects = { λ self on ty z. Sees on None (alternatives callee_number z) };

    ghost functions = { λ self on number z. Sees on (Some number) (alternatives callee_number z) };

    fn of_object(&self, alloc: Global, _ty: &CType) -> Result<CondValue<Callee>, NoMemory> {
        Ok(CondValue::nothing(alloc))
    }

    fn of_function(&self, alloc: Global, number: u32) -> Result<CondValue<Callee>, NoMemory> {
        CondValue::one(alloc, Callee { number })
    }
}

/// The function that a name stands for, by the number of its declaration.
pub(crate) fn callee(
    alloc: Global,
    tables: &Tables,
    name: &[u8],
) -> Result<CondValue<Callee>, NoMemory>
    ensures { IfOk result (λ z. (on : ℕ → Bool) → ShowsCallee on (callable_in (seen_tables on tables.now)) (callee_in ((known_in (seen_tables on tables.now)).ordinary name.now)) z) }
{
    looked_up(alloc, tables, &Functions, name)
}
