//! Locals, and the blocks that are open (6.2.1).
use crate::entries::LocalName;
use crate::tables::Tables;
use c_types::CType;
use cond_formula::{Formula, NoMemory};
use std::alloc::{AllocError, Global};

/// Which locals are visible where a block begins, and how many blocks are open around it.
#[derive(Clone, Copy, Debug)]
pub struct Outside {
    locals: usize,
    depth: u32,
}

impl Tables {
    ghost use Rattle.std.specs.Prelude.{◌≡◌, ℕ, suc, Bool, OnOk, IfOk};
    ghost use Rattle.cond_formula.specs.Conditions.{condition_of, value};
    ghost use Rattle.c_types.specs.Types.{plain_type};
    ghost use Rattle.type_tables.specs.Seen.{seen_tables};
    ghost use Rattle.type_tables.specs.Steps.{entered, with_local, where_true};
    ghost use Rattle.type_tables.specs.Blocks.{IsOutside, KeepsOutside};
    ghost use Rattle.type_tables.specs.declared.tables.Tables.{Tables as TheTables};

    /// A parameter or local, in the innermost block, where the condition is true.
    pub fn declare_local(
        &mut self,
        alloc: Global,
        name: &[u8],
        when: Formula,
        ty: CType,
    ) -> Result<(), NoMemory>
        ensures seen { OnOk result ((on : ℕ → Bool) → seen_tables on self.new ≡ where_true (value on (condition_of when)) (with_local name.now (plain_type ty)) (seen_tables on self.old)) }
        ensures same { OnOk result (self.new ≡ record self.old { locals = self.new.locals }) }
        ensures outside { OnOk result ((before : TheTables) → KeepsOutside before self.old → KeepsOutside before self.new) }
    {
        let name = Vec::from_slice(alloc, name)?;
        self.locals.push(LocalName {
            name,
            when,
            ty,
            depth: self.depth,
        })?;
        Ok(())
    }

    /// One more block is open. The answer is what is outside it.
    pub fn enter(&mut self) -> Result<Outside, NoMemory>
        ensures seen { OnOk result ((on : ℕ → Bool) → seen_tables on self.new ≡ entered (seen_tables on self.old)) }
        ensures same { OnOk result (self.new ≡ record self.old { depth = suc self.old.depth }) }
        ensures outside { IfOk result (λ o. IsOutside self.old o) }
        ensures kept { OnOk result (KeepsOutside self.old self.new) }
    {
        let outside = Outside {
            locals: self.locals.len(),
            depth: self.depth,
        };
        self.depth = self.depth.checked_add(1).ok_or(AllocError)?;
        Ok(outside)
    }

    /// A block ends: the locals are those that were visible outside it.
    pub fn leave(&mut self, outside: Outside)
        ensures { (before : TheTables) → IsOutside before outside → KeepsOutside before self.old → (self.new ≡ record self.old { locals = self.new.locals; depth = before.depth }) × (self.new.locals.items ≡ before.locals.items) }
    {
        self.locals.truncate(outside.locals);
        self.depth = outside.depth;
    }
}
