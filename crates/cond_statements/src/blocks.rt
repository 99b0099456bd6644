//! Blocks, and what is no longer there behind them (6.2.1).
ghost use Rattle.std.specs.Prelude.{◌≡◌, ◌+◌, length, OnOk};
ghost use Rattle.type_tables.specs.Blocks.{KeepsOutside};
ghost use Rattle.type_tables.specs.declared.tables.Tables.{Tables as TheTables};

use cond_formula::NoMemory;
use std::alloc::AllocError;
use type_tables::Tables;

/// One more block is open.
pub(crate) fn open_block(tables: &mut Tables) -> Result<(), NoMemory>
    ensures { OnOk result (tables.new ≡ record tables.old { depth = tables.old.depth + 1 }) }
{
    tables.depth = tables.depth.checked_add(1).ok_or(AllocError)?;
    Ok(())
}

/// The locals are again so many, and so many blocks are open.
pub(crate) fn close_block(tables: &mut Tables, locals: usize, depth: u32)
    ensures same { tables.new ≡ record tables.old { locals = tables.new.locals; depth = depth } }
    ensures locals { (before : TheTables) → locals ≡ length before.locals.items → KeepsOutside before tables.old → tables.new.locals.items ≡ before.locals.items }
{
    tables.locals.truncate(locals);
    tables.depth = depth;
}
