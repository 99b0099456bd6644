//! Locals whose declarators give types under conditions.
ghost use Rattle.std.specs.Prelude.{◌≡◌, Bool, true, false, List, IsTrue, IfOk, OnOk, option_map};
ghost use Rattle.cond_formula.specs.Features.{has};
ghost use Rattle.cond_formula.specs.Conditions.{condition_of, value};
ghost use Rattle.conditional.specs.Entries.{entries_of, Stands};
ghost use Rattle.c_text.specs.Token.{plain_token};
ghost use Rattle.c_types.specs.Types.{PlainType};
ghost use Rattle.choice_trees.specs.ChoiceTrees.{plain_item, item_at};
ghost use Rattle.type_tables.specs.Forms.{declared_type_form};
ghost use Rattle.type_tables.specs.Seen.{seen_tables};
ghost use Rattle.type_tables.specs.Blocks.{OnlyLocals};
ghost use Rattle.cond_locals.specs.Declaring.{IsDeclared};

use crate::objects::declare_object;
use c_text::Token;
use choice_trees::Item;
use cond_formula::{Formula, NoMemory, Oracle};
use conditional::Guarded;
use conditional_steps::{both_of, never};
use reduced_conditions::{either, without};
use std::alloc::Global;
use type_tables::{DeclaredType, Tables};

/// A local where the condition is true, once in each configuration, though alternatives for its type may hold together. The answer is where it is
/// refused.
pub(crate) fn declare_by_types<O: Oracle>(
    alloc: Global,
    oracle: &mut O,
    tables: &mut Tables,
    when: &Formula,
    name: &Token,
    types: &[Guarded<DeclaredType>],
    initialiser: Option<&Item>,
) -> Result<Formula, NoMemory>
    ensures kept { O.admits oracle.new ≡ O.admits oracle.old }
    ensures outside { OnOk result (OnlyLocals tables.old tables.new) }
    ensures elsewhere { IfOk result (λ f. (c : List Bool) → IsTrue (value (has c) (O.admits oracle.old)) → value (has c) (condition_of when.now) ≡ false
        → (seen_tables (has c) tables.new ≡ seen_tables (has c) tables.old) × (value (has c) (condition_of f) ≡ false)) }
    ensures declares { IfOk result (λ f. (c : List Bool) → IsTrue (value (has c) (O.admits oracle.old)) → value (has c) (condition_of when.now) ≡ true
        → (ty : PlainType) → Stands (has c) ty (entries_of declared_type_form types.now)
        → IsDeclared ty (plain_token name.now) (option_map (λ item. item_at (has c) (plain_item item.now)) initialiser.entry)
        (seen_tables (has c) tables.old) (seen_tables (has c) tables.new) (value (has c) (condition_of f))) }
{
    let mut refused = never()?;
    let mut left = when.try_clone(alloc)?;
    for alternative in types {
        let here = both_of(alloc, &left, &alternative.when)?;
        let ty = &alternative.what.ty;
        let found = declare_object(alloc, oracle, tables, &here, name, ty, initialiser)?;
        refused = either(alloc, refused, found)?;
        left = without(alloc, left, &alternative.when)?;
    }
    Ok(refused)
}
