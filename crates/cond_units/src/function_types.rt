//! Functions behind words that name types under conditions.
ghost use Rattle.std.specs.Prelude.{◌≡◌, Bool, true, false, List, Some, IsTrue, IfOk};
ghost use Rattle.cond_formula.specs.Features.{has};
ghost use Rattle.cond_formula.specs.Conditions.{condition_of, value};
ghost use Rattle.conditional.specs.Entries.{entries_of, Stands};
ghost use Rattle.c_text.specs.Token.{plain_token};
ghost use Rattle.c_types.specs.Types.{PlainType, plain_type};
ghost use Rattle.choice_trees.specs.ChoiceTrees.{plain_item, item_at};
ghost use Rattle.type_tables.specs.Forms.{declared_type_form};
ghost use Rattle.cond_parameters.specs.Parameters.{IsList};
ghost use Rattle.cond_units.specs.Seen.{seen_unit};
ghost use Rattle.cond_units.specs.Declaring.{DeclaresTyped};
ghost use Rattle.cond_units.specs.Where.{Stays, Where};

use crate::UnitTables;
use crate::heads::{FunctionHead, HeadReader};
use c_types::CType;
use choice_variants::may_hold;
use cond_formula::{Formula, NoMemory, Oracle};
use conditional::Guarded;
use conditional_steps::{both_of, never};
use reduced_conditions::{either, without};
use std::alloc::Global;
use type_tables::DeclaredType;

/// A function behind the type where the condition is true. The answer is where it is refused.
fn read_typed<R: HeadReader, O: Oracle>(
    alloc: Global,
    oracle: &mut O,
    unit: &mut UnitTables,
    when: &Formula,
    reader: &R,
    head: &FunctionHead<'_>,
    ty: &CType,
) -> Result<Formula, NoMemory>
    ensures kept { O.admits oracle.new ≡ O.admits oracle.old }
    ensures declares { IfOk result (λ f. (c : List Bool) → IsTrue (value (has c) (O.admits oracle.old))
        → Where (value (has c) (condition_of when.now))
        (DeclaresTyped (plain_type ty.now) (R.judged reader.now c head.now.stars (plain_token head.now.name.now) (Some (item_at (has c) (plain_item head.now.list.now))))
        (IsList (item_at (has c) (plain_item head.now.list.now)) × R.ready reader.now c))
        (seen_unit (has c) unit.old) (seen_unit (has c) unit.new) (value (has c) (condition_of f))) }
{
    if !may_hold(when, oracle) {
        return never();
    }
    let refused = reader.read_head(alloc, oracle, unit, when, head, ty)?;
    Ok(refused)
}

/// A function where the condition is true, once in each configuration, though alternatives for the type before it may hold together. The answer is
/// where it is refused.
pub(crate) fn read_by_types<R: HeadReader, O: Oracle>(
    alloc: Global,
    oracle: &mut O,
    unit: &mut UnitTables,
    when: &Formula,
    reader: &R,
    head: &FunctionHead<'_>,
    types: &[Guarded<DeclaredType>],
) -> Result<Formula, NoMemory>
    ensures kept { O.admits oracle.new ≡ O.admits oracle.old }
    ensures elsewhere { IfOk result (λ f. (c : List Bool) → IsTrue (value (has c) (O.admits oracle.old)) → value (has c) (condition_of when.now) ≡ false
        → Stays (seen_unit (has c) unit.old) (seen_unit (has c) unit.new) × (value (has c) (condition_of f) ≡ false)) }
    ensures declares { IfOk result (λ f. (c : List Bool) → IsTrue (value (has c) (O.admits oracle.old))
        → value (has c) (condition_of when.now) ≡ true → (ty : PlainType) → Stands (has c) ty (entries_of declared_type_form types.now)
        → DeclaresTyped ty (R.judged reader.now c head.now.stars (plain_token head.now.name.now) (Some (item_at (has c) (plain_item head.now.list.now))))
        (IsList (item_at (has c) (plain_item head.now.list.now)) × R.ready reader.now c)
        (seen_unit (has c) unit.old) (seen_unit (has c) unit.new) (value (has c) (condition_of f))) }
{
    let mut refused = never()?;
    let mut left = when.try_clone(alloc)?;
    for alternative in types {
        let here = both_of(alloc, &left, &alternative.when)?;
        let ty = &alternative.what.ty;
        let found = read_typed(alloc, oracle, unit, &here, reader, head, ty)?;
        refused = either(alloc, refused, found)?;
        left = without(alloc, left, &alternative.when)?;
    }
    Ok(refused)
}
