//! Objects whose declarators give types under conditions.
ghost use Rattle.std.specs.Prelude.{◌≡◌, ℕ, Bool, true, false, List, IsTrue, IfOk};
ghost use Rattle.cond_formula.specs.Features.{has};
ghost use Rattle.cond_formula.specs.Conditions.{condition_of, value};
ghost use Rattle.conditional.specs.Entries.{entries_of, Stands};
ghost use Rattle.c_text.specs.Token.{plain_token};
ghost use Rattle.c_types.specs.Types.{PlainType};
ghost use Rattle.plain_objects.specs.PlainStates.{plain_storage};
ghost use Rattle.type_tables.specs.Forms.{declared_type_form};
ghost use Rattle.cond_units.specs.Seen.{seen_unit, initialiser_at};
ghost use Rattle.cond_units.specs.Declaring.{IsInitialiser, object_of_type, DeclaresTyped};

use crate::following::Behind;
use crate::objects::declare_typed;
use crate::units::{ObjectDeclaration, UnitTables};
use c_text::Token;
use cond_formula::{Formula, NoMemory, Oracle};
use conditional::Guarded;
use conditional_steps::{both_of, never};
use reduced_conditions::{either, without};
use std::alloc::Global;
use type_tables::DeclaredType;

/// An object where the condition is true, once in each configuration, though alternatives for its type may hold together. The answer is where it
/// is refused.
pub(crate) fn declare_by_types<B: Behind, O: Oracle>(
    alloc: Global,
    oracle: &mut O,
    unit: &mut UnitTables,
    when: &Formula,
    declaration: &ObjectDeclaration<'_, B>,
    name: &Token,
    types: &[Guarded<DeclaredType>],
) -> Result<Formula, NoMemory>
    ensures kept { O.admits oracle.new ≡ O.admits oracle.old }
    ensures elsewhere { IfOk result (λ f. (c : List Bool) → IsTrue (value (has c) (O.admits oracle.old)) → value (has c) (condition_of when.now) ≡ false
        → (seen_unit (has c) unit.new ≡ seen_unit (has c) unit.old) × (value (has c) (condition_of f) ≡ false)) }
    ensures declares { IfOk result (λ f. (c : List Bool) (globals : ℕ) → IsTrue (value (has c) (O.admits oracle.old)) → value (has c) (condition_of when.now) ≡ true
        → (ty : PlainType) → Stands (has c) ty (entries_of declared_type_form types.now)
        → DeclaresTyped ty (object_of_type globals (plain_storage declaration.now.storage) (plain_token name.now) (initialiser_at (has c) declaration.now) (B.rest declaration.now.behind.now c))
        (IsInitialiser (initialiser_at (has c) declaration.now))
        (seen_unit (has c) unit.old) (seen_unit (has c) unit.new) (value (has c) (condition_of f))) }
{
    let mut refused = never()?;
    let mut left = when.try_clone(alloc)?;
    for alternative in types {
        let here = both_of(alloc, &left, &alternative.when)?;
        let ty = &alternative.what.ty;
        let found = declare_typed(alloc, oracle, unit, &here, declaration, name, ty)?;
        refused = either(alloc, refused, found)?;
        left = without(alloc, left, &alternative.when)?;
    }
    Ok(refused)
}
