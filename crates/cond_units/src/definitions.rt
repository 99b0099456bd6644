//! What declarations of objects define (6.9.2).
ghost use Rattle.std.specs.Prelude.{◌≡◌, ℕ, Bool, [], ◌∷◌, ◌++◌, OnOk, is_some};
ghost use Rattle.cond_formula.specs.Conditions.{condition_of, value};
ghost use Rattle.conditional.specs.Entries.{seen, listed, under};
ghost use Rattle.plain_objects.specs.PlainStates.{plain_storage};
ghost use Rattle.type_tables.specs.Definitions.{definition_form};
ghost use Rattle.cond_units.specs.Definitions.{definitions_of};

use crate::units::{ObjectDeclaration, UnitTables};
use cond_formula::{Formula, NoMemory};
use plain_objects::Storage;
use std::alloc::Global;
use type_tables::Definition;

/// One more definition of a name, where the condition is true.
pub fn define(
    alloc: Global,
    unit: &mut UnitTables,
    when: &Formula,
    name: &[u8],
    tentative: bool,
) -> Result<(), NoMemory>
    ensures tables { OnOk result (unit.new.tables ≡ unit.old.tables) }
    ensures defined { OnOk result ((on : ℕ → Bool) → seen on (listed definition_form unit.new.defined)
        ≡ seen on (listed definition_form unit.old.defined) ++ under (value on (condition_of when.now)) (record { name = name.now; tentative = tentative } ∷ [])) }
{
    let name = Vec::from_slice(alloc, name)?;
    unit.defined
        .push(when.try_clone(alloc)?, Definition { name, tentative })?;
    Ok(())
}

/// What the declaration of an object defines, where the condition is true: nothing with `extern` alone.
pub(crate) fn define_object<B>(
    alloc: Global,
    unit: &mut UnitTables,
    when: &Formula,
    declaration: &ObjectDeclaration<'_, B>,
    name: &[u8],
) -> Result<(), NoMemory>
    ensures tables { OnOk result (unit.new.tables ≡ unit.old.tables) }
    ensures defined { OnOk result ((on : ℕ → Bool) → seen on (listed definition_form unit.new.defined)
        ≡ seen on (listed definition_form unit.old.defined) ++ under (value on (condition_of when.now)) (definitions_of (plain_storage declaration.now.storage) name.now (is_some declaration.now.initialiser))) }
{
    let initialised = declaration.initialiser.is_some();
    if is_mere_declaration(declaration.storage, initialised) {
        return Ok(());
    }
    define(alloc, unit, when, name, !initialised)
}

/// Whether a declaration of an object defines nothing.
fn is_mere_declaration(storage: Storage, initialised: bool) -> bool
    ensures { result ≡ Rattle.cond_units.specs.Definitions.is_mere_declaration (plain_storage storage) initialised }
{
    match storage {
        Storage::Extern => !initialised,
        Storage::Static | Storage::Absent => false,
    }
}
