//! What a unit leaves at its end, where the next one begins.
ghost use Rattle.std.specs.Prelude.{◌≡◌, ℕ, Bool, List, [], ◌++◌, length, option_map, IfOk, OnOk};
ghost use Rattle.cond_formula.specs.Conditions.{condition_of};
ghost use Rattle.conditional.specs.Entries.{seen, listed};
ghost use Rattle.type_tables.specs.Seen.{seen_tables};
ghost use Rattle.link_faults.specs.SeenUnits.{name_seen};
ghost use Rattle.cond_units.specs.Seen.{seen_unit};
ghost use Rattle.type_tables.specs.Definitions.{definition_form};
ghost use Rattle.cond_types.specs.Leaving.{name_behind, without_functions, begun};

use crate::left_names::take_names;
use crate::units::TypedUnit;
use cond_formula::{Formula, NoMemory};
use cond_units::UnitTables;
use conditional::CondList;
use std::alloc::{AllocError, Global};
use std::mem;
use type_tables::{CondSignature, Definition, Tables};

/// How many declarations of functions there are.
fn count(signatures: &[CondSignature]) -> Result<u32, NoMemory>
    ensures { IfOk result (λ n. n ≡ length signatures.now) }
{
    let count = u32::try_from(signatures.len()).map_err(|_| AllocError)?;
    Ok(count)
}

/// The declarations of functions are taken out of the tables, behind the others.
fn take_signatures(tables: &mut Tables, signatures: &mut Vec<CondSignature>) -> Result<(), NoMemory>
    ensures taken { OnOk result (signatures.new.items ≡ signatures.old.items ++ tables.old.signatures.items) }
    ensures seen { OnOk result ((on : ℕ → Bool) → seen_tables on tables.new ≡ without_functions (seen_tables on tables.old)) }
{
    signatures.append(&mut tables.signatures)?;
    Ok(())
}

/// The definitions of a unit, of which none are left.
fn take_definitions(alloc: Global, defined: &mut CondList<Definition>) -> CondList<Definition>
    ensures taken { result ≡ defined.old }
    ensures none { (on : ℕ → Bool) → seen on (listed definition_form defined.new) ≡ [] }
{
    mem::replace(defined, CondList::empty(alloc))
}

/// What a unit leaves that is present where the condition is true. Its declarations of functions go behind those of the units before it, and the
/// next unit begins.
pub(crate) fn leave(
    alloc: Global,
    unit: &mut UnitTables,
    signatures: &mut Vec<CondSignature>,
    when: &Formula,
) -> Result<TypedUnit, NoMemory>
    ensures when { IfOk result (λ left. condition_of left.when ≡ condition_of when.now) }
    ensures names { IfOk result (λ left. (on : ℕ → Bool) (name : List ℕ) → name_seen on left.names name ≡ option_map (name_behind (length signatures.old.items)) ((seen_tables on unit.old.tables).names name)) }
    ensures defined { IfOk result (λ left. (on : ℕ → Bool) → seen on (listed definition_form left.defined) ≡ seen on (listed definition_form unit.old.defined)) }
    ensures signatures { OnOk result (signatures.new.items ≡ signatures.old.items ++ unit.old.tables.signatures.items) }
    ensures begun { OnOk result ((on : ℕ → Bool) → seen_unit on unit.new ≡ begun (seen_unit on unit.old)) }
{
    let earlier = count(signatures)?;
    let names = take_names(alloc, &mut unit.tables, earlier)?;
    take_signatures(&mut unit.tables, signatures)?;
    let _names_again = unit.tables.begin_unit(alloc);
    let defined = take_definitions(alloc, &mut unit.defined);
    let when = when.try_clone(alloc)?;
    Ok(TypedUnit {
        when,
        names,
        defined,
    })
}
