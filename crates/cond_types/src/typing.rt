//! The types of units with the names that they use.
ghost use Rattle.std.specs.Prelude.{◌≡◌, ℕ, List, [], Bool, length, map, IsTrue, IfOk};
ghost use Rattle.cond_formula.specs.Features.{has};
ghost use Rattle.cond_formula.specs.Conditions.{condition_of, value};
ghost use Rattle.core_meaning.specs.Entities.{Numbers};
ghost use Rattle.core_meaning.specs.Linking.{judged_units, judged_program};
ghost use Rattle.bindings.specs.Laws.{AreWritten};
ghost use Rattle.cond_scopes.specs.Units.{AreScoped, present_trees};
ghost use Rattle.cond_types.specs.Typed.{IsTypedAs};
ghost use Rattle.cond_types.specs.Uses.{HaveUses};

use crate::uses::uses_at;
use crate::{TypedUnit, TypedUnits, UnitItems, declare_units};
use bindings::file_names_are_used_alike;
use choice_trees::Forest;
use cond_bindings::{CondBindings, UnitBindings};
use cond_formula::{Formula, NoMemory, Oracle};
use link_faults::LeftUnit;
use project_file::Unit;
use std::alloc::Global;
use type_tables::Tables;

/// What the units of a project are by their types, in all configurations.
#[derive(Drop)]
pub struct CondTypes {
    /// What each unit leaves for linking, in the order of the project's units.
    pub units: Vec<LeftUnit>,
    /// The structs and the declarations of functions of all units.
    pub tables: Tables,
    /// Where a unit that is present is refused.
    pub refused: Formula,
}

/// What units leave, with the names that their expressions use.
fn all_with_uses(
    alloc: Global,
    typed: Vec<TypedUnit>,
    bound: &[UnitBindings],
) -> Result<Vec<LeftUnit>, NoMemory>
    ensures { IfOk result (λ left. HaveUses bound.now 0 typed.items left.items) }
{
    let mut left = Vec::with_capacity(alloc, typed.len())?;
    for unit in typed {
        let uses = uses_at(alloc, bound, left.len())?;
        let TypedUnit {
            when,
            names,
            defined,
        } = unit;
        left.push(LeftUnit {
            when,
            names,
            defined,
            uses,
        })?;
    }
    Ok(left)
}

/// What the units are by their types, by the trees of each unit and what its identifiers are bound to.
pub fn types<O: Oracle>(
    alloc: Global,
    oracle: &mut O,
    units: &[Unit],
    forests: &[Forest],
    b: &CondBindings,
) -> Result<CondTypes, NoMemory>
    requires { length forests.now ≡ length units.now }
    ensures kept { O.admits oracle.new ≡ O.admits oracle.old }
    ensures present { IfOk result (λ t. (c : List Bool) → IsTrue (value (has c) (O.admits oracle.old))
        → map (λ u. value (has c) (condition_of u.when)) t.units.items ≡ map (λ u. value (has c) (condition_of u.when)) units.now) }
    ensures typed { IfOk result (λ t. (c : List Bool) → IsTrue (value (has c) (O.admits oracle.old)) → AreScoped (has c) units.now forests.now b.now
        → AreWritten (present_trees (has c) units.now forests.now) → (globals : ℕ) (numbers : ℕ → Numbers)
        → IsTypedAs (has c) (judged_units numbers globals 0 [] (present_trees (has c) units.now forests.now)) t) }
    ensures judged { IfOk result (λ t. (c : List Bool) → IsTrue (value (has c) (O.admits oracle.old)) → AreScoped (has c) units.now forests.now b.now
        → AreWritten (present_trees (has c) units.now forests.now) → IsTypedAs (has c) (judged_program (present_trees (has c) units.now forests.now)) t) }
{
    file_names_are_used_alike();
    let found = declare_units(alloc, oracle, &UnitItems, units, forests)?;
    let TypedUnits {
        units: typed,
        tables,
        refused,
    } = found;
    let units = all_with_uses(alloc, typed, &b.units)?;
    Ok(CondTypes {
        units,
        tables,
        refused,
    })
}
