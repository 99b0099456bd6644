//! The units of a project.
ghost use Rattle.std.specs.Prelude.{◌≡◌, ℕ, Bool, List, [], length, map, IsTrue, IfOk};
ghost use Rattle.cond_formula.specs.Features.{has};
ghost use Rattle.cond_formula.specs.Conditions.{condition_of, value};
ghost use Rattle.core_meaning.specs.Entities.{Numbers};
ghost use Rattle.core_meaning.specs.Linking.{judged_units};
ghost use Rattle.cond_scopes.specs.Units.{AreInGrammar, present_trees};
ghost use Rattle.cond_types.specs.Units.{AreTyped};

use crate::beginnings::{UnitsSoFar, no_unit, take_unit};
use choice_trees::Forest;
use cond_formula::{Formula, NoMemory, Oracle};
use cond_units::{FileItems, UnitTables};
use conditional::CondList;
use link_faults::LeftNames;
use project_file::Unit;
use std::alloc::Global;
use tree_derivations::units_are_derived;
use type_tables::{Definition, Tables};

/// What a unit leaves by its types, where it is present.
#[derive(Drop)]
pub struct TypedUnit {
    pub when: Formula,
    pub names: LeftNames,
    pub defined: CondList<Definition>,
}

/// What all units of a project are by their types.
#[derive(Drop)]
pub struct TypedUnits {
    pub units: Vec<TypedUnit>,
    /// The structs and the declarations of functions of all units.
    pub tables: Tables,
    /// Where a unit that is present is refused.
    pub refused: Formula,
}

/// The units that have been taken, with their structs and declarations of functions in one table.
fn together(all: UnitsSoFar) -> TypedUnits
    ensures { result ≡ record { units = all.units; tables = record all.next.tables { signatures = all.signatures }; refused = all.refused } }
{
    let UnitsSoFar {
        units,
        signatures,
        next,
        refused,
    } = all;
    let UnitTables {
        mut tables,
        defined: _,
    } = next;
    tables.signatures = signatures;
    TypedUnits {
        units,
        tables,
        refused,
    }
}

/// What the units are by their types, by the trees of each unit, in their order. Structs and declarations of functions have numbers through all
/// units.
pub fn declare_units<F: FileItems, O: Oracle>(
    alloc: Global,
    oracle: &mut O,
    file_items: &F,
    units: &[Unit],
    forests: &[Forest],
) -> Result<TypedUnits, NoMemory>
    requires { length forests.now ≡ length units.now }
    ensures kept { O.admits oracle.new ≡ O.admits oracle.old }
    ensures present { IfOk result (λ t. (c : List Bool) → IsTrue (value (has c) (O.admits oracle.old))
        → map (λ u. value (has c) (condition_of u.when)) t.units.items ≡ map (λ u. value (has c) (condition_of u.when)) units.now) }
    ensures typed { IfOk result (λ t. (c : List Bool) → IsTrue (value (has c) (O.admits oracle.old)) → AreInGrammar (has c) units.now forests.now
        → (globals : ℕ) (numbers : ℕ → Numbers)
        → AreTyped (has c) (judged_units numbers globals 0 [] (present_trees (has c) units.now forests.now)) t) }
{
    units_are_derived();
    let mut all = no_unit(alloc);
    for (unit, forest) in units.iter().zip(forests) {
        take_unit(
            alloc,
            oracle,
            file_items,
            &mut all,
            &unit.when,
            &forest.items,
        )?;
    }
    Ok(together(all))
}
