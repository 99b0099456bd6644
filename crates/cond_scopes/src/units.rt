//! The units of a project.

ghost use Rattle.std.specs.Prelude.{◌≡◌, Bool, List, length, IsTrue, IfOk};
ghost use Rattle.cond_formula.specs.Features.{has};
ghost use Rattle.cond_formula.specs.Conditions.{condition_of, value};
ghost use Rattle.cond_scopes.specs.Units.{IsScoped, UsesFileNames, IsRefused, AreScoped};

use crate::parts::read_node;
use c_tree::Kind;
use choice_trees::Forest;
use cond_bindings::{CondBindings, Names, UnitBindings};
use cond_formula::{Formula, NoMemory, Oracle};
use path_conditions::with;
use project_file::Unit;
use reduced_conditions::either;
use scope_readings::{file_names_are_read, scopes_are_read};
use std::alloc::Global;

/// What the identifiers of a unit are bound to where it is present, with the names of file scope that its expressions use, and the condition under which one of them is undeclared.
fn unit_scopes<O: Oracle>(
    alloc: Global,
    when: &Formula,
    forest: &Forest,
    oracle: &mut O,
) -> Result<(UnitBindings, Formula), NoMemory>
    ensures kept { O.admits oracle.new ≡ O.admits oracle.old }
    ensures scoped { IfOk result (λ r. (c : List Bool) → IsTrue (value (has c) (O.admits oracle.old)) → IsScoped (has c) (condition_of when.now) forest.now r.0) }
    ensures used { IfOk result (λ r. (c : List Bool) → IsTrue (value (has c) (O.admits oracle.old)) → UsesFileNames (has c) (condition_of when.now) forest.now r.0) }
    ensures refused { IfOk result (λ r. (c : List Bool) → IsTrue (value (has c) (O.admits oracle.old)) → IsRefused (has c) (condition_of when.now) forest.now (value (has c) (condition_of r.1))) }
{
    scopes_are_read();
    file_names_are_read();
    let mut names = Names::new(alloc);
    let nowhere = Vec::new(alloc);
    let path = with(alloc, &nowhere, when)?;
    read_node(
        &mut names,
        alloc,
        Kind::Unit,
        Kind::Unit,
        &forest.items,
        &path,
        oracle,
    )?;
    Ok(names.finished())
}

/// What the identifiers of the units are bound to in all configurations, by the trees of each unit: ordinary names, tags, and members
/// where they are declared (ISO/IEC 9899:2011, 6.2.1 to 6.2.3). Of each unit it says too which names of file scope its expressions use.
pub fn scopes<O: Oracle>(
    alloc: Global,
    units: &[Unit],
    forests: &[Forest],
    oracle: &mut O,
) -> Result<CondBindings, NoMemory>
    requires { length forests.now ≡ length units.now }
    ensures kept { O.admits oracle.new ≡ O.admits oracle.old }
    ensures scoped { IfOk result (λ b. (c : List Bool) → IsTrue (value (has c) (O.admits oracle.old)) → AreScoped (has c) units.now forests.now b) }
{
    let mut all = CondBindings {
        units: Vec::with_capacity(alloc, units.len())?,
        refused: Formula::False,
    };
    for (unit, forest) in units.iter().zip(forests) {
        let (bindings, refused) = unit_scopes(alloc, &unit.when, forest, oracle)?;
        all.units.push(bindings)?;
        all.refused = either(alloc, all.refused, refused)?;
    }
    Ok(all)
}
