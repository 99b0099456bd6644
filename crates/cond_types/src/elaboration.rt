//! Where units have no core program.
ghost use Rattle.std.specs.Prelude.{◌≡◌, List, Bool, length, IsTrue, IfOk};
ghost use Rattle.cond_formula.specs.Features.{has};
ghost use Rattle.cond_formula.specs.Conditions.{condition_of, value};
ghost use Rattle.c_tree.specs.Trees.{PlainTree};
ghost use Rattle.core_meaning.specs.Linking.{judged_program};
ghost use Rattle.bindings.specs.Laws.{AreWritten};
ghost use Rattle.cond_scopes.specs.Units.{present_trees};
ghost use Rattle.cond_types.specs.Typed.{IsTypedAs};
ghost use Rattle.cond_types.specs.Elaborated.{TellsElaborated};

use crate::linking::links;
use crate::typing::{CondTypes, types};
use choice_trees::Forest;
use cond_formula::{Formula, NoMemory, Oracle};
use cond_scopes::scopes;
use project_file::Unit;
use reduced_conditions::either;
use std::alloc::Global;

/// Where units that are typed so have no core program: a type is refused, or they don't link.
pub fn where_typed_not_elaborated<O: Oracle>(
    alloc: Global,
    oracle: &mut O,
    t: &CondTypes,
) -> Result<Formula, NoMemory>
    ensures kept { O.admits oracle.new ≡ O.admits oracle.old }
    ensures exact { IfOk result (λ f. (c : List Bool) (trees : List PlainTree) → IsTrue (value (has c) (O.admits oracle.old))
        → IsTypedAs (has c) (judged_program trees) t.now → TellsElaborated (value (has c) (condition_of f)) trees) }
{
    let badly_typed = t.refused.try_clone(alloc)?;
    let linked = links(alloc, oracle, t)?;
    let f = either(alloc, badly_typed, linked.refused)?;
    Ok(f)
}

/// Where the trees of the units that are present have no core program: a type is refused, or they don't link.
pub fn where_not_elaborated<O: Oracle>(
    alloc: Global,
    oracle: &mut O,
    units: &[Unit],
    forests: &[Forest],
) -> Result<Formula, NoMemory>
    requires { length forests.now ≡ length units.now }
    ensures kept { O.admits oracle.new ≡ O.admits oracle.old }
    ensures exact { IfOk result (λ f. (c : List Bool) → IsTrue (value (has c) (O.admits oracle.old)) → AreWritten (present_trees (has c) units.now forests.now)
        → TellsElaborated (value (has c) (condition_of f)) (present_trees (has c) units.now forests.now)) }
{
    let bindings = scopes(alloc, units, forests, oracle)?;
    let found = types(alloc, oracle, units, forests, &bindings)?;
    let f = where_typed_not_elaborated(alloc, oracle, &found)?;
    Ok(f)
}
