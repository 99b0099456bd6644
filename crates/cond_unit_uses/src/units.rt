//! The uses of members in the units of a project.
ghost use Rattle.std.specs.Prelude.{◌≡◌, ℕ, Bool, List, [], length, IsTrue, IfOk};
ghost use Rattle.cond_formula.specs.Features.{has};
ghost use Rattle.cond_formula.specs.Conditions.{condition_of, value};
ghost use Rattle.c_tree.specs.declared.kinds.Kind.TheVariants as k;
ghost use Rattle.choice_trees.specs.ChoiceTrees.{plain_choices, parts_at};
ghost use Rattle.core_meaning.specs.Checking.{Binding, fine};
ghost use Rattle.core_meaning.specs.Entities.{Numbers};
ghost use Rattle.core_meaning.specs.Linking.{Units, judged_units};
ghost use Rattle.bindings.specs.Laws.{AreWritten};
ghost use Rattle.cond_scopes.specs.Units.{present_trees};
ghost use Rattle.cond_units.specs.Seen.{seen_unit};
ghost use Rattle.type_tables.specs.Seen.{seen_tables};
ghost use Rattle.cond_types.specs.Leaving.{unit_before_all, without_functions, begun};
ghost use Rattle.cond_unit_uses.specs.Noted.{uses_at};
ghost use Rattle.cond_unit_uses.specs.Units.{uses_in_units, AreNoted, TakesUnit};

use crate::items::note_items;
use choice_trees::{Choice, Forest, Item};
use cond_formula::{Formula, NoMemory, Oracle};
use cond_selections::Selection;
use cond_units::{FileItems, UnitTables};
use conditional::CondList;
use project_file::Unit;
use std::alloc::Global;
use tree_derivations::units_are_derived;
use type_tables::Tables;
use unit_member_uses::{scopes_keep_names, units_are_used};

/// The uses of members in all units of a project.
#[derive(Drop)]
pub struct UnitUses {
    /// Those of each unit, in the order of the text: identifiers with the numbers of the structs whose members they name.
    pub units: Vec<CondList<Selection>>,
    /// The structs of all units, by their numbers.
    pub tables: Tables,
}

/// Before the first unit.
fn no_unit(alloc: Global) -> UnitTables
    ensures { (on : ℕ → Bool) → seen_unit on result ≡ unit_before_all }
{
    UnitTables {
        tables: Tables::new(alloc),
        defined: CondList::empty(alloc),
    }
}

/// The declarations of functions are those of a unit.
fn forget_functions(alloc: Global, tables: &mut Tables)
    ensures { (on : ℕ → Bool) → seen_tables on tables.new ≡ without_functions (seen_tables on tables.old) }
{
    tables.signatures = Vec::new(alloc);
}

/// The next unit begins, behind the structs of those before it.
fn begin(alloc: Global, unit: &mut UnitTables)
    ensures { (on : ℕ → Bool) → seen_unit on unit.new ≡ begun (seen_unit on unit.old) }
{
    forget_functions(alloc, &mut unit.tables);
    let _names = unit.tables.begin_unit(alloc);
    unit.defined = CondList::empty(alloc);
}

/// The uses in one more unit, with these items, where the condition is true. The next unit begins behind it.
fn note_unit<F: FileItems, O: Oracle>(
    alloc: Global,
    oracle: &mut O,
    file_items: &F,
    unit: &mut UnitTables,
    when: &Formula,
    items: &[Choice<Item>],
) -> Result<CondList<Selection>, NoMemory>
    ensures kept { O.admits oracle.new ≡ O.admits oracle.old }
    ensures takes { IfOk result (λ log. (c : List Bool) → IsTrue (value (has c) (O.admits oracle.old))
        → TakesUnit (value (has c) (condition_of when.now)) (parts_at (has c) k.Unit 0 (plain_choices items.now)) (seen_unit (has c) unit.old) (seen_unit (has c) unit.new) (uses_at (has c) log)) }
{
    let mut log = CondList::empty(alloc);
    note_items(alloc, oracle, file_items, unit, when, items, &mut log)?;
    begin(alloc, unit);
    Ok(log)
}

/// The uses of members in units, by the trees of each unit, in their order. Structs have numbers through all units. Where a unit is refused they
/// say nothing.
pub fn note_units<F: FileItems, O: Oracle>(
    alloc: Global,
    oracle: &mut O,
    file_items: &F,
    units: &[Unit],
    forests: &[Forest],
) -> Result<UnitUses, NoMemory>
    requires { length forests.now ≡ length units.now }
    ensures kept { O.admits oracle.new ≡ O.admits oracle.old }
    ensures noted { IfOk result (λ uses. (c : List Bool) (globals : ℕ) (numbers : ℕ → Numbers) (linked : Units) (bindings : List Binding) → IsTrue (value (has c) (O.admits oracle.old))
        → AreWritten (present_trees (has c) units.now forests.now) → judged_units numbers globals 0 [] (present_trees (has c) units.now forests.now) ≡ fine linked bindings
        → AreNoted (has c) linked.structs units.now (λ by. uses_in_units by numbers globals 0 [] (present_trees (has c) units.now forests.now)) uses) }
{
    units_are_derived();
    units_are_used();
    scopes_keep_names();
    let mut all = Vec::with_capacity(alloc, units.len())?;
    let mut next = no_unit(alloc);
    for (unit, forest) in units.iter().zip(forests) {
        let log = note_unit(
            alloc,
            oracle,
            file_items,
            &mut next,
            &unit.when,
            &forest.items,
        )?;
        all.push(log)?;
    }
    let UnitTables { tables, defined: _ } = next;
    Ok(UnitUses { units: all, tables })
}
