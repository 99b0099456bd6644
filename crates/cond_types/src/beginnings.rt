//! How far the units have come that are declared one after the other.
ghost use Rattle.std.specs.Prelude.{◌≡◌, ℕ, Bool, false, ◌||◌, List, [], IsTrue, OnOk};
ghost use Rattle.cond_formula.specs.Features.{has};
ghost use Rattle.cond_formula.specs.Conditions.{condition_of, value};
ghost use Rattle.c_tree.specs.declared.kinds.Kind.TheVariants as k;
ghost use Rattle.choice_trees.specs.ChoiceTrees.{plain_choices, parts_at};
ghost use Rattle.cond_units.specs.Seen.{seen_unit};
ghost use Rattle.cond_types.specs.Leaving.{unit_before_all};
ghost use Rattle.cond_types.specs.Steps.{TakesUnit};

use crate::ends::declare_to_end;
use crate::leaving::leave;
use crate::units::TypedUnit;
use choice_trees::{Choice, Item};
use cond_formula::{Formula, NoMemory, Oracle};
use cond_units::{FileItems, UnitTables};
use conditional::CondList;
use reduced_conditions::either;
use std::alloc::Global;
use std::mem;
use type_tables::{CondSignature, Tables};

/// The units so far.
#[derive(Drop)]
pub(crate) struct UnitsSoFar {
    pub(crate) units: Vec<TypedUnit>,
    /// Their declarations of functions.
    pub(crate) signatures: Vec<CondSignature>,
    /// The next unit where it begins, with the structs so far.
    pub(crate) next: UnitTables,
    /// Where one of them is refused.
    pub(crate) refused: Formula,
}

/// Before the first unit.
#[tactic(auto, using(cond_formula::specs::ConditionLaws::formula_kinds))]
pub(crate) fn no_unit(alloc: Global) -> UnitsSoFar
    ensures units { result.units.items ≡ [] }
    ensures signatures { result.signatures.items ≡ [] }
    ensures next { (on : ℕ → Bool) → seen_unit on result.next ≡ unit_before_all }
    ensures refused { (on : ℕ → Bool) → value on (condition_of result.refused) ≡ false }
{
    UnitsSoFar {
        units: Vec::new(alloc),
        signatures: Vec::new(alloc),
        next: UnitTables {
            tables: Tables::new(alloc),
            defined: CondList::empty(alloc),
        },
        refused: Formula::False,
    }
}

/// Refused there too.
fn refuse(alloc: Global, refused: &mut Formula, too: Formula) -> Result<(), NoMemory>
    ensures { OnOk result ((on : ℕ → Bool) → value on (condition_of refused.new) ≡ (value on (condition_of refused.old) || value on (condition_of too))) }
{
    let before = mem::replace(refused, Formula::False);
    *refused = either(alloc, before, too)?;
    Ok(())
}

/// One more unit, with these items, where the condition is true.
pub(crate) fn take_unit<F: FileItems, O: Oracle>(
    alloc: Global,
    oracle: &mut O,
    file_items: &F,
    all: &mut UnitsSoFar,
    when: &Formula,
    items: &[Choice<Item>],
) -> Result<(), NoMemory>
    ensures kept { O.admits oracle.new ≡ O.admits oracle.old }
    ensures takes { OnOk result ((c : List Bool) → IsTrue (value (has c) (O.admits oracle.old))
        → TakesUnit (has c) (value (has c) (condition_of when.now)) (parts_at (has c) k.Unit 0 (plain_choices items.now)) all.old all.new) }
{
    let found = declare_to_end(alloc, oracle, file_items, &mut all.next, when, items)?;
    let left = leave(alloc, &mut all.next, &mut all.signatures, when)?;
    all.units.push(left)?;
    refuse(alloc, &mut all.refused, found)?;
    Ok(())
}
