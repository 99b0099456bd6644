//! The units of a project.
ghost use Rattle.std.specs.Prelude.{◌≡◌, ℕ, Bool, List, ◌++◌, length, IsTrue, IfOk};
ghost use Rattle.cond_formula.specs.Features.{has};
ghost use Rattle.cond_formula.specs.Conditions.{condition_of, value};
ghost use Rattle.core_meaning.specs.Checking.{Binding, fine};
ghost use Rattle.core_meaning.specs.Linking.{Units, judged_program};
ghost use Rattle.bindings.specs.Laws.{AreWritten};
ghost use Rattle.cond_bindings.specs.Bindings.{identifiers_of, pairings_at};
ghost use Rattle.cond_scopes.specs.Units.{AreScoped, present_trees};
ghost use Rattle.cond_types.specs.Typed.{IsLinkable};
ghost use Rattle.cond_unit_uses.specs.Noted.{uses_at};
ghost use Rattle.cond_pairings.specs.Pairs.{declared_pairs, pairs_seen};
ghost use Rattle.conditional.specs.Entries.{seen, listed};
ghost use Rattle.cond_name_spaces.specs.Spaced.{plain_name};
ghost use Rattle.member_pairs.specs.Members.{tag_of, pairs_of_uses};
ghost use Rattle.told_units.specs.Told.{IsToldBy, IsToldAt, AreToldFrom};
ghost use Rattle.told_units.specs.Units.{AreLeftWherePresent, UnitsTellNumbers};
ghost use Rattle.told_occurrences.specs.Units.{AreTold};
ghost use Rattle.program_occurrences.specs.Occurrences.{names_of_units};

use crate::names::told_names;
use crate::own::own_tokens;
use choice_trees::{Forest, leaves_are_spelled};
use cond_bindings::{CondBindings, UnitBindings};
use cond_formula::{Formula, NoMemory, Oracle};
use cond_name_spaces::{SpacedName, note_spaces};
use cond_pairings::{CondPairing, pairings};
use cond_selections::Selection;
use cond_types::CondTypes;
use cond_unit_uses::{UnitUses, note_units};
use cond_units::FileItems;
use conditional::CondList;
use core_numbers::bindings_need_no_numbers;
use link_faults::LeftUnit;
use member_pairs::member_pairs;
use project_file::Unit;
use read_occurrences::occurrences_are_read;
use std::alloc::Global;
use told_occurrences::ToldUnit;
use type_tables::Tables;

/// The identifiers of a unit with what declares them: ordinary names, tags and declarations of members, and then the uses of members.
fn told_pairs(
    alloc: Global,
    bound: &UnitBindings,
    tables: &Tables,
    uses: &CondList<Selection>,
    names: &CondList<SpacedName>,
) -> Result<Vec<CondPairing>, NoMemory>
    ensures { IfOk result (λ pairs. (on : ℕ → Bool) → pairs_seen on pairs.items
        ≡ declared_pairs (pairings_at on (identifiers_of bound.now)) ++ pairs_of_uses (tag_of tables.now) (seen on (listed plain_name names.now)) (uses_at on uses.now)) }
{
    let mut all = pairings(alloc, bound)?;
    let mut of_members = member_pairs(alloc, tables, uses, names)?;
    all.append(&mut of_members)?;
    Ok(all)
}

/// What is told of a unit by its trees, by what its identifiers are bound to, by what it leaves, and by the uses of members in it.
fn told_unit<O: Oracle>(
    alloc: Global,
    oracle: &mut O,
    when: &Formula,
    forest: &Forest,
    bound: &UnitBindings,
    left: &LeftUnit,
    tables: &Tables,
    uses: &CondList<Selection>,
) -> Result<ToldUnit, NoMemory>
    ensures kept { O.admits oracle.new ≡ O.admits oracle.old }
    ensures told { IfOk result (λ told. (c : List Bool) → IsTrue (value (has c) (O.admits oracle.old))
        → IsToldBy (has c) (condition_of when.now) forest.now bound.now left.now tables.now uses.now told) }
{
    let spaced = note_spaces(alloc, oracle, when, forest)?;
    let pairs = told_pairs(alloc, bound, tables, uses, &spaced)?;
    let own = own_tokens(alloc, &pairs)?;
    let names = told_names(alloc, left, &own, &spaced)?;
    Ok(ToldUnit { pairs, names })
}

/// Nothing is told.
fn nothing(alloc: Global) -> ToldUnit {
    ToldUnit {
        pairs: Vec::new(alloc),
        names: Vec::new(alloc),
    }
}

/// What is told of the unit at a place; nothing where one of the others has no unit there.
fn told_at<O: Oracle>(
    alloc: Global,
    oracle: &mut O,
    unit: &Unit,
    forest: &Forest,
    place: usize,
    bound: &[UnitBindings],
    left: &[LeftUnit],
    noted: &UnitUses,
) -> Result<ToldUnit, NoMemory>
    ensures kept { O.admits oracle.new ≡ O.admits oracle.old }
    ensures told { IfOk result (λ told. (c : List Bool) → IsTrue (value (has c) (O.admits oracle.old))
        → IsToldAt (has c) unit.now forest.now place bound.now left.now noted.now.tables noted.now.units.items told) }
{
    let Some(bound) = bound.get(place) else {
        return Ok(nothing(alloc));
    };
    let Some(left) = left.get(place) else {
        return Ok(nothing(alloc));
    };
    let Some(uses) = noted.units.get(place) else {
        return Ok(nothing(alloc));
    };
    let told = told_unit(
        alloc,
        oracle,
        &unit.when,
        forest,
        bound,
        left,
        &noted.tables,
        uses,
    )?;
    Ok(told)
}

/// What is told of the units, one by one.
fn told_each<O: Oracle>(
    alloc: Global,
    oracle: &mut O,
    units: &[Unit],
    forests: &[Forest],
    bound: &[UnitBindings],
    left: &[LeftUnit],
    noted: &UnitUses,
) -> Result<Vec<ToldUnit>, NoMemory>
    requires { length forests.now ≡ length units.now }
    ensures kept { O.admits oracle.new ≡ O.admits oracle.old }
    ensures told { IfOk result (λ all. (c : List Bool) → IsTrue (value (has c) (O.admits oracle.old)) → AreToldFrom (has c) bound.now left.now noted.now.tables noted.now.units.items 0 units.now forests.now all.items) }
{
    let mut all = Vec::with_capacity(alloc, units.len())?;
    for (unit, forest) in units.iter().zip(forests) {
        let told = told_at(alloc, oracle, unit, forest, all.len(), bound, left, noted)?;
        all.push(told)?;
    }
    Ok(all)
}

/// The occurrences of the units of a project and the names that they declare for all units, in all configurations at once, by the trees of each
/// unit, by what its identifiers are bound to and by what it leaves for linking. In a configuration that has no program they say nothing.
pub fn told_units<F: FileItems, O: Oracle>(
    alloc: Global,
    oracle: &mut O,
    file_items: &F,
    units: &[Unit],
    forests: &[Forest],
    b: &CondBindings,
    t: &CondTypes,
) -> Result<Vec<ToldUnit>, NoMemory>
    requires { length forests.now ≡ length units.now }
    ensures kept { O.admits oracle.new ≡ O.admits oracle.old }
    ensures told { IfOk result (λ all. (c : List Bool) (linked : Units) (js : List Binding) → IsTrue (value (has c) (O.admits oracle.old))
        → AreScoped (has c) units.now forests.now b.now → AreWritten (present_trees (has c) units.now forests.now)
        → judged_program (present_trees (has c) units.now forests.now) ≡ fine linked js → UnitsTellNumbers (has c) units.now forests.now
        → AreLeftWherePresent (has c) units.now t.now.units.items → IsLinkable (has c) linked t.now
        → AreTold (has c) units.now forests.now (names_of_units (present_trees (has c) units.now forests.now)) all.items) }
{
    bindings_need_no_numbers();
    leaves_are_spelled();
    occurrences_are_read();
    let noted = note_units(alloc, oracle, file_items, units, forests)?;
    let all = told_each(alloc, oracle, units, forests, &b.units, &t.units, &noted)?;
    Ok(all)
}
