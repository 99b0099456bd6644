//! Where what stands in the way of a renaming is there, in all configurations at once.
ghost use Rattle.std.specs.Prelude.{◌≡◌, ◌↔◌, ◌<◌, ◌≤◌, List, Bool, length, map, All, IsTrue, IfOk};
ghost use Rattle.text_edits.specs.Files.{plain_files};
ghost use Rattle.cond_formula.specs.Conditions.{condition_of, value, VarsBelow};
ghost use Rattle.cond_formula.specs.Features.{has};
ghost use Rattle.feature_model.specs.ModelView.{admitted};
ghost use Rattle.project_file.specs.View.{project_view};
ghost use Rattle.project_store.specs.Reads.{names_of};
ghost use Rattle.tied_tokens.specs.Tokens.{plain_file_tokens};
ghost use Rattle.program_occurrences.specs.Classes.{PlainFileToken};
ghost use Rattle.command_projects.specs.Least.{IsAdmitted};
ghost use Rattle.project_questions.specs.Questions.{IsFound};
ghost use Rattle.reference_classes.specs.Preconditions.{broken, in_macro_body, macro_name, fixed, capture};
ghost use Rattle.class_touches.specs.Touches.{IsTouchedBy};
ghost use Rattle.rename_op.specs.Outcomes.{plain_precondition};
ghost use Rattle.rename_op.specs.Asked.{IsAsked, NoneBefore, BreaksIn, Tells, project_of, files_of};

use crate::analysed::{
    analyses_are_told, analyses_have_trees, analyses_tell_well, classes_may_get_names,
    identifiers_are_renamed,
};
use crate::asked::Asked;
use crate::captures::captures_are_of_trees;
use crate::outcomes::Precondition;
use class_captures::where_captured;
use class_conditions::{conditions_tell_preconditions, where_fixed_in, where_in_macro_body};
use class_edits::{listed_classes_are_renamed, listed_stand_apart};
use class_touches::{lists_are_read_as_classes, lists_touch_as_classes, read_as_macro};
use cond_formula::{Formula, NoMemory, Oracle};
use project_questions::{Finding, find_least};
use reduced_conditions::{both, either};
use refuted_parts::without_refuted;
use renamed_classes::{classes_may_be_renamed, classes_stand_on_text_lines};
use std::alloc::Global;

/// Where a configuration isn't accepted.
fn where_not_accepted(alloc: Global, asked: &Asked<'_>) -> Result<Formula, NoMemory>
    ensures { IfOk result (λ f. Tells asked.now broken (condition_of f)) }
{
    let accepted = asked.analysis.ties.accepted.try_clone(alloc)?;
    let f = Formula::not(alloc, accepted)?;
    Ok(f)
}

/// Where an identifier of the class comes out of the body of a macro.
fn where_from_macro_body(alloc: Global, asked: &Asked<'_>) -> Result<Formula, NoMemory>
    ensures { IfOk result (λ f. Tells asked.now in_macro_body (condition_of f)) }
{
    analyses_are_told();
    conditions_tell_preconditions();
    let streams = &asked.analysis.parsed.streams;
    let f = where_in_macro_body(alloc, streams, &asked.analysis.told.units, asked.class)?;
    Ok(f)
}

/// Where a token of the class is read while the old name or the new one is a macro.
fn where_macro<O: Oracle>(
    alloc: Global,
    asked: &Asked<'_>,
    oracle: &mut O,
) -> Result<Formula, NoMemory>
    requires named { map (λ f. f.name) (plain_files asked.now.files.now) ≡ names_of (project_view asked.now.project.now) }
    requires short { All (λ f. length f.bytes ≤ 4294967295) (plain_files asked.now.files.now) }
    requires few { length asked.now.files.now.list.items < 4294967295 }
    requires model { O.admits oracle.old ≡ admitted asked.now.project.now.model }
    ensures kept { O.admits oracle.new ≡ O.admits oracle.old }
    ensures tells { IfOk result (λ f. Tells asked.now macro_name (condition_of f)) }
{
    lists_are_read_as_classes();
    let old = read_as_macro(
        alloc,
        asked.project,
        asked.files,
        asked.class,
        asked.old,
        oracle,
    )?;
    let new = read_as_macro(
        alloc,
        asked.project,
        asked.files,
        asked.class,
        asked.new,
        oracle,
    )?;
    let f = either(alloc, old, new)?;
    Ok(f)
}

/// Where an identifier of the class is fixed.
fn where_fixed(alloc: Global, asked: &Asked<'_>) -> Result<Formula, NoMemory>
    ensures { IfOk result (λ f. Tells asked.now fixed (condition_of f)) }
{
    analyses_are_told();
    conditions_tell_preconditions();
    let streams = &asked.analysis.parsed.streams;
    let f = where_fixed_in(alloc, streams, &asked.analysis.told.units, asked.class)?;
    Ok(f)
}

/// Where the renaming captures a name.
fn where_name_captured<O: Oracle>(
    alloc: Global,
    asked: &Asked<'_>,
    oracle: &mut O,
) -> Result<Formula, NoMemory>
    requires as_many { length asked.now.analysis.now.told.numbered.items ≡ length asked.now.project.now.units.items }
    requires model { O.admits oracle.old ≡ admitted asked.now.project.now.model }
    ensures kept { O.admits oracle.new ≡ O.admits oracle.old }
    ensures tells { IfOk result (λ f. Tells asked.now capture (condition_of f)) }
{
    classes_stand_on_text_lines();
    listed_stand_apart();
    listed_classes_are_renamed();
    classes_may_be_renamed();
    analyses_have_trees();
    analyses_tell_well();
    classes_may_get_names();
    identifiers_are_renamed();
    captures_are_of_trees();
    let told = &asked.analysis.told;
    let f = where_captured(
        alloc,
        oracle,
        &asked.project.units,
        &told.numbered,
        &told.units,
        &asked.analysis.ties.names,
        asked.class,
        asked.old,
        asked.new,
    )?;
    Ok(f)
}

/// Where a precondition's cause is there, in configurations that the class touches.
fn where_caused<O: Oracle>(
    alloc: Global,
    asked: &Asked<'_>,
    precondition: Precondition,
    oracle: &mut O,
) -> Result<Formula, NoMemory>
    requires named { map (λ f. f.name) (plain_files asked.now.files.now) ≡ names_of (project_view asked.now.project.now) }
    requires short { All (λ f. length f.bytes ≤ 4294967295) (plain_files asked.now.files.now) }
    requires few { length asked.now.files.now.list.items < 4294967295 }
    requires as_many { length asked.now.analysis.now.told.numbered.items ≡ length asked.now.project.now.units.items }
    requires model { O.admits oracle.old ≡ admitted asked.now.project.now.model }
    ensures kept { O.admits oracle.new ≡ O.admits oracle.old }
    ensures tells { IfOk result (λ f. Tells asked.now (plain_precondition precondition) (condition_of f)) }
{
    match precondition {
        Precondition::Broken => where_not_accepted(alloc, asked),
        Precondition::InMacroBody => where_from_macro_body(alloc, asked),
        Precondition::MacroName => where_macro(alloc, asked, oracle),
        Precondition::Fixed => where_fixed(alloc, asked),
        Precondition::Capture => where_name_captured(alloc, asked, oracle),
    }
}

/// The least configuration that breaks a precondition, or a proof that none does. `read` is where a token of the class is read.
pub(crate) fn least_breaking<O: Oracle>(
    alloc: Global,
    asked: &Asked<'_>,
    read: &Formula,
    precondition: Precondition,
    oracle: &mut O,
) -> Result<Finding, NoMemory>
    requires named { map (λ f. f.name) (plain_files asked.now.files.now) ≡ names_of (project_view asked.now.project.now) }
    requires short { All (λ f. length f.bytes ≤ 4294967295) (plain_files asked.now.files.now) }
    requires few { length asked.now.files.now.list.items < 4294967295 }
    requires as_many { length asked.now.analysis.now.told.numbered.items ≡ length asked.now.project.now.units.items }
    requires features { length asked.now.project.now.features.items ≤ 128 }
    requires below { VarsBelow (length asked.now.project.now.features.items) (admitted asked.now.project.now.model) }
    requires model { O.admits oracle.old ≡ admitted asked.now.project.now.model }
    requires touched { (c : List Bool) → IsAdmitted (project_of asked.now) c → IsTrue (value (has c) (condition_of read.now))
        ↔ IsTouchedBy (project_of asked.now) (files_of asked.now) (plain_file_tokens asked.now.class.now) c }
    ensures kept { O.admits oracle.new ≡ O.admits oracle.old }
    ensures least { IfOk result (λ found. (place : PlainFileToken) → IsAsked asked.now place → NoneBefore asked.now place (plain_precondition precondition)
        → IsFound (project_of asked.now) (BreaksIn asked.now place (plain_precondition precondition)) found) }
{
    lists_touch_as_classes();
    let caused = where_caused(alloc, asked, precondition, oracle)?;
    let live = without_refuted(alloc, oracle, &caused)?;
    let read = read.try_clone(alloc)?;
    let breaking = both(alloc, read, live)?;
    let found = find_least(alloc, asked.project, &breaking)?;
    Ok(found)
}
