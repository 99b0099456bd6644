//! The analysis of a project.
ghost use Rattle.std.specs.Prelude.{◌≡◌, ◌<◌, ◌≤◌, List, Bool, length, map, All, IsTrue, IfOk};
ghost use Rattle.std.specs.List.{AllZip};
ghost use Rattle.text_edits.specs.Files.{plain_files};
ghost use Rattle.cond_formula.specs.Features.{has};
ghost use Rattle.cond_formula.specs.Conditions.{condition_of, value, VarsBelow};
ghost use Rattle.feature_model.specs.ModelView.{admitted};
ghost use Rattle.core_meaning.specs.Checking.{Binding, fine};
ghost use Rattle.core_meaning.specs.Linking.{Units, judged_program};
ghost use Rattle.bindings.specs.Laws.{AreWritten};
ghost use Rattle.project_file.specs.View.{project_view};
ghost use Rattle.project_store.specs.Reads.{names_of};
ghost use Rattle.cond_scopes.specs.Units.{present_trees};
ghost use Rattle.cond_types.specs.Elaborated.{TellsElaborated};
ghost use Rattle.program_occurrences.specs.Occurrences.{names_of_units};
ghost use Rattle.reference_classes.specs.Products.{Product};
ghost use Rattle.project_check.specs.Parsed.{AreParsed, HaveLeaves};
ghost use Rattle.project_check.specs.Broken.{TellsTrees};
ghost use Rattle.changed_forests.specs.Numbered.{IsNumbered};
ghost use Rattle.told_occurrences.specs.Units.{AreTold};
ghost use Rattle.told_units.specs.Units.{UnitsTellNumbers};
ghost use Rattle.project_analysis.specs.Analysed.{IsAnalysed};

use c_tree::tokens_spell_one_unit;
use changed_forests::{changes_are_seen, numbered, numberings_are_seen, sites_dont_matter};
use choice_trees::Forest;
use cond_formula::{Formula, NoMemory, Oracle};
use cond_scopes::scopes;
use cond_types::{UnitItems, types, where_typed_not_elaborated};
use moved_trees::units_stay_units;
use plain_pp::outcomes_are_one;
use project_check::{ParsedUnits, parse_units};
use project_file::{Project, Unit};
use project_program::programs_are_one;
use project_ties::{ProjectTies, ties_of_told};
use std::alloc::Global;
use text_edits::Files;
use told_occurrences::ToldUnit;
use told_units::told_units;
use unit_outcomes::tokens_are_spelt;
use verdict_query::ModelOracle;

/// What is told of units in all configurations, by their trees.
#[derive(Drop)]
pub struct ToldUnits {
    /// The occurrences of each unit, and the names that it declares for all.
    pub units: Vec<ToldUnit>,
    /// Where the units have no core program.
    pub broken: Formula,
}

/// What is told of the identifiers of a project's units in all configurations.
#[derive(Drop)]
pub struct ToldProject {
    /// The trees of each unit; the site of each token is its number in the unit's stream.
    pub numbered: Vec<Forest>,
    /// The occurrences of each unit, and the names that it declares for all, by the numbers of tokens.
    pub units: Vec<ToldUnit>,
}

/// What is known of a project in all configurations.
#[derive(Drop)]
pub struct Analysis {
    /// The tokens of its units and their trees, and where there are none.
    pub parsed: ParsedUnits,
    pub told: ToldProject,
    /// The same by the tokens of files.
    pub ties: ProjectTies,
}

/// The same trees, whose tokens tell their numbers.
fn all_numbered(alloc: Global, forests: &[Forest]) -> Result<Vec<Forest>, NoMemory>
    ensures { IfOk result (λ all. AllZip IsNumbered forests.now all.items) }
{
    let mut all = Vec::with_capacity(alloc, forests.len())?;
    for forest in forests {
        let copy = numbered(alloc, forest)?;
        all.push(copy)?;
    }
    Ok(all)
}

/// The occurrences of units by their trees, whose tokens tell their numbers, the names that they declare for one another, and where they have no
/// core program.
pub fn told_of<O: Oracle>(
    alloc: Global,
    oracle: &mut O,
    units: &[Unit],
    forests: &[Forest],
) -> Result<ToldUnits, NoMemory>
    requires { length forests.now ≡ length units.now }
    ensures kept { O.admits oracle.new ≡ O.admits oracle.old }
    ensures told { IfOk result (λ all. (c : List Bool) (linked : Units) (js : List Binding) → IsTrue (value (has c) (O.admits oracle.old))
        → AreWritten (present_trees (has c) units.now forests.now) → judged_program (present_trees (has c) units.now forests.now) ≡ fine linked js
        → UnitsTellNumbers (has c) units.now forests.now
        → AreTold (has c) units.now forests.now (names_of_units (present_trees (has c) units.now forests.now)) all.units.items) }
    ensures broken { IfOk result (λ all. (c : List Bool) → IsTrue (value (has c) (O.admits oracle.old)) → AreWritten (present_trees (has c) units.now forests.now)
        → TellsElaborated (value (has c) (condition_of all.broken)) (present_trees (has c) units.now forests.now)) }
{
    let b = scopes(alloc, units, forests, oracle)?;
    let t = types(alloc, oracle, units, forests, &b)?;
    let broken = where_typed_not_elaborated(alloc, oracle, &t)?;
    let told = told_units(alloc, oracle, &UnitItems, units, forests, &b, &t)?;
    Ok(ToldUnits {
        units: told,
        broken,
    })
}

/// What is told of a project whose units are parsed so, by their trees whose tokens tell their numbers.
fn told_project<O: Oracle>(
    alloc: Global,
    oracle: &mut O,
    project: &Project,
    files: &Files,
    parsed: &ParsedUnits,
    numbered: &[Forest],
) -> Result<ToldUnits, NoMemory>
    requires named { map (λ f. f.name) (plain_files files.now) ≡ names_of (project_view project.now) }
    requires as_many { length parsed.now.forests.items ≡ length project.now.units.items }
    requires model { O.admits oracle.old ≡ admitted project.now.model }
    requires parsed { (c : List Bool) → IsTrue (value (has c) (O.admits oracle.old)) → AreParsed (has c) project.now (plain_files files.now) parsed.now }
    requires leaves { (c : List Bool) → IsTrue (value (has c) (O.admits oracle.old)) → HaveLeaves (has c) project.now parsed.now }
    requires numbered { AllZip IsNumbered parsed.now.forests.items numbered.now }
    ensures kept { O.admits oracle.new ≡ O.admits oracle.old }
    ensures told { IfOk result (λ t. (c : List Bool) → Product (project_view project.now) (plain_files files.now) c
        → AreTold (has c) project.now.units.items numbered.now (names_of_units (present_trees (has c) project.now.units.items numbered.now)) t.units.items) }
    ensures broken { IfOk result (λ t. (c : List Bool) → IsTrue (value (has c) (O.admits oracle.old))
        → TellsTrees (value (has c) (condition_of t.broken)) (has c) project.now parsed.now) }
{
    programs_are_one();
    outcomes_are_one();
    tokens_spell_one_unit();
    tokens_are_spelt();
    changes_are_seen();
    numberings_are_seen();
    sites_dont_matter();
    units_stay_units();
    let told = told_of(alloc, oracle, &project.units, numbered)?;
    Ok(told)
}

/// What is known of a project in all configurations. `files` are its headers and then its units.
pub fn analysed(alloc: Global, project: &Project, files: &Files) -> Result<Analysis, NoMemory>
    requires named { map (λ f. f.name) (plain_files files.now) ≡ names_of (project_view project.now) }
    requires short { All (λ f. length f.bytes ≤ 4294967295) (plain_files files.now) }
    requires few { length files.now.list.items < 4294967295 }
    requires below { VarsBelow (length project.now.features.items) (admitted project.now.model) }
    ensures { IfOk result (IsAnalysed project.now (plain_files files.now)) }
{
    let mut oracle = ModelOracle::new(alloc, &project.model);
    let parsed = parse_units(alloc, project, files, &mut oracle)?;
    let numbered = all_numbered(alloc, &parsed.forests)?;
    let found = told_project(alloc, &mut oracle, project, files, &parsed, &numbered)?;
    let ToldUnits { units, broken } = found;
    let ties = ties_of_told(
        alloc,
        &mut oracle,
        project,
        files,
        &parsed,
        &numbered,
        &units,
        broken,
    )?;
    let told = ToldProject { numbered, units };
    Ok(Analysis { parsed, told, ties })
}
