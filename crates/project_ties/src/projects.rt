//! The ties of a project.

ghost use Rattle.std.specs.Prelude.{◌≡◌, not, List, Bool, length, map, IsTrue, IfOk};
ghost use Rattle.std.specs.List.{AllZip};
ghost use Rattle.text_edits.specs.Files.{plain_files};
ghost use Rattle.cond_formula.specs.Features.{has};
ghost use Rattle.cond_formula.specs.Conditions.{condition_of, value, VarsBelow};
ghost use Rattle.feature_model.specs.ModelView.{admitted};
ghost use Rattle.project_file.specs.View.{project_view};
ghost use Rattle.project_store.specs.Reads.{names_of};
ghost use Rattle.cond_scopes.specs.Units.{present_trees};
ghost use Rattle.project_check.specs.Parsed.{AreParsed, HaveLeaves};
ghost use Rattle.project_check.specs.Broken.{TellsTrees, TellsProgram};
ghost use Rattle.program_occurrences.specs.Occurrences.{names_of_units};
ghost use Rattle.reference_classes.specs.Products.{Product};
ghost use Rattle.tied_tokens.specs.Ties.{plain_tied_tokens};
ghost use Rattle.tied_classes.specs.Told.{TellsProducts};
ghost use Rattle.changed_forests.specs.Numbered.{IsNumbered};
ghost use Rattle.told_occurrences.specs.Units.{AreTold};
ghost use Rattle.project_ties.specs.Tied.{IsOwn};
ghost use Rattle.project_ties.specs.Projects.{tied_tokens_of};

use crate::conditions::own_condition;
use crate::names::names_of_units;
use crate::ties::ties_of_units;
use c_tree::tokens_spell_one_unit;
use choice_trees::Forest;
use cond_formula::{Formula, NoMemory, Oracle};
use plain_pp::outcomes_are_one;
use project_check::{ParsedUnits, where_parsed_broken};
use project_file::Project;
use project_program::programs_are_one;
use refuted_parts::without_refuted;
use std::alloc::Global;
use text_edits::Files;
use tied_tokens::{DeclaredName, Tie, TiedTokens};
use told_occurrences::ToldUnit;
use told_ties::{occurrences_are_tied, ties_are_seen};

/// What is told of the identifiers of a project.
#[derive(Drop)]
pub struct ProjectTies {
    /// Where the project has a program.
    pub accepted: Formula,
    pub ties: Vec<Tie>,
    pub names: Vec<DeclaredName>,
}

impl ProjectTies {
    /// The same in the configurations that the project admits.
    pub fn tied_tokens<'a>(&'a self, project: &'a Project) -> TiedTokens<'a>
        ensures { plain_tied_tokens result ≡ tied_tokens_of project.now self.now }
    {
        TiedTokens {
            model: &project.model,
            accepted: &self.accepted,
            ties: &self.ties,
            names: &self.names,
        }
    }
}

/// Where units that are parsed so have a program, by where their trees have no core program.
fn where_accepted<O: Oracle>(
    alloc: Global,
    oracle: &mut O,
    project: &Project,
    files: &Files,
    parsed: &ParsedUnits,
    badly_made: Formula,
) -> Result<Formula, NoMemory>
    requires named { map (λ f. f.name) (plain_files files.now) ≡ names_of (project_view project.now) }
    requires parsed { (c : List Bool) → IsTrue (value (has c) (O.admits oracle.old)) → AreParsed (has c) project.now (plain_files files.now) parsed.now }
    requires badly_made { (c : List Bool) → IsTrue (value (has c) (O.admits oracle.old)) → TellsTrees (value (has c) (condition_of badly_made)) (has c) project.now parsed.now }
    ensures kept { O.admits oracle.new ≡ O.admits oracle.old }
    ensures below { IfOk result (λ f. VarsBelow (length project.now.features.items) (condition_of f)) }
    ensures exact { IfOk result (λ f. (c : List Bool) → IsOwn (length project.now.features.items) (O.admits oracle.old) c
        → TellsProgram (not (value (has c) (condition_of f))) (project_view project.now) (plain_files files.now) (has c)) }
{
    let anywhere = where_parsed_broken(alloc, project, files, parsed, badly_made)?;
    let broken = without_refuted(alloc, oracle, &anywhere)?;
    let elsewhere = Formula::not(alloc, broken)?;
    let f = own_condition(alloc, oracle, project.features.len(), &elsewhere)?;
    Ok(f)
}

/// The ties of a project, whose units are parsed so: `numbered` are their trees whose tokens tell their numbers, `told` is what is told of
/// their identifiers in the configurations that have a program, and `badly_made` says where their trees have no core program.
pub fn ties_of_told<O: Oracle>(
    alloc: Global,
    oracle: &mut O,
    project: &Project,
    files: &Files,
    parsed: &ParsedUnits,
    numbered: &[Forest],
    told: &[ToldUnit],
    badly_made: Formula,
) -> Result<ProjectTies, NoMemory>
    requires named { map (λ f. f.name) (plain_files files.now) ≡ names_of (project_view project.now) }
    requires model { O.admits oracle.old ≡ admitted project.now.model }
    requires below { VarsBelow (length project.now.features.items) (admitted project.now.model) }
    requires parsed { (c : List Bool) → IsTrue (value (has c) (O.admits oracle.old)) → AreParsed (has c) project.now (plain_files files.now) parsed.now }
    requires leaves { (c : List Bool) → IsTrue (value (has c) (O.admits oracle.old)) → HaveLeaves (has c) project.now parsed.now }
    requires numbered { AllZip IsNumbered parsed.now.forests.items numbered.now }
    requires told { (c : List Bool) → Product (project_view project.now) (plain_files files.now) c
        → AreTold (has c) project.now.units.items numbered.now (names_of_units (present_trees (has c) project.now.units.items numbered.now)) told.now }
    requires badly_made { (c : List Bool) → IsTrue (value (has c) (O.admits oracle.old)) → TellsTrees (value (has c) (condition_of badly_made)) (has c) project.now parsed.now }
    ensures kept { O.admits oracle.new ≡ O.admits oracle.old }
    ensures tells { IfOk result (λ t. TellsProducts (project_view project.now) (plain_files files.now) (tied_tokens_of project.now t)) }
{
    programs_are_one();
    outcomes_are_one();
    tokens_spell_one_unit();
    occurrences_are_tied();
    ties_are_seen();
    let features = project.features.len();
    let accepted = where_accepted(alloc, oracle, project, files, parsed, badly_made)?;
    let ties = ties_of_units(alloc, oracle, features, &parsed.streams, told)?;
    let names = names_of_units(alloc, oracle, features, &parsed.streams, told)?;
    Ok(ProjectTies {
        accepted,
        ties,
        names,
    })
}
