//! Where a project has no program, in all configurations at once.
ghost use Rattle.std.specs.Prelude.{◌≡◌, ◌<◌, ◌≤◌, List, Bool, length, map, All, IsTrue, IfOk};
ghost use Rattle.text_edits.specs.Files.{plain_files};
ghost use Rattle.cond_formula.specs.Features.{has};
ghost use Rattle.cond_formula.specs.Conditions.{condition_of, value};
ghost use Rattle.project_file.specs.View.{project_view};
ghost use Rattle.project_store.specs.Reads.{names_of};
ghost use Rattle.project_check.specs.Parsed.{AreParsed};
ghost use Rattle.project_check.specs.Broken.{TellsTrees, TellsProgram};

use crate::{ParsedUnits, parse_units};
use c_tree::tokens_spell_one_unit;
use cond_formula::{Formula, NoMemory, Oracle};
use cond_types::where_not_elaborated;
use plain_pp::outcomes_are_one;
use project_file::Project;
use project_program::programs_are_one;
use reduced_conditions::either;
use std::alloc::Global;
use text_edits::Files;
use unit_outcomes::tokens_are_spelt;

/// Where units that are parsed so have no program, by where their trees have no core program.
pub fn where_parsed_broken(
    alloc: Global,
    project: &Project,
    files: &Files,
    parsed: &ParsedUnits,
    badly_made: Formula,
) -> Result<Formula, NoMemory>
    requires { map (λ f. f.name) (plain_files files.now) ≡ names_of (project_view project.now) }
    ensures { IfOk result (λ f. (c : List Bool) → AreParsed (has c) project.now (plain_files files.now) parsed.now
        → TellsTrees (value (has c) (condition_of badly_made)) (has c) project.now parsed.now
        → TellsProgram (value (has c) (condition_of f)) (project_view project.now) (plain_files files.now) (has c)) }
{
    programs_are_one();
    outcomes_are_one();
    tokens_spell_one_unit();
    tokens_are_spelt();
    let unread = parsed.unread.try_clone(alloc)?;
    let treeless = parsed.treeless.try_clone(alloc)?;
    let unparsed = either(alloc, unread, treeless)?;
    let f = either(alloc, unparsed, badly_made)?;
    Ok(f)
}

/// Where the units that are present have no program.
pub(crate) fn where_broken<O: Oracle>(
    alloc: Global,
    oracle: &mut O,
    project: &Project,
    files: &Files,
) -> Result<Formula, NoMemory>
    requires named { map (λ f. f.name) (plain_files files.now) ≡ names_of (project_view project.now) }
    requires short { All (λ f. length f.bytes ≤ 4294967295) (plain_files files.now) }
    requires few { length files.now.list.items < 4294967295 }
    ensures kept { O.admits oracle.new ≡ O.admits oracle.old }
    ensures exact { IfOk result (λ f. (c : List Bool) → IsTrue (value (has c) (O.admits oracle.old))
        → TellsProgram (value (has c) (condition_of f)) (project_view project.now) (plain_files files.now) (has c)) }
{
    let parsed = parse_units(alloc, project, files, oracle)?;
    let badly_made = where_not_elaborated(alloc, oracle, &project.units, &parsed.forests)?;
    let f = where_parsed_broken(alloc, project, files, &parsed, badly_made)?;
    Ok(f)
}
