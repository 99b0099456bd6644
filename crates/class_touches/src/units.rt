//! Where the units of a project read one of some tokens.
ghost use Rattle.std.specs.Prelude.{◌≡◌, ◌↔◌, ◌<◌, ◌≤◌, ◌&&◌, ◌||◌, ℕ, List, Bool, map, length, All, Any, option_map, IsTrue, IfOk};
ghost use Rattle.cond_formula.specs.Features.{has};
ghost use Rattle.cond_formula.specs.Conditions.{condition_of, value};
ghost use Rattle.text_edits.specs.Files.{plain_files};
ghost use Rattle.project_file.specs.View.{project_view};
ghost use Rattle.project_store.specs.Reads.{names_of};
ghost use Rattle.plain_pp.specs.Units.{sources_of, file_of};
ghost use Rattle.tied_tokens.specs.Tokens.{plain_file_tokens};
ghost use Rattle.class_touches.specs.Touches.{IsReadWhile, AreReadInProject};

use c_text::FileToken;
use cond_formula::{Formula, NoMemory, Oracle};
use cond_pp::{any_active, any_defined_at};
use project_file::Project;
use reduced_conditions::{both, either};
use std::alloc::Global;
use text_edits::Files;

/// Where a unit reads one of the tokens, while the name is defined as a macro if one is given.
fn read_in_unit<O: Oracle>(
    alloc: Global,
    project: &Project,
    files: &Files,
    unit: u32,
    tokens: &[FileToken],
    name: Option<&[u8]>,
    oracle: &mut O,
) -> Result<Formula, NoMemory>
    requires there { unit < length project.now.units.items }
    requires named { map (λ f. f.name) (plain_files files.now) ≡ names_of (project_view project.now) }
    requires short { All (λ f. length f.bytes ≤ 4294967295) (plain_files files.now) }
    requires few { length files.now.list.items < 4294967295 }
    ensures kept { O.admits oracle.new ≡ O.admits oracle.old }
    ensures read { IfOk result (λ f. (c : List Bool) → IsTrue (value (has c) (O.admits oracle.old)) → IsTrue (value (has c) (condition_of f))
        ↔ Any (λ token. IsReadWhile (sources_of (project_view project.now) (plain_files files.now) (has c)) (file_of (project_view project.now) unit) token (option_map (λ n. n.now) name.entry)) (plain_file_tokens tokens.now)) }
{
    match name {
        Some(name) => Ok(any_defined_at(alloc, project, files, unit, tokens, name, oracle)?),
        None => Ok(any_active(alloc, project, files, unit, tokens, oracle)?),
    }
}

/// Where it was read so far, and where a unit is present that reads it.
fn with_unit(
    alloc: Global,
    so_far: Formula,
    when: &Formula,
    here: Formula,
) -> Result<Formula, NoMemory>
    ensures { IfOk result (λ f. (on : ℕ → Bool) → value on (condition_of f) ≡ (value on (condition_of so_far) || (value on (condition_of when.now) && value on (condition_of here)))) }
{
    let there = both(alloc, when.try_clone(alloc)?, here)?;
    either(alloc, so_far, there)
}

/// Where some unit that is present reads one of the tokens so. Each unit is read once.
pub(crate) fn read_in_project<O: Oracle>(
    alloc: Global,
    project: &Project,
    files: &Files,
    tokens: &[FileToken],
    name: Option<&[u8]>,
    oracle: &mut O,
) -> Result<Formula, NoMemory>
    requires named { map (λ f. f.name) (plain_files files.now) ≡ names_of (project_view project.now) }
    requires short { All (λ f. length f.bytes ≤ 4294967295) (plain_files files.now) }
    requires few { length files.now.list.items < 4294967295 }
    ensures kept { O.admits oracle.new ≡ O.admits oracle.old }
    ensures read { IfOk result (λ f. (c : List Bool) → IsTrue (value (has c) (O.admits oracle.old)) → IsTrue (value (has c) (condition_of f))
        ↔ AreReadInProject (project_view project.now) (plain_files files.now) (plain_file_tokens tokens.now) (option_map (λ n. n.now) name.entry) c) }
{
    let mut found = Formula::False;
    for unit in 0..project.units.len() {
        let here = read_in_unit(alloc, project, files, unit as u32, tokens, name, oracle)?;
        found = with_unit(alloc, found, &project.units[unit].when, here)?;
    }
    Ok(found)
}
