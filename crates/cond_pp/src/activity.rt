//! Where tokens of files are active in a unit, in all configurations.
ghost use Rattle.std.specs.Prelude.{◌≡◌, ◌↔◌, ◌<◌, ◌≤◌, List, Bool, map, length, All, Any, IsTrue, IfOk, Some};
ghost use Rattle.cond_formula.specs.Features.{has};
ghost use Rattle.cond_formula.specs.Conditions.{condition_of, value};
ghost use Rattle.text_edits.specs.Files.{plain_files};
ghost use Rattle.text_edits.specs.Span.{plain_span};
ghost use Rattle.c_text.specs.Token.{PlainToken};
ghost use Rattle.c_text.specs.Preprocessing as spec;
ghost use Rattle.c_text.specs.Preprocessing.{IsSyntaxOf};
ghost use Rattle.active_tokens.specs.Active.{AreMisplaced, IsActive, IsDefinedAt, reads_of_unit};
ghost use Rattle.project_file.specs.View.{project_view};
ghost use Rattle.project_store.specs.Reads.{names_of};
ghost use Rattle.plain_pp.specs.Units.{sources_of, file_of};
ghost use Rattle.cond_pp.specs.Watches.{is_read_in, plain_sought};

use crate::projects::read_unit;
use crate::watch::{Sought, Watch};
use c_text::FileToken;
use cond_formula::{Formula, NoMemory, Oracle};
use plain_pp::projects_have_syntax;
use project_file::Project;
use read_walks::{files_have_misplaced, reads_are_tested};
use std::alloc::Global;
use std::slice;
use text_edits::Files;
use unit_outcomes::reads_are_one;

// Where a unit reads one of the tokens.
fn found_in<O: Oracle>(
    alloc: Global,
    project: &Project,
    files: &Files,
    unit: u32,
    sought: &Sought<'_>,
    oracle: &mut O,
) -> Result<Formula, NoMemory>
    requires there { unit < length project.now.units.items }
    requires named { map (λ f. f.name) (plain_files files.now) ≡ names_of (project_view project.now) }
    requires short { All (λ f. length f.bytes ≤ 4294967295) (plain_files files.now) }
    requires few { length files.now.list.items < 4294967295 }
    ensures kept { O.admits oracle.new ≡ O.admits oracle.old }
    ensures found { IfOk result (λ f. (c : List Bool) (x : spec.Syntax) (are : IsSyntaxOf (sources_of (project_view project.now) (plain_files files.now) (has c)) x) (misplaced : spec.Source → List PlainToken) → IsTrue (value (has c) (O.admits oracle.old)) → AreMisplaced are misplaced
        → value (has c) (condition_of f) ≡ is_read_in (Some (plain_sought sought.now)) (reads_of_unit (sources_of (project_view project.now) (plain_files files.now) (has c)) x misplaced (file_of (project_view project.now) unit))) }
{
    let mut watch = Watch::new(*sought);
    read_unit(alloc, project, files, unit, oracle, &mut watch)?;
    Ok(watch.found)
}

/// Where a unit makes one of the tokens of files active: it reads the token outside every skipped group. The unit is read once,
/// however many the tokens. `files` are the project's headers and then its units, and `unit` is the place of the unit among the units.
pub fn any_active<O: Oracle>(
    alloc: Global,
    project: &Project,
    files: &Files,
    unit: u32,
    tokens: &[FileToken],
    oracle: &mut O,
) -> Result<Formula, NoMemory>
    requires there { unit < length project.now.units.items }
    requires named { map (λ f. f.name) (plain_files files.now) ≡ names_of (project_view project.now) }
    requires short { All (λ f. length f.bytes ≤ 4294967295) (plain_files files.now) }
    requires few { length files.now.list.items < 4294967295 }
    ensures kept { O.admits oracle.new ≡ O.admits oracle.old }
    ensures active { IfOk result (λ f. (c : List Bool) → IsTrue (value (has c) (O.admits oracle.old))
        → (IsTrue (value (has c) (condition_of f)) ↔ Any (λ at. IsActive (sources_of (project_view project.now) (plain_files files.now) (has c)) (file_of (project_view project.now) unit) at.file (plain_span at.span)) tokens.now)) }
{
    projects_have_syntax();
    files_have_misplaced();
    reads_are_one();
    reads_are_tested();
    let sought = Sought {
        at: tokens,
        name: None,
    };
    let found = found_in(alloc, project, files, unit, &sought, oracle)?;
    Ok(found)
}

/// Where a unit reads one of the tokens outside every skipped group at least once while a name is defined as a macro.
pub fn any_defined_at<O: Oracle>(
    alloc: Global,
    project: &Project,
    files: &Files,
    unit: u32,
    tokens: &[FileToken],
    name: &[u8],
    oracle: &mut O,
) -> Result<Formula, NoMemory>
    requires there { unit < length project.now.units.items }
    requires named { map (λ f. f.name) (plain_files files.now) ≡ names_of (project_view project.now) }
    requires short { All (λ f. length f.bytes ≤ 4294967295) (plain_files files.now) }
    requires few { length files.now.list.items < 4294967295 }
    ensures kept { O.admits oracle.new ≡ O.admits oracle.old }
    ensures defined { IfOk result (λ f. (c : List Bool) → IsTrue (value (has c) (O.admits oracle.old))
        → (IsTrue (value (has c) (condition_of f)) ↔ Any (λ at. IsDefinedAt (sources_of (project_view project.now) (plain_files files.now) (has c)) (file_of (project_view project.now) unit) at.file (plain_span at.span) name.now) tokens.now)) }
{
    projects_have_syntax();
    files_have_misplaced();
    reads_are_one();
    reads_are_tested();
    let sought = Sought {
        at: tokens,
        name: Some(name),
    };
    let found = found_in(alloc, project, files, unit, &sought, oracle)?;
    Ok(found)
}

/// Where a unit makes a token of a file active, as with `any_active`.
pub fn active<O: Oracle>(
    alloc: Global,
    project: &Project,
    files: &Files,
    unit: u32,
    at: &FileToken,
    oracle: &mut O,
) -> Result<Formula, NoMemory>
    requires there { unit < length project.now.units.items }
    requires named { map (λ f. f.name) (plain_files files.now) ≡ names_of (project_view project.now) }
    requires short { All (λ f. length f.bytes ≤ 4294967295) (plain_files files.now) }
    requires few { length files.now.list.items < 4294967295 }
    ensures kept { O.admits oracle.new ≡ O.admits oracle.old }
    ensures active { IfOk result (λ f. (c : List Bool) → IsTrue (value (has c) (O.admits oracle.old))
        → (IsTrue (value (has c) (condition_of f)) ↔ IsActive (sources_of (project_view project.now) (plain_files files.now) (has c)) (file_of (project_view project.now) unit) at.now.file (plain_span at.now.span))) }
{
    let found = any_active(alloc, project, files, unit, slice::from_ref(at), oracle)?;
    Ok(found)
}

/// Where a unit reads a token of a file outside every skipped group at least once while a name is defined as a macro.
pub fn defined_at<O: Oracle>(
    alloc: Global,
    project: &Project,
    files: &Files,
    unit: u32,
    at: &FileToken,
    name: &[u8],
    oracle: &mut O,
) -> Result<Formula, NoMemory>
    requires there { unit < length project.now.units.items }
    requires named { map (λ f. f.name) (plain_files files.now) ≡ names_of (project_view project.now) }
    requires short { All (λ f. length f.bytes ≤ 4294967295) (plain_files files.now) }
    requires few { length files.now.list.items < 4294967295 }
    ensures kept { O.admits oracle.new ≡ O.admits oracle.old }
    ensures defined { IfOk result (λ f. (c : List Bool) → IsTrue (value (has c) (O.admits oracle.old))
        → (IsTrue (value (has c) (condition_of f)) ↔ IsDefinedAt (sources_of (project_view project.now) (plain_files files.now) (has c)) (file_of (project_view project.now) unit) at.now.file (plain_span at.now.span) name.now)) }
{
    let found = any_defined_at(
        alloc,
        project,
        files,
        unit,
        slice::from_ref(at),
        name,
        oracle,
    )?;
    Ok(found)
}
