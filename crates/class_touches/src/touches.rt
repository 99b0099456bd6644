//! Where a project reads one of some tokens.
ghost use Rattle.std.specs.Prelude.{◌≡◌, ◌↔◌, ◌<◌, ◌≤◌, List, Bool, map, length, All, IsTrue, IfOk};
ghost use Rattle.cond_formula.specs.Features.{has};
ghost use Rattle.cond_formula.specs.Conditions.{condition_of, value};
ghost use Rattle.text_edits.specs.Files.{plain_files};
ghost use Rattle.project_file.specs.View.{project_view};
ghost use Rattle.project_store.specs.Reads.{names_of};
ghost use Rattle.tied_tokens.specs.Tokens.{plain_file_tokens};
ghost use Rattle.class_touches.specs.Touches.{IsTouchedBy, IsReadAsMacroBy};

use crate::units::read_in_project;
use c_text::FileToken;
use cond_formula::{Formula, NoMemory, Oracle};
use project_file::Project;
use std::alloc::Global;
use text_edits::Files;

/// Where a class with these tokens is touched: some unit that is present reads one of them outside every skipped group. Each unit is
/// read once. `files` are the project's headers and then its units.
pub fn touched<O: Oracle>(
    alloc: Global,
    project: &Project,
    files: &Files,
    class: &[FileToken],
    oracle: &mut O,
) -> Result<Formula, NoMemory>
    requires named { map (λ f. f.name) (plain_files files.now) ≡ names_of (project_view project.now) }
    requires short { All (λ f. length f.bytes ≤ 4294967295) (plain_files files.now) }
    requires few { length files.now.list.items < 4294967295 }
    ensures kept { O.admits oracle.new ≡ O.admits oracle.old }
    ensures touched { IfOk result (λ f. (c : List Bool) → IsTrue (value (has c) (O.admits oracle.old)) → IsTrue (value (has c) (condition_of f))
        ↔ IsTouchedBy (project_view project.now) (plain_files files.now) (plain_file_tokens class.now) c) }
{
    read_in_project(alloc, project, files, class, None, oracle)
}

/// Where some unit that is present reads one of the tokens while the name is defined as a macro.
pub fn read_as_macro<O: Oracle>(
    alloc: Global,
    project: &Project,
    files: &Files,
    class: &[FileToken],
    name: &[u8],
    oracle: &mut O,
) -> Result<Formula, NoMemory>
    requires named { map (λ f. f.name) (plain_files files.now) ≡ names_of (project_view project.now) }
    requires short { All (λ f. length f.bytes ≤ 4294967295) (plain_files files.now) }
    requires few { length files.now.list.items < 4294967295 }
    ensures kept { O.admits oracle.new ≡ O.admits oracle.old }
    ensures read { IfOk result (λ f. (c : List Bool) → IsTrue (value (has c) (O.admits oracle.old)) → IsTrue (value (has c) (condition_of f))
        ↔ IsReadAsMacroBy (project_view project.now) (plain_files files.now) (plain_file_tokens class.now) name.now c) }
{
    read_in_project(alloc, project, files, class, Some(name), oracle)
}
