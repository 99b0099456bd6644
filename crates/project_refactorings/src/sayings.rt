ghost use Rattle.std.specs.Prelude.{◌≡◌, ◌≤◌, length, IfOk};
ghost use Rattle.text_edits.specs.Files.{plain_files};
ghost use Rattle.cond_formula.specs.Features.{has};
ghost use Rattle.project_file.specs.Projects.{names_on};
ghost use Rattle.project_file.specs.View.{project_view};
ghost use Rattle.command_promises.specs.Sayings.{saying};
ghost use Rattle.project_refactorings.specs.Refactorings as spec;

use command_projects::{listed, names_on};
use command_promises::Said;
use cond_formula::Config;
use folder_names::in_folder;
use project_store::Project;
use std::alloc::{AllocError, Global};
use text_edits::{Files, SourceFile};

/// No admitted configuration has anything at the place.
pub fn nothing_there(alloc: Global) -> Result<Said, AllocError>
    ensures { IfOk result (λ said. saying said ≡ spec.nothing_there) }
{
    let said = Said::tells(alloc, 8, "nothing at the place\n")?;
    Ok(said)
}

/// The precondition is broken in the configuration.
pub fn refused_at(
    alloc: Global,
    project: &Project,
    precondition: &str,
    c: Config,
) -> Result<Said, AllocError>
    requires few { length project.now.features.items ≤ 128 }
    ensures { IfOk result (λ said. saying said ≡ spec.refused_at precondition.now (names_on (has c) (project_view project.now).features)) }
{
    let names = names_on(alloc, &project.features, c)?;
    let names = listed(alloc, &names)?;
    let text = format!(in alloc; "refused {precondition} at {names}\n")?;
    let said = Said::tells(alloc, 1, text.as_str())?;
    Ok(said)
}

/// The files under their names in the folder.
pub fn files_in(alloc: Global, folder: &str, files: Files) -> Result<Files, AllocError>
    ensures { IfOk result (λ moved. plain_files moved ≡ spec.files_in folder.now (plain_files files)) }
{
    let mut list = Vec::new(alloc);
    for file in files.list {
        let name = in_folder(alloc, folder, &file.name)?;
        list.push(SourceFile {
            name,
            bytes: file.bytes,
        })?;
    }
    Ok(Files { list })
}

/// The files are to be written in the folder, and this is reported.
pub fn put_in(alloc: Global, folder: &str, files: Files, report: &str) -> Result<Said, AllocError>
    ensures { IfOk result (λ said. saying said ≡ spec.put_in folder.now (plain_files files) report.now) }
{
    let written = files_in(alloc, folder, files)?;
    let text = format!(in alloc; "{report}\n")?;
    Ok(Said {
        status: 0,
        report: Vec::from_slice(alloc, text.as_bytes())?,
        written,
    })
}
