//! Projects and their files, read from a store.
ghost use Rattle.std.specs.Prelude.{◌≡◌, map, IfOk, IsErrOf, MatchResult};
ghost use Rattle.text_edits.specs.Files.{plain_file, plain_files};
ghost use Rattle.project_file.specs.View.{Why, project_view};
ghost use Rattle.project_store.specs.Faults.{HasCause};
ghost use Rattle.project_store.specs.States.{IsReadAlone, IsAbsent};
ghost use Rattle.project_store.specs.Reads as spec;

use crate::store::{Store, StoreFault};
use project_file::{LONGEST_FILE, Project, ProjectError, oversized, parse_project};
use std::alloc::{AllocError, Global};
use text_edits::{Files, SourceFile};

/// Why a read gave nothing.
fn unread(fault: StoreFault) -> ProjectError
    ensures { result ≡ spec.unread fault }
{
    match fault {
        StoreFault::Failed => ProjectError::Read,
        StoreFault::Memory => ProjectError::Memory,
    }
}

/// The project that the file with the name says, or the first fault of the file. `Read` comes only where the count of read
/// faults rose.
pub fn read_project<S: Store>(
    alloc: Global,
    store: &mut S,
    name: &str,
) -> Result<Project, ProjectError>
    ensures project { MatchResult result
        (λ project. spec.SaysProject (S.state store.old) name.now (project_view project))
        (Why (spec.HasFault (S.state store.old) name.now) (IsAbsent (S.state store.old) name.now)) }
    ensures cause { HasCause (S.state store.old).exact (S.state store.old).read_faults (S.state store.new).read_faults (IsErrOf result ProjectError.Read) }
    ensures kept { IsReadAlone (S.state store.old) (S.state store.new) }
{
    match store.read(alloc, name) {
        Ok(bytes) => {
            let project = parse_project(alloc, name, &bytes)?;
            Ok(project)
        }
        Err(fault) => Err(unread(fault)),
    }
}

/// The file of these bytes, if they aren't too many.
fn source_of(alloc: Global, name: &str, bytes: Vec<u8>) -> Result<SourceFile, ProjectError>
    ensures { MatchResult result (λ file. spec.IsSourceOf name.now bytes.items (plain_file file)) (Why (spec.IsLongBytes name.now bytes.items) ⊥) }
{
    if bytes.len() > LONGEST_FILE {
        return Err(oversized(alloc, name));
    }
    let name = String::from_str(alloc, name)?;
    Ok(SourceFile { name, bytes })
}

/// The file with the name. `Size` comes where it is too long, and `Read` only where the count of read faults rose.
pub fn read_file<S: Store>(
    alloc: Global,
    store: &mut S,
    name: &str,
) -> Result<SourceFile, ProjectError>
    ensures source { MatchResult result
        (λ file. spec.IsSource (S.state store.old) name.now (plain_file file))
        (Why (spec.IsLong (S.state store.old) name.now) (IsAbsent (S.state store.old) name.now)) }
    ensures cause { HasCause (S.state store.old).exact (S.state store.old).read_faults (S.state store.new).read_faults (IsErrOf result ProjectError.Read) }
    ensures kept { IsReadAlone (S.state store.old) (S.state store.new) }
{
    match store.read(alloc, name) {
        Ok(bytes) => {
            let file = source_of(alloc, name, bytes)?;
            Ok(file)
        }
        Err(fault) => Err(unread(fault)),
    }
}

/// The names of the project's files: headers, and then units.
fn file_names<'a>(alloc: Global, project: &'a Project) -> Result<Vec<&'a str>, AllocError>
    ensures { IfOk result (λ names. map (λ name. name.now) names.items ≡ spec.names_of (project_view project.now)) }
{
    let mut names = Vec::new(alloc);
    for header in &project.headers {
        names.push(header.as_str())?;
    }
    for unit in &project.units {
        names.push(unit.file.as_str())?;
    }
    Ok(names)
}

/// The files with the names, read in their order.
fn read_all<S: Store>(
    alloc: Global,
    store: &mut S,
    names: &[&str],
) -> Result<Vec<SourceFile>, ProjectError>
    ensures read { MatchResult result
        (λ list. spec.AreFilesOf (S.state store.old) (map (λ name. name.now) names.now) (map plain_file list.items))
        (Why (spec.IsTooLong (S.state store.old) (map (λ name. name.now) names.now)) (spec.HasAbsent (S.state store.old) (map (λ name. name.now) names.now))) }
    ensures cause { HasCause (S.state store.old).exact (S.state store.old).read_faults (S.state store.new).read_faults (IsErrOf result ProjectError.Read) }
    ensures kept { IsReadAlone (S.state store.old) (S.state store.new) }
{
    let mut list = Vec::new(alloc);
    for name in names {
        let file = read_file(alloc, store, name)?;
        list.push(file)?;
    }
    Ok(list)
}

/// The files of the project: its headers, and then those of its units, each read once in this order. `Size` names the first
/// that is too long where those before it are read, `Read` comes only where the count of read faults rose, and no other error but
/// `Memory` comes.
pub fn read_files<S: Store>(
    alloc: Global,
    store: &mut S,
    project: &Project,
) -> Result<Files, ProjectError>
    ensures files { MatchResult result
        (λ files. spec.AreFilesOf (S.state store.old) (spec.names_of (project_view project.now)) (plain_files files))
        (Why (spec.IsTooLong (S.state store.old) (spec.names_of (project_view project.now))) (spec.HasAbsent (S.state store.old) (spec.names_of (project_view project.now)))) }
    ensures cause { HasCause (S.state store.old).exact (S.state store.old).read_faults (S.state store.new).read_faults (IsErrOf result ProjectError.Read) }
    ensures kept { IsReadAlone (S.state store.old) (S.state store.new) }
{
    let names = file_names(alloc, project)?;
    let list = read_all(alloc, store, &names)?;
    Ok(Files { list })
}
