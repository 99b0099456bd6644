//! Projects of the current folder.
ghost use Rattle.std.specs.Prelude.{◌≡◌, ◌<◌, ◌≤◌, map, length, All};
ghost use Rattle.text_edits.specs.Files.{plain_files};
ghost use Rattle.project_file.specs.View.{project_view};
ghost use Rattle.project_store.specs.Reads.{names_of};

use crate::bound::show_bindings;
use crate::readings::show_readings;
use crate::shown::show_stream;
use crate::sizes::show_sizes;
use anyhow::{Context, Result};
use cond_formula::PlainOracle;
use cond_pp::preprocess_all;
use project_store::{MemoryStore, Project, read_files, read_project};
use std::alloc::{AllocError, Global};
use std::fs;
use std::rt::Files as FileAccess;
use text_edits::{Files, SourceFile};

/// The most features of a project whose configurations are shown.
const MOST_FEATURES: usize = 2;

/// A store that holds these files of the current folder.
fn stored<R: FileAccess + AllocGlobal>(rt: &R, names: &[String]) -> Result<MemoryStore> {
    let alloc: Global = rt.alloc();
    let mut list = Vec::new(alloc);
    for name in names {
        let bytes = fs::read(rt, name.as_str()).context("a file is not there")?;
        let name = name.clone()?;
        list.push(SourceFile { name, bytes })?;
    }
    Ok(MemoryStore::new(alloc, Files { list }, Vec::new(alloc)))
}

/// The names of a project's files.
fn file_names(alloc: Global, project: &Project) -> Result<Vec<String>, AllocError> {
    let mut names = Vec::new(alloc);
    for header in &project.headers {
        names.push(header.clone()?)?;
    }
    for unit in &project.units {
        names.push(unit.file.clone()?)?;
    }
    Ok(names)
}

fn show_units<R: Print + AllocGlobal>(rt: &R, project: &Project, files: &Files) -> Result<()>
    requires named { map (λ f. f.name) (plain_files files.now) ≡ names_of (project_view project.now) }
    requires short { All (λ f. length f.bytes ≤ 4294967295) (plain_files files.now) }
    requires few { length files.now.list.items < 4294967295 }
{
    let alloc: Global = rt.alloc();
    let mut streams = Vec::new(alloc);
    for (number, unit) in project.units.iter().enumerate() {
        let stream = preprocess_all(alloc, project, files, number as u32, &mut PlainOracle)?;
        println!(rt; "{} of {}:", unit.file, project.name)?;
        if project.features.len() > MOST_FEATURES {
            show_sizes(rt, &stream)?;
        } else {
            show_stream(rt, project.features.len(), &stream)?;
            show_readings(rt, project, files, number as u32, project.features.len())?;
        }
        streams.push(stream)?;
    }
    if project.features.len() <= MOST_FEATURES {
        show_bindings(rt, project, &streams, project.features.len())?;
    }
    Ok(())
}

/// Prints the streams of the units of a project.
pub(crate) fn show_project<R: FileAccess + Print + AllocGlobal>(
    rt: &R,
    name: &String,
) -> Result<()> {
    let alloc: Global = rt.alloc();
    let mut store = stored(rt, &[name.clone()?])?;
    let Ok(project) = read_project(alloc, &mut store, name) else {
        println!(rt; "{name} is no project file")?;
        return Ok(());
    };
    let mut store = stored(rt, &file_names(alloc, &project)?)?;
    let Ok(files) = read_files(alloc, &mut store, &project) else {
        println!(rt; "{name} has files that can't be read")?;
        return Ok(());
    };
    if files.list.len() >= u32::MAX as usize {
        println!(rt; "{name} has too many files")?;
        return Ok(());
    }
    show_units(rt, &project, &files)
}
