ghost use Rattle.std.specs.Prelude.{◌≡◌, ◌<◌, ◌↔◌, IsTrue, IfSome, MatchOption, All, length, map, position, ℕ};
ghost use Rattle.std.specs.List.{list_any, position_from};
ghost use Rattle.std.specs.Str.{bytes_eq};
ghost use Rattle.std.specs.String.{string_bytes};
ghost use Rattle.folder_names.specs.Folders.{IsApart};
ghost use Rattle.project_file.specs.View.{project_view};
ghost use Rattle.project_store.specs.Reads.{names_of};
ghost use Rattle.rename_words.specs.Fits as spec;
ghost use Rattle.rename_words.specs.Steps.{query_of, file_of};

use crate::words::RenameWords;
use folder_names::is_apart;
use project_store::{Project, Unit};

/// The number of the first of the names that is this one.
fn number_among(names: &[String], name: &str) -> Option<usize>
    ensures { result ≡ position_from (bytes_eq name.now) 0 (map string_bytes names.now) }
{
    for (number, other) in names.iter().enumerate() {
        if name == other.as_str() {
            return Some(number);
        }
    }
    None
}

/// The number of the first unit of the file.
fn unit_number(units: &[Unit], file: &str) -> Option<usize>
    ensures first { result ≡ position_from (bytes_eq file.now) 0 (map file_of units.now) }
    ensures there { IfSome result (λ number. number < length units.now) }
{
    for (number, unit) in units.iter().enumerate() {
        if file == unit.file.as_str() {
            return Some(number);
        }
    }
    None
}

/// The number of the file among those of the project.
fn file_number(project: &Project, file: &str) -> Option<usize>
    ensures { result ≡ position (bytes_eq file.now) (names_of (project_view project.now)) }
{
    match number_among(&project.headers, file) {
        Some(number) => Some(number),
        None => match unit_number(&project.units, file) {
            Some(number) => Some(project.headers.len() + number),
            None => None,
        },
    }
}

/// Whether the name is that of a feature.
fn is_feature(project: &Project, name: &str) -> bool
    ensures { result ≡ list_any (bytes_eq name.now) (project_view project.now).features }
{
    number_among(&project.features, name).is_some()
}

/// Whether the folder is none of these files, and no folder that one of them stands in.
fn are_apart(names: &[String], folder: &str) -> bool
    ensures { IsTrue result ↔ All (λ name. IsApart name folder.now) (map string_bytes names.now) }
{
    for name in names {
        if !is_apart(name.as_bytes(), folder.as_bytes()) {
            return false;
        }
    }
    true
}

/// The same of the files of units.
fn units_are_apart(units: &[Unit], folder: &str) -> bool
    ensures { IsTrue result ↔ All (λ name. IsApart name folder.now) (map file_of units.now) }
{
    for unit in units {
        if !is_apart(unit.file.as_bytes(), folder.as_bytes()) {
            return false;
        }
    }
    true
}

/// The same of all files of the project.
fn files_are_apart(project: &Project, folder: &str) -> bool
    ensures { IsTrue result ↔ All (λ name. IsApart name folder.now) (names_of (project_view project.now)) }
{
    are_apart(&project.headers, folder) && units_are_apart(&project.units, folder)
}

impl RenameWords<'_> {
    /// The number of the file among those of the project, if the words fit it.
    pub fn fits(&self, project: &Project) -> Option<usize>
        ensures { MatchOption result
            ((number : ℕ) → spec.Fits (query_of self.now) (project_view project.now) number → ⊥)
            (spec.Fits (query_of self.now) (project_view project.now)) }
    {
        if is_feature(project, self.new) || !files_are_apart(project, self.out) {
            return None;
        }
        file_number(project, self.file)
    }
}
