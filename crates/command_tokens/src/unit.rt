ghost use Rattle.std.specs.Prelude.{◌≡◌, ◌<◌, ◌≤◌, true, length, map, All, Some, None, IfOk, IsErrOf, MatchOption};
ghost use Rattle.std.specs.List.{list_all};
ghost use Rattle.std.specs.String.{string_bytes};
ghost use Rattle.text_edits.specs.Files.{plain_files};
ghost use Rattle.cond_formula.specs.Features.{has};
ghost use Rattle.c_names.specs.Names.{is_new_name};
ghost use Rattle.c_text.specs.Token.{plain_token};
ghost use Rattle.project_file.specs.View.{project_view, unit_view};
ghost use Rattle.project_store.specs.Faults.{HasCause};
ghost use Rattle.project_store.specs.States.{IsReadAlone};
ghost use Rattle.project_store.specs.Reads.{names_of};
ghost use Rattle.plain_pp.specs.Units.{sources_of, file_of};
ghost use Rattle.command_promises.specs.Sayings.{SaysOrEnds, CameTo};
ghost use Rattle.command_promises.specs.Commands.{CourseFor};
ghost use Rattle.command_projects.specs.Projects.{WithFiles};
ghost use Rattle.command_tokens.specs.Tokens as spec;
ghost use Rattle.command_tokens.specs.Tokens.{NumberedUnit, numbered, unit_from, FitsProject};
ghost use Rattle.command_tokens.specs.Steps.{query_of, unit_of, IsChoice};

use crate::words::{UnitWords, asked_tokens};
use c_text::Token;
use command_projects::{are_features, configuration, without_project};
use command_promises::{Said, Stop, usage};
use cond_formula::Config;
use plain_pp::{PpError, preprocess};
use project_store::{Project, Store, Unit, read_files, read_project};
use std::alloc::{AllocError, Global};
use text_edits::Files;

/// A unit of a project, with its number, and a configuration.
#[derive(Clone, Copy)]
pub(crate) struct Choice<'a> {
    pub(crate) number: usize,
    pub(crate) unit: &'a Unit,
    pub(crate) c: Config,
}

/// The first unit in the file, and its number.
fn unit_in<'a>(units: &'a [Unit], file: &str) -> Option<(usize, &'a Unit)>
    ensures { MatchOption result
        (unit_from 0 file.now (map unit_view units.now) ≡ None)
        (λ found. (found.0 < length units.now) × (unit_from 0 file.now (map unit_view units.now) ≡ Some (numbered found.0 (unit_view found.1.now)))) }
{
    for (number, unit) in units.iter().enumerate() {
        if unit.file.as_str() == file {
            return Some((number, unit));
        }
    }
    None
}

/// The unit and the configuration, if the project has the unit and all the features.
fn chosen<'a>(
    alloc: Global,
    query: &UnitWords,
    project: &'a Project,
) -> Result<Option<Choice<'a>>, AllocError>
    requires few { length project.now.features.items ≤ 128 }
    requires lawful { list_all is_new_name (query_of query.now).names ≡ true }
    ensures { IfOk result (λ choice. MatchOption choice
        ((asked : NumberedUnit) → FitsProject (query_of query.now) (project_view project.now) asked → ⊥)
        (IsChoice (query_of query.now) (project_view project.now))) }
{
    if !are_features(&project.features, &query.names) {
        return Ok(None);
    }
    match unit_in(&project.units, query.unit) {
        Some((number, unit)) => {
            let c = configuration(alloc, &project.features, &query.names)?;
            Ok(Some(Choice { number, unit, c }))
        }
        None => Ok(None),
    }
}

/// Each token's spelling on a line.
fn spellings(alloc: Global, tokens: &[Token]) -> Result<Vec<u8>, AllocError>
    ensures { IfOk result (λ text. text.items ≡ (spec.prints (map plain_token tokens.now)).report) }
{
    let mut text = Vec::new(alloc);
    for token in tokens {
        text.extend_from_slice(token.text.as_slice())?;
        text.push(b'\n')?;
    }
    Ok(text)
}

/// What is said of the unit's preprocessing.
fn preprocessed(
    alloc: Global,
    project: &Project,
    files: &Files,
    unit: u32,
    c: Config,
) -> Result<Said, Stop>
    requires there { unit < length project.now.units.items }
    requires named { map (λ f. f.name) (plain_files files.now) ≡ names_of (project_view project.now) }
    requires short { All (λ f. length f.bytes ≤ 4294967295) (plain_files files.now) }
    requires few { length files.now.list.items < 4294967295 }
    ensures { SaysOrEnds (spec.OfSources (sources_of (project_view project.now) (plain_files files.now) (has c)) (file_of (project_view project.now) unit)) result }
{
    match preprocess(alloc, project, files, unit, c) {
        Ok(tokens) => {
            let report = spellings(alloc, &tokens)?;
            Ok(Said::of_bytes(alloc, 0, report))
        }
        Err(PpError::Refused(_, _)) => {
            let said = Said::tells(alloc, 9, "not accepted preprocess\n")?;
            Ok(said)
        }
        Err(PpError::Memory) => Err(Stop::WantOfMemory),
    }
}

/// What is said of a unit whose project's files are read.
fn of_unit(
    alloc: Global,
    query: &UnitWords,
    project: &Project,
    files: &Files,
    choice: &Choice,
) -> Result<Said, Stop>
    requires chosen { IsChoice (query_of query.now) (project_view project.now) choice.now }
    requires named { map (λ f. f.name) (plain_files files.now) ≡ names_of (project_view project.now) }
    requires short { All (λ f. length f.bytes ≤ 4294967295) (plain_files files.now) }
    ensures { SaysOrEnds (spec.OfUnit (query_of query.now) (project_view project.now) (unit_of choice.now) (plain_files files.now)) result }
{
    if !project.model.admits(choice.c) {
        let said = Said::tells(alloc, 9, "not admitted\n")?;
        return Ok(said);
    }
    if !choice.unit.when.value(choice.c) {
        let said = Said::tells(alloc, 9, "not present\n")?;
        return Ok(said);
    }
    // Numbers of files have 32 bits, of which the built-in one is the last.
    if files.list.len() >= u32::MAX as usize {
        return Err(Stop::WantOfMemory);
    }
    preprocessed(alloc, project, files, choice.number as u32, choice.c)
}

/// Reads the project's files, and says what there is to say of the unit.
fn with_files<S: Store>(
    alloc: Global,
    query: &UnitWords,
    project: &Project,
    choice: &Choice,
    store: &mut S,
) -> Result<Said, Stop>
    requires chosen { IsChoice (query_of query.now) (project_view project.now) choice.now }
    ensures came { CameTo (WithFiles (names_of (project_view project.now)) (spec.OfUnit (query_of query.now) (project_view project.now) (unit_of choice.now))) (S.state store.old) result }
    ensures cause { HasCause (S.state store.old).exact (S.state store.old).read_faults (S.state store.new).read_faults (IsErrOf result Stop.ReadFault) }
    ensures kept { IsReadAlone (S.state store.old) (S.state store.new) }
{
    match read_files(alloc, store, project) {
        Ok(files) => of_unit(alloc, query, project, &files, choice),
        Err(error) => without_project(alloc, error),
    }
}

/// Says what there is to say of a unit of the project.
fn in_project<S: Store>(
    alloc: Global,
    query: &UnitWords,
    project: &Project,
    store: &mut S,
) -> Result<Said, Stop>
    requires few { length project.now.features.items ≤ 128 }
    requires lawful { list_all is_new_name (query_of query.now).names ≡ true }
    ensures came { CameTo (spec.OfProject (query_of query.now) (project_view project.now)) (S.state store.old) result }
    ensures cause { HasCause (S.state store.old).exact (S.state store.old).read_faults (S.state store.new).read_faults (IsErrOf result Stop.ReadFault) }
    ensures kept { IsReadAlone (S.state store.old) (S.state store.new) }
{
    match chosen(alloc, query, project) {
        Ok(Some(choice)) => with_files(alloc, query, project, &choice, store),
        Ok(None) => {
            let said = usage(alloc)?;
            Ok(said)
        }
        Err(_) => Err(Stop::WantOfMemory),
    }
}

/// Reads the project and its files, and says the unit's tokens, or why there are none.
fn of_query<S: Store>(alloc: Global, query: &UnitWords, store: &mut S) -> Result<Said, Stop>
    requires lawful { list_all is_new_name (query_of query.now).names ≡ true }
    ensures came { CameTo (spec.Does (query_of query.now)) (S.state store.old) result }
    ensures cause { HasCause (S.state store.old).exact (S.state store.old).read_faults (S.state store.new).read_faults (IsErrOf result Stop.ReadFault) }
    ensures kept { IsReadAlone (S.state store.old) (S.state store.new) }
{
    match read_project(alloc, store, query.project) {
        Ok(project) => in_project(alloc, query, &project, store),
        Err(error) => without_project(alloc, error),
    }
}

/// Carries out `tokens` with its further words: reads the project and its files, and says the unit's tokens.
pub fn tokens<S: Store>(alloc: Global, words: &[String], store: &mut S) -> Result<Said, Stop>
    ensures came { CameTo (CourseFor spec.tokens (map string_bytes words.now)) (S.state store.old) result }
    ensures cause { HasCause (S.state store.old).exact (S.state store.old).read_faults (S.state store.new).read_faults (IsErrOf result Stop.ReadFault) }
    ensures kept { IsReadAlone (S.state store.old) (S.state store.new) }
{
    match asked_tokens(alloc, words)? {
        Some(query) => of_query(alloc, &query, store),
        None => {
            let said = usage(alloc)?;
            Ok(said)
        }
    }
}
