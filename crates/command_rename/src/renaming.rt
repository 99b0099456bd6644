//! The command, but for what is written.
ghost use Rattle.std.specs.Prelude.{◌≡◌, ◌<◌, ◌≤◌, ◌++◌, ◌∷◌, [], ℕ, List, length, map, All, IsTrue, IfOk, IsErrOf};
ghost use Rattle.std.specs.String.{string_bytes};
ghost use Rattle.text_edits.specs.Files.{plain_file, plain_files};
ghost use Rattle.c_names.specs.Names.{is_new_name};
ghost use Rattle.cond_formula.specs.Conditions.{VarsBelow};
ghost use Rattle.feature_model.specs.ModelView.{admitted};
ghost use Rattle.project_file.specs.View.{project_view};
ghost use Rattle.project_store.specs.Faults.{HasCause};
ghost use Rattle.project_store.specs.States.{IsReadAlone};
ghost use Rattle.project_store.specs.Reads.{names_of};
ghost use Rattle.command_promises.specs.Courses.{says};
ghost use Rattle.command_promises.specs.Sayings.{saying, SaysOrEnds, CameTo};
ghost use Rattle.command_promises.specs.Commands.{CourseFor};
ghost use Rattle.command_projects.specs.Projects.{WithFiles};
ghost use Rattle.project_refactorings.specs.Refactorings.{Does, put_in as files_put_in};
ghost use Rattle.tied_tokens.specs.Tokens.{plain_file_tokens};
ghost use Rattle.renamings.specs.Renamings.{renamed_files};
ghost use Rattle.reference_classes.specs.Renamed.{report_of};
ghost use Rattle.class_edits.specs.Listed.{renaming_of, StandApart};
ghost use Rattle.rename_words.specs.Steps.{query_of};
ghost use Rattle.rename_words.specs.Fits.{Fits};
ghost use Rattle.command_rename.specs.Rename as spec;
ghost use Rattle.command_rename.specs.Steps.{source_of, OfText, OfSources};

use c_text::FileToken;
use class_edits::count_renamed;
use command_projects::without_project;
use command_promises::{Said, Stop, usage};
use project_refactorings::{nothing_there, put_in, refused_at};
use project_store::{Store, read_files};
use project_texts::{ProjectText, read_project_text};
use rename_op::Outcome;
use rename_words::{RenameWords, asked_rename};
use std::alloc::{AllocError, Global};
use text_edits::{Files, SourceFile};

/// What is reported of the tokens of a class that get a new name.
fn report_for(alloc: Global, files: &Files, class: &[FileToken]) -> Result<String, AllocError>
    ensures { IfOk result (λ text. (old new : List ℕ)
        → string_bytes text ≡ report_of (renaming_of (length files.now.list.items) (plain_file_tokens class.now) old new) (plain_files files.now)) }
{
    let count = count_renamed(files, class);
    let (tokens, touched) = (count.tokens, count.files);
    let text = format!(in alloc; "renamed {tokens} tokens in {touched} files")?;
    Ok(text)
}

/// The project file as it is.
fn project_file(
    alloc: Global,
    query: &RenameWords<'_>,
    text: &ProjectText,
) -> Result<SourceFile, AllocError>
    ensures { IfOk result (λ file. plain_file file ≡ source_of (query_of query.now) text.now) }
{
    let name = String::from_str(alloc, query.project)?;
    let bytes = Vec::from_slice(alloc, text.bytes.as_slice())?;
    Ok(SourceFile { name, bytes })
}

/// The files, and another one behind them.
fn with_file(files: Files, file: SourceFile) -> Result<Files, AllocError>
    ensures { IfOk result (λ all. plain_files all ≡ plain_files files ++ plain_file file ∷ []) }
{
    let mut list = files.list;
    list.push(file)?;
    Ok(Files { list })
}

/// The files with the new name, and the project file as it is, are to be written.
fn renamed(
    alloc: Global,
    query: &RenameWords<'_>,
    text: &ProjectText,
    files: &Files,
    class: &[FileToken],
) -> Result<Said, AllocError>
    requires { StandApart (plain_files files.now) (plain_file_tokens class.now) }
    ensures { IfOk result (λ said. (old : List ℕ) → saying said ≡ files_put_in (query_of query.now).out
        (renamed_files (renaming_of (length (plain_files files.now)) (plain_file_tokens class.now) old (query_of query.now).new) 0 (plain_files files.now)
        ++ source_of (query_of query.now) text.now ∷ [])
        (report_of (renaming_of (length (plain_files files.now)) (plain_file_tokens class.now) old (query_of query.now).new) (plain_files files.now))) }
{
    let changed = class_edits::renamed(alloc, files, class, query.new.as_bytes())?;
    let file = project_file(alloc, query, text)?;
    let written = with_file(changed, file)?;
    let report = report_for(alloc, files, class)?;
    let said = put_in(alloc, query.out, written, report.as_str())?;
    Ok(said)
}

/// Renames in the project's files what stands at the place in the file with this number.
fn of_sources(
    alloc: Global,
    query: &RenameWords<'_>,
    text: &ProjectText,
    files: &Files,
    number: u32,
) -> Result<Said, AllocError>
    requires good { IsTrue (is_new_name (query_of query.now).new) }
    requires few { length text.now.project.features.items ≤ 128 }
    requires below { VarsBelow (length text.now.project.features.items) (admitted text.now.project.model) }
    requires named { map (λ f. f.name) (plain_files files.now) ≡ names_of (project_view text.now.project) }
    requires short { All (λ f. length f.bytes ≤ 4294967295) (plain_files files.now) }
    requires numbered { length files.now.list.items < 4294967295 }
    ensures { IfOk result (λ said. OfSources (query_of query.now) text.now number (plain_files files.now) [] (says (saying said))) }
{
    let new = query.new.as_bytes();
    let outcome = rename_op::rename(alloc, &text.project, files, number, query.offset, new)?;
    match outcome {
        Outcome::Nothing => {
            let said = nothing_there(alloc)?;
            Ok(said)
        }
        Outcome::SameName => {
            let said = usage(alloc)?;
            Ok(said)
        }
        Outcome::Refused(precondition, least) => {
            let said = refused_at(alloc, &text.project, precondition.name(), least)?;
            Ok(said)
        }
        Outcome::Renamed(found) => {
            let said = renamed(alloc, query, text, files, &found.class)?;
            Ok(said)
        }
    }
}

/// The same, where the files have numbers of 32 bits.
fn of_files(
    alloc: Global,
    query: &RenameWords<'_>,
    text: &ProjectText,
    files: &Files,
    number: usize,
) -> Result<Said, Stop>
    requires good { IsTrue (is_new_name (query_of query.now).new) }
    requires few { length text.now.project.features.items ≤ 128 }
    requires below { VarsBelow (length text.now.project.features.items) (admitted text.now.project.model) }
    requires named { map (λ f. f.name) (plain_files files.now) ≡ names_of (project_view text.now.project) }
    requires short { All (λ f. length f.bytes ≤ 4294967295) (plain_files files.now) }
    requires fits { Fits (query_of query.now) (project_view text.now.project) number }
    ensures { SaysOrEnds (OfSources (query_of query.now) text.now number (plain_files files.now)) result }
{
    // The last number is that of the built-in file.
    if files.list.len() >= u32::MAX as usize {
        return Err(Stop::WantOfMemory);
    }
    let said = of_sources(alloc, query, text, files, number as u32)?;
    Ok(said)
}

/// Reads the project's files, and renames in them.
fn with_files<S: Store>(
    alloc: Global,
    query: &RenameWords<'_>,
    text: &ProjectText,
    number: usize,
    store: &mut S,
) -> Result<Said, Stop>
    requires good { IsTrue (is_new_name (query_of query.now).new) }
    requires few { length text.now.project.features.items ≤ 128 }
    requires below { VarsBelow (length text.now.project.features.items) (admitted text.now.project.model) }
    requires fits { Fits (query_of query.now) (project_view text.now.project) number }
    ensures came { CameTo (WithFiles (names_of (project_view text.now.project)) (OfSources (query_of query.now) text.now number)) (S.state store.old) result }
    ensures cause { HasCause (S.state store.old).exact (S.state store.old).read_faults (S.state store.new).read_faults (IsErrOf result Stop.ReadFault) }
    ensures kept { IsReadAlone (S.state store.old) (S.state store.new) }
{
    match read_files(alloc, store, &text.project) {
        Ok(files) => of_files(alloc, query, text, &files, number),
        Err(error) => without_project(alloc, error),
    }
}

/// Holds the words against the project, and renames in its files.
fn in_project<S: Store>(
    alloc: Global,
    query: &RenameWords<'_>,
    text: &ProjectText,
    store: &mut S,
) -> Result<Said, Stop>
    requires good { IsTrue (is_new_name (query_of query.now).new) }
    requires few { length text.now.project.features.items ≤ 128 }
    requires below { VarsBelow (length text.now.project.features.items) (admitted text.now.project.model) }
    ensures came { CameTo (OfText (query_of query.now) text.now) (S.state store.old) result }
    ensures cause { HasCause (S.state store.old).exact (S.state store.old).read_faults (S.state store.new).read_faults (IsErrOf result Stop.ReadFault) }
    ensures kept { IsReadAlone (S.state store.old) (S.state store.new) }
{
    match query.fits(&text.project) {
        Some(number) => with_files(alloc, query, text, number, store),
        None => {
            let said = usage(alloc)?;
            Ok(said)
        }
    }
}

/// Reads the project and its files, and renames in them.
fn of_query<S: Store>(alloc: Global, query: &RenameWords<'_>, store: &mut S) -> Result<Said, Stop>
    requires good { IsTrue (is_new_name (query_of query.now).new) }
    ensures came { CameTo (Does spec.renaming (query_of query.now)) (S.state store.old) result }
    ensures cause { HasCause (S.state store.old).exact (S.state store.old).read_faults (S.state store.new).read_faults (IsErrOf result Stop.ReadFault) }
    ensures kept { IsReadAlone (S.state store.old) (S.state store.new) }
{
    match read_project_text(alloc, store, query.project) {
        Ok(text) => in_project(alloc, query, &text, store),
        Err(error) => without_project(alloc, error),
    }
}

/// Carries out `rename` with its further words, but for what is written: reads the project and its files, and says which files are written with
/// the new name, or what stands in the way.
pub fn rename<S: Store>(alloc: Global, words: &[String], store: &mut S) -> Result<Said, Stop>
    ensures came { CameTo (CourseFor spec.rename (map string_bytes words.now)) (S.state store.old) result }
    ensures cause { HasCause (S.state store.old).exact (S.state store.old).read_faults (S.state store.new).read_faults (IsErrOf result Stop.ReadFault) }
    ensures kept { IsReadAlone (S.state store.old) (S.state store.new) }
{
    match asked_rename(alloc, words)? {
        Some(query) => of_query(alloc, &query, store),
        None => {
            let said = usage(alloc)?;
            Ok(said)
        }
    }
}
