//! The renaming of what stands at a byte of a project's files.
ghost use Rattle.std.specs.Prelude.{◌≡◌, ◌↔◌, ◌<◌, ◌≤◌, ◌++◌, ◌∷◌, ℕ, List, [], Bool, length, map, All, IsTrue, IfOk};
ghost use Rattle.c_names.specs.Names.{is_new_name};
ghost use Rattle.text_edits.specs.Files.{plain_files};
ghost use Rattle.cond_formula.specs.Features.{has};
ghost use Rattle.cond_formula.specs.Conditions.{condition_of, value, VarsBelow};
ghost use Rattle.feature_model.specs.ModelView.{admitted};
ghost use Rattle.project_file.specs.View.{project_view};
ghost use Rattle.project_store.specs.Reads.{names_of};
ghost use Rattle.command_projects.specs.Least.{IsAdmitted};
ghost use Rattle.tied_tokens.specs.Tokens.{plain_file_token, plain_file_tokens};
ghost use Rattle.program_occurrences.specs.Classes.{PlainFileToken};
ghost use Rattle.reference_classes.specs.Renamed.{IsWrittenAt};
ghost use Rattle.class_touches.specs.Touches.{IsTouchedBy};
ghost use Rattle.class_edits.specs.Places.{HoldsByte};
ghost use Rattle.project_analysis.specs.Analysed.{IsAnalysed};
ghost use Rattle.rename_op.specs.Outcomes.{plain_precondition, earlier, AreShown, IsOutcome};
ghost use Rattle.reference_classes.specs.Preconditions.{preconditions};
ghost use Rattle.rename_op.specs.Asked.{IsAsked, BreaksIn, TellsFirst, project_of, files_of};

use crate::asked::{Answered, Asked};
use crate::breaking::least_breaking;
use crate::outcomes::{Outcome, Precondition, Unhindered};
use c_text::FileToken;
use class_edits::{bytes_tell_tokens, listed_stand_apart, name_at, token_at};
use class_touches::touched;
use cond_formula::{Formula, NoMemory};
use project_analysis::{Analysis, analysed};
use project_classes::{ClassAnswer, class_of};
use project_file::Project;
use project_questions::Finding;
use renamed_classes::classes_stand_on_text_lines;
use sat_core::Proof;
use std::alloc::Global;
use text_edits::Files;
use verdict_query::ModelOracle;

/// What is answered when one precondition more is asked, and none before it is broken. `read` is where a token of the class is read, and
/// `proofs` are those of the preconditions before.
fn ask_one(
    alloc: Global,
    asked: &Asked<'_>,
    read: &Formula,
    mut proofs: Vec<Proof>,
    precondition: Precondition,
    oracle: &mut ModelOracle<'_>,
) -> Result<Answered, NoMemory>
    requires named { map (λ f. f.name) (plain_files asked.now.files.now) ≡ names_of (project_view asked.now.project.now) }
    requires short { All (λ f. length f.bytes ≤ 4294967295) (plain_files asked.now.files.now) }
    requires few { length asked.now.files.now.list.items < 4294967295 }
    requires as_many { length asked.now.analysis.now.told.numbered.items ≡ length asked.now.project.now.units.items }
    requires features { length asked.now.project.now.features.items ≤ 128 }
    requires below { VarsBelow (length asked.now.project.now.features.items) (admitted asked.now.project.now.model) }
    requires model { admitted oracle.old ≡ admitted asked.now.project.now.model }
    requires touched { (c : List Bool) → IsAdmitted (project_of asked.now) c → IsTrue (value (has c) (condition_of read.now))
        ↔ IsTouchedBy (project_of asked.now) (files_of asked.now) (plain_file_tokens asked.now.class.now) c }
    ensures kept { admitted oracle.new ≡ admitted oracle.old }
    ensures more { IfOk result (λ a. (place : PlainFileToken) → IsAsked asked.now place
        → AreShown (project_of asked.now) (BreaksIn asked.now place) (earlier (plain_precondition precondition)) proofs.items
        → TellsFirst asked.now place (earlier (plain_precondition precondition) ++ plain_precondition precondition ∷ []) a) }
{
    let found = least_breaking(alloc, asked, read, precondition, oracle)?;
    match found {
        Finding::Least(c) => Ok(Answered::FirstBroken(precondition, c)),
        Finding::Never(proof) => {
            proofs.push(proof)?;
            Ok(Answered::Unbroken(proofs))
        }
    }
}

/// The same, unless one before it is broken.
fn ask_next(
    alloc: Global,
    asked: &Asked<'_>,
    read: &Formula,
    before: Answered,
    precondition: Precondition,
    oracle: &mut ModelOracle<'_>,
) -> Result<Answered, NoMemory>
    requires named { map (λ f. f.name) (plain_files asked.now.files.now) ≡ names_of (project_view asked.now.project.now) }
    requires short { All (λ f. length f.bytes ≤ 4294967295) (plain_files asked.now.files.now) }
    requires few { length asked.now.files.now.list.items < 4294967295 }
    requires as_many { length asked.now.analysis.now.told.numbered.items ≡ length asked.now.project.now.units.items }
    requires features { length asked.now.project.now.features.items ≤ 128 }
    requires below { VarsBelow (length asked.now.project.now.features.items) (admitted asked.now.project.now.model) }
    requires model { admitted oracle.old ≡ admitted asked.now.project.now.model }
    requires touched { (c : List Bool) → IsAdmitted (project_of asked.now) c → IsTrue (value (has c) (condition_of read.now))
        ↔ IsTouchedBy (project_of asked.now) (files_of asked.now) (plain_file_tokens asked.now.class.now) c }
    ensures kept { admitted oracle.new ≡ admitted oracle.old }
    ensures next { IfOk result (λ a. (place : PlainFileToken) → IsAsked asked.now place → TellsFirst asked.now place (earlier (plain_precondition precondition)) before
        → TellsFirst asked.now place (earlier (plain_precondition precondition) ++ plain_precondition precondition ∷ []) a) }
{
    match before {
        Answered::FirstBroken(first, c) => Ok(Answered::FirstBroken(first, c)),
        Answered::Unbroken(proofs) => {
            let answered = ask_one(alloc, asked, read, proofs, precondition, oracle)?;
            Ok(answered)
        }
    }
}

/// What is answered of all preconditions.
fn first_breaking(
    alloc: Global,
    asked: &Asked<'_>,
    read: &Formula,
    oracle: &mut ModelOracle<'_>,
) -> Result<Answered, NoMemory>
    requires named { map (λ f. f.name) (plain_files asked.now.files.now) ≡ names_of (project_view asked.now.project.now) }
    requires short { All (λ f. length f.bytes ≤ 4294967295) (plain_files asked.now.files.now) }
    requires few { length asked.now.files.now.list.items < 4294967295 }
    requires as_many { length asked.now.analysis.now.told.numbered.items ≡ length asked.now.project.now.units.items }
    requires features { length asked.now.project.now.features.items ≤ 128 }
    requires below { VarsBelow (length asked.now.project.now.features.items) (admitted asked.now.project.now.model) }
    requires model { admitted oracle.old ≡ admitted asked.now.project.now.model }
    requires touched { (c : List Bool) → IsAdmitted (project_of asked.now) c → IsTrue (value (has c) (condition_of read.now))
        ↔ IsTouchedBy (project_of asked.now) (files_of asked.now) (plain_file_tokens asked.now.class.now) c }
    ensures { IfOk result (λ a. (place : PlainFileToken) → IsAsked asked.now place → TellsFirst asked.now place preconditions a) }
{
    let none = Answered::Unbroken(Vec::new(alloc));
    let broken = ask_next(alloc, asked, read, none, Precondition::Broken, oracle)?;
    let in_macro_body = ask_next(
        alloc,
        asked,
        read,
        broken,
        Precondition::InMacroBody,
        oracle,
    )?;
    let macro_name = ask_next(
        alloc,
        asked,
        read,
        in_macro_body,
        Precondition::MacroName,
        oracle,
    )?;
    let fixed = ask_next(alloc, asked, read, macro_name, Precondition::Fixed, oracle)?;
    let capture = ask_next(alloc, asked, read, fixed, Precondition::Capture, oracle)?;
    Ok(capture)
}

/// The same, asked of the configurations that the project admits.
fn first_broken(alloc: Global, asked: &Asked<'_>) -> Result<Answered, NoMemory>
    requires named { map (λ f. f.name) (plain_files asked.now.files.now) ≡ names_of (project_view asked.now.project.now) }
    requires short { All (λ f. length f.bytes ≤ 4294967295) (plain_files asked.now.files.now) }
    requires few { length asked.now.files.now.list.items < 4294967295 }
    requires as_many { length asked.now.analysis.now.told.numbered.items ≡ length asked.now.project.now.units.items }
    requires features { length asked.now.project.now.features.items ≤ 128 }
    requires below { VarsBelow (length asked.now.project.now.features.items) (admitted asked.now.project.now.model) }
    ensures { IfOk result (λ a. (place : PlainFileToken) → IsAsked asked.now place → TellsFirst asked.now place preconditions a) }
{
    let mut oracle = ModelOracle::new(alloc, &asked.project.model);
    let read = touched(alloc, asked.project, asked.files, asked.class, &mut oracle)?;
    let found = first_breaking(alloc, asked, &read, &mut oracle)?;
    Ok(found)
}

/// What becomes of the renaming of what stands at a place where the old name is written.
fn outcome_at(
    alloc: Global,
    project: &Project,
    files: &Files,
    analysis: &Analysis,
    place: &FileToken,
    old: &[u8],
    new: &[u8],
) -> Result<Outcome, NoMemory>
    requires good { IsTrue (is_new_name new.now) }
    requires named { map (λ f. f.name) (plain_files files.now) ≡ names_of (project_view project.now) }
    requires short { All (λ f. length f.bytes ≤ 4294967295) (plain_files files.now) }
    requires few { length files.now.list.items < 4294967295 }
    requires features { length project.now.features.items ≤ 128 }
    requires below { VarsBelow (length project.now.features.items) (admitted project.now.model) }
    requires analysed { IsAnalysed project.now (plain_files files.now) analysis.now }
    requires written { IsWrittenAt (plain_files files.now) (plain_file_token place.now) old.now }
    ensures { IfOk result (λ outcome. (file offset : ℕ) → HoldsByte (plain_files files.now) file offset (plain_file_token place.now)
        → IsOutcome (project_view project.now) (plain_files files.now) file offset new.now outcome) }
{
    bytes_tell_tokens();
    classes_stand_on_text_lines();
    listed_stand_apart();
    let ClassAnswer::Class(class) = class_of(alloc, project, &analysis.ties, place)? else {
        return Ok(Outcome::Nothing);
    };
    if old == new {
        return Ok(Outcome::SameName);
    }
    let asked = Asked {
        project,
        files,
        analysis,
        class: &class,
        old,
        new,
    };
    let answered = first_broken(alloc, &asked)?;
    match answered {
        Answered::FirstBroken(precondition, c) => Ok(Outcome::Refused(precondition, c)),
        Answered::Unbroken(proofs) => Ok(Outcome::Renamed(Unhindered { class, proofs })),
    }
}

/// What becomes of the renaming of what stands at a byte of a project's files: the byte of the file with this number at this offset. `files` are the
/// project's headers and then its units. Whether the new name is a feature is the caller's to ask.
pub fn rename(
    alloc: Global,
    project: &Project,
    files: &Files,
    file: u32,
    offset: u32,
    new: &[u8],
) -> Result<Outcome, NoMemory>
    requires good { IsTrue (is_new_name new.now) }
    requires named { map (λ f. f.name) (plain_files files.now) ≡ names_of (project_view project.now) }
    requires short { All (λ f. length f.bytes ≤ 4294967295) (plain_files files.now) }
    requires few { length files.now.list.items < 4294967295 }
    requires features { length project.now.features.items ≤ 128 }
    requires below { VarsBelow (length project.now.features.items) (admitted project.now.model) }
    ensures { IfOk result (IsOutcome (project_view project.now) (plain_files files.now) file offset new.now) }
{
    let Some(place) = token_at(alloc, files, file, offset)? else {
        return Ok(Outcome::Nothing);
    };
    let Some(old) = name_at(alloc, files, &place)? else {
        return Ok(Outcome::Nothing);
    };
    let analysis = analysed(alloc, project, files)?;
    let outcome = outcome_at(alloc, project, files, &analysis, &place, &old, new)?;
    Ok(outcome)
}
