ghost use Rattle.std.specs.Prelude.{◌≡◌, true, IfOk, IsErrOf, map};
ghost use Rattle.std.specs.String.{string_bytes};
ghost use Rattle.quick_form.specs.Words.{is_name};
ghost use Rattle.project_store.specs.Faults.{HasCause};
ghost use Rattle.project_store.specs.States.{IsReadAlone};
ghost use Rattle.command_promises.specs.Courses.{says};
ghost use Rattle.command_promises.specs.Sayings.{saying, CameTo};
ghost use Rattle.command_promises.specs.Commands.{CourseFor};
ghost use Rattle.command_quick.specs.Quick as spec;
ghost use Rattle.command_quick.specs.Steps.{asked};

use crate::words::{Renaming, asked_renaming};
use command_promises::{Said, Stop, usage};
use folder_names::in_folder;
use project_store::{Store, StoreFault};
use quick_rename::{Answer, rename};
use std::alloc::{AllocError, Global};
use text_edits::{Files, SourceFile};

/// The file isn't taken, for what stands at the offset.
fn refused(alloc: Global, offset: usize) -> Result<Said, AllocError>
    ensures { IfOk result (λ said. saying said ≡ spec.refuses_at offset) }
{
    let text = format!(in alloc; "not quick at {offset}\n")?;
    let said = Said::tells(alloc, 12, text.as_str())?;
    Ok(said)
}

/// The renamed file is to be written.
fn renamed(
    alloc: Global,
    renaming: &Renaming,
    bytes: Vec<u8>,
    tokens: usize,
) -> Result<Said, AllocError>
    ensures { IfOk result (λ said. saying said ≡ spec.says_renamed (asked renaming.now) bytes.items tokens) }
{
    let name = in_folder(alloc, renaming.out, renaming.file)?;
    let report = format!(in alloc; "renamed {tokens} tokens in 1 files\n")?;
    let mut list = Vec::new(alloc);
    list.push(SourceFile { name, bytes })?;
    Ok(Said {
        status: 0,
        report: Vec::from_slice(alloc, report.as_bytes())?,
        written: Files { list },
    })
}

/// Renames in the bytes of the file.
fn of_bytes(alloc: Global, renaming: &Renaming, bytes: &[u8]) -> Result<Said, AllocError>
    requires { is_name renaming.now.new.now ≡ true }
    ensures { IfOk result (λ said. spec.OfBytes (asked renaming.now) bytes.now (says (saying said))) }
{
    let answer = rename(
        alloc,
        bytes,
        renaming.old.as_bytes(),
        renaming.new.as_bytes(),
    )?;
    match answer {
        Answer::NotQuick { offset } => {
            let said = refused(alloc, offset)?;
            Ok(said)
        }
        Answer::Renamed { bytes, tokens } => {
            let said = renamed(alloc, renaming, bytes, tokens)?;
            Ok(said)
        }
    }
}

/// Reads the file, and renames in it.
fn of_file<S: Store>(alloc: Global, renaming: &Renaming, store: &mut S) -> Result<Said, Stop>
    requires { is_name renaming.now.new.now ≡ true }
    ensures came { CameTo (spec.Does (asked renaming.now)) (S.state store.old) result }
    ensures cause { HasCause (S.state store.old).exact (S.state store.old).read_faults (S.state store.new).read_faults (IsErrOf result Stop.ReadFault) }
    ensures kept { IsReadAlone (S.state store.old) (S.state store.new) }
{
    match store.read(alloc, renaming.file) {
        Ok(bytes) => {
            let said = of_bytes(alloc, renaming, &bytes)?;
            Ok(said)
        }
        Err(StoreFault::Failed) => Err(Stop::ReadFault),
        Err(StoreFault::Memory) => Err(Stop::WantOfMemory),
    }
}

/// Carries out `quick` with its further words, but for what is written: reads the file and renames in it.
pub fn quick<S: Store>(alloc: Global, words: &[String], store: &mut S) -> Result<Said, Stop>
    ensures came { CameTo (CourseFor spec.quick (map string_bytes words.now)) (S.state store.old) result }
    ensures cause { HasCause (S.state store.old).exact (S.state store.old).read_faults (S.state store.new).read_faults (IsErrOf result Stop.ReadFault) }
    ensures kept { IsReadAlone (S.state store.old) (S.state store.new) }
{
    match asked_renaming(words) {
        Some(renaming) => of_file(alloc, &renaming, store),
        None => {
            let said = usage(alloc)?;
            Ok(said)
        }
    }
}
