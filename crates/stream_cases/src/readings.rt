//! What units read, in all configurations.
ghost use Rattle.std.specs.Prelude.{◌≡◌, ◌<◌, ◌≤◌, map, length, All};
ghost use Rattle.text_edits.specs.Files.{plain_files};
ghost use Rattle.project_file.specs.View.{project_view};
ghost use Rattle.project_store.specs.Reads.{names_of};

use crate::shown::show_stream;
use anyhow::Result;
use c_lexer::lex;
use c_text::{FileToken, Token};
use cond_formula::{Formula, NoMemory, PlainOracle};
use cond_pp::{active, defined_at};
use cond_tokens::{CondStream, CondToken};
use project_store::Project;
use std::alloc::Global;
use text_edits::{Files, SourceFile};

/// The names of which it is asked where they are defined.
const NAMES: [&str; 2] = ["N", "M"];

/// Where the unit reads the token, while the name is defined if there is one.
fn when_read(
    alloc: Global,
    project: &Project,
    files: &Files,
    unit: u32,
    token: &Token,
    name: Option<&str>,
) -> Result<Formula, NoMemory>
    requires there { unit < length project.now.units.items }
    requires named { map (λ f. f.name) (plain_files files.now) ≡ names_of (project_view project.now) }
    requires short { All (λ f. length f.bytes ≤ 4294967295) (plain_files files.now) }
    requires few { length files.now.list.items < 4294967295 }
{
    let at = FileToken {
        file: token.origin.file,
        span: token.origin.span,
    };
    match name {
        Some(name) => Ok(defined_at(
            alloc,
            project,
            files,
            unit,
            &at,
            name.as_bytes(),
            &mut PlainOracle,
        )?),
        None => Ok(active(alloc, project, files, unit, &at, &mut PlainOracle)?),
    }
}

/// The tokens of a file, each where the unit reads it, while the name is defined if there is one.
fn tokens_read(
    alloc: Global,
    project: &Project,
    files: &Files,
    unit: u32,
    number: u32,
    file: &SourceFile,
    name: Option<&str>,
) -> Result<CondStream, NoMemory>
    requires there { unit < length project.now.units.items }
    requires named { map (λ f. f.name) (plain_files files.now) ≡ names_of (project_view project.now) }
    requires short { All (λ f. length f.bytes ≤ 4294967295) (plain_files files.now) }
    requires few { length files.now.list.items < 4294967295 }
    requires text { length file.now.bytes.items ≤ 4294967295 }
{
    let mut tokens = Vec::new(alloc);
    for line in lex(alloc, number, file.bytes.as_slice())? {
        for token in &line.tokens {
            let when = when_read(alloc, project, files, unit, token, name)?;
            let token = token.try_clone(alloc)?;
            tokens.push(CondToken { token, when })?;
        }
    }
    let refused = Formula::False;
    Ok(CondStream { tokens, refused })
}

/// Prints which tokens of the project's files are active in the unit in each configuration of so many features, and which are read
/// while a name is defined.
pub(crate) fn show_readings<R: Print + AllocGlobal>(
    rt: &R,
    project: &Project,
    files: &Files,
    unit: u32,
    features: usize,
) -> Result<()>
    requires there { unit < length project.now.units.items }
    requires named { map (λ f. f.name) (plain_files files.now) ≡ names_of (project_view project.now) }
    requires short { All (λ f. length f.bytes ≤ 4294967295) (plain_files files.now) }
    requires few { length files.now.list.items < 4294967295 }
    requires shown { features ≤ 2 }
{
    let alloc: Global = rt.alloc();
    for (i, file) in files.list.iter().enumerate() {
        if file.bytes.len() > u32::MAX as usize {
            continue;
        }
        let number = i as u32;
        println!(rt; " active in {}:", file.name)?;
        let stream = tokens_read(alloc, project, files, unit, number, file, None)?;
        show_stream(rt, features, &stream)?;
        for name in NAMES {
            println!(rt; " read in {} while {name} is defined:", file.name)?;
            let stream = tokens_read(alloc, project, files, unit, number, file, Some(name))?;
            show_stream(rt, features, &stream)?;
        }
    }
    Ok(())
}
