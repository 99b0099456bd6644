//! The preprocessing of a project's unit.
ghost use Rattle.std.specs.Prelude.{◌≡◌, ◌+◌, ◌<◌, ◌≤◌, length, map, All, MatchResult};
ghost use Rattle.cond_formula.specs.Features.{has};
ghost use Rattle.text_edits.specs.Files.{plain_files};
ghost use Rattle.c_text.specs.Token.{plain_token};
ghost use Rattle.c_text.specs.Preprocessing.{IsPreprocessed, gives};
ghost use Rattle.project_file.specs.View.{project_view};
ghost use Rattle.project_store.specs.Reads.{names_of};
ghost use Rattle.plain_pp.specs.Units.{sources_of, file_of, WhyNone};

use crate::errors::PpError;
use crate::features::at_start;
use crate::units::read_source;
use c_text::Token;
use cond_formula::Config;
use project_file::Project;
use std::alloc::Global;
use text_edits::Files;
use unit_files::{Source, Sources};

/// How deep files may be nested in a unit.
const MOST_NESTED: u32 = 16;

fn unit_number(headers: usize, unit: u32, files: usize) -> u32
    requires there { headers + unit < files }
    requires few { files < 4294967295 }
    ensures { result ≡ headers + unit }
{
    headers as u32 + unit
}

/// The tokens of a unit in a configuration, or the first refusal. `files` are the project's headers
/// and then its units, and `unit` is the place of the unit among the units.
pub fn preprocess(
    alloc: Global,
    project: &Project,
    files: &Files,
    unit: u32,
    c: Config,
) -> Result<Vec<Token>, PpError>
    requires there { unit < length project.now.units.items }
    requires named { map (λ f. f.name) (plain_files files.now) ≡ names_of (project_view project.now) }
    requires short { All (λ f. length f.bytes ≤ 4294967295) (plain_files files.now) }
    requires few { length files.now.list.items < 4294967295 }
    ensures { MatchResult result
        (λ tokens. IsPreprocessed (sources_of (project_view project.now) (plain_files files.now) (has c)) (file_of (project_view project.now) unit) (gives (map plain_token tokens.items)))
        (WhyNone (sources_of (project_view project.now) (plain_files files.now) (has c)) (file_of (project_view project.now) unit)) }
{
    let mut reading = at_start(alloc, project.features.as_slice(), c)?;
    let sources = Sources {
        files: files.list.as_slice(),
        headers: project.headers.as_slice(),
        features: project.features.as_slice(),
    };
    let number = unit_number(project.headers.len(), unit, files.list.len());
    let source = Source::ProjectFile(number);
    match read_source(alloc, &sources, source, MOST_NESTED, &mut reading) {
        Ok(()) => Ok(reading.tokens),
        Err(error) => Err(error),
    }
}
