//! The reading of a unit of a project in all configurations.
ghost use Rattle.std.specs.Prelude.{◌≡◌, ◌+◌, ◌<◌, ◌≤◌, ◌||◌, List, Bool, map, length, All, IsTrue, IfOk, OnOk};
ghost use Rattle.cond_formula.specs.Features.{has};
ghost use Rattle.cond_formula.specs.Conditions.{condition_of, value};
ghost use Rattle.text_edits.specs.Files.{plain_files};
ghost use Rattle.c_text.specs.Token.{PlainToken};
ghost use Rattle.c_text.specs.Preprocessing as spec;
ghost use Rattle.c_text.specs.Preprocessing.{IsSyntaxOf, preprocessed};
ghost use Rattle.active_tokens.specs.Active.{AreMisplaced, reads_of_unit};
ghost use Rattle.project_file.specs.View.{project_view};
ghost use Rattle.project_store.specs.Reads.{names_of};
ghost use Rattle.cond_readings.specs.Readings.{reading_at, came_to};
ghost use Rattle.plain_pp.specs.Units.{sources_of, file_of};
ghost use Rattle.cond_pp.specs.Watches.{is_seen};

use crate::units::read_source;
use crate::watch::Watch;
use cond_formula::{Formula, NoMemory, Oracle};
use cond_readings::CondReading;
use project_file::Project;
use std::alloc::Global;
use text_edits::Files;
use unit_files::{Source, Sources};

/// How deep files may be nested in a unit.
const MOST_NESTED: u32 = 16;

fn unit_number(headers: usize, unit: u32, files: usize) -> u32
    requires there { headers + unit < files }
    requires few { files < 4294967295 }
    ensures { result ≡ headers + unit }
{
    headers as u32 + unit
}

/// Reads a unit, while tokens are watched.
pub fn read_unit<O: Oracle>(
    alloc: Global,
    project: &Project,
    files: &Files,
    unit: u32,
    oracle: &mut O,
    watch: &mut Watch<'_>,
) -> Result<CondReading, NoMemory>
    requires there { unit < length project.now.units.items }
    requires named { map (λ f. f.name) (plain_files files.now) ≡ names_of (project_view project.now) }
    requires short { All (λ f. length f.bytes ≤ 4294967295) (plain_files files.now) }
    requires few { length files.now.list.items < 4294967295 }
    ensures kept { O.admits oracle.new ≡ O.admits oracle.old }
    ensures read { IfOk result (λ reading. (c : List Bool) (x : spec.Syntax) → IsTrue (value (has c) (O.admits oracle.old)) → IsSyntaxOf (sources_of (project_view project.now) (plain_files files.now) (has c)) x
        → reading_at (has c) (project_view project.now).features reading ≡ came_to (preprocessed (sources_of (project_view project.now) (plain_files files.now) (has c)) x (file_of (project_view project.now) unit))) }
    ensures found { OnOk result ((c : List Bool) (x : spec.Syntax) (are : IsSyntaxOf (sources_of (project_view project.now) (plain_files files.now) (has c)) x) (misplaced : spec.Source → List PlainToken) → IsTrue (value (has c) (O.admits oracle.old)) → AreMisplaced are misplaced
        → value (has c) (condition_of watch.new.found) ≡ (value (has c) (condition_of watch.old.found)
        || is_seen watch.old (reads_of_unit (sources_of (project_view project.now) (plain_files files.now) (has c)) x misplaced (file_of (project_view project.now) unit)))) }
{
    let mut reading = CondReading::new(alloc);
    let sources = Sources {
        files: files.list.as_slice(),
        headers: project.headers.as_slice(),
        features: project.features.as_slice(),
    };
    let number = unit_number(project.headers.len(), unit, files.list.len());
    let source = Source::ProjectFile(number);
    read_source(
        alloc,
        &sources,
        source,
        Formula::True,
        MOST_NESTED,
        &mut reading,
        oracle,
        watch,
    )?;
    Ok(reading)
}
