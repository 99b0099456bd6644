//! What a unit gives in all configurations.
ghost use Rattle.std.specs.Prelude.{◌≡◌, ◌<◌, ◌≤◌, List, Bool, map, length, All, IsTrue, IfOk};
ghost use Rattle.cond_formula.specs.Features.{has};
ghost use Rattle.cond_formula.specs.Conditions.{value};
ghost use Rattle.text_edits.specs.Files.{plain_files};
ghost use Rattle.project_file.specs.View.{project_view};
ghost use Rattle.project_store.specs.Reads.{names_of};
ghost use Rattle.cond_pp.specs.Streams.{IsStreamAt};
ghost use Rattle.plain_pp.specs.Units.{sources_of, file_of};

use crate::projects::read_unit;
use crate::watch::Watch;
use cond_formula::{NoMemory, Oracle};
use cond_readings::CondReading;
use cond_tokens::CondStream;
use project_file::Project;
use std::alloc::Global;
use text_edits::Files;
use unit_outcomes::units_have_outcomes;

/// The tokens of a unit in all configurations, and where it is refused. `files` are the project's headers and then its
/// units, and `unit` is the place of the unit among the units.
pub fn preprocess_all<O: Oracle>(
    alloc: Global,
    project: &Project,
    files: &Files,
    unit: u32,
    oracle: &mut O,
) -> Result<CondStream, NoMemory>
    requires there { unit < length project.now.units.items }
    requires named { map (λ f. f.name) (plain_files files.now) ≡ names_of (project_view project.now) }
    requires short { All (λ f. length f.bytes ≤ 4294967295) (plain_files files.now) }
    requires few { length files.now.list.items < 4294967295 }
    ensures kept { O.admits oracle.new ≡ O.admits oracle.old }
    ensures streams { IfOk result (λ stream. (c : List Bool) → IsTrue (value (has c) (O.admits oracle.old)) → IsStreamAt (has c) (sources_of (project_view project.now) (plain_files files.now) (has c)) (file_of (project_view project.now) unit) stream) }
{
    units_have_outcomes();
    let mut watch = Watch::idle();
    let reading = read_unit(alloc, project, files, unit, oracle, &mut watch)?;
    let CondReading {
        table: _,
        tokens,
        refused,
    } = reading;
    Ok(CondStream { tokens, refused })
}
