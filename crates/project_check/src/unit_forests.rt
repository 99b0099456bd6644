//! The trees of one unit.
ghost use Rattle.std.specs.Prelude.{◌≡◌, ◌<◌, ◌≤◌, List, Bool, false, length, map, All, IsTrue, IfOk};
ghost use Rattle.text_edits.specs.Files.{plain_files};
ghost use Rattle.cond_formula.specs.Features.{has};
ghost use Rattle.cond_formula.specs.Conditions.{condition_of, value};
ghost use Rattle.project_file.specs.View.{project_view};
ghost use Rattle.project_store.specs.Reads.{names_of};
ghost use Rattle.plain_pp.specs.Units.{sources_of, file_of};
ghost use Rattle.cond_pp.specs.Streams.{IsStreamAt};
ghost use Rattle.choice_trees.specs.Leaves.{forest_leaves};
ghost use Rattle.choice_parser.specs.Units.{IsParsed, numbered_at};
ghost use Rattle.project_check.specs.Parsed.{IsUnitParsed};

use choice_parser::{Parsed, parse_all};
use choice_trees::Forest;
use cond_formula::{Formula, NoMemory, Oracle};
use cond_pp::preprocess_all;
use cond_tokens::CondStream;
use project_file::Project;
use std::alloc::{AllocError, Global};
use text_edits::Files;

/// What becomes of a unit, whether or not it is present.
#[derive(Drop)]
pub(crate) struct ParsedUnit {
    /// Its tokens, and where it isn't preprocessed.
    pub(crate) stream: CondStream,
    pub(crate) forest: Forest,
    /// Where it is, and its tokens have no tree.
    pub(crate) treeless: Formula,
}

/// The tokens of a unit; there are fewer than a number can tell, or memory ends.
fn stream_of<O: Oracle>(
    alloc: Global,
    project: &Project,
    files: &Files,
    place: usize,
    oracle: &mut O,
) -> Result<CondStream, NoMemory>
    requires there { place < length project.now.units.items }
    requires named { map (λ f. f.name) (plain_files files.now) ≡ names_of (project_view project.now) }
    requires short { All (λ f. length f.bytes ≤ 4294967295) (plain_files files.now) }
    requires few { length files.now.list.items < 4294967295 }
    ensures kept { O.admits oracle.new ≡ O.admits oracle.old }
    ensures short { IfOk result (λ stream. length stream.tokens.items < 4294967295) }
    ensures streams { IfOk result (λ stream. (c : List Bool) → IsTrue (value (has c) (O.admits oracle.old)) → IsStreamAt (has c) (sources_of (project_view project.now) (plain_files files.now) (has c)) (file_of (project_view project.now) place) stream) }
{
    let Ok(number) = u32::try_from(place) else {
        return Err(AllocError);
    };
    let stream = preprocess_all(alloc, project, files, number, oracle)?;
    if stream.tokens.len() >= u32::MAX as usize {
        return Err(AllocError);
    }
    Ok(stream)
}

/// The trees of a unit's tokens.
fn parsed_stream<O: Oracle>(
    alloc: Global,
    stream: CondStream,
    oracle: &mut O,
) -> Result<ParsedUnit, NoMemory>
    requires { length stream.tokens.items < 4294967295 }
    ensures kept { O.admits oracle.new ≡ O.admits oracle.old }
    ensures stream { IfOk result (λ unit. unit.stream ≡ stream) }
    ensures parsed { IfOk result (λ unit. (c : List Bool) → IsTrue (value (has c) (O.admits oracle.old))
        → IsParsed (has c) stream.tokens.items (value (has c) (condition_of unit.treeless)) unit.forest) }
{
    let Parsed { forest, refused } = parse_all(alloc, &stream, oracle)?;
    Ok(ParsedUnit {
        stream,
        forest,
        treeless: refused,
    })
}

/// The trees of a unit, and where it has none.
pub(crate) fn parse_unit<O: Oracle>(
    alloc: Global,
    project: &Project,
    files: &Files,
    place: usize,
    oracle: &mut O,
) -> Result<ParsedUnit, NoMemory>
    requires there { place < length project.now.units.items }
    requires named { map (λ f. f.name) (plain_files files.now) ≡ names_of (project_view project.now) }
    requires short { All (λ f. length f.bytes ≤ 4294967295) (plain_files files.now) }
    requires few { length files.now.list.items < 4294967295 }
    ensures kept { O.admits oracle.new ≡ O.admits oracle.old }
    ensures parsed { IfOk result (λ unit. (c : List Bool) → IsTrue (value (has c) (O.admits oracle.old))
        → IsUnitParsed (has c) (project_view project.now) (plain_files files.now) place (value (has c) (condition_of unit.stream.refused)) (value (has c) (condition_of unit.treeless)) unit.forest) }
    ensures leaves { IfOk result (λ unit. (c : List Bool) → IsTrue (value (has c) (O.admits oracle.old)) → value (has c) (condition_of unit.treeless) ≡ false
        → forest_leaves (has c) unit.forest ≡ numbered_at (has c) 0 unit.stream.tokens.items) }
{
    let stream = stream_of(alloc, project, files, place, oracle)?;
    let unit = parsed_stream(alloc, stream, oracle)?;
    Ok(unit)
}
