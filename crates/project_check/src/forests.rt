//! The trees of all units.
ghost use Rattle.std.specs.Prelude.{◌≡◌, ◌<◌, ◌≤◌, ◌&&◌, ◌||◌, ◌++◌, ◌∷◌, [], ℕ, List, Bool, length, map, All, IsTrue, IfOk};
ghost use Rattle.text_edits.specs.Files.{plain_files};
ghost use Rattle.cond_formula.specs.Features.{has};
ghost use Rattle.cond_formula.specs.Conditions.{condition_of, value};
ghost use Rattle.project_file.specs.View.{project_view};
ghost use Rattle.project_store.specs.Reads.{names_of};
ghost use Rattle.project_check.specs.Parsed.{AreParsed, HaveLeaves};

use crate::unit_forests::{ParsedUnit, parse_unit};
use choice_trees::Forest;
use cond_formula::{Formula, NoMemory, Oracle};
use cond_tokens::CondStream;
use project_file::Project;
use reduced_conditions::{both_of, either};
use std::alloc::Global;
use text_edits::Files;

/// The trees of units in all configurations, and where there are none.
#[derive(Drop)]
pub struct ParsedUnits {
    /// The tokens of units, in the order of the project.
    pub streams: Vec<CondStream>,
    /// Their trees, in that order.
    pub forests: Vec<Forest>,
    /// Where a unit that is present isn't preprocessed.
    pub unread: Formula,
    /// Where the tokens of a unit that is present have no tree.
    pub treeless: Formula,
}

/// Refused also where a unit is present that is.
fn with_refusal(
    alloc: Global,
    so_far: Formula,
    when: &Formula,
    refused: &Formula,
) -> Result<Formula, NoMemory>
    ensures { IfOk result (λ f. (on : ℕ → Bool) → value on (condition_of f) ≡ (value on (condition_of so_far) || (value on (condition_of when.now) && value on (condition_of refused.now)))) }
{
    let here = both_of(alloc, when, refused)?;
    either(alloc, so_far, here)
}

/// One unit more.
fn with_unit(
    alloc: Global,
    so_far: ParsedUnits,
    when: &Formula,
    unit: ParsedUnit,
) -> Result<ParsedUnits, NoMemory>
    ensures streams { IfOk result (λ all. all.streams.items ≡ so_far.streams.items ++ unit.stream ∷ []) }
    ensures forests { IfOk result (λ all. all.forests.items ≡ so_far.forests.items ++ unit.forest ∷ []) }
    ensures unread { IfOk result (λ all. (on : ℕ → Bool) → value on (condition_of all.unread)
        ≡ (value on (condition_of so_far.unread) || (value on (condition_of when.now) && value on (condition_of unit.stream.refused)))) }
    ensures treeless { IfOk result (λ all. (on : ℕ → Bool) → value on (condition_of all.treeless)
        ≡ (value on (condition_of so_far.treeless) || (value on (condition_of when.now) && value on (condition_of unit.treeless)))) }
{
    let ParsedUnits {
        mut streams,
        mut forests,
        unread,
        treeless,
    } = so_far;
    let unread = with_refusal(alloc, unread, when, &unit.stream.refused)?;
    let treeless = with_refusal(alloc, treeless, when, &unit.treeless)?;
    streams.push(unit.stream)?;
    forests.push(unit.forest)?;
    Ok(ParsedUnits {
        streams,
        forests,
        unread,
        treeless,
    })
}

/// The trees of the units of a project in all configurations. `files` are the project's headers and then its units.
pub fn parse_units<O: Oracle>(
    alloc: Global,
    project: &Project,
    files: &Files,
    oracle: &mut O,
) -> Result<ParsedUnits, NoMemory>
    requires named { map (λ f. f.name) (plain_files files.now) ≡ names_of (project_view project.now) }
    requires short { All (λ f. length f.bytes ≤ 4294967295) (plain_files files.now) }
    requires few { length files.now.list.items < 4294967295 }
    ensures kept { O.admits oracle.new ≡ O.admits oracle.old }
    ensures as_many { IfOk result (λ all. length all.forests.items ≡ length project.now.units.items) }
    ensures parsed { IfOk result (λ all. (c : List Bool) → IsTrue (value (has c) (O.admits oracle.old)) → AreParsed (has c) project.now (plain_files files.now) all) }
    ensures leaves { IfOk result (λ all. (c : List Bool) → IsTrue (value (has c) (O.admits oracle.old)) → HaveLeaves (has c) project.now all) }
{
    let mut all = ParsedUnits {
        streams: Vec::with_capacity(alloc, project.units.len())?,
        forests: Vec::with_capacity(alloc, project.units.len())?,
        unread: Formula::False,
        treeless: Formula::False,
    };
    for place in 0..project.units.len() {
        let unit = parse_unit(alloc, project, files, place, oracle)?;
        all = with_unit(alloc, all, &project.units[place].when, unit)?;
    }
    Ok(all)
}
