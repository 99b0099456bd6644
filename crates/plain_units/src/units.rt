//! Units, and what they leave for linking (6.9).
ghost use Rattle.std.specs.Prelude.{◌≡◌, ℕ, map, IfOk};
ghost use Rattle.c_tree.specs.Trees.{plain_tree, plain_trees};
ghost use Rattle.core_meaning.specs.Linking.{closed};
ghost use Rattle.core_meaning.specs.UnitNames as spec;
ghost use Rattle.plain_scope.specs.PlainScope.{plain_struct, uses_of};
ghost use Rattle.plain_scope.specs.Judgements.{Answers, Judges};
ghost use Rattle.plain_objects.specs.PlainStates.{plain_state};
ghost use Rattle.plain_units.specs.Closing.{plain_numbers, one_judged, closed_with};

use crate::items::judge_items;
use c_tree::Tree;
use cond_formula::NoMemory;
use plain_declarators::node_parts;
use plain_link::{Definitions, Left};
use plain_objects::{Unit, judge_sizes};
use plain_scope::{ElabError, Numbers, Scope, Struct, Used};
use std::alloc::Global;
use std::collections::HashMap;

/// A unit before its first item.
fn unit_start<'a>(
    alloc: Global,
    structs: Vec<Struct>,
    numbers: &'a Numbers,
    texts: &'a HashMap<Vec<u8>, u32>,
) -> Unit<'a>
    ensures { (globals : ℕ) → plain_state globals result ≡ spec.unit_start (map plain_struct structs.items) (plain_numbers numbers.now texts.now) }
{
    Unit {
        scope: Scope {
            structs,
            tags: HashMap::new(alloc),
            file_names: HashMap::new(alloc),
            order: Vec::new(alloc),
            blocks: Vec::new(alloc),
            numbers,
            literals: texts,
        },
        defined: Vec::new(alloc),
    }
}

/// The items of a unit, and then the sizes of its objects.
fn judge_to_end(
    alloc: Global,
    unit: &mut Unit,
    used: &mut Used,
    parts: &[Tree],
) -> Result<(), ElabError>
    ensures { (globals : ℕ) → Judges (spec.judged_to_end globals (plain_state globals unit.old) (plain_trees parts.now)) (λ u. plain_state globals unit.new) used.old used.new result }
{
    judge_items(alloc, unit, used, parts)?;
    judge_sizes(&unit.scope, parts)
}

fn judge_all<'a>(
    alloc: Global,
    structs: Vec<Struct>,
    used: &mut Used,
    numbers: &'a Numbers,
    texts: &'a HashMap<Vec<u8>, u32>,
    tree: &Tree,
) -> Result<Unit<'a>, ElabError>
    ensures { (globals : ℕ) → Judges (spec.judged_unit globals (map plain_struct structs.items) (plain_numbers numbers.now texts.now) (plain_tree tree.now)) (λ unit. plain_state globals unit) used.old used.new result }
{
    let parts = node_parts(tree)?;
    let mut unit = unit_start(alloc, structs, numbers, texts);
    judge_to_end(alloc, &mut unit, used, parts)?;
    Ok(unit)
}

/// What a unit leaves for linking, and the structs so far.
fn left_by(alloc: Global, unit: Unit, used: Used) -> Result<(Left, Vec<Struct>), NoMemory>
    ensures { IfOk result (λ r. (globals : ℕ) → one_judged globals r ≡ closed_with (plain_state globals unit.entry) (uses_of used)) }
{
    let Unit { scope, defined } = unit;
    let Scope {
        structs,
        tags: _,
        file_names,
        order,
        blocks: _,
        numbers: _,
        literals: _,
    } = scope;
    let defined = Definitions::new(alloc, defined)?;
    let left = Left {
        names: file_names,
        order,
        defined,
        used,
    };
    Ok((left, structs))
}

/// What a unit leaves for linking, with the structs of all units up to it, or its first refusal. `structs` are those of the
/// units before it; the names of the unit and the texts have these numbers.
pub fn judge_unit(
    alloc: Global,
    structs: Vec<Struct>,
    numbers: &Numbers,
    texts: &HashMap<Vec<u8>, u32>,
    tree: &Tree,
) -> Result<(Left, Vec<Struct>), ElabError>
    ensures { (globals : ℕ) →
        Answers (closed (spec.judged_unit globals (map plain_struct structs.items) (plain_numbers numbers.now texts.now) (plain_tree tree.now)))
        (one_judged globals) result }
{
    let mut used = Used::new(alloc);
    let unit = judge_all(alloc, structs, &mut used, numbers, texts, tree)?;
    let left = left_by(alloc, unit, used)?;
    Ok(left)
}
