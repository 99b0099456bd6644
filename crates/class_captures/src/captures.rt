//! Where the renaming of a class captures a name.
ghost use Rattle.std.specs.Prelude.{◌≡◌, ◌↔◌, ℕ, Bool, List, length, map, IsTrue, IfOk};
ghost use Rattle.cond_formula.specs.Features.{has};
ghost use Rattle.cond_formula.specs.Conditions.{condition_of, value};
ghost use Rattle.cond_scopes.specs.Units.{present_trees};
ghost use Rattle.tied_tokens.specs.Ties.{plain_declared_name};
ghost use Rattle.told_ties.specs.Ties.{named_seen};
ghost use Rattle.bound_otherwise.specs.Otherwise.{TellsOtherwise};
ghost use Rattle.class_captures.specs.Captures.{AreCaptured, TellsCaptures, AreWellTold, MayGetName};

use crate::links::where_linked_otherwise;
use crate::renamed::renamed_forests;
use bound_otherwise::where_bound_otherwise;
use c_text::FileToken;
use changed_forests::{changes_are_seen, renamings_are_seen};
use choice_trees::{Forest, leaves_are_spelled};
use cond_formula::{Formula, NoMemory, Oracle};
use project_analysis::told_of;
use project_file::Unit;
use reduced_conditions::either;
use std::alloc::Global;
use tied_tokens::DeclaredName;
use told_captures::captures_are_told;
use told_occurrences::ToldUnit;

fn are_as_many(before: &[ToldUnit], after: &[ToldUnit]) -> bool
    ensures { IsTrue result ↔ length before.now ≡ length after.now }
{
    before.len() == after.len()
}

/// Where some identifier of a unit is told to be declared by another than before: everywhere, if there are more units or fewer.
fn where_told_otherwise(
    alloc: Global,
    before: &[ToldUnit],
    after: &[ToldUnit],
) -> Result<Formula, NoMemory>
    ensures { IfOk result (λ f. (on : ℕ → Bool) → TellsOtherwise (value on (condition_of f)) on before.now after.now) }
{
    if !are_as_many(before, after) {
        return Ok(Formula::True);
    }
    where_bound_otherwise(alloc, before, after)
}

/// Where some identifier is told to be declared by another than before, or some declaration is linked otherwise.
fn where_told_captured(
    alloc: Global,
    before: &[ToldUnit],
    after: &[ToldUnit],
    names: &[DeclaredName],
    class: &[FileToken],
    old: &[u8],
    new: &[u8],
) -> Result<Formula, NoMemory>
    ensures { IfOk result (λ f. (on : ℕ → Bool)
        → TellsCaptures (value on (condition_of f)) on before.now after.now class.now old.now new.now (named_seen on (map plain_declared_name names.now))) }
{
    let bound = where_told_otherwise(alloc, before, after)?;
    let linked = where_linked_otherwise(alloc, names, class, old, new)?;
    let f = either(alloc, bound, linked)?;
    Ok(f)
}

/// Where the renaming of a class from the old name to the new one captures a name. The units' trees are told by the numbers of their tokens, and
/// by the names that tokens of files declare.
pub fn where_captured<O: Oracle>(
    alloc: Global,
    oracle: &mut O,
    units: &[Unit],
    numbered: &[Forest],
    told: &[ToldUnit],
    names: &[DeclaredName],
    class: &[FileToken],
    old: &[u8],
    new: &[u8],
) -> Result<Formula, NoMemory>
    requires { length numbered.now ≡ length units.now }
    ensures kept { O.admits oracle.new ≡ O.admits oracle.old }
    ensures captured { IfOk result (λ f. (c : List Bool) → IsTrue (value (has c) (O.admits oracle.old))
        → AreWellTold (has c) units.now numbered.now told.now (named_seen (has c) (map plain_declared_name names.now))
        → MayGetName class.now old.now new.now (present_trees (has c) units.now numbered.now)
        → IsTrue (value (has c) (condition_of f)) ↔ AreCaptured class.now new.now (present_trees (has c) units.now numbered.now)) }
{
    renamings_are_seen();
    changes_are_seen();
    leaves_are_spelled();
    captures_are_told();
    let renamed = renamed_forests(alloc, numbered, class, new)?;
    let after = told_of(alloc, oracle, units, &renamed)?;
    let captured = where_told_captured(alloc, told, &after.units, names, class, old, new)?;
    let f = either(alloc, after.broken, captured)?;
    Ok(f)
}
