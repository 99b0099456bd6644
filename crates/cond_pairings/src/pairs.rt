//! Identifiers in pairs with what declares them.

ghost use Rattle.std.specs.Prelude.{◌≡◌, ℕ, Bool, ◌&&◌, [], ◌++◌, map, Some, if◌then◌else◌, IfOk, OnOk};
ghost use Rattle.cond_formula.specs.Conditions.{condition_of, value};
ghost use Rattle.core_meaning.specs.Entities.{or_else};
ghost use Rattle.scope_readings.specs.Scopes.{or_own};
ghost use Rattle.cond_bindings.specs.Bindings as spec;
ghost use Rattle.cond_bindings.specs.Bindings.{innermost, first, declared_by, plain_meaning, identifiers_of, pairings_at};
ghost use Rattle.cond_bindings.specs.NameSteps.{as_visible};
ghost use Rattle.cond_bindings.specs.Unseen.{none_there};
ghost use Rattle.cond_pairings.specs.Pairs.{pair_with, declared_pairs, pairs_seen};

use crate::chains::visible;
use cond_bindings::{Declaration, Identifier, Meaning, UnitBindings};
use cond_formula::{Formula, NoMemory};
use reduced_conditions::{both_of, without};
use std::alloc::Global;

/// An identifier of a unit, with one that declares it.
#[derive(Drop)]
pub struct CondPairing {
    /// The number of the identifier's token in the unit's stream.
    pub identifier: u32,
    /// The number of the token that declares it.
    pub declared_by: u32,
    /// Where the identifier is there and declared by that token.
    pub when: Formula,
}

/// The pairs of an identifier with the first of some declarations that is there, where the condition is true. The answer is where it is true
/// and none of them is there.
fn pair_with_first(
    alloc: Global,
    identifier: u32,
    when: Formula,
    declarations: &[&Declaration],
    all: &mut Vec<CondPairing>,
) -> Result<Formula, NoMemory>
    ensures pairs { IfOk result (λ left. (on : ℕ → Bool) → pairs_seen on all.new.items
        ≡ pairs_seen on all.old.items ++ (if value on (condition_of when) then pair_with identifier (innermost on (map (λ d. as_visible d.now) declarations.now)) else [])) }
    ensures left { IfOk result (λ left. (on : ℕ → Bool) → value on (condition_of left) ≡ (value on (condition_of when) && none_there on (map (λ d. as_visible d.now) declarations.now))) }
{
    let mut left = when;
    for declaration in declarations {
        let there = both_of(alloc, &left, &declaration.when)?;
        all.push(CondPairing {
            identifier,
            declared_by: declaration.number,
            when: there,
        })?;
        left = without(alloc, left, &declaration.when)?;
    }
    Ok(left)
}

/// The pairs of a use, where the condition is true: the latest declaration in a block that is open counts, else the first of file scope.
fn pair_use(
    alloc: Global,
    declarations: &[Declaration],
    identifier: u32,
    when: Formula,
    block: Option<u32>,
    file: Option<u32>,
    all: &mut Vec<CondPairing>,
) -> Result<(), NoMemory>
    ensures { OnOk result ((on : ℕ → Bool) → pairs_seen on all.new.items
        ≡ pairs_seen on all.old.items ++ (if value on (condition_of when) then pair_with identifier (or_else (innermost on (spec.visible declarations.now block)) (first on (spec.visible declarations.now file))) else [])) }
{
    let of_blocks = visible(alloc, declarations, block)?;
    let left = pair_with_first(alloc, identifier, when, &of_blocks, all)?;
    let mut of_file = visible(alloc, declarations, file)?;
    of_file.reverse();
    pair_with_first(alloc, identifier, left, &of_file, all)?;
    Ok(())
}

/// The pairs of a declaration: of those of the same entity before it the first that is there counts, else the identifier itself.
fn pair_declaration(
    alloc: Global,
    declarations: &[Declaration],
    identifier: u32,
    when: Formula,
    earlier: Option<u32>,
    all: &mut Vec<CondPairing>,
) -> Result<(), NoMemory>
    ensures { OnOk result ((on : ℕ → Bool) → pairs_seen on all.new.items
        ≡ pairs_seen on all.old.items ++ (if value on (condition_of when) then pair_with identifier (Some (or_own (first on (spec.visible declarations.now earlier)) identifier)) else [])) }
{
    let mut before = visible(alloc, declarations, earlier)?;
    before.reverse();
    let left = pair_with_first(alloc, identifier, when, &before, all)?;
    all.push(CondPairing {
        identifier,
        declared_by: identifier,
        when: left,
    })?;
    Ok(())
}

/// The pairs of an identifier.
fn pair(
    alloc: Global,
    declarations: &[Declaration],
    i: &Identifier,
    all: &mut Vec<CondPairing>,
) -> Result<(), NoMemory>
    ensures { OnOk result ((on : ℕ → Bool) → pairs_seen on all.new.items
        ≡ pairs_seen on all.old.items ++ (if value on (condition_of i.now.when) then pair_with i.now.number (declared_by on i.now.number (plain_meaning declarations.now i.now.meaning)) else [])) }
{
    let when = i.when.try_clone(alloc)?;
    match i.meaning {
        Meaning::Use(block, file) => {
            pair_use(alloc, declarations, i.number, when, block, file, all)
        }
        Meaning::Declares(earlier) => {
            pair_declaration(alloc, declarations, i.number, when, earlier, all)
        }
    }
}

/// The identifiers of a unit that are declared, each with what declares it: in each configuration exactly the pairs that it sees, in the
/// order of the text.
pub fn pairings(alloc: Global, unit: &UnitBindings) -> Result<Vec<CondPairing>, NoMemory>
    ensures { IfOk result (λ pairs. (on : ℕ → Bool) → pairs_seen on pairs.items ≡ declared_pairs (pairings_at on (identifiers_of unit.now))) }
{
    let mut all = Vec::new(alloc);
    for i in &unit.identifiers {
        pair(alloc, &unit.declarations, i, &mut all)?;
    }
    Ok(all)
}
