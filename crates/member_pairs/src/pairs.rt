//! Uses of members in pairs.

ghost use Rattle.std.specs.Prelude.{◌≡◌, ℕ, Bool, [], ◌∷◌, ◌++◌, ◌&&◌, IfOk};
ghost use Rattle.cond_formula.specs.Conditions.{condition_of, value};
ghost use Rattle.conditional.specs.Entries.{seen, under, entries_of, listed};
ghost use Rattle.cond_pairings.specs.Pairs.{pairs_seen};
ghost use Rattle.cond_selections.specs.Selected.{plain_selection};
ghost use Rattle.cond_name_spaces.specs.Spaced.{plain_space, plain_name};
ghost use Rattle.member_pairs.specs.Members as spec;
ghost use Rattle.member_pairs.specs.Members.{tag_of, declares_member, pair_of, pairs_of_use, pairs_of_uses};

use cond_formula::{Formula, NoMemory};
use cond_name_spaces::{Space, SpacedName};
use cond_pairings::CondPairing;
use cond_selections::Selection;
use conditional::{CondList, Guarded};
use conditional_steps::both_of;
use reduced_conditions::is_never;
use std::alloc::Global;
use type_tables::Tables;

/// Whether it is the name space of the members of the struct with this tag.
fn is_member_space(tag: &[u8], space: &Space) -> bool
    ensures { result ≡ spec.is_member_space tag.now (plain_space space.now) }
{
    match space {
        Space::Ordinary | Space::Tags => false,
        Space::MembersOf(of) => of.as_slice() == tag,
    }
}

/// Whether the identifier declares the member of this name of the struct with this tag.
fn declares(tag: &[u8], name: &[u8], declared: &SpacedName) -> bool
    ensures { result ≡ declares_member tag.now name.now (plain_name declared.now) }
{
    is_member_space(tag, &declared.space) && declared.token.text.as_slice() == name
}

/// A use with an identifier, where the condition is true.
fn push(
    alloc: Global,
    one: &Guarded<Selection>,
    declared: &Guarded<SpacedName>,
    all: &mut Vec<CondPairing>,
) -> Result<(), NoMemory>
    ensures { IfOk result (λ _. (on : ℕ → Bool) → pairs_seen on all.new.items
        ≡ pairs_seen on all.old.items ++ under (value on (condition_of one.now.when) && value on (condition_of declared.now.when)) (pair_of (plain_selection one.now.what) (plain_name declared.now.what) ∷ [])) }
{
    let when = both_of(alloc, &one.when, &declared.when)?;
    if is_never(&when) {
        return Ok(());
    }
    all.push(CondPairing {
        identifier: one.what.name.origin.site.start,
        declared_by: declared.what.number,
        when,
    })?;
    Ok(())
}

/// A use with each identifier that declares what it uses.
fn push_use(
    alloc: Global,
    tag: &[u8],
    one: &Guarded<Selection>,
    names: &[Guarded<SpacedName>],
    all: &mut Vec<CondPairing>,
) -> Result<(), NoMemory>
    ensures { IfOk result (λ _. (on : ℕ → Bool) → pairs_seen on all.new.items
        ≡ pairs_seen on all.old.items ++ under (value on (condition_of one.now.when)) (pairs_of_use tag.now (plain_selection one.now.what) (seen on (entries_of plain_name names.now)))) }
{
    for declared in names {
        if declares(tag, &one.what.name.text, &declared.what) {
            push(alloc, one, declared, all)?;
        }
    }
    Ok(())
}

/// The tag of the struct with a number.
fn tag_by(tables: &Tables, number: u32) -> &[u8]
    ensures { result.now ≡ tag_of tables.now number }
{
    match tables.structs.get(number as usize) {
        Some(found) => &found.tag,
        None => &[],
    }
}

/// The uses of members of a unit in pairs with the identifiers that declare the members, in the order of the uses. The tokens of the uses tell
/// their numbers in the unit's stream by their sites, and the structs are those of the tables.
pub fn member_pairs(
    alloc: Global,
    tables: &Tables,
    uses: &CondList<Selection>,
    names: &CondList<SpacedName>,
) -> Result<Vec<CondPairing>, NoMemory>
    ensures { IfOk result (λ pairs. (on : ℕ → Bool) → pairs_seen on pairs.items
        ≡ pairs_of_uses (tag_of tables.now) (seen on (listed plain_name names.now)) (seen on (listed plain_selection uses.now))) }
{
    let mut all = Vec::new(alloc);
    for one in &uses.entries {
        let tag = tag_by(tables, one.what.structure);
        push_use(alloc, tag, one, &names.entries, &mut all)?;
    }
    Ok(all)
}
