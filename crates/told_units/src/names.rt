//! The names in common that identifiers declare.
ghost use Rattle.std.specs.Prelude.{◌≡◌, ℕ, Bool, ◌++◌, List, Some, IfOk};
ghost use Rattle.std.specs.List.{list_any};
ghost use Rattle.c_text.specs.Token.{plain_token};
ghost use Rattle.cond_formula.specs.Conditions.{condition_of, value};
ghost use Rattle.conditional.specs.Entries.{seen, under, listed};
ghost use Rattle.bindings.specs.Visible.{ordinary, tags, members_of};
ghost use Rattle.program_occurrences.specs.Occurrences.{UnitNames};
ghost use Rattle.tied_tokens.specs.Ties.{plain_common_name};
ghost use Rattle.name_spaces.specs.Laws.{common_by};
ghost use Rattle.cond_pairings.specs.Pairs.{Pair};
ghost use Rattle.cond_name_spaces.specs.Spaced.{plain_space, plain_name};
ghost use Rattle.declared_tokens.specs.Declarations.{declared_at, is_among};
ghost use Rattle.told_occurrences.specs.Told.{numbered};
ghost use Rattle.told_occurrences.specs.Units.{names_seen};
ghost use Rattle.read_occurrences.specs.Read.{is_own_pair, name_read, names_read};
ghost use Rattle.told_units.specs.Told.{TellsExternal};

use crate::own::where_own;
use cond_formula::{Formula, NoMemory};
use cond_name_spaces::{Space, SpacedName};
use conditional::{CondList, Guarded};
use conditional_steps::both_of;
use declared_tokens::DeclaredTokens;
use link_faults::{LeftUnit, where_external};
use reduced_conditions::{both, is_never};
use std::alloc::Global;
use tied_tokens::CommonName;
use told_occurrences::ToldName;

/// One name more, where the condition is true.
fn push(
    number: u32,
    name: CommonName,
    when: Formula,
    all: &mut Vec<ToldName>,
) -> Result<(), NoMemory>
    ensures { IfOk result (λ _. (on : ℕ → Bool) → names_seen on all.new.items
        ≡ names_seen on all.old.items ++ under (value on (condition_of when)) (numbered number (Some (plain_common_name name)))) }
{
    if is_never(&when) {
        return Ok(());
    }
    all.push(ToldName { number, name, when })?;
    Ok(())
}

/// A name of file scope, where the condition is true and it has external linkage.
fn push_external(
    alloc: Global,
    left: &LeftUnit,
    number: u32,
    text: &[u8],
    when: Formula,
    all: &mut Vec<ToldName>,
) -> Result<(), NoMemory>
    ensures { IfOk result (λ _. (on : ℕ → Bool) (unit : UnitNames) → TellsExternal on left.now unit → names_seen on all.new.items
        ≡ names_seen on all.old.items ++ under (value on (condition_of when)) (numbered number (common_by unit (Some ordinary) text.now))) }
{
    let external = where_external(alloc, left, text)?;
    let here = both(alloc, when, external)?;
    let name = CommonName::External(Vec::from_slice(alloc, text)?);
    push(number, name, here, all)?;
    Ok(())
}

/// A tag.
fn push_tag(
    alloc: Global,
    number: u32,
    text: &[u8],
    when: Formula,
    all: &mut Vec<ToldName>,
) -> Result<(), NoMemory>
    ensures { IfOk result (λ _. (on : ℕ → Bool) (unit : UnitNames) → names_seen on all.new.items
        ≡ names_seen on all.old.items ++ under (value on (condition_of when)) (numbered number (common_by unit (Some tags) text.now))) }
{
    let name = CommonName::Tag(Vec::from_slice(alloc, text)?);
    push(number, name, when, all)?;
    Ok(())
}

/// A member of the struct with this tag.
fn push_member(
    alloc: Global,
    tag: &[u8],
    number: u32,
    text: &[u8],
    when: Formula,
    all: &mut Vec<ToldName>,
) -> Result<(), NoMemory>
    ensures { IfOk result (λ _. (on : ℕ → Bool) (unit : UnitNames) → names_seen on all.new.items
        ≡ names_seen on all.old.items ++ under (value on (condition_of when)) (numbered number (common_by unit (Some (members_of tag.now)) text.now))) }
{
    let of = Vec::from_slice(alloc, tag)?;
    let name = CommonName::Member(of, Vec::from_slice(alloc, text)?);
    push(number, name, when, all)?;
    Ok(())
}

/// The name in common of an identifier that declares itself where the condition is true.
fn push_name(
    alloc: Global,
    left: &LeftUnit,
    name: &SpacedName,
    when: Formula,
    all: &mut Vec<ToldName>,
) -> Result<(), NoMemory>
    ensures { IfOk result (λ _. (on : ℕ → Bool) (unit : UnitNames) → TellsExternal on left.now unit → names_seen on all.new.items
        ≡ names_seen on all.old.items ++ under (value on (condition_of when)) (numbered name.now.number (common_by unit (Some (plain_space name.now.space)) (plain_token name.now.token).text))) }
{
    let text = name.token.text.as_slice();
    match &name.space {
        Space::Ordinary => push_external(alloc, left, name.number, text, when, all)?,
        Space::Tags => push_tag(alloc, name.number, text, when, all)?,
        Space::MembersOf(tag) => push_member(alloc, tag, name.number, text, when, all)?,
    }
    Ok(())
}

/// The name in common of an identifier, where it is there and declares itself.
fn push_entry(
    alloc: Global,
    left: &LeftUnit,
    own: &DeclaredTokens,
    one: &Guarded<SpacedName>,
    all: &mut Vec<ToldName>,
) -> Result<(), NoMemory>
    ensures { IfOk result (λ _. (on : ℕ → Bool) (unit : UnitNames) (pairs : List Pair) → TellsExternal on left.now unit
        → ((number : ℕ) → is_among (declared_at on own.now number) number ≡ list_any (is_own_pair number) pairs)
        → names_seen on all.new.items ≡ names_seen on all.old.items ++ under (value on (condition_of one.now.when)) (name_read unit pairs (plain_name one.now.what))) }
{
    let declares = where_own(alloc, own, one.what.number)?;
    let here = both_of(alloc, &one.when, &declares)?;
    push_name(alloc, left, &one.what, here, all)?;
    Ok(())
}

/// The names in common that a unit declares, by what it leaves, by the identifiers that declare themselves, and by the name spaces in which identifiers stand.
pub(crate) fn told_names(
    alloc: Global,
    left: &LeftUnit,
    own: &DeclaredTokens,
    names: &CondList<SpacedName>,
) -> Result<Vec<ToldName>, NoMemory>
    ensures { IfOk result (λ told. (on : ℕ → Bool) (unit : UnitNames) (pairs : List Pair) → TellsExternal on left.now unit
        → ((number : ℕ) → is_among (declared_at on own.now number) number ≡ list_any (is_own_pair number) pairs)
        → names_seen on told.items ≡ names_read unit pairs (seen on (listed plain_name names.now))) }
{
    let mut all = Vec::new(alloc);
    for one in &names.entries {
        push_entry(alloc, left, own, one, &mut all)?;
    }
    Ok(all)
}
