//! The first fault of units that don't link.
ghost use Rattle.std.specs.Prelude.{ℕ, MatchResult, [], List};
ghost use Rattle.core_meaning.specs.declared.refusals.LinkKind.TheVariants as link_kind;
ghost use Rattle.core_meaning.specs.Linking as spec;
ghost use Rattle.plain_link.specs.PlainUnits.{plain_units};
ghost use Rattle.plain_link.specs.Faults.{IsLeastFault, NotLinked};

use crate::availability::undefined;
use crate::declarations::incompatible_names;
use crate::duplicates::duplicate;
use crate::left::Left;
use crate::mains::has_main;
use crate::order::refuse_least;
use core_meaning::LinkKind;
use plain_scope::{ElabError, Struct};
use std::alloc::Global;

fn refuse_incompatible(alloc: Global, units: &[Left], structs: &[Struct]) -> Result<(), ElabError>
    ensures { MatchResult result
        (λ done. (name : List ℕ) → spec.IsFault (plain_units 0 units.now structs.now) link_kind.Incompatible name → ⊥)
        (IsLeastFault (plain_units 0 units.now structs.now) link_kind.Incompatible) }
{
    let names = incompatible_names(alloc, units, structs)?;
    refuse_least(alloc, LinkKind::Incompatible, names.as_slice())?;
    Ok(())
}

fn refuse_duplicate(alloc: Global, units: &[Left]) -> Result<(), ElabError>
    ensures { MatchResult result
        (λ done. (name : List ℕ) → spec.IsFault (plain_units 0 units.now []) link_kind.Duplicate name → ⊥)
        (IsLeastFault (plain_units 0 units.now []) link_kind.Duplicate) }
{
    let names = duplicate(alloc, units)?;
    refuse_least(alloc, LinkKind::Duplicate, names.as_slice())?;
    Ok(())
}

fn refuse_undefined(alloc: Global, units: &[Left]) -> Result<(), ElabError>
    ensures { MatchResult result
        (λ done. (name : List ℕ) → spec.IsFault (plain_units 0 units.now []) link_kind.Undefined name → ⊥)
        (IsLeastFault (plain_units 0 units.now []) link_kind.Undefined) }
{
    let names = undefined(alloc, units)?;
    refuse_least(alloc, LinkKind::Undefined, names.as_slice())?;
    Ok(())
}

fn refuse_without_main(alloc: Global, units: &[Left]) -> Result<(), ElabError>
    ensures { MatchResult result
        (λ done. (name : List ℕ) → spec.IsFault (plain_units 0 units.now []) link_kind.NoMain name → ⊥)
        (IsLeastFault (plain_units 0 units.now []) link_kind.NoMain) }
{
    if has_main(units) {
        Ok(())
    } else {
        Err(ElabError::Link(LinkKind::NoMain, Vec::from_slice(alloc, b"main")?))
    }
}

/// Refuses by the first fault: faults of one kind before those of the next.
fn refuse_faults(alloc: Global, units: &[Left], structs: &[Struct]) -> Result<(), ElabError>
    ensures { MatchResult result
        (λ done. spec.Links (plain_units 0 units.now structs.now))
        (NotLinked (plain_units 0 units.now structs.now)) }
{
    refuse_without_main(alloc, units)?;
    refuse_undefined(alloc, units)?;
    refuse_duplicate(alloc, units)?;
    refuse_incompatible(alloc, units, structs)?;
    Ok(())
}

/// Refuses units that don't link, by the first fault: by its kind, and among those of one kind by the least name. What objects
/// and functions are defined as, and so how many globals are numbered before the texts, plays no part.
pub fn link(alloc: Global, units: &[Left], structs: &[Struct]) -> Result<(), ElabError>
    ensures { (globals : ℕ) → MatchResult result
        (λ done. spec.Links (plain_units globals units.now structs.now))
        (NotLinked (plain_units globals units.now structs.now)) }
{
    refuse_faults(alloc, units, structs)?;
    Ok(())
}
