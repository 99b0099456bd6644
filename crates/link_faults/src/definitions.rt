//! How often a unit defines a name (6.9).
ghost use Rattle.std.specs.Prelude.{◌≡◌, ℕ, ◌+◌, Bool, not, ◌&&◌, ◌||◌, [], ◌∷◌, IfOk};
ghost use Rattle.std.specs.Str.{bytes_eq};
ghost use Rattle.cond_formula.specs.Conditions.{condition_of, value};
ghost use Rattle.core_meaning.specs.Linking.{count_defined, defines};
ghost use Rattle.type_tables.specs.declared.tables.Tables.{Tables};
ghost use Rattle.link_faults.specs.Several.{Count};
ghost use Rattle.link_faults.specs.SeenUnits.{unit_seen};
ghost use Rattle.link_faults.specs.Measures.{whole_in, defined_in};

use crate::left::LeftUnit;
use crate::several::{Several, none, one, together};
use cond_formula::{Formula, NoMemory};
use conditional::Guarded;
use reduced_conditions::either;
use std::alloc::Global;
use type_tables::Definition;

/// Whether it is a definition of the name that isn't tentative.
fn is_whole(d: &Definition, name: &[u8]) -> bool
    ensures { result ≡ (bytes_eq d.now.name.items name.now && not d.now.tentative) }
{
    !d.tentative && d.name.as_slice() == name
}

/// One definition more.
fn with_whole(
    alloc: Global,
    so_far: Several,
    entry: &Guarded<Definition>,
    name: &[u8],
) -> Result<Several, NoMemory>
    ensures { IfOk result (λ s. (on : ℕ → Bool) (n : ℕ) → Count on so_far n → Count on s (n + whole_in on name.now (entry.now ∷ []))) }
{
    if is_whole(&entry.what, name) {
        let more = one(entry.when.try_clone(alloc)?);
        let s = together(alloc, so_far, more)?;
        return Ok(s);
    }
    Ok(so_far)
}

/// The definitions of a name that aren't tentative.
fn whole_definitions(
    alloc: Global,
    entries: &[Guarded<Definition>],
    name: &[u8],
) -> Result<Several, NoMemory>
    ensures { IfOk result (λ s. (on : ℕ → Bool) → Count on s (whole_in on name.now entries.now)) }
{
    let mut so_far = none();
    for entry in entries {
        so_far = with_whole(alloc, so_far, entry, name)?;
    }
    Ok(so_far)
}

/// One definition more, be it tentative.
fn or_defined(
    alloc: Global,
    so_far: Formula,
    entry: &Guarded<Definition>,
    name: &[u8],
) -> Result<Formula, NoMemory>
    ensures { IfOk result (λ f. (on : ℕ → Bool) → value on (condition_of f) ≡ (value on (condition_of so_far) || defined_in on name.now (entry.now ∷ []))) }
{
    if entry.what.name.as_slice() != name {
        return Ok(so_far);
    }
    let f = either(alloc, so_far, entry.when.try_clone(alloc)?)?;
    Ok(f)
}

/// Where a name is defined.
fn where_some_define(
    alloc: Global,
    entries: &[Guarded<Definition>],
    name: &[u8],
) -> Result<Formula, NoMemory>
    ensures { IfOk result (λ f. (on : ℕ → Bool) → value on (condition_of f) ≡ defined_in on name.now entries.now) }
{
    let mut so_far = Formula::False;
    for entry in entries {
        so_far = or_defined(alloc, so_far, entry, name)?;
    }
    Ok(so_far)
}

/// Where a unit defines a name.
pub(crate) fn where_defined(
    alloc: Global,
    left: &LeftUnit,
    name: &[u8],
) -> Result<Formula, NoMemory>
    ensures { IfOk result (λ f. (on : ℕ → Bool) (tables : Tables) → value on (condition_of f) ≡ defines (unit_seen on tables left.now) name.now) }
{
    let f = where_some_define(alloc, &left.defined.entries, name)?;
    Ok(f)
}

/// The definitions of a name in a unit: those that are tentative are one together, and none beside another (6.9.2).
pub(crate) fn definitions(alloc: Global, left: &LeftUnit, name: &[u8]) -> Result<Several, NoMemory>
    ensures { IfOk result (λ s. (on : ℕ → Bool) (tables : Tables) → Count on s (count_defined (unit_seen on tables left.now) name.now)) }
{
    let whole = whole_definitions(alloc, &left.defined.entries, name)?;
    let one = where_defined(alloc, left, name)?;
    Ok(Several {
        one,
        two: whole.two,
    })
}
