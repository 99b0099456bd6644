//! Names that are used and not defined (6.9).
ghost use Rattle.std.specs.Prelude.{◌≡◌, ℕ, Bool, ◌&&◌, ◌||◌, [], IfOk, if◌then◌else◌};
ghost use Rattle.std.specs.List.{list_any};
ghost use Rattle.std.specs.Str.{bytes_eq};
ghost use Rattle.cond_formula.specs.Conditions.{condition_of, value};
ghost use Rattle.link_faults.specs.SeenUnits.{units_seen, is_used, is_undefined};
ghost use Rattle.link_faults.specs.Measures.{is_lacking};

use crate::definitions::where_defined;
use crate::external::{external_definitions, or_built_in};
use crate::left::LeftUnit;
use crate::names::where_internal;
use crate::questions::{Question, where_some};
use cond_bindings::FileUse;
use cond_formula::{Formula, NoMemory};
use reduced_conditions::{both, either, without};
use std::alloc::Global;
use type_tables::Tables;

fn or_used(
    alloc: Global,
    so_far: Formula,
    found: &FileUse,
    name: &[u8],
) -> Result<Formula, NoMemory>
    ensures { IfOk result (λ f. (on : ℕ → Bool) → value on (condition_of f) ≡ (value on (condition_of so_far)
        || (bytes_eq name.now found.now.name.items && value on (condition_of found.now.when)))) }
{
    if name != found.name.as_slice() {
        return Ok(so_far);
    }
    let f = either(alloc, so_far, found.when.try_clone(alloc)?)?;
    Ok(f)
}

/// Where an expression uses a name.
fn where_used(alloc: Global, uses: &[FileUse], name: &[u8]) -> Result<Formula, NoMemory>
    ensures { IfOk result (λ f. (on : ℕ → Bool) → value on (condition_of f) ≡ is_used on uses.now name.now) }
{
    let mut so_far = Formula::False;
    for found in uses {
        so_far = or_used(alloc, so_far, found, name)?;
    }
    Ok(so_far)
}

/// One condition where another is true, and a third elsewhere.
fn chosen(
    alloc: Global,
    when: Formula,
    there: Formula,
    elsewhere: Formula,
) -> Result<Formula, NoMemory>
    ensures { IfOk result (λ f. (on : ℕ → Bool) → value on (condition_of f)
        ≡ (if value on (condition_of when) then value on (condition_of there) else value on (condition_of elsewhere))) }
{
    let outside = without(alloc, elsewhere, &when)?;
    let inside = both(alloc, when, there)?;
    let f = either(alloc, inside, outside)?;
    Ok(f)
}

/// A unit uses a name that isn't available.
#[derive(Clone, Copy)]
struct Lacking<'a> {
    name: &'a [u8],
    /// Other units or headers define it here.
    elsewhere: &'a Formula,
}

impl<'a> Question for Lacking<'a> {
    ghost asks = { λ self on unit. is_lacking (value on (condition_of self.elsewhere.now)) self.name.now unit };

    fn where_so(
        &self,
        alloc: Global,
        _tables: &Tables,
        left: &LeftUnit,
    ) -> Result<Formula, NoMemory> {
        let used = where_used(alloc, &left.uses, self.name)?;
        let internal = where_internal(alloc, left, self.name)?;
        let defined = where_defined(alloc, left, self.name)?;
        let available = chosen(alloc, internal, defined, self.elsewhere.try_clone(alloc)?)?;
        let f = without(alloc, used, &available)?;
        Ok(f)
    }
}

/// Where a unit uses a name that isn't available.
pub fn where_undefined(
    alloc: Global,
    tables: &Tables,
    units: &[LeftUnit],
    name: &[u8],
) -> Result<Formula, NoMemory>
    ensures { IfOk result (λ f. (on : ℕ → Bool) → value on (condition_of f)
        ≡ list_any (is_undefined (units_seen on tables.now units.now) name.now) (units_seen on tables.now units.now)) }
{
    let external = external_definitions(alloc, units, name)?;
    let elsewhere = or_built_in(external.one, name);
    let lacking = Lacking {
        name,
        elsewhere: &elsewhere,
    };
    let f = where_some(alloc, &lacking, tables, units)?;
    Ok(f)
}
