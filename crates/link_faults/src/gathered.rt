//! What a name is declared as with external linkage (6.2.2), by units and headers.
ghost use Rattle.std.specs.Prelude.{◌≡◌, ℕ, Bool, ◌&&◌, ◌||◌, Some, IfOk};
ghost use Rattle.std.specs.List.{list_any};
ghost use Rattle.cond_formula.specs.Conditions.{condition_of, value};
ghost use Rattle.core_meaning.specs.Entities as scopes;
ghost use Rattle.core_meaning.specs.Entities.{function};
ghost use Rattle.core_meaning.specs.Linking.{built_in_sort, external_sort, external_sorts};
ghost use Rattle.type_tables.specs.Seen.{signature_of};
ghost use Rattle.type_tables.specs.declared.tables.Tables.{Tables};
ghost use Rattle.link_faults.specs.SeenUnits.{unit_seen, units_seen};
ghost use Rattle.link_faults.specs.Gathered.{is_sort_so, meaning_so, some_declared};

use crate::built_in::declared_by_header;
use crate::{LeftUnit, declared};
use cond_formula::{Formula, NoMemory};
use conditional::{Guarded, Plain};
use reduced_conditions::both_of;
use std::alloc::Global;
use type_tables::{CondSignature, FileName, Sort};

/// What a name is declared as.
#[derive(Drop)]
pub(crate) enum Declared {
    ByUnit(Sort),
    ByHeader(CondSignature),
}

/// The declaration of a header, which is there in each configuration.
#[tactic(auto, using(cond_formula::specs::ConditionLaws::formula_kinds, crate::proofs::Loops::or_none))]
fn only_declaration(alloc: Global, f: CondSignature) -> Result<Vec<Guarded<Declared>>, NoMemory>
    ensures { IfOk result (λ all. (on : ℕ → Bool) (tables : Tables) (test : scopes.Sort → Bool)
        → some_declared on tables test all.items ≡ test (function (signature_of on (Some f)))) }
{
    let mut all = Vec::new(alloc);
    all.push(Guarded {
        when: Formula::True,
        what: Declared::ByHeader(f),
    })?;
    Ok(all)
}

/// What a header declares a name as.
fn headers_declaration(alloc: Global, name: &[u8]) -> Result<Vec<Guarded<Declared>>, NoMemory>
    ensures { IfOk result (λ all. (on : ℕ → Bool) (tables : Tables) (test : scopes.Sort → Bool)
        → some_declared on tables test all.items ≡ is_sort_so test (built_in_sort name.now)) }
{
    match declared_by_header(alloc, name)? {
        None => Ok(Vec::new(alloc)),
        Some(f) => {
            let all = only_declaration(alloc, f)?;
            Ok(all)
        }
    }
}

/// One declaration of a unit more, unless it has internal linkage.
fn with_meaning(
    alloc: Global,
    so_far: Vec<Guarded<Declared>>,
    present: &Formula,
    entry: &Guarded<FileName>,
) -> Result<Vec<Guarded<Declared>>, NoMemory>
    ensures { IfOk result (λ all. (on : ℕ → Bool) (tables : Tables) (test : scopes.Sort → Bool)
        → some_declared on tables test all.items ≡ (some_declared on tables test so_far.items
        || (value on (condition_of present.now) && meaning_so on tables test entry.now))) }
{
    if entry.what.internal {
        return Ok(so_far);
    }
    let when = both_of(alloc, present, &entry.when)?;
    let copy = entry.what.try_clone(alloc)?;
    let mut all = so_far;
    all.push(Guarded {
        when,
        what: Declared::ByUnit(copy.sort),
    })?;
    Ok(all)
}

/// These declarations of a unit more.
fn with_meanings(
    alloc: Global,
    so_far: Vec<Guarded<Declared>>,
    present: &Formula,
    meanings: &[Guarded<FileName>],
) -> Result<Vec<Guarded<Declared>>, NoMemory>
    ensures { IfOk result (λ all. (on : ℕ → Bool) (tables : Tables) (test : scopes.Sort → Bool)
        → some_declared on tables test all.items ≡ (some_declared on tables test so_far.items
        || list_any (λ e. value on (condition_of present.now) && meaning_so on tables test e) meanings.now)) }
{
    let mut all = so_far;
    for entry in meanings {
        all = with_meaning(alloc, all, present, entry)?;
    }
    Ok(all)
}

/// The declarations of one unit more.
fn with_unit(
    alloc: Global,
    so_far: Vec<Guarded<Declared>>,
    left: &LeftUnit,
    name: &[u8],
) -> Result<Vec<Guarded<Declared>>, NoMemory>
    ensures { IfOk result (λ all. (on : ℕ → Bool) (tables : Tables) (test : scopes.Sort → Bool)
        → some_declared on tables test all.items ≡ (some_declared on tables test so_far.items
        || (value on (condition_of left.now.when) && is_sort_so test (external_sort name.now (unit_seen on tables left.now))))) }
{
    let meanings = declared(alloc, left, name)?;
    let all = with_meanings(alloc, so_far, &left.when, &meanings.alternatives)?;
    Ok(all)
}

/// What a name is declared as.
pub(crate) fn external_declarations(
    alloc: Global,
    units: &[LeftUnit],
    name: &[u8],
) -> Result<Vec<Guarded<Declared>>, NoMemory>
    ensures { IfOk result (λ all. (on : ℕ → Bool) (tables : Tables) (test : scopes.Sort → Bool)
        → some_declared on tables test all.items ≡ list_any (is_sort_so test) (external_sorts (units_seen on tables units.now) name.now)) }
{
    let mut all = headers_declaration(alloc, name)?;
    for left in units {
        all = with_unit(alloc, all, left, name)?;
    }
    Ok(all)
}
