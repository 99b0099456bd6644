//! What a unit declares a name as.
ghost use Rattle.std.specs.Prelude.{◌≡◌, ℕ, Bool, not, ◌&&◌, ◌||◌, [], Option, None, IfOk, IfSome, IfNone};
ghost use Rattle.cond_formula.specs.Conditions.{condition_of, value};
ghost use Rattle.conditional.specs.Entries.{Sees, alternatives, entries_of, seen, listed, first};
ghost use Rattle.core_meaning.specs.Linking.{is_internal};
ghost use Rattle.type_tables.specs.Tables as plain;
ghost use Rattle.type_tables.specs.Forms.{file_name_form};
ghost use Rattle.type_tables.specs.declared.tables.Tables.{Tables};
ghost use Rattle.link_faults.specs.SeenUnits.{unit_seen, name_seen};
ghost use Rattle.link_faults.specs.Measures.{some_so, is_so};

use crate::left::{LeftNames, LeftUnit};
use cond_formula::{Formula, NoMemory};
use conditional::{CondValue, Guarded};
use name_places::place_in;
use reduced_conditions::{both, either};
use std::alloc::Global;
use type_tables::{CondName, FileName};

fn named<'a>(names: &'a LeftNames, name: &[u8]) -> Option<&'a CondName>
    ensures some { IfSome result (λ n. (on : ℕ → Bool) → name_seen on names.now name.now ≡ first (seen on (listed file_name_form n.now.meanings))) }
    ensures none { IfNone result ((on : ℕ → Bool) → name_seen on names.now name.now ≡ None) }
{
    let place = place_in(&names.places, name)?;
    match names.declared.get(place as usize) {
        Some(n) if name == n.name.as_slice() => Some(n),
        _ => None,
    }
}

/// What a unit declares a name as.
pub fn declared(
    alloc: Global,
    left: &LeftUnit,
    name: &[u8],
) -> Result<CondValue<FileName>, NoMemory>
    ensures { IfOk result (λ x. (on : ℕ → Bool) → Sees on (name_seen on left.now.names name.now) (alternatives file_name_form x)) }
{
    match named(&left.names, name) {
        None => Ok(CondValue::nothing(alloc)),
        Some(n) => n.meanings.first_value(alloc),
    }
}

/// What is asked of a declaration.
pub(crate) trait Asked {
    ghost holds: { Self → (ℕ → Bool) → plain.FileName → Bool };

    fn where_so(&self, alloc: Global, what: &FileName) -> Result<Formula, NoMemory>
        ensures { IfOk result (λ f. (on : ℕ → Bool) → value on (condition_of f) ≡ holds self.now on (file_name_form what.now)) };
}

fn or_so<A: Asked>(
    alloc: Global,
    asked: &A,
    so_far: Formula,
    entry: &Guarded<FileName>,
) -> Result<Formula, NoMemory>
    ensures { IfOk result (λ f. (on : ℕ → Bool) → value on (condition_of f) ≡ (value on (condition_of so_far)
        || (value on (condition_of entry.now.when) && A.holds asked.now on (file_name_form entry.now.what)))) }
{
    let so = asked.where_so(alloc, &entry.what)?;
    let here = both(alloc, entry.when.try_clone(alloc)?, so)?;
    let f = either(alloc, so_far, here)?;
    Ok(f)
}

fn where_some_so<A: Asked>(
    alloc: Global,
    asked: &A,
    entries: &[Guarded<FileName>],
) -> Result<Formula, NoMemory>
    ensures { IfOk result (λ f. (on : ℕ → Bool) → value on (condition_of f) ≡ some_so (A.holds asked.now on) on (entries_of file_name_form entries.now)) }
{
    let mut so_far = Formula::False;
    for entry in entries {
        so_far = or_so(alloc, asked, so_far, entry)?;
    }
    Ok(so_far)
}

/// Where a unit declares a name so.
pub(crate) fn where_declared<A: Asked>(
    alloc: Global,
    asked: &A,
    left: &LeftUnit,
    name: &[u8],
) -> Result<Formula, NoMemory>
    ensures { IfOk result (λ f. (on : ℕ → Bool) → value on (condition_of f) ≡ is_so (A.holds asked.now on) (name_seen on left.now.names name.now)) }
{
    let x = declared(alloc, left, name)?;
    let f = where_some_so(alloc, asked, &x.alternatives)?;
    Ok(f)
}

struct Internal;

impl Asked for Internal {
    ghost holds = { λ self on n. n.internal };

    #[tactic(auto, using(cond_formula::specs::ConditionLaws::formula_kinds))]
    fn where_so(&self, _alloc: Global, what: &FileName) -> Result<Formula, NoMemory> {
        if what.internal {
            Ok(Formula::True)
        } else {
            Ok(Formula::False)
        }
    }
}

/// Where a name has internal linkage in a unit (6.2.2).
pub(crate) fn where_internal(
    alloc: Global,
    left: &LeftUnit,
    name: &[u8],
) -> Result<Formula, NoMemory>
    ensures { IfOk result (λ f. (on : ℕ → Bool) (tables : Tables) → value on (condition_of f) ≡ is_internal (unit_seen on tables left.now) name.now) }
{
    let f = where_declared(alloc, &Internal, left, name)?;
    Ok(f)
}

struct External;

impl Asked for External {
    ghost holds = { λ self on n. not n.internal };

    #[tactic(auto, using(cond_formula::specs::ConditionLaws::formula_kinds))]
    fn where_so(&self, _alloc: Global, what: &FileName) -> Result<Formula, NoMemory> {
        if what.internal {
            Ok(Formula::False)
        } else {
            Ok(Formula::True)
        }
    }
}

/// Where a unit declares a name with external linkage (6.2.2).
pub fn where_external(alloc: Global, left: &LeftUnit, name: &[u8]) -> Result<Formula, NoMemory>
    ensures { IfOk result (λ f. (on : ℕ → Bool) → value on (condition_of f) ≡ is_so (λ n. not n.internal) (name_seen on left.now.names name.now)) }
{
    let f = where_declared(alloc, &External, left, name)?;
    Ok(f)
}
