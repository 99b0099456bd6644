//! Whether a unit defines `main` (5.1.2.2.1).
ghost use Rattle.std.specs.Prelude.{◌≡◌, ℕ, Bool, not, ◌&&◌, [], Some, IfOk};
ghost use Rattle.std.specs.List.{list_any};
ghost use Rattle.cond_formula.specs.Conditions.{condition_of, value};
ghost use Rattle.conditional.specs.Entries.{seen, listed};
ghost use Rattle.core_meaning.specs.Entities.{function};
ghost use Rattle.core_meaning.specs.Linking as spec;
ghost use Rattle.core_meaning.specs.Typing.{same_type};
ghost use Rattle.core_meaning.specs.UnitNames.{same_types};
ghost use Rattle.type_tables.specs.Tables.{sort_in};
ghost use Rattle.type_tables.specs.Forms.{declared_type_form, sort_form};
ghost use Rattle.type_tables.specs.Seen.{seen_tables, signature_of};
ghost use Rattle.link_faults.specs.SeenUnits.{unit_seen, units_seen};
ghost use Rattle.link_faults.specs.Measures.{defines_as_main};

use crate::definitions::where_defined;
use crate::left::LeftUnit;
use crate::names::{Asked, where_declared};
use crate::questions::{Question, where_some};
use c_types::CType;
use cond_formula::{Formula, NoMemory};
use conditional::{CondList, when_some_hold};
use plain_scope::same_type;
use reduced_conditions::both;
use std::alloc::Global;
use type_tables::{CondSignature, DeclaredType, FileName, Sort, Tables};

/// Where a list of parameters is empty.
fn where_empty(alloc: Global, parameters: &CondList<DeclaredType>) -> Result<Formula, NoMemory>
    ensures { IfOk result (λ f. (on : ℕ → Bool) → value on (condition_of f) ≡ same_types (seen on (listed declared_type_form parameters.now)) []) }
{
    let some = when_some_hold(alloc, &parameters.entries)?;
    let f = Formula::not(alloc, some)?;
    Ok(f)
}

/// Where a function returns an `int` and has no parameters.
#[tactic(auto, using(cond_formula::specs::ConditionLaws::formula_kinds, c_types::specs::TypeLaws::type_kinds))]
fn where_like_main(alloc: Global, f: &CondSignature) -> Result<Formula, NoMemory>
    ensures { IfOk result (λ r. (on : ℕ → Bool) → value on (condition_of r) ≡ spec.is_main (function (signature_of on (Some f.now)))) }
{
    if !same_type(&f.result, &CType::Int) {
        return Ok(Formula::False);
    }
    where_empty(alloc, &f.parameters)
}

/// Where the function of a declaration is like `main`.
fn where_main_numbered(alloc: Global, tables: &Tables, number: u32) -> Result<Formula, NoMemory>
    ensures { IfOk result (λ r. (on : ℕ → Bool) → value on (condition_of r) ≡ spec.is_main (function ((seen_tables on tables.now).signatures number))) }
{
    let none = CondSignature::none(alloc);
    let f = tables.signature_or(number, &none);
    let r = where_like_main(alloc, f)?;
    Ok(r)
}

#[tactic(auto, using(cond_formula::specs::ConditionLaws::formula_kinds))]
fn where_main_sort(alloc: Global, tables: &Tables, sort: &Sort) -> Result<Formula, NoMemory>
    ensures { IfOk result (λ r. (on : ℕ → Bool) → value on (condition_of r) ≡ spec.is_main (sort_in (seen_tables on tables.now).signatures (sort_form sort.now))) }
{
    match sort {
        Sort::Function(number) => where_main_numbered(alloc, tables, *number),
        Sort::Object(_) => Ok(Formula::False),
    }
}

/// A declaration that `main` has to have.
#[derive(Clone, Copy)]
struct LikeMain<'t> {
    tables: &'t Tables,
}

impl<'t> Asked for LikeMain<'t> {
    ghost holds = { λ self on n. not n.internal && spec.is_main (sort_in (seen_tables on self.tables.now).signatures n.sort) };

    #[tactic(auto, using(cond_formula::specs::ConditionLaws::formula_kinds))]
    fn where_so(&self, alloc: Global, what: &FileName) -> Result<Formula, NoMemory> {
        if what.internal {
            return Ok(Formula::False);
        }
        where_main_sort(alloc, self.tables, &what.sort)
    }
}

/// Where a unit defines a name as `main` is defined.
fn where_defined_as_main(
    alloc: Global,
    tables: &Tables,
    left: &LeftUnit,
    name: &[u8],
) -> Result<Formula, NoMemory>
    ensures { IfOk result (λ f. (on : ℕ → Bool) → value on (condition_of f) ≡ defines_as_main name.now (unit_seen on tables.now left.now)) }
{
    let declared = where_declared(alloc, &LikeMain { tables }, left, name)?;
    let defined = where_defined(alloc, left, name)?;
    let f = both(alloc, declared, defined)?;
    Ok(f)
}

/// Whether it defines `main`.
struct DefinesMain;

impl Question for DefinesMain {
    ghost asks = { λ self on unit. spec.defines_main unit };

    fn where_so(
        &self,
        alloc: Global,
        tables: &Tables,
        left: &LeftUnit,
    ) -> Result<Formula, NoMemory> {
        let f = where_defined_as_main(alloc, tables, left, b"main".as_slice())?;
        Ok(f)
    }
}

/// Where no unit defines `main`.
pub fn where_no_main(
    alloc: Global,
    tables: &Tables,
    units: &[LeftUnit],
) -> Result<Formula, NoMemory>
    ensures { IfOk result (λ f. (on : ℕ → Bool) → value on (condition_of f) ≡ not (list_any spec.defines_main (units_seen on tables.now units.now))) }
{
    let some = where_some(alloc, &DefinesMain, tables, units)?;
    let f = Formula::not(alloc, some)?;
    Ok(f)
}
