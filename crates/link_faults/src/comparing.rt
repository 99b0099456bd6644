//! Declarations of a name are compared, each with each (6.2.7).
ghost use Rattle.std.specs.Prelude.{◌≡◌, ◌↔◌, Bool, List, Some, IsTrue, IfOk};
ghost use Rattle.std.specs.List.{list_any};
ghost use Rattle.cond_formula.specs.Features.{has};
ghost use Rattle.cond_formula.specs.Conditions.{condition_of, value};
ghost use Rattle.core_meaning.specs.Entities.{function};
ghost use Rattle.type_tables.specs.Tables.{sort_in};
ghost use Rattle.type_tables.specs.Forms.{sort_form};
ghost use Rattle.type_tables.specs.Seen.{seen_tables, signature_of};
ghost use Rattle.cond_compatible.specs.Depths.{sorts_agree};
ghost use Rattle.cond_compatible.specs.SeenTags.{said_alike, Tells};
ghost use Rattle.link_faults.specs.Apart.{AreSeenApart};
ghost use Rattle.link_faults.specs.Gathered.{declared_sort, are_apart};

use crate::LeftUnit;
use crate::gathered::{Declared, external_declarations};
use choice_variants::may_hold;
use cond_compatible::{AlikeStructs, where_alike_sorts_agree, where_signatures_agree};
use cond_formula::{Formula, NoMemory, Oracle};
use conditional::Guarded;
use reduced_conditions::{both_of, either, without};
use std::alloc::Global;
use type_tables::{CondSignature, Sort, Tables};

/// Where the declaration of a unit agrees with a function of a header.
#[tactic(auto, using(cond_formula::specs::ConditionLaws::formula_kinds))]
fn where_unit_agrees<O: Oracle>(
    alloc: Global,
    oracle: &mut O,
    tables: &Tables,
    alike: &AlikeStructs,
    a: &Sort,
    g: &CondSignature,
) -> Result<Formula, NoMemory>
    ensures kept { O.admits oracle.new ≡ O.admits oracle.old }
    ensures exact { IfOk result (λ f. (c : List Bool) → IsTrue (value (has c) (O.admits oracle.old))
        → value (has c) (condition_of f)
        ≡ sorts_agree (said_alike (has c) alike.now) (sort_in (seen_tables (has c) tables.now).signatures (sort_form a.now)) (function (signature_of (has c) (Some g.now)))) }
{
    match a {
        Sort::Object(_) => Ok(Formula::False),
        Sort::Function(number) => {
            where_numbered_agrees(alloc, oracle, tables, alike, *number, g)
        }
    }
}

/// Where a function of a header agrees with the declaration of a unit.
#[tactic(auto, using(cond_formula::specs::ConditionLaws::formula_kinds))]
fn where_header_agrees<O: Oracle>(
    alloc: Global,
    oracle: &mut O,
    tables: &Tables,
    alike: &AlikeStructs,
    f: &CondSignature,
    b: &Sort,
) -> Result<Formula, NoMemory>
    ensures kept { O.admits oracle.new ≡ O.admits oracle.old }
    ensures exact { IfOk result (λ r. (c : List Bool) → IsTrue (value (has c) (O.admits oracle.old))
        → value (has c) (condition_of r)
        ≡ sorts_agree (said_alike (has c) alike.now) (function (signature_of (has c) (Some f.now))) (sort_in (seen_tables (has c) tables.now).signatures (sort_form b.now))) }
{
    match b {
        Sort::Object(_) => Ok(Formula::False),
        Sort::Function(number) => {
            where_agrees_with_numbered(alloc, oracle, tables, alike, f, *number)
        }
    }
}

/// Where the function of a declaration agrees with one of a header.
fn where_numbered_agrees<O: Oracle>(
    alloc: Global,
    oracle: &mut O,
    tables: &Tables,
    alike: &AlikeStructs,
    number: u32,
    g: &CondSignature,
) -> Result<Formula, NoMemory>
    ensures kept { O.admits oracle.new ≡ O.admits oracle.old }
    ensures exact { IfOk result (λ r. (c : List Bool) → IsTrue (value (has c) (O.admits oracle.old))
        → value (has c) (condition_of r)
        ≡ sorts_agree (said_alike (has c) alike.now) (function ((seen_tables (has c) tables.now).signatures number)) (function (signature_of (has c) (Some g.now)))) }
{
    let none = CondSignature::none(alloc);
    let f = tables.signature_or(number, &none);
    where_signatures_agree(alloc, oracle, alike, f, g)
}

/// Where a function of a header agrees with that of a declaration.
fn where_agrees_with_numbered<O: Oracle>(
    alloc: Global,
    oracle: &mut O,
    tables: &Tables,
    alike: &AlikeStructs,
    f: &CondSignature,
    number: u32,
) -> Result<Formula, NoMemory>
    ensures kept { O.admits oracle.new ≡ O.admits oracle.old }
    ensures exact { IfOk result (λ r. (c : List Bool) → IsTrue (value (has c) (O.admits oracle.old))
        → value (has c) (condition_of r)
        ≡ sorts_agree (said_alike (has c) alike.now) (function (signature_of (has c) (Some f.now))) (function ((seen_tables (has c) tables.now).signatures number))) }
{
    let none = CondSignature::none(alloc);
    let g = tables.signature_or(number, &none);
    where_signatures_agree(alloc, oracle, alike, f, g)
}

/// Where two declarations agree.
fn where_agree<O: Oracle>(
    alloc: Global,
    oracle: &mut O,
    tables: &Tables,
    alike: &AlikeStructs,
    a: &Declared,
    b: &Declared,
) -> Result<Formula, NoMemory>
    ensures kept { O.admits oracle.new ≡ O.admits oracle.old }
    ensures exact { IfOk result (λ f. (c : List Bool) → IsTrue (value (has c) (O.admits oracle.old))
        → value (has c) (condition_of f)
        ≡ sorts_agree (said_alike (has c) alike.now) (declared_sort (has c) tables.now a.now) (declared_sort (has c) tables.now b.now)) }
{
    match (a, b) {
        (Declared::ByUnit(x), Declared::ByUnit(y)) => {
            where_alike_sorts_agree(alloc, oracle, tables, alike, x, y)
        }
        (Declared::ByUnit(x), Declared::ByHeader(g)) => {
            where_unit_agrees(alloc, oracle, tables, alike, x, g)
        }
        (Declared::ByHeader(f), Declared::ByUnit(y)) => {
            where_header_agrees(alloc, oracle, tables, alike, f, y)
        }
        (Declared::ByHeader(f), Declared::ByHeader(g)) => {
            where_signatures_agree(alloc, oracle, alike, f, g)
        }
    }
}

/// Where two declarations are there and don't agree.
#[tactic(auto, using(cond_formula::specs::ConditionLaws::formula_kinds))]
fn where_apart<O: Oracle>(
    alloc: Global,
    oracle: &mut O,
    tables: &Tables,
    alike: &AlikeStructs,
    a: &Guarded<Declared>,
    b: &Guarded<Declared>,
) -> Result<Formula, NoMemory>
    ensures kept { O.admits oracle.new ≡ O.admits oracle.old }
    ensures exact { IfOk result (λ f. (c : List Bool) → IsTrue (value (has c) (O.admits oracle.old))
        → value (has c) (condition_of f) ≡ are_apart (has c) tables.now (sorts_agree (said_alike (has c) alike.now)) a.now b.now) }
{
    let together = both_of(alloc, &a.when, &b.when)?;
    if !may_hold(&together, oracle) {
        return Ok(Formula::False);
    }
    let agree = where_agree(alloc, oracle, tables, alike, &a.what, &b.what)?;
    without(alloc, together, &agree)
}

/// Where a declaration doesn't agree with one of these.
fn where_apart_from_some<O: Oracle>(
    alloc: Global,
    oracle: &mut O,
    tables: &Tables,
    alike: &AlikeStructs,
    a: &Guarded<Declared>,
    others: &[Guarded<Declared>],
) -> Result<Formula, NoMemory>
    ensures kept { O.admits oracle.new ≡ O.admits oracle.old }
    ensures exact { IfOk result (λ f. (c : List Bool) → IsTrue (value (has c) (O.admits oracle.old))
        → value (has c) (condition_of f) ≡ list_any (are_apart (has c) tables.now (sorts_agree (said_alike (has c) alike.now)) a.now) others.now) }
{
    let mut so_far = Formula::False;
    for b in others {
        let apart = where_apart(alloc, oracle, tables, alike, a, b)?;
        so_far = either(alloc, so_far, apart)?;
    }
    Ok(so_far)
}

/// Where two of these declarations don't agree.
fn where_some_are_apart<O: Oracle>(
    alloc: Global,
    oracle: &mut O,
    tables: &Tables,
    alike: &AlikeStructs,
    all: &[Guarded<Declared>],
) -> Result<Formula, NoMemory>
    ensures kept { O.admits oracle.new ≡ O.admits oracle.old }
    ensures exact { IfOk result (λ f. (c : List Bool) → IsTrue (value (has c) (O.admits oracle.old))
        → value (has c) (condition_of f)
        ≡ list_any (λ a. list_any (are_apart (has c) tables.now (sorts_agree (said_alike (has c) alike.now)) a) all.now) all.now) }
{
    let mut so_far = Formula::False;
    for a in all {
        let apart = where_apart_from_some(alloc, oracle, tables, alike, a, all)?;
        so_far = either(alloc, so_far, apart)?;
    }
    Ok(so_far)
}

/// Where declarations of a name with external linkage, in the units that are present and in headers, don't agree.
pub fn where_incompatible<O: Oracle>(
    alloc: Global,
    oracle: &mut O,
    tables: &Tables,
    alike: &AlikeStructs,
    units: &[LeftUnit],
    name: &[u8],
) -> Result<Formula, NoMemory>
    requires { Tells (O.admits oracle.old) tables.now alike.now }
    ensures kept { O.admits oracle.new ≡ O.admits oracle.old }
    ensures exact { IfOk result (λ f. (c : List Bool) → IsTrue (value (has c) (O.admits oracle.old))
        → IsTrue (value (has c) (condition_of f)) ↔ AreSeenApart (has c) tables.now units.now name.now) }
{
    let all = external_declarations(alloc, units, name)?;
    let f = where_some_are_apart(alloc, oracle, tables, alike, &all)?;
    Ok(f)
}
