//! Structs are compared to ever greater depths, until nothing changes any more.
ghost use Rattle.std.specs.Prelude.{◌≡◌, ◌↔◌, ◌<◌, ℕ, Bool, true, false, ◌&&◌, List, Some, length, map, slice_get, IsTrue, IfOk};
ghost use Rattle.cond_formula.specs.Features.{has};
ghost use Rattle.cond_formula.specs.Conditions.{condition_of, value};
ghost use Rattle.c_types.specs.Types.{plain_type};
ghost use Rattle.cond_compatible.specs.Depths.{structs_agree, compared};
ghost use Rattle.cond_compatible.specs.SeenTags.{tag_seen, said_at, said_alike, TypesAgree, Tells};

use crate::alike::{AlikeStructs, Row, all_alike, where_alike};
use crate::members::where_structs_agree;
use crate::types::where_types_agree;
use c_types::CType;
use cond_formula::{Formula, May, NoMemory, Oracle};
use reduced_conditions::{both, is_never, without};
use std::alloc::{AllocError, Global};
use type_tables::{CondStruct, Tables};

/// Where two structs are still alike.
#[derive(Drop)]
struct Still {
    when: Formula,
    /// It is where they were.
    is_same: bool,
}

/// A row of structs that are still alike.
#[derive(Drop)]
struct StillRow {
    row: Row,
    /// They are where they were.
    is_same: bool,
}

/// The structs that are still alike.
#[derive(Drop)]
struct StillAlike {
    alike: AlikeStructs,
    /// They are where they were.
    is_same: bool,
}

/// Whether the condition holds in no configuration that the oracle admits, as far as it knows.
fn is_excluded<O: Oracle>(oracle: &mut O, f: &Formula) -> bool
    ensures kept { O.admits oracle.new ≡ O.admits oracle.old }
    ensures never { IsTrue result → (c : List Bool) → IsTrue (value (has c) (O.admits oracle.old)) → value (has c) (condition_of f.now) ≡ false }
{
    if is_never(f) {
        return true;
    }
    oracle.may(f) == May::No
}

fn are_both(first: bool, second: bool) -> bool
    ensures { result ≡ (first && second) }
{
    first && second
}

/// Two structs that were alike are where they agree too.
fn narrowed<O: Oracle>(
    alloc: Global,
    oracle: &mut O,
    were: Formula,
    agree: Formula,
) -> Result<Still, NoMemory>
    ensures kept { O.admits oracle.new ≡ O.admits oracle.old }
    ensures exact { IfOk result (λ s. (c : List Bool) → IsTrue (value (has c) (O.admits oracle.old))
        → value (has c) (condition_of s.when) ≡ (value (has c) (condition_of were) && value (has c) (condition_of agree))) }
    ensures same { IfOk result (λ s. s.is_same ≡ true → condition_of s.when ≡ condition_of were) }
{
    let apart = without(alloc, were.try_clone(alloc)?, &agree)?;
    if is_excluded(oracle, &apart) {
        return Ok(Still {
            when: were,
            is_same: true,
        });
    }
    Ok(Still {
        when: both(alloc, were, agree)?,
        is_same: false,
    })
}

/// Two structs are compared once more.
#[tactic(auto, using(cond_formula::specs::ConditionLaws::formula_kinds))]
fn compare_structs<O: Oracle>(
    alloc: Global,
    oracle: &mut O,
    alike: &AlikeStructs,
    were: Formula,
    a: &CondStruct,
    b: &CondStruct,
) -> Result<Still, NoMemory>
    ensures kept { O.admits oracle.new ≡ O.admits oracle.old }
    ensures exact { IfOk result (λ s. (c : List Bool) → IsTrue (value (has c) (O.admits oracle.old))
        → value (has c) (condition_of s.when) ≡ (value (has c) (condition_of were)
        && structs_agree (said_alike (has c) alike.now) (Some (tag_seen (has c) a.now)) (Some (tag_seen (has c) b.now)))) }
    ensures same { IfOk result (λ s. s.is_same ≡ true → condition_of s.when ≡ condition_of were) }
{
    if is_never(&were) {
        return Ok(Still {
            when: were,
            is_same: true,
        });
    }
    let agree = where_structs_agree(alloc, oracle, alike, a, b)?;
    narrowed(alloc, oracle, were, agree)
}

/// A struct is compared once more with each.
fn compare_row<O: Oracle>(
    alloc: Global,
    oracle: &mut O,
    alike: &AlikeStructs,
    structs: &[CondStruct],
    number: usize,
    a: &CondStruct,
) -> Result<StillRow, NoMemory>
    ensures kept { O.admits oracle.new ≡ O.admits oracle.old }
    ensures exact { IfOk result (λ s. (c : List Bool) (j : ℕ) → IsTrue (value (has c) (O.admits oracle.old))
        → said_at (has c) s.row.conditions.items j ≡ (said_alike (has c) alike.now number j
        && structs_agree (said_alike (has c) alike.now) (Some (tag_seen (has c) a.now)) (slice_get (map (tag_seen (has c)) structs.now) j))) }
    ensures same { IfOk result (λ s. s.is_same ≡ true → (on : ℕ → Bool) (j : ℕ) → j < length structs.now
        → said_at on s.row.conditions.items j ≡ said_alike on alike.now number j) }
{
    let mut conditions = Vec::new(alloc);
    let mut is_same = true;
    for (place, b) in structs.iter().enumerate() {
        let were = where_alike(alloc, alike, number, place)?;
        let now = compare_structs(alloc, oracle, alike, were, a, b)?;
        is_same = are_both(is_same, now.is_same);
        conditions.push(now.when)?;
    }
    Ok(StillRow {
        row: Row { conditions },
        is_same,
    })
}

/// All structs are compared once more.
fn compare_all<O: Oracle>(
    alloc: Global,
    oracle: &mut O,
    alike: &AlikeStructs,
    structs: &[CondStruct],
) -> Result<StillAlike, NoMemory>
    ensures kept { O.admits oracle.new ≡ O.admits oracle.old }
    ensures exact { IfOk result (λ s. (c : List Bool) (i j : ℕ) → IsTrue (value (has c) (O.admits oracle.old))
        → said_alike (has c) s.alike i j ≡ compared (said_alike (has c) alike.now) (map (tag_seen (has c)) structs.now) i j) }
    ensures same { IfOk result (λ s. s.is_same ≡ true → (on : ℕ → Bool) (i j : ℕ) → i < length structs.now → j < length structs.now
        → said_alike on s.alike i j ≡ said_alike on alike.now i j) }
{
    let mut rows = Vec::new(alloc);
    let mut is_same = true;
    for (number, a) in structs.iter().enumerate() {
        let now = compare_row(alloc, oracle, alike, structs, number, a)?;
        is_same = are_both(is_same, now.is_same);
        rows.push(now.row)?;
    }
    Ok(StillAlike {
        alike: AlikeStructs { rows },
        is_same,
    })
}

/// Where each two structs are compatible. Types are where they agree but for those: `where_types_agree` says where.
pub fn alike_structs<O: Oracle>(
    alloc: Global,
    oracle: &mut O,
    tables: &Tables,
) -> Result<AlikeStructs, NoMemory>
    ensures kept { O.admits oracle.new ≡ O.admits oracle.old }
    ensures tells { IfOk result (λ alike. Tells (O.admits oracle.old) tables.now alike) }
{
    // Each depth but the last leaves a pair less alike.
    let count = tables.structs.len();
    let Some(most) = count.checked_mul(count) else {
        return Err(AllocError);
    };
    let mut alike = all_alike(alloc, &tables.structs)?;
    for _ in 0..most {
        let now = compare_all(alloc, oracle, &alike, &tables.structs)?;
        if now.is_same {
            return Ok(alike);
        }
        alike = now.alike;
    }
    Ok(alike)
}

/// Where two types of declarations of one name are compatible. For many types, `alike_structs` once and then `where_types_agree`.
pub fn where_compatible<O: Oracle>(
    alloc: Global,
    oracle: &mut O,
    tables: &Tables,
    a: &CType,
    b: &CType,
) -> Result<Formula, NoMemory>
    ensures kept { O.admits oracle.new ≡ O.admits oracle.old }
    ensures exact { IfOk result (λ f. (c : List Bool) → IsTrue (value (has c) (O.admits oracle.old))
        → IsTrue (value (has c) (condition_of f)) ↔ TypesAgree (has c) tables.now (plain_type a.now) (plain_type b.now)) }
{
    let alike = alike_structs(alloc, oracle, tables)?;
    where_types_agree(alloc, &alike, a, b)
}
