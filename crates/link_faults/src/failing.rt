//! Where units don't link (6.2.2, 6.9).
ghost use Rattle.std.specs.Prelude.{◌≡◌, ◌↔◌, ℕ, Bool, false, List, map, IsTrue, IfOk};
ghost use Rattle.cond_formula.specs.Features.{has};
ghost use Rattle.cond_formula.specs.Conditions.{condition_of, value};
ghost use Rattle.core_meaning.specs.Linking.{Units, Links};
ghost use Rattle.type_tables.specs.Seen.{seen_tables};
ghost use Rattle.cond_compatible.specs.SeenTags.{Tells};
ghost use Rattle.link_faults.specs.SeenUnits.{LeaveAlike};
ghost use Rattle.link_faults.specs.Faulty.{StructsFollow, HasFault, FailToLink, SomeHaveFaults};

use crate::all_names::names_once;
use crate::comparing::where_incompatible;
use crate::{LeftUnit, where_duplicate, where_no_main, where_undefined};
use cond_compatible::AlikeStructs;
use cond_formula::{Formula, NoMemory, Oracle};
use reduced_conditions::either;
use std::alloc::Global;
use type_tables::Tables;

/// Where a name isn't defined, is defined twice, or has declarations that don't agree.
fn where_name_has_fault<O: Oracle>(
    alloc: Global,
    oracle: &mut O,
    tables: &Tables,
    alike: &AlikeStructs,
    units: &[LeftUnit],
    name: &[u8],
) -> Result<Formula, NoMemory>
    requires { Tells (O.admits oracle.old) tables.now alike.now }
    ensures kept { O.admits oracle.new ≡ O.admits oracle.old }
    ensures exact { IfOk result (λ f. (c : List Bool) (by : ℕ → ℕ) (linked : Units) → IsTrue (value (has c) (O.admits oracle.old))
        → LeaveAlike (has c) tables.now by linked units.now → StructsFollow by (seen_tables (has c) tables.now) linked.structs
        → IsTrue (value (has c) (condition_of f)) ↔ HasFault linked name.now) }
{
    let undefined = where_undefined(alloc, tables, units, name)?;
    let duplicate = where_duplicate(alloc, tables, units, name)?;
    let incompatible = where_incompatible(alloc, oracle, tables, alike, units, name)?;
    let rest = either(alloc, duplicate, incompatible)?;
    let f = either(alloc, undefined, rest)?;
    Ok(f)
}

/// Where some name has a fault.
fn where_some_have_faults<O: Oracle>(
    alloc: Global,
    oracle: &mut O,
    tables: &Tables,
    alike: &AlikeStructs,
    units: &[LeftUnit],
    names: &[Vec<u8>],
) -> Result<Formula, NoMemory>
    requires { Tells (O.admits oracle.old) tables.now alike.now }
    ensures kept { O.admits oracle.new ≡ O.admits oracle.old }
    ensures exact { IfOk result (λ f. (c : List Bool) (by : ℕ → ℕ) (linked : Units) → IsTrue (value (has c) (O.admits oracle.old))
        → LeaveAlike (has c) tables.now by linked units.now → StructsFollow by (seen_tables (has c) tables.now) linked.structs
        → IsTrue (value (has c) (condition_of f)) ↔ SomeHaveFaults linked (map (λ v. v.items) names.now)) }
{
    let mut so_far = Formula::False;
    for name in names {
        let faulty = where_name_has_fault(alloc, oracle, tables, alike, units, name)?;
        so_far = either(alloc, so_far, faulty)?;
    }
    Ok(so_far)
}

/// Where the units that are present don't link.
pub fn where_links_fail<O: Oracle>(
    alloc: Global,
    oracle: &mut O,
    tables: &Tables,
    alike: &AlikeStructs,
    units: &[LeftUnit],
) -> Result<Formula, NoMemory>
    requires { Tells (O.admits oracle.old) tables.now alike.now }
    ensures kept { O.admits oracle.new ≡ O.admits oracle.old }
    ensures fails { IfOk result (λ f. (c : List Bool) (by : ℕ → ℕ) (linked : Units) → IsTrue (value (has c) (O.admits oracle.old))
        → LeaveAlike (has c) tables.now by linked units.now → StructsFollow by (seen_tables (has c) tables.now) linked.structs
        → IsTrue (value (has c) (condition_of f)) → FailToLink linked) }
    ensures links { IfOk result (λ f. (c : List Bool) (by : ℕ → ℕ) (linked : Units) → IsTrue (value (has c) (O.admits oracle.old))
        → LeaveAlike (has c) tables.now by linked units.now → StructsFollow by (seen_tables (has c) tables.now) linked.structs
        → value (has c) (condition_of f) ≡ false → Links linked) }
{
    let names = names_once(alloc, units)?;
    let no_main = where_no_main(alloc, tables, units)?;
    let faulty = where_some_have_faults(alloc, oracle, tables, alike, units, names.as_slice())?;
    let f = either(alloc, no_main, faulty)?;
    Ok(f)
}
