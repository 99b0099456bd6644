//! The names that a unit leaves.
ghost use Rattle.std.specs.Prelude.{◌≡◌, ℕ, ◌+◌, Bool, List, option_map, IfOk, OnOk};
ghost use Rattle.std.specs.List.{AllZip};
ghost use Rattle.conditional.specs.Entries.{seen, first, listed};
ghost use Rattle.type_tables.specs.Forms.{sort_form, file_name_form};
ghost use Rattle.type_tables.specs.Seen.{seen_tables};
ghost use Rattle.link_faults.specs.SeenUnits.{name_seen};
ghost use Rattle.cond_types.specs.Leaving.{sort_behind, name_behind, IsLeftAs};

use cond_formula::NoMemory;
use conditional::{CondList, Function};
use link_faults::LeftNames;
use plain_scope::copied;
use std::alloc::{AllocError, Global};
use std::collections::HashMap;
use std::mem;
use type_tables::{CondName, FileName, Sort, Tables};

/// Behind so many declarations of functions, those of earlier units.
#[derive(Clone, Copy)]
struct Behind {
    earlier: u32,
}

/// The number of a declaration behind so many others.
fn number_behind(earlier: u32, number: u32) -> Result<u32, NoMemory>
    ensures { IfOk result (λ n. n ≡ earlier + number) }
{
    earlier.checked_add(number).ok_or(AllocError)
}

fn copied_behind(alloc: Global, earlier: u32, sort: &Sort) -> Result<Sort, NoMemory>
    ensures { IfOk result (λ s. sort_form s ≡ sort_behind earlier (sort_form sort.now)) }
{
    match sort {
        Sort::Object(ty) => Ok(Sort::Object(copied(alloc, ty)?)),
        Sort::Function(number) => Ok(Sort::Function(number_behind(earlier, *number)?)),
    }
}

impl Function<FileName, FileName> for Behind {
    ghost answers = { λ self a b. file_name_form b ≡ name_behind self.earlier (file_name_form a) };

    fn apply(&self, alloc: Global, a: &FileName) -> Result<FileName, NoMemory> {
        let sort = copied_behind(alloc, self.earlier, &a.sort)?;
        Ok(FileName {
            sort,
            internal: a.internal,
        })
    }
}

/// What a name stands for, the functions by their numbers behind so many declarations.
fn meanings_behind(
    alloc: Global,
    meanings: &CondList<FileName>,
    earlier: u32,
) -> Result<CondList<FileName>, NoMemory>
    ensures { IfOk result (λ l. (on : ℕ → Bool) → first (seen on (listed file_name_form l)) ≡ option_map (name_behind earlier) (first (seen on (listed file_name_form meanings.now)))) }
{
    let l = meanings.map(alloc, &Behind { earlier })?;
    Ok(l)
}

/// An entry of the tables, its functions by their numbers behind so many declarations.
fn left_entry(alloc: Global, n: &CondName, earlier: u32) -> Result<CondName, NoMemory>
    ensures { IfOk result (λ left. IsLeftAs earlier n.now left) }
{
    let meanings = meanings_behind(alloc, &n.meanings, earlier)?;
    let name = Vec::from_slice(alloc, &n.name)?;
    Ok(CondName { name, meanings })
}

fn left_entries(
    alloc: Global,
    declared: &[CondName],
    earlier: u32,
) -> Result<Vec<CondName>, NoMemory>
    ensures { IfOk result (λ left. AllZip (IsLeftAs earlier) declared.now left.items) }
{
    let mut left = Vec::with_capacity(alloc, declared.len())?;
    for n in declared {
        let entry = left_entry(alloc, n, earlier)?;
        left.push(entry)?;
    }
    Ok(left)
}

/// The places of the names are taken out of the tables.
fn take_places(alloc: Global, tables: &mut Tables) -> HashMap<Vec<u8>, u32>
    ensures places { result ≡ tables.old.names }
    ensures rest { tables.new ≡ record tables.old { names = tables.new.names } }
{
    mem::replace(&mut tables.names, HashMap::new(alloc))
}

/// The names of a unit, the functions among them by their numbers behind so many declarations of earlier units. Their places are taken out of the
/// tables.
pub(crate) fn take_names(
    alloc: Global,
    tables: &mut Tables,
    earlier: u32,
) -> Result<LeftNames, NoMemory>
    ensures names { IfOk result (λ left. (on : ℕ → Bool) (name : List ℕ) → name_seen on left name ≡ option_map (name_behind earlier) ((seen_tables on tables.old).names name)) }
    ensures rest { OnOk result (tables.new ≡ record tables.old { names = tables.new.names }) }
{
    let declared = left_entries(alloc, &tables.declared, earlier)?;
    let places = take_places(alloc, tables);
    Ok(LeftNames { places, declared })
}
