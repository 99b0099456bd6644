//! What names stand for: the innermost local of the name, the latest first, or else what is declared at file scope (6.2.1). It is put together
//! from the outside inwards, so that what hides nothing else keeps its condition.
ghost use Rattle.std.specs.Prelude.{ℕ, Bool, List, ◌∷◌, reverse, Option, None, IfOk, OnOk};
ghost use Rattle.c_types.specs.Types.{PlainType, plain_type};
ghost use Rattle.conditional.specs.declared.values.CondValue.{CondValue};
ghost use Rattle.conditional.specs.Entries.{Entry, entry_of, entries_of, alternatives, seen, first, Sees};
ghost use Rattle.type_tables.specs.Tables as plain;
ghost use Rattle.type_tables.specs.Tables.{local_named};
ghost use Rattle.type_tables.specs.Forms.{sort_form, file_name_form};
ghost use Rattle.type_tables.specs.Seen.{locals_in, seen_tables};
ghost use Rattle.type_tables.specs.declared.entries.LocalName.{LocalName};
ghost use Rattle.known_tables.specs.Searches.{Finds};
ghost use Rattle.known_tables.specs.Lookups.{found_as, found_at_file_scope, found_in, Answers};

use crate::searches::Search;
use crate::shadowing::shadowed;
use c_types::CType;
use cond_formula::NoMemory;
use conditional::{CondValue, Guarded, Plain};
use std::alloc::Global;
use type_tables::{FileName, LocalName, Sort, Tables};

/// What is looked for behind a name.
pub(crate) trait Sought<T: Plain> {
    /// What may be answered for an object of a type.
    ghost objects: { Self → (ℕ → Bool) → PlainType → CondValue T → Type 0 };

    /// What may be answered for the function of a declaration.
    ghost functions: { Self → (ℕ → Bool) → ℕ → CondValue T → Type 0 };

    fn of_object(&self, alloc: Global, ty: &CType) -> Result<CondValue<T>, NoMemory>
        ensures { IfOk result (λ z. (on : ℕ → Bool) → objects self.now on (plain_type ty.now) z) };

    fn of_function(&self, alloc: Global, number: u32) -> Result<CondValue<T>, NoMemory>
        ensures { IfOk result (λ z. (on : ℕ → Bool) → functions self.now on number z) };
}

/// What is looked for behind what a declaration declares.
fn sought_as<T: Plain, S: Sought<T>>(
    alloc: Global,
    sought: &S,
    sort: &Sort,
) -> Result<CondValue<T>, NoMemory>
    ensures { IfOk result (λ z. (on : ℕ → Bool) (object : PlainType → Option T.Form) (function : ℕ → Option T.Form)
        → Answers T.form on (S.objects sought.now on) (S.functions sought.now on) object function
        → Sees on (found_as object function (sort_form sort.now)) (alternatives T.form z)) }
{
    match sort {
        Sort::Object(ty) => sought.of_object(alloc, ty),
        Sort::Function(number) => sought.of_function(alloc, *number),
    }
}

/// One meaning of a name of file scope.
fn find_meaning<T: Plain, S: Sought<T>>(
    alloc: Global,
    sought: &S,
    meaning: &Guarded<FileName>,
    search: &mut Search<T>,
) -> Result<(), NoMemory>
    ensures { OnOk result ((on : ℕ → Bool) (object : PlainType → Option T.Form) (function : ℕ → Option T.Form) (whole : Option T.Form) (later : List (Entry plain.FileName))
        → Answers T.form on (S.objects sought.now on) (S.functions sought.now on) object function
        → Finds T.form on whole (found_at_file_scope object function (first (seen on (entry_of file_name_form meaning.now ∷ later)))) search.old
        → Finds T.form on whole (found_at_file_scope object function (first (seen on later))) search.new) }
{
    let what = sought_as(alloc, sought, &meaning.what.sort)?;
    search.find(alloc, &meaning.when, &what)
}

/// The meanings of a name of file scope.
fn find_meanings<T: Plain, S: Sought<T>>(
    alloc: Global,
    sought: &S,
    meanings: &[Guarded<FileName>],
    search: &mut Search<T>,
) -> Result<(), NoMemory>
    ensures { OnOk result ((on : ℕ → Bool) (object : PlainType → Option T.Form) (function : ℕ → Option T.Form) (whole : Option T.Form)
        → Answers T.form on (S.objects sought.now on) (S.functions sought.now on) object function
        → Finds T.form on whole (found_at_file_scope object function (first (seen on (entries_of file_name_form meanings.now)))) search.old
        → Finds T.form on whole None search.new) }
{
    for meaning in meanings {
        find_meaning(alloc, sought, meaning, search)?;
    }
    Ok(())
}

/// The meanings of the name at file scope, if it has any.
fn find_at_file_scope<T: Plain, S: Sought<T>>(
    alloc: Global,
    tables: &Tables,
    sought: &S,
    name: &[u8],
    search: &mut Search<T>,
) -> Result<(), NoMemory>
    ensures { OnOk result ((on : ℕ → Bool) (object : PlainType → Option T.Form) (function : ℕ → Option T.Form) (whole : Option T.Form)
        → Answers T.form on (S.objects sought.now on) (S.functions sought.now on) object function
        → Finds T.form on whole (found_at_file_scope object function ((seen_tables on tables.now).names name.now)) search.old
        → Finds T.form on whole None search.new) }
{
    match tables.named(name) {
        Some(n) => find_meanings(alloc, sought, &n.meanings.entries, search),
        None => Ok(()),
    }
}

/// What the name stands for at file scope.
fn seen_at_file_scope<T: Plain, S: Sought<T>>(
    alloc: Global,
    tables: &Tables,
    sought: &S,
    name: &[u8],
) -> Result<CondValue<T>, NoMemory>
    ensures { IfOk result (λ z. (on : ℕ → Bool) (object : PlainType → Option T.Form) (function : ℕ → Option T.Form)
        → Answers T.form on (S.objects sought.now on) (S.functions sought.now on) object function
        → Sees on (found_at_file_scope object function ((seen_tables on tables.now).names name.now)) (alternatives T.form z)) }
{
    let mut search = Search::new(alloc);
    find_at_file_scope(alloc, tables, sought, name, &mut search)?;
    Ok(search.end())
}

/// What is seen behind one local: the local, if it has the name, or else what is seen around it.
fn seen_behind<T: Plain, S: Sought<T>>(
    alloc: Global,
    sought: &S,
    name: &[u8],
    local: &LocalName,
    around: CondValue<T>,
) -> Result<CondValue<T>, NoMemory>
    ensures { IfOk result (λ z. (on : ℕ → Bool) (object : PlainType → Option T.Form) (function : ℕ → Option T.Form) (outer : List LocalName) (named : Option plain.FileName)
        → Answers T.form on (S.objects sought.now on) (S.functions sought.now on) object function
        → Sees on (found_in object function (local_named (locals_in on outer) name.now) named) (alternatives T.form around)
        → Sees on (found_in object function (local_named (locals_in on (local.now ∷ outer)) name.now) named) (alternatives T.form z)) }
{
    if name != local.name.as_slice() {
        return Ok(around);
    }
    let object = sought.of_object(alloc, &local.ty)?;
    shadowed(alloc, &local.when, &object, around)
}

/// What is seen behind the locals, from the outermost block inwards.
fn seen_behind_all<T: Plain, S: Sought<T>>(
    alloc: Global,
    sought: &S,
    name: &[u8],
    locals: &[LocalName],
    around: CondValue<T>,
) -> Result<CondValue<T>, NoMemory>
    ensures { IfOk result (λ z. (on : ℕ → Bool) (object : PlainType → Option T.Form) (function : ℕ → Option T.Form) (named : Option plain.FileName)
        → Answers T.form on (S.objects sought.now on) (S.functions sought.now on) object function
        → Sees on (found_at_file_scope object function named) (alternatives T.form around)
        → Sees on (found_in object function (local_named (locals_in on (reverse locals.now)) name.now) named) (alternatives T.form z)) }
{
    let mut seen = around;
    for local in locals {
        seen = seen_behind(alloc, sought, name, local, seen)?;
    }
    Ok(seen)
}

/// What is looked for behind a name.
pub(crate) fn looked_up<T: Plain, S: Sought<T>>(
    alloc: Global,
    tables: &Tables,
    sought: &S,
    name: &[u8],
) -> Result<CondValue<T>, NoMemory>
    ensures { IfOk result (λ z. (on : ℕ → Bool) (object : PlainType → Option T.Form) (function : ℕ → Option T.Form)
        → Answers T.form on (S.objects sought.now on) (S.functions sought.now on) object function
        → Sees on (found_in object function (local_named (seen_tables on tables.now).locals name.now) ((seen_tables on tables.now).names name.now)) (alternatives T.form z)) }
{
    let around = seen_at_file_scope(alloc, tables, sought, name)?;
    seen_behind_all(alloc, sought, name, &tables.locals, around)
}
