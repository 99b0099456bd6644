//! Names of file scope (6.2.2, 6.7).
ghost use Rattle.std.specs.Prelude.{◌≡◌, ◌&&◌, ◌∷◌, ◌++◌, [], None, Some, map, option_map, OnOk};
ghost use Rattle.c_text.specs.Token.{plain_token};
ghost use Rattle.c_types.specs.Types.{plain_type};
ghost use Rattle.c_tree.specs.Trees.{plain_trees};
ghost use Rattle.core_meaning.specs.Checking.{give};
ghost use Rattle.core_meaning.specs.UnitNames as spec;
ghost use Rattle.core_meaning.specs.Entities.{with_entry, function};
ghost use Rattle.plain_scope.specs.PlainScope.{plain_scope, plain_file_name, plain_signature, plain_sort};
ghost use Rattle.plain_scope.specs.Judgements.{Answers};
ghost use Rattle.plain_objects.specs.PlainStates.{plain_storage, plain_names, plain_order};

use c_text::Token;
use c_tree::{Terminal, Tree};
use c_types::CType;
use cond_formula::NoMemory;
use core_meaning::TypeKind;
use plain_scope::{ElabError, FileName, Scope, Signature, Sort, has_terminal, same_type, unless};
use std::alloc::Global;
use std::collections::HashMap;

/// The words of storage of a declaration (6.7.1).
#[derive(Clone, Copy)]
pub enum Storage {
    Static,
    Extern,
    Absent,
}

pub fn storage_of(words: &[Tree]) -> Storage
    ensures { plain_storage result ≡ spec.storage_of (plain_trees words.now) }
{
    if has_terminal(words, Terminal::Static) {
        Storage::Static
    } else if has_terminal(words, Terminal::Extern) {
        Storage::Extern
    } else {
        Storage::Absent
    }
}

// ---- what names are declared as

fn is_function(sort: &Sort) -> bool
    ensures { result ≡ spec.is_function (plain_sort sort.now) }
{
    match sort {
        Sort::Function(_) => true,
        Sort::Variable(_) => false,
    }
}

fn same_types(a: &[CType], b: &[CType]) -> bool
    ensures { result ≡ spec.same_types (map plain_type a.now) (map plain_type b.now) }
{
    if a.len() != b.len() {
        return false;
    }
    for i in 0..a.len() {
        if !same_type(&a[i], &b[i]) {
            return false;
        }
    }
    true
}

fn same_signature(f: &Signature, g: &Signature) -> bool
    ensures { result ≡ spec.same_sort (function (plain_signature f.now)) (function (plain_signature g.now)) }
{
    same_type(&f.result, &g.result) && same_types(f.parameters.as_slice(), g.parameters.as_slice())
}

/// Whether two declarations of a name agree.
pub fn same_sort(a: &Sort, b: &Sort) -> bool
    ensures { result ≡ spec.same_sort (plain_sort a.now) (plain_sort b.now) }
{
    match (a, b) {
        (Sort::Variable(a), Sort::Variable(b)) => same_type(a, b),
        (Sort::Function(f), Sort::Function(g)) => same_signature(f, g),
        (Sort::Variable(_), Sort::Function(_)) => false,
        (Sort::Function(_), Sort::Variable(_)) => false,
    }
}

// ---- linkage (6.2.2)

fn visible_linkage(visible: Option<&FileName>) -> bool
    ensures { result ≡ spec.visible_linkage (option_map (λ n. plain_file_name n.now) visible.entry) }
{
    match visible {
        Some(found) => found.internal,
        None => false,
    }
}

fn linkage(storage: Storage, of_function: bool, visible: Option<&FileName>) -> bool
    ensures { result ≡ spec.linkage (plain_storage storage) of_function (option_map (λ n. plain_file_name n.now) visible.entry) }
{
    match storage {
        Storage::Static => true,
        Storage::Extern => visible_linkage(visible),
        Storage::Absent => of_function && visible_linkage(visible),
    }
}

// ---- declarations

fn enter(
    alloc: Global,
    names: &mut HashMap<Vec<u8>, FileName>,
    name: &[u8],
    entry: FileName,
) -> Result<(), NoMemory>
    ensures { OnOk result (plain_names names.new ≡ with_entry (plain_names names.old) name.now (plain_file_name entry)) }
{
    names.insert(Vec::from_slice(alloc, name)?, entry)?;
    Ok(())
}

fn append_name(alloc: Global, order: &mut Vec<Vec<u8>>, name: &[u8]) -> Result<(), NoMemory>
    ensures { OnOk result (plain_order order.new.items ≡ plain_order order.old.items ++ name.now ∷ []) }
{
    order.push(Vec::from_slice(alloc, name)?)?;
    Ok(())
}

fn enter_name(
    alloc: Global,
    scope: &mut Scope,
    name: &[u8],
    entry: FileName,
) -> Result<(), NoMemory>
    ensures { OnOk result (plain_scope scope.new ≡ spec.with_file_name (plain_scope scope.old) name.now (plain_file_name entry)) }
{
    append_name(alloc, &mut scope.order, name)?;
    enter(alloc, &mut scope.file_names, name, entry)?;
    Ok(())
}

fn agrees(visible: &FileName, sort: Sort, internal: bool) -> bool
    ensures { result ≡ (spec.same_sort (plain_sort visible.now.sort) (plain_sort sort) && spec.same_bool visible.now.internal internal) }
{
    same_sort(&visible.sort, &sort) && visible.internal == internal
}

fn gives_result(returns: &CType, sort: &Sort) -> bool
    ensures { result ≡ spec.gives_result (plain_type returns.now) (plain_sort sort.now) }
{
    match sort {
        Sort::Function(f) => same_type(&f.result, returns),
        Sort::Variable(_) => false,
    }
}

fn agrees_on_result(storage: Storage, returns: &CType, visible: &FileName) -> bool
    ensures { result ≡ spec.may_be_function (plain_storage storage) (plain_type returns.now) (Some (plain_file_name visible.now)) }
{
    gives_result(returns, &visible.sort)
        && visible.internal == linkage(storage, true, Some(visible))
}

/// Whether another declaration of the name leaves room for a function with this result, whatever its parameters are.
pub fn may_be_function(scope: &Scope, storage: Storage, returns: &CType, name: &[u8]) -> bool
    ensures { result ≡ spec.may_be_function (plain_storage storage) (plain_type returns.now) ((plain_scope scope.now).file_names name.now) }
{
    match scope.file_names.get(name) {
        Some(visible) => agrees_on_result(storage, returns, visible),
        None => true,
    }
}

/// A further declaration of a name must have the same type and linkage.
#[tactic(auto, using(plain_declarators::specs::Sequences::passed_is, plain_declarators::specs::Sequences::failed_refused))]
fn declare_again(
    scope: &Scope,
    visible: &FileName,
    name: &Token,
    sort: Sort,
    internal: bool,
) -> Result<(), ElabError>
    ensures { Answers (spec.declared_again (plain_scope scope.now) (plain_token name.now) (plain_sort sort) internal (plain_file_name visible.now)) (λ u. plain_scope scope.now) result }
{
    unless(agrees(visible, sort, internal), TypeKind::Redeclared, name)
}

fn declare_first(
    alloc: Global,
    scope: &mut Scope,
    name: &Token,
    sort: Sort,
    internal: bool,
) -> Result<(), NoMemory>
    ensures { OnOk result (spec.declared_as (plain_scope scope.old) (plain_token name.now) (plain_sort sort) internal None ≡ give (plain_scope scope.new)) }
{
    enter_name(
        alloc,
        scope,
        name.text.as_slice(),
        FileName { sort, internal },
    )?;
    Ok(())
}

/// Declares a name of file scope.
#[tactic(auto, using(crate::specs::FileNames::declaring))]
pub fn declare_name(
    alloc: Global,
    scope: &mut Scope,
    name: &Token,
    sort: Sort,
    storage: Storage,
) -> Result<(), ElabError>
    ensures { Answers (spec.with_name (plain_scope scope.old) (plain_token name.now) (plain_sort sort) (plain_storage storage)) (λ u. plain_scope scope.new) result }
{
    let of_function = is_function(&sort);
    match scope.file_names.get(name.text.as_slice()) {
        Some(found) => {
            let internal = linkage(storage, of_function, Some(found));
            declare_again(scope, found, name, sort, internal)
        }
        None => {
            let internal = linkage(storage, of_function, None);
            declare_first(alloc, scope, name, sort, internal)?;
            Ok(())
        }
    }
}
