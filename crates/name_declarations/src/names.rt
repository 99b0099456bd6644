//! Declarations of names of file scope (6.2.2, 6.7).
ghost use Rattle.std.specs.Prelude.{◌≡◌, ℕ, Bool, true, false, not, ◌&&◌, List, IsTrue, IfOk, OnOk};
ghost use Rattle.cond_formula.specs.Features.{has};
ghost use Rattle.cond_formula.specs.Conditions.{condition_of, value};
ghost use Rattle.c_text.specs.Token.{PlainToken};
ghost use Rattle.c_types.specs.Types.{PlainType, plain_type};
ghost use Rattle.core_meaning.specs.Entities as scopes;
ghost use Rattle.core_meaning.specs.UnitNames as spec;
ghost use Rattle.operand_types.specs.OperandTypes.{renumbered};
ghost use Rattle.plain_objects.specs.PlainStates.{plain_storage};
ghost use Rattle.type_tables.specs.Forms.{sort_form};
ghost use Rattle.type_tables.specs.Seen.{seen_tables};
ghost use Rattle.type_tables.specs.Follows.{IsNumbered, Follows, SortFollows, SortIsThere};
ghost use Rattle.name_declarations.specs.Conflicts.{differs, is_no_such_function, conflicting};
ghost use Rattle.name_declarations.specs.Names.{Named};

use crate::conflicts::{Conflict, where_conflicting};
use crate::sorts::{function_returns, where_sorts_differ};
use c_types::CType;
use cond_formula::{Formula, NoMemory, Oracle};
use plain_objects::Storage;
use plain_scope::same_type;
use std::alloc::Global;
use type_tables::{FileName, Sort, Tables};

/// Whether a declaration with this storage has the linkage that the name has (6.2.2).
fn keeps_linkage(storage: Storage, of_function: bool, internal: bool) -> bool
    ensures { result ≡ Rattle.name_declarations.specs.Conflicts.keeps_linkage (plain_storage storage) of_function internal }
{
    match storage {
        Storage::Static => internal,
        Storage::Extern => true,
        Storage::Absent => of_function || !internal,
    }
}

fn is_function(sort: &Sort) -> bool
    ensures { result ≡ Rattle.name_declarations.specs.Conflicts.is_function (sort_form sort.now) }
{
    match sort {
        Sort::Object(_) => false,
        Sort::Function(_) => true,
    }
}

fn is_static(storage: Storage) -> bool
    ensures { result ≡ spec.is_static (plain_storage storage) }
{
    match storage {
        Storage::Static => true,
        Storage::Extern | Storage::Absent => false,
    }
}

/// Whether a name stands for a function that returns this type.
fn returns_so(tables: &Tables, returns: &CType, sort: &Sort) -> bool
    ensures { (on : ℕ → Bool) → result ≡ Rattle.name_declarations.specs.Conflicts.returns_so (seen_tables on tables.now).signatures (plain_type returns.now) (sort_form sort.now) }
{
    match sort {
        Sort::Object(_) => false,
        Sort::Function(number) => function_returns(tables, *number, returns),
    }
}

/// A declaration of a name as this sort.
#[derive(Clone, Copy)]
struct Declaration<'t> {
    tables: &'t Tables,
    storage: Storage,
    sort: &'t Sort,
}

impl<'t> Conflict for Declaration<'t> {
    ghost conflicts = { λ d c. differs (seen_tables (has c) d.tables.now).signatures (plain_storage d.storage) (sort_form d.sort.now) };

    #[tactic(auto, using(cond_formula::specs::ConditionLaws::formula_kinds))]
    fn where_conflicting<O: Oracle>(
        &self,
        alloc: Global,
        oracle: &mut O,
        visible: &FileName,
    ) -> Result<Formula, NoMemory> {
        if !keeps_linkage(self.storage, is_function(self.sort), visible.internal) {
            return Ok(Formula::True);
        }
        where_sorts_differ(alloc, oracle, self.tables, &visible.sort, self.sort)
    }
}

/// Where the condition is true and a declaration conflicts with what the name stands for already.
#[tactic(auto, using(cond_formula::specs::ConditionLaws::formula_kinds))]
fn where_name_conflicts<C: Conflict, O: Oracle>(
    alloc: Global,
    oracle: &mut O,
    conflict: &C,
    tables: &Tables,
    when: &Formula,
    name: &[u8],
) -> Result<Formula, NoMemory>
    ensures kept { O.admits oracle.new ≡ O.admits oracle.old }
    ensures exact { IfOk result (λ f. (c : List Bool) → IsTrue (value (has c) (O.admits oracle.old))
        → value (has c) (condition_of f) ≡ (value (has c) (condition_of when.now) && conflicting (C.conflicts conflict.now c) ((seen_tables (has c) tables.now).names name.now))) }
{
    match tables.named(name) {
        Some(found) => where_conflicting(alloc, oracle, conflict, when, &found.meanings.entries),
        None => Ok(Formula::False),
    }
}

/// A name is declared at file scope where the condition is true. What it was declared as first is what it stands for. The answer is where the
/// declaration is refused, since it differs from that in type or in linkage.
pub fn declare_as<O: Oracle>(
    alloc: Global,
    oracle: &mut O,
    tables: &mut Tables,
    when: &Formula,
    name: &[u8],
    sort: Sort,
    storage: Storage,
) -> Result<Formula, NoMemory>
    ensures kept { O.admits oracle.new ≡ O.admits oracle.old }
    ensures elsewhere { IfOk result (λ f. (c : List Bool) → IsTrue (value (has c) (O.admits oracle.old)) → value (has c) (condition_of when.now) ≡ false
        → (seen_tables (has c) tables.new ≡ seen_tables (has c) tables.old) × (value (has c) (condition_of f) ≡ false)) }
    ensures declared { IfOk result (λ f. (c : List Bool) → IsTrue (value (has c) (O.admits oracle.old)) → value (has c) (condition_of when.now) ≡ true
        → (scope : scopes.Scope) (follows : Follows (seen_tables (has c) tables.old) scope) (token : PlainToken) (s : scopes.Sort) → token.text ≡ name.now
        → SortFollows follows.by (seen_tables (has c) tables.old).signatures s (sort_form sort) → SortIsThere scope.structs s → IsNumbered (seen_tables (has c) tables.old).functions (sort_form sort)
        → Named follows.by (spec.with_name scope token s (plain_storage storage)) (value (has c) (condition_of f)) (seen_tables (has c) tables.new)) }
    ensures locals { OnOk result (tables.new.locals ≡ tables.old.locals) }
    ensures depth { OnOk result (tables.new.depth ≡ tables.old.depth) }
{
    let declaration = Declaration {
        tables,
        storage,
        sort: &sort,
    };
    let refused = where_name_conflicts(alloc, oracle, &declaration, tables, when, name)?;
    let internal = is_static(storage);
    tables.declare_name(
        alloc,
        name,
        when.try_clone(alloc)?,
        FileName { sort, internal },
    )?;
    Ok(refused)
}

/// A declaration of a name as a function that returns this type, whatever its parameters are.
#[derive(Clone, Copy)]
struct FunctionDeclaration<'t> {
    tables: &'t Tables,
    storage: Storage,
    returns: &'t CType,
}

impl<'t> Conflict for FunctionDeclaration<'t> {
    ghost conflicts = { λ d c. is_no_such_function (seen_tables (has c) d.tables.now).signatures (plain_storage d.storage) (plain_type d.returns.now) };

    #[tactic(auto, using(cond_formula::specs::ConditionLaws::formula_kinds))]
    fn where_conflicting<O: Oracle>(
        &self,
        _alloc: Global,
        _oracle: &mut O,
        visible: &FileName,
    ) -> Result<Formula, NoMemory> {
        if returns_so(self.tables, self.returns, &visible.sort)
            && keeps_linkage(self.storage, true, visible.internal)
        {
            return Ok(Formula::False);
        }
        Ok(Formula::True)
    }
}

/// Where the condition is true and what the name stands for already keeps it from being a function that returns this type, whatever its
/// parameters are.
pub fn where_no_such_function<O: Oracle>(
    alloc: Global,
    oracle: &mut O,
    tables: &Tables,
    when: &Formula,
    name: &[u8],
    returns: &CType,
    storage: Storage,
) -> Result<Formula, NoMemory>
    ensures kept { O.admits oracle.new ≡ O.admits oracle.old }
    ensures exact { IfOk result (λ f. (c : List Bool) → IsTrue (value (has c) (O.admits oracle.old))
        → (scope : scopes.Scope) (follows : Follows (seen_tables (has c) tables.now) scope) (ty : PlainType) → plain_type returns.now ≡ renumbered follows.by ty
        → value (has c) (condition_of f) ≡ (value (has c) (condition_of when.now) && not (spec.may_be_function (plain_storage storage) ty (scope.file_names name.now)))) }
{
    let declaration = FunctionDeclaration {
        tables,
        storage,
        returns,
    };
    where_name_conflicts(alloc, oracle, &declaration, tables, when, name)
}
