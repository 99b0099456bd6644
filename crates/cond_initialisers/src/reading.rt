//! Initialisers, entry by entry. The entries of a list aren't multiplied: each is read for the types of the parts that it may be for.
ghost use Rattle.std.specs.Prelude.{◌≡◌, ℕ, ◌∷◌, ◌++◌, [], Option, Bool, false, List, replicate, IsTrue, IfOk, OnOk};
ghost use Rattle.cond_formula.specs.Features.{has};
ghost use Rattle.cond_formula.specs.Conditions.{condition_of, value};
ghost use Rattle.conditional.specs.Entries.{under};
ghost use Rattle.c_text.specs.Token.{PlainToken};
ghost use Rattle.c_types.specs.Types.{PlainType, plain_type};
ghost use Rattle.c_tree.specs.Trees.{none};
ghost use Rattle.c_tree.specs.Grammar as grammar;
ghost use Rattle.c_tree.specs.declared.kinds.Kind.TheVariants as k;
ghost use Rattle.tree_derivations.specs.Derivations.{Derivation};
ghost use Rattle.choice_trees.specs.ChoiceTrees.{plain_item, plain_branches, plain_choices, with_part, item_at, branch_at, parts_at};
ghost use Rattle.core_meaning.specs.Values.{Path};
ghost use Rattle.core_meaning.specs.Entities.{Scope};
ghost use Rattle.core_meaning.specs.Constancy.{initial};
ghost use Rattle.operand_types.specs.OperandTypes.{renumbered};
ghost use Rattle.statement_readings.specs.Walks.{is_refused};
ghost use Rattle.type_tables.specs.Seen.{seen_tables};
ghost use Rattle.type_tables.specs.Follows.{IsThere, Follows};
ghost use Rattle.cond_initialisers.specs.Laws.{AreRefused};
ghost use Rattle.cond_initialisers.specs.Refusals.{members_in, refuses, entries_in, in_pairs, some_refused, parts_of, one_entry};
ghost use Rattle.cond_initialisers.specs.Rows.{plain_types, asked_for, asked_each, row, rows};

use crate::expressions::{Expressions, where_alone, where_texts};
use crate::laws::initialisers_are_refused;
use crate::lists::where_some_of;
use crate::pairs::where_some_pair;
use crate::places::members_of;
use crate::rows::{Row, where_some_row};
use crate::shapes::{Shape, is_entry, shape_of};
use c_types::CType;
use choice_trees::{Choice, Item};
use cond_formula::{Formula, NoMemory, Oracle};
use conditional::Guarded;
use plain_scope::copied;
use reduced_conditions::{both_of, without};
use std::alloc::Global;
use type_tables::Tables;

/// Where the initialiser of an object of this type is refused, if expressions are refused where what they give the object is.
pub fn where_refused<K: Expressions, O: Oracle>(
    alloc: Global,
    oracle: &mut O,
    known: &K,
    tables: &Tables,
    ty: &CType,
    initialiser: &Item,
) -> Result<Formula, NoMemory>
    ensures kept { O.admits oracle.new ≡ O.admits oracle.old }
    ensures refused { IfOk result (λ f. (c : List Bool) → IsTrue (value (has c) (K.admits known.now)) → IsTrue (value (has c) (O.admits oracle.old))
        → (globals : Option ℕ) (scope : Scope) (follows : Follows (seen_tables (has c) tables.now) scope)
        → AreRefused follows.by scope globals (K.asked known.now c)
        → (t : PlainType) → plain_type ty.now ≡ renumbered follows.by t → IsThere scope.structs t
        → Derivation grammar.initialiser (item_at (has c) (plain_item initialiser.now)) → (path : Path) (behind : PlainToken)
        → value (has c) (condition_of f) ≡ is_refused (initial scope globals t path (item_at (has c) (plain_item initialiser.now)) behind)) }
{
    initialisers_are_refused();
    where_item_refused(alloc, oracle, known, tables, ty, initialiser)
}

/// Where an initialiser or an entry is refused for a type.
#[cycle(reading)]
#[tactic(auto, using(choice_trees::specs::ItemLaws::item_kinds))]
fn where_item_refused<K: Expressions, O: Oracle>(
    alloc: Global,
    oracle: &mut O,
    known: &K,
    tables: &Tables,
    ty: &CType,
    item: &Item,
) -> Result<Formula, NoMemory>
    ensures kept { O.admits oracle.new ≡ O.admits oracle.old }
    ensures same { IfOk result (λ f. (c : List Bool) → IsTrue (value (has c) (K.admits known.now)) → IsTrue (value (has c) (O.admits oracle.old))
        → value (has c) (condition_of f) ≡ refuses (K.asked known.now c) (members_in (seen_tables (has c) tables.now)) (item_at (has c) (plain_item item.now)) (plain_type ty.now)) }
{
    match item {
        Item::Leaf(..) => where_alone(alloc, oracle, known, ty, item),
        Item::Node(kind, parts) => match shape_of(*kind) {
            Shape::Braces => where_braces_refused(alloc, oracle, known, tables, ty, parts),
            Shape::List => where_list_refused(alloc, oracle, known, tables, ty, parts),
            Shape::Texts => where_texts(alloc, oracle, known, ty, item),
            Shape::Expression => where_alone(alloc, oracle, known, ty, item),
        },
    }
}

/// Where a list with the braces around it is refused.
#[cycle(reading)]
fn where_braces_refused<K: Expressions, O: Oracle>(
    alloc: Global,
    oracle: &mut O,
    known: &K,
    tables: &Tables,
    ty: &CType,
    parts: &[Choice<Item>],
) -> Result<Formula, NoMemory>
    ensures kept { O.admits oracle.new ≡ O.admits oracle.old }
    ensures same { IfOk result (λ f. (c : List Bool) → IsTrue (value (has c) (K.admits known.now)) → IsTrue (value (has c) (O.admits oracle.old))
        → value (has c) (condition_of f)
        ≡ some_refused (entries_in (K.asked known.now c) (members_in (seen_tables (has c) tables.now)) (parts_at (has c) k.Braces 0 (plain_choices parts.now))) (plain_type ty.now)) }
{
    let entries = entries_for_one(alloc, oracle, known, tables, ty, parts)?;
    where_some_row(alloc, &entries)
}

/// Where a list is refused.
#[cycle(reading)]
#[tactic(auto, using(c_types::specs::TypeLaws::type_kinds))]
fn where_list_refused<K: Expressions, O: Oracle>(
    alloc: Global,
    oracle: &mut O,
    known: &K,
    tables: &Tables,
    ty: &CType,
    parts: &[Choice<Item>],
) -> Result<Formula, NoMemory>
    ensures kept { O.admits oracle.new ≡ O.admits oracle.old }
    ensures same { IfOk result (λ f. (c : List Bool) → IsTrue (value (has c) (K.admits known.now)) → IsTrue (value (has c) (O.admits oracle.old))
        → value (has c) (condition_of f)
        ≡ in_pairs (entries_in (K.asked known.now c) (members_in (seen_tables (has c) tables.now)) (parts_at (has c) k.Initialisers 0 (plain_choices parts.now)))
        (parts_of (members_in (seen_tables (has c) tables.now)) (plain_type ty.now))) }
{
    match ty {
        CType::Array(element, count) => {
            where_repeated_refused(alloc, oracle, known, tables, element, *count, parts)
        }
        CType::Struct(number) => {
            where_members_refused(alloc, oracle, known, tables, *number, parts)
        }
        CType::Void
        | CType::Char
        | CType::UChar
        | CType::Int
        | CType::UInt
        | CType::Long
        | CType::ULong
        | CType::Pointer(_) => where_repeated_refused(alloc, oracle, known, tables, ty, 1, parts),
    }
}

/// Where a list for so many parts of one type is refused.
#[cycle(reading)]
fn where_repeated_refused<K: Expressions, O: Oracle>(
    alloc: Global,
    oracle: &mut O,
    known: &K,
    tables: &Tables,
    ty: &CType,
    count: u32,
    parts: &[Choice<Item>],
) -> Result<Formula, NoMemory>
    ensures kept { O.admits oracle.new ≡ O.admits oracle.old }
    ensures same { IfOk result (λ f. (c : List Bool) → IsTrue (value (has c) (K.admits known.now)) → IsTrue (value (has c) (O.admits oracle.old))
        → value (has c) (condition_of f)
        ≡ in_pairs (entries_in (K.asked known.now c) (members_in (seen_tables (has c) tables.now)) (parts_at (has c) k.Initialisers 0 (plain_choices parts.now)))
        (replicate count (plain_type ty.now))) }
{
    let entries = entries_for_one(alloc, oracle, known, tables, ty, parts)?;
    where_some_of(alloc, oracle, &entries, count)
}

/// Where a list for the members of a struct is refused.
#[cycle(reading)]
fn where_members_refused<K: Expressions, O: Oracle>(
    alloc: Global,
    oracle: &mut O,
    known: &K,
    tables: &Tables,
    structure: u32,
    parts: &[Choice<Item>],
) -> Result<Formula, NoMemory>
    ensures kept { O.admits oracle.new ≡ O.admits oracle.old }
    ensures same { IfOk result (λ f. (c : List Bool) → IsTrue (value (has c) (K.admits known.now)) → IsTrue (value (has c) (O.admits oracle.old))
        → value (has c) (condition_of f)
        ≡ in_pairs (entries_in (K.asked known.now c) (members_in (seen_tables (has c) tables.now)) (parts_at (has c) k.Initialisers 0 (plain_choices parts.now)))
        (members_in (seen_tables (has c) tables.now) structure)) }
{
    let mut types = Vec::new(alloc);
    let members = members_of(alloc, tables, structure, &mut types)?;
    let entries = entries_for(alloc, oracle, known, tables, &types, parts)?;
    where_some_pair(alloc, oracle, &entries, &members)
}

/// The entries among these parts, and where they are refused for one type.
#[cycle(reading)]
fn entries_for_one<K: Expressions, O: Oracle>(
    alloc: Global,
    oracle: &mut O,
    known: &K,
    tables: &Tables,
    ty: &CType,
    parts: &[Choice<Item>],
) -> Result<Vec<Guarded<Row>>, NoMemory>
    ensures kept { O.admits oracle.new ≡ O.admits oracle.old }
    ensures same { IfOk result (λ all. (c : List Bool) → IsTrue (value (has c) (K.admits known.now)) → IsTrue (value (has c) (O.admits oracle.old))
        → rows (has c) all.items
        ≡ asked_each (plain_type ty.now ∷ []) (entries_in (K.asked known.now c) (members_in (seen_tables (has c) tables.now)) (parts_at (has c) k.Initialisers 0 (plain_choices parts.now)))) }
{
    let mut types = Vec::new(alloc);
    types.push(copied(alloc, ty)?)?;
    entries_for(alloc, oracle, known, tables, &types, parts)
}

/// The entries among these parts, and where they are refused for each of the types.
#[cycle(reading)]
fn entries_for<K: Expressions, O: Oracle>(
    alloc: Global,
    oracle: &mut O,
    known: &K,
    tables: &Tables,
    types: &[CType],
    parts: &[Choice<Item>],
) -> Result<Vec<Guarded<Row>>, NoMemory>
    ensures kept { O.admits oracle.new ≡ O.admits oracle.old }
    ensures same { IfOk result (λ all. (c : List Bool) → IsTrue (value (has c) (K.admits known.now)) → IsTrue (value (has c) (O.admits oracle.old))
        → rows (has c) all.items
        ≡ asked_each (plain_types types.now) (entries_in (K.asked known.now c) (members_in (seen_tables (has c) tables.now)) (parts_at (has c) k.Initialisers 0 (plain_choices parts.now)))) }
{
    let mut all = Vec::new(alloc);
    for part in parts {
        push_part(alloc, oracle, known, tables, types, part, &mut all)?;
    }
    Ok(all)
}

/// The entries that one part may be.
#[cycle(reading)]
fn push_part<K: Expressions, O: Oracle>(
    alloc: Global,
    oracle: &mut O,
    known: &K,
    tables: &Tables,
    types: &[CType],
    part: &Choice<Item>,
    all: &mut Vec<Guarded<Row>>,
) -> Result<(), NoMemory>
    ensures kept { O.admits oracle.new ≡ O.admits oracle.old }
    ensures pushes { OnOk result ((c : List Bool) → IsTrue (value (has c) (K.admits known.now)) → IsTrue (value (has c) (O.admits oracle.old))
        → rows (has c) all.new.items
        ≡ rows (has c) all.old.items
        ++ asked_each (plain_types types.now)
        (entries_in (K.asked known.now c) (members_in (seen_tables (has c) tables.now)) (with_part false (branch_at (has c) (plain_branches part.now.branches.items)) none))) }
{
    let mut left = Formula::True;
    for (when, item) in &part.branches {
        let here = both_of(alloc, &left, when)?;
        push_item(alloc, oracle, known, tables, types, &here, item, all)?;
        left = without(alloc, left, when)?;
    }
    Ok(())
}

/// An entry, where it is one.
#[cycle(reading)]
fn push_item<K: Expressions, O: Oracle>(
    alloc: Global,
    oracle: &mut O,
    known: &K,
    tables: &Tables,
    types: &[CType],
    when: &Formula,
    item: &Item,
    all: &mut Vec<Guarded<Row>>,
) -> Result<(), NoMemory>
    ensures kept { O.admits oracle.new ≡ O.admits oracle.old }
    ensures pushes { OnOk result ((c : List Bool) → IsTrue (value (has c) (K.admits known.now)) → IsTrue (value (has c) (O.admits oracle.old))
        → rows (has c) all.new.items
        ≡ rows (has c) all.old.items
        ++ under (value (has c) (condition_of when.now)) (asked_each (plain_types types.now)
        (one_entry (K.asked known.now c) (members_in (seen_tables (has c) tables.now)) (item_at (has c) (plain_item item.now))))) }
{
    if !is_entry(item) {
        return Ok(());
    }
    let what = row_of(alloc, oracle, known, tables, types, item)?;
    let when = when.try_clone(alloc)?;
    all.push(Guarded { when, what })?;
    Ok(())
}

/// Where an entry is refused for each of the types.
#[cycle(reading)]
fn row_of<K: Expressions, O: Oracle>(
    alloc: Global,
    oracle: &mut O,
    known: &K,
    tables: &Tables,
    types: &[CType],
    item: &Item,
) -> Result<Row, NoMemory>
    ensures kept { O.admits oracle.new ≡ O.admits oracle.old }
    ensures same { IfOk result (λ z. (c : List Bool) → IsTrue (value (has c) (K.admits known.now)) → IsTrue (value (has c) (O.admits oracle.old))
        → row (has c) z
        ≡ asked_for (plain_types types.now) (refuses (K.asked known.now c) (members_in (seen_tables (has c) tables.now)) (item_at (has c) (plain_item item.now)))) }
{
    let mut refused = Vec::new(alloc);
    for ty in types {
        let here = where_item_refused(alloc, oracle, known, tables, ty, item)?;
        refused.push(here)?;
    }
    Ok(Row { refused })
}
