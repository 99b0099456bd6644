//! Objects of file scope whose struct was completed behind their declaration, and that have more scalars than an object may have (6.9.2).
ghost use Rattle.std.specs.Prelude.{◌≡◌, ℕ, Bool, false, ◌&&◌, ◌||◌, List, IsTrue, IfOk, is_some};
ghost use Rattle.std.specs.List.{list_any};
ghost use Rattle.cond_formula.specs.Features.{has};
ghost use Rattle.cond_formula.specs.Conditions.{condition_of, value};
ghost use Rattle.conditional.specs.Entries.{seen, first, listed, entries_of};
ghost use Rattle.c_tree.specs.declared.kinds.Kind.TheVariants as k;
ghost use Rattle.c_tree.specs.Trees.{node, plain_tree, plain_trees};
ghost use Rattle.c_tree.specs.Grammar.{file_item};
ghost use Rattle.tree_derivations.specs.Derivations.{Each};
ghost use Rattle.choice_trees.specs.ChoiceTrees.{plain_item, plain_choices, item_at, parts_at};
ghost use Rattle.choice_expansions.specs.Expansions.{expanded};
ghost use Rattle.core_meaning.specs.UnitNames.{UnitState, too_big_in};
ghost use Rattle.type_tables.specs.Forms.{sort_form, file_name_form};
ghost use Rattle.type_tables.specs.Seen.{seen_tables};
ghost use Rattle.type_tables.specs.Numbers.{FollowsBy};
ghost use Rattle.link_faults.specs.Measures.{some_so, is_so};
ghost use Rattle.cond_types.specs.Sizes as spec;

use crate::questions::{Question, where_some};
use c_tree::{Kind, Tree};
use choice_expansions::{Expansion, expansions};
use choice_trees::{Choice, Item};
use cond_formula::{Formula, NoMemory, Oracle};
use conditional::{CondList, Guarded};
use conditional_steps::never;
use plain_declarators::name_in;
use reduced_conditions::{both, either};
use std::alloc::Global;
use type_tables::{FileName, Sort, Tables};

// ---- a name

/// Where what a name stands for is too big.
fn where_big(alloc: Global, tables: &Tables, sort: &Sort) -> Result<Formula, NoMemory>
    ensures { IfOk result (λ f. (on : ℕ → Bool) → value on (condition_of f) ≡ spec.is_big (seen_tables on tables.now) (sort_form sort.now)) }
{
    match sort {
        Sort::Object(ty) => {
            let small = tables.where_small(alloc, ty)?;
            Formula::not(alloc, small)
        }
        Sort::Function(_) => never(),
    }
}

fn or_meaning(
    alloc: Global,
    tables: &Tables,
    so_far: Formula,
    meaning: &Guarded<FileName>,
) -> Result<Formula, NoMemory>
    ensures { IfOk result (λ f. (on : ℕ → Bool) → value on (condition_of f)
        ≡ (value on (condition_of so_far) || (value on (condition_of meaning.now.when) && spec.is_big_name (seen_tables on tables.now) (file_name_form meaning.now.what)))) }
{
    let big = where_big(alloc, tables, &meaning.what.sort)?;
    let here = both(alloc, meaning.when.try_clone(alloc)?, big)?;
    let f = either(alloc, so_far, here)?;
    Ok(f)
}

fn where_some_meaning(
    alloc: Global,
    tables: &Tables,
    meanings: &[Guarded<FileName>],
) -> Result<Formula, NoMemory>
    ensures { IfOk result (λ f. (on : ℕ → Bool) → value on (condition_of f) ≡ some_so (spec.is_big_name (seen_tables on tables.now)) on (entries_of file_name_form meanings.now)) }
{
    let mut so_far = never()?;
    for meaning in meanings {
        so_far = or_meaning(alloc, tables, so_far, meaning)?;
    }
    Ok(so_far)
}

fn where_first_meaning(
    alloc: Global,
    tables: &Tables,
    meanings: &CondList<FileName>,
) -> Result<Formula, NoMemory>
    ensures { IfOk result (λ f. (on : ℕ → Bool) → value on (condition_of f) ≡ is_so (spec.is_big_name (seen_tables on tables.now)) (first (seen on (listed file_name_form meanings.now)))) }
{
    let what = meanings.first_value(alloc)?;
    let f = where_some_meaning(alloc, tables, &what.alternatives)?;
    Ok(f)
}

/// Where the object of this name is too big.
fn where_name_big(alloc: Global, tables: &Tables, name: &[u8]) -> Result<Formula, NoMemory>
    ensures { IfOk result (λ f. (on : ℕ → Bool) → value on (condition_of f) ≡ is_so (spec.is_big_name (seen_tables on tables.now)) ((seen_tables on tables.now).names name.now)) }
{
    match tables.named(name) {
        None => never(),
        Some(n) => where_first_meaning(alloc, tables, &n.meanings),
    }
}

// ---- a declarator

/// Whether a declarator is a name without brackets.
fn is_plain_declarator(kind: Kind) -> bool
    ensures { result ≡ spec.is_plain_declarator kind }
{
    matches!(kind, Kind::Declarator)
}

fn where_node_big(
    alloc: Global,
    tables: &Tables,
    kind: Kind,
    parts: &[Tree],
) -> Result<Formula, NoMemory>
    ensures { IfOk result (λ f. (on : ℕ → Bool) → value on (condition_of f) ≡ spec.is_big_declarator (seen_tables on tables.now) (node kind (plain_trees parts.now))) }
{
    if !is_plain_declarator(kind) {
        return never();
    }
    let Some(name) = name_in(parts) else {
        return never();
    };
    where_name_big(alloc, tables, &name.text)
}

/// Where the object of a declarator that is one tree is too big.
#[tactic(auto, using(c_tree::specs::TreeLaws::tree_kinds))]
fn where_tree_big(alloc: Global, tables: &Tables, tree: &Tree) -> Result<Formula, NoMemory>
    ensures { IfOk result (λ f. (on : ℕ → Bool) → value on (condition_of f) ≡ spec.is_big_declarator (seen_tables on tables.now) (plain_tree tree.now)) }
{
    match tree {
        Tree::Leaf(_) => never(),
        Tree::Node(kind, parts) => where_node_big(alloc, tables, *kind, parts),
    }
}

fn or_expansion(
    alloc: Global,
    tables: &Tables,
    so_far: Formula,
    expansion: &Expansion,
) -> Result<Formula, NoMemory>
    ensures { IfOk result (λ f. (on : ℕ → Bool) → value on (condition_of f)
        ≡ (value on (condition_of so_far) || (value on (condition_of expansion.now.when) && spec.is_big_declarator (seen_tables on tables.now) (plain_tree expansion.now.tree)))) }
{
    let big = where_tree_big(alloc, tables, &expansion.tree)?;
    let here = both(alloc, expansion.when.try_clone(alloc)?, big)?;
    let f = either(alloc, so_far, here)?;
    Ok(f)
}

fn where_some_expansion(
    alloc: Global,
    tables: &Tables,
    all: &[Expansion],
) -> Result<Formula, NoMemory>
    ensures { IfOk result (λ f. (on : ℕ → Bool) → value on (condition_of f) ≡ list_any (spec.is_big_declarator (seen_tables on tables.now)) (seen on (expanded all.now))) }
{
    let mut so_far = never()?;
    for expansion in all {
        so_far = or_expansion(alloc, tables, so_far, expansion)?;
    }
    Ok(so_far)
}

/// Whether an item is a declarator without brackets.
#[tactic(auto, using(choice_trees::specs::ItemLaws::item_kinds))]
fn is_plain_item(item: &Item) -> bool
    ensures { (on : ℕ → Bool) → result ≡ spec.is_plain_tree (item_at on (plain_item item.now)) }
{
    match item {
        Item::Leaf(..) => false,
        Item::Node(kind, _) => is_plain_declarator(*kind),
    }
}

/// Where the object of a declarator is too big. One with brackets declares no such object, so its parameters aren't read.
fn where_declarator_big<O: Oracle>(
    alloc: Global,
    oracle: &mut O,
    tables: &Tables,
    item: &Item,
) -> Result<Formula, NoMemory>
    ensures kept { O.admits oracle.new ≡ O.admits oracle.old }
    ensures big { IfOk result (λ f. (c : List Bool) → IsTrue (value (has c) (O.admits oracle.old)) → value (has c) (condition_of f)
        ≡ spec.is_big_declarator (seen_tables (has c) tables.now) (item_at (has c) (plain_item item.now))) }
{
    if !is_plain_item(item) {
        return never();
    }
    let all = expansions(alloc, oracle, item)?;
    let f = where_some_expansion(alloc, tables, &all)?;
    Ok(f)
}

// ---- lists of declarators, declarations and items

/// Whether the object of a declarator is too big.
#[derive(Clone, Copy)]
struct BigDeclarator<'t> {
    tables: &'t Tables,
}

impl<'t> Question for BigDeclarator<'t> {
    ghost asks = { λ self on. spec.is_big_declarator (seen_tables on self.tables.now) };

    fn where_so<O: Oracle>(
        &self,
        alloc: Global,
        oracle: &mut O,
        item: &Item,
    ) -> Result<Formula, NoMemory> {
        where_declarator_big(alloc, oracle, self.tables, item)
    }
}

fn is_list(kind: Kind) -> bool
    ensures { result ≡ spec.is_list kind }
{
    matches!(kind, Kind::Declarators)
}

fn where_list_big<O: Oracle>(
    alloc: Global,
    oracle: &mut O,
    tables: &Tables,
    kind: Kind,
    list: &[Choice<Item>],
) -> Result<Formula, NoMemory>
    ensures kept { O.admits oracle.new ≡ O.admits oracle.old }
    ensures big { IfOk result (λ f. (c : List Bool) → IsTrue (value (has c) (O.admits oracle.old)) → value (has c) (condition_of f)
        ≡ spec.is_big_list (seen_tables (has c) tables.now) (node kind (parts_at (has c) kind 0 (plain_choices list.now)))) }
{
    if !is_list(kind) {
        return never();
    }
    let f = where_some(alloc, oracle, &BigDeclarator { tables }, list)?;
    Ok(f)
}

/// Whether a part of a declaration is a list of declarators with an object that is too big.
#[derive(Clone, Copy)]
struct BigList<'t> {
    tables: &'t Tables,
}

impl<'t> Question for BigList<'t> {
    ghost asks = { λ self on. spec.is_big_list (seen_tables on self.tables.now) };

    #[tactic(auto, using(choice_trees::specs::ItemLaws::item_kinds))]
    fn where_so<O: Oracle>(
        &self,
        alloc: Global,
        oracle: &mut O,
        item: &Item,
    ) -> Result<Formula, NoMemory> {
        match item {
            Item::Leaf(..) => never(),
            Item::Node(kind, list) => where_list_big(alloc, oracle, self.tables, *kind, list),
        }
    }
}

fn is_declaration(kind: Kind) -> bool
    ensures { result ≡ spec.is_declaration kind }
{
    matches!(kind, Kind::Declaration)
}

fn where_declaration_big<O: Oracle>(
    alloc: Global,
    oracle: &mut O,
    tables: &Tables,
    kind: Kind,
    parts: &[Choice<Item>],
) -> Result<Formula, NoMemory>
    ensures kept { O.admits oracle.new ≡ O.admits oracle.old }
    ensures big { IfOk result (λ f. (c : List Bool) → IsTrue (value (has c) (O.admits oracle.old)) → value (has c) (condition_of f)
        ≡ spec.is_big_item (seen_tables (has c) tables.now) (node kind (parts_at (has c) kind 0 (plain_choices parts.now)))) }
{
    if !is_declaration(kind) {
        return never();
    }
    let f = where_some(alloc, oracle, &BigList { tables }, parts)?;
    Ok(f)
}

/// Whether an item declares an object that is too big.
#[derive(Clone, Copy)]
struct BigItem<'t> {
    tables: &'t Tables,
}

impl<'t> Question for BigItem<'t> {
    ghost asks = { λ self on. spec.is_big_item (seen_tables on self.tables.now) };

    #[tactic(auto, using(choice_trees::specs::ItemLaws::item_kinds))]
    fn where_so<O: Oracle>(
        &self,
        alloc: Global,
        oracle: &mut O,
        item: &Item,
    ) -> Result<Formula, NoMemory> {
        match item {
            Item::Leaf(..) => never(),
            Item::Node(kind, parts) => {
                where_declaration_big(alloc, oracle, self.tables, *kind, parts)
            }
        }
    }
}

/// Where one of the items of a unit declares an object that is too big at the end of the unit.
pub(crate) fn where_too_big<O: Oracle>(
    alloc: Global,
    oracle: &mut O,
    tables: &Tables,
    items: &[Choice<Item>],
) -> Result<Formula, NoMemory>
    ensures kept { O.admits oracle.new ≡ O.admits oracle.old }
    ensures big { IfOk result (λ f. (c : List Bool) (by : ℕ → ℕ) (unit : UnitState) → IsTrue (value (has c) (O.admits oracle.old)) → FollowsBy by (seen_tables (has c) tables.now) unit.scope
        → Each file_item (parts_at (has c) k.Unit 0 (plain_choices items.now)) → value (has c) (condition_of f) ≡ is_some (too_big_in unit.scope (parts_at (has c) k.Unit 0 (plain_choices items.now)))) }
{
    let f = where_some(alloc, oracle, &BigItem { tables }, items)?;
    Ok(f)
}
