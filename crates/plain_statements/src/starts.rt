//! Declarations among the items of blocks, and what a `for` begins with (6.8.2, 6.8.5).
ghost use Rattle.std.specs.Prelude.{◌≡◌, map, IfOk, OnOk, option_map};
ghost use Rattle.c_types.specs.Types.{plain_type};
ghost use Rattle.c_tree.specs.Trees.{node, plain_tree, plain_trees};
ghost use Rattle.core_meaning.specs.Plain.{plain_item};
ghost use Rattle.plain_scope.specs.Blocks.{with_block, without_block};
ghost use Rattle.plain_scope.specs.PlainScope.{plain_scope};
ghost use Rattle.plain_scope.specs.Judgements.{Judges};
ghost use Rattle.plain_declarations.specs.PlainLocals.{plain_local_item};
ghost use Rattle.plain_simple_statements.specs.Blocks.{placed, put};
ghost use Rattle.plain_statements.specs.PlainJudged.{plain_item_of};
ghost use Rattle.plain_statements.specs.Steps.{declaration_in, locals_item, evaluated_item, started_item, begun_for, behind_for};

use c_tree::{Kind, Tree};
use c_types::CType;
use cond_formula::NoMemory;
use core_meaning::Item;
use plain_declarations::{LocalItem, declared_locals};
use plain_declarators::two_parts;
use plain_scope::{ElabError, Scope, Used};
use plain_simple_statements::{expression_statement, pushed, single};
use std::alloc::Global;

/// The parts of a declaration.
#[tactic(auto, using(c_tree::specs::TreeLaws::tree_kinds))]
pub fn declaration_in(tree: &Tree) -> Option<&[Tree]>
    ensures { option_map (λ parts. plain_trees parts.now) result ≡ declaration_in (plain_tree tree.now) }
{
    let Tree::Node(kind, parts) = tree else {
        return None;
    };
    match kind {
        Kind::LocalDeclaration => Some(parts),
        _ => None,
    }
}

#[tactic(auto, using(core_meaning::specs::PlainLaws::statement_kinds))]
fn item_of(local: LocalItem) -> Item
    ensures { plain_item result ≡ placed (plain_local_item local) }
{
    let LocalItem { slot, parts } = local;
    Item::Local { slot, parts }
}

/// Declared locals as items.
fn items_of(alloc: Global, declared: Vec<LocalItem>) -> Result<Vec<Item>, NoMemory>
    ensures { IfOk result (λ items. map plain_item items.items ≡ map placed (map plain_local_item declared.items)) }
{
    let mut items = Vec::new(alloc);
    for local in declared {
        items = pushed(items, item_of(local))?;
    }
    Ok(items)
}

pub fn locals_item(
    alloc: Global,
    scope: &mut Scope,
    used: &mut Used,
    parts: &[Tree],
    slots: &mut Vec<CType>,
) -> Result<Vec<Item>, ElabError>
    ensures judged { Judges (locals_item (plain_scope scope.old) (map plain_type slots.old.items) (plain_trees parts.now)) (λ items. plain_item_of scope.new slots.new.items items.items) used.old used.new result }
    ensures outside { OnOk result (without_block (plain_scope scope.new) ≡ without_block (plain_scope scope.old)) }
{
    let declared = declared_locals(alloc, scope, used, slots, parts)?;
    let items = items_of(alloc, declared)?;
    Ok(items)
}

// ---- what a `for` begins with

/// The locals of a block of their own.
fn locals_in_block(
    alloc: Global,
    scope: &mut Scope,
    used: &mut Used,
    parts: &[Tree],
    slots: &mut Vec<CType>,
) -> Result<Vec<Item>, ElabError>
    ensures judged { Judges (locals_item (with_block (plain_scope scope.old)) (map plain_type slots.old.items) (plain_trees parts.now)) (λ items. plain_item_of scope.new slots.new.items items.items) used.old used.new result }
    ensures outside { OnOk result (without_block (plain_scope scope.new) ≡ plain_scope scope.old) }
{
    scope.begin_block(alloc)?;
    let items = locals_item(alloc, scope, used, parts, slots)?;
    Ok(items)
}

fn evaluated_item(
    alloc: Global,
    scope: &Scope,
    used: &mut Used,
    tree: &Tree,
) -> Result<Vec<Item>, ElabError>
    ensures { Judges (evaluated_item (plain_scope scope.now) (plain_tree tree.now)) (λ items. put (map plain_item items.items)) used.old used.new result }
{
    let core = expression_statement(alloc, scope, used, tree)?;
    Ok(single(alloc, core)?)
}

fn started_in(
    alloc: Global,
    scope: &Scope,
    used: &mut Used,
    parts: &[Tree],
) -> Result<Vec<Item>, ElabError>
    ensures { Judges (started_item (plain_scope scope.now) (node Kind.ForStart (plain_trees parts.now))) (λ items. put (map plain_item items.items)) used.old used.new result }
{
    let (tree, _) = two_parts(parts)?;
    evaluated_item(alloc, scope, used, tree)
}

/// The expression that a `for` begins with.
#[tactic(auto, using(c_tree::specs::TreeLaws::tree_kinds))]
fn started_item(
    alloc: Global,
    scope: &Scope,
    used: &mut Used,
    start: &Tree,
) -> Result<Vec<Item>, ElabError>
    ensures { Judges (started_item (plain_scope scope.now) (plain_tree start.now)) (λ items. put (map plain_item items.items)) used.old used.new result }
{
    let Tree::Node(kind, parts) = start else {
        return Err(ElabError::Memory);
    };
    match kind {
        Kind::ForStart => started_in(alloc, scope, used, parts),
        _ => Err(ElabError::Memory),
    }
}

/// The items of what a `for` begins with; a declaration begins a block.
pub fn begun_for(
    alloc: Global,
    scope: &mut Scope,
    used: &mut Used,
    start: &Tree,
    slots: &mut Vec<CType>,
) -> Result<Vec<Item>, ElabError>
    ensures judged { Judges (begun_for (plain_scope scope.old) (map plain_type slots.old.items) (plain_tree start.now)) (λ items. plain_item_of scope.new slots.new.items items.items) used.old used.new result }
    ensures outside { OnOk result (behind_for (declaration_in (plain_tree start.now)) (plain_scope scope.new) ≡ plain_scope scope.old) }
{
    match declaration_in(start) {
        Some(parts) => locals_in_block(alloc, scope, used, parts, slots),
        None => started_item(alloc, scope, used, start),
    }
}

/// Ends the block of a `for` that begins with a declaration.
pub fn end_for(scope: &mut Scope, start: &Tree)
    ensures { plain_scope scope.new ≡ behind_for (declaration_in (plain_tree start.now)) (plain_scope scope.old) }
{
    match declaration_in(start) {
        Some(_) => scope.end_block(),
        None => {}
    }
}
