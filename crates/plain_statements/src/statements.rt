//! Statements and the items of blocks (6.8).
ghost use Rattle.std.specs.Prelude.{◌≡◌, map, OnOk};
ghost use Rattle.c_text.specs.Token.{plain_token};
ghost use Rattle.c_types.specs.Types.{plain_type};
ghost use Rattle.c_tree.specs.Trees.{node, plain_tree, plain_trees};
ghost use Rattle.core_meaning.specs.Statements as spec;
ghost use Rattle.plain_scope.specs.Blocks.{without_block};
ghost use Rattle.plain_scope.specs.PlainScope.{plain_scope};
ghost use Rattle.plain_scope.specs.Judgements.{Judges};
ghost use Rattle.plain_statements.specs.PlainJudged.{plain_begun, plain_item_of, plain_judged, plain_judged_items};
ghost use Rattle.plain_simple_statements.specs.Simple.{around_of};
ghost use Rattle.plain_statements.specs.Steps.{block_of, begun_if, while_of, do_of, for_of, for_by, single_item, item_of};

use crate::starts::{begun_for, declaration_in, end_for, locals_item};
use c_text::Token;
use c_tree::{Kind, Tree};
use c_types::CType;
use core_meaning::{Item, Statement};
use plain_expressions::condition;
use plain_scope::{ElabError, Scope, Used, leaf};
use plain_simple_statements::{
    Begun, as_block, asked_behind, asked_first, begun_with, behind_items, condition_or_true,
    discarded, joined, looped, nothing, selected, simple, single,
};
use std::alloc::Global;

// ---- loops

/// A loop that asks its condition first (6.8.5.1).
#[cycle(statements)]
fn while_turns(
    alloc: Global,
    scope: &mut Scope,
    used: &mut Used,
    body: &Tree,
    test: &Tree,
    close: &Token,
    slots: &mut Vec<CType>,
    returns: &CType,
    in_loop: bool,
) -> Result<Box<Statement>, ElabError>
    ensures judged { Judges (while_of (around_of (plain_scope scope.old) (plain_type returns.now) in_loop) (map plain_type slots.old.items) (plain_tree test.now) (plain_token close.now) (plain_tree body.now)) (λ s. plain_judged slots.new.items s) used.old used.new result }
    ensures same { OnOk result (plain_scope scope.new ≡ plain_scope scope.old) }
{
    let c = condition(alloc, scope, used, test, close)?;
    asked_first(
        alloc,
        c,
        statement(alloc, scope, used, body, slots, returns, true),
    )
}

#[cycle(statements)]
fn while_loop(
    alloc: Global,
    scope: &mut Scope,
    used: &mut Used,
    parts: &[Tree],
    slots: &mut Vec<CType>,
    returns: &CType,
    in_loop: bool,
) -> Result<Box<Statement>, ElabError>
    ensures judged { Judges (spec.judged_statement (around_of (plain_scope scope.old) (plain_type returns.now) in_loop) (map plain_type slots.old.items) (node Kind.While (plain_trees parts.now))) (λ s. plain_judged slots.new.items s) used.old used.new result }
    ensures same { OnOk result (plain_scope scope.new ≡ plain_scope scope.old) }
{
    let [_, _, test, close, body] = parts else {
        return Err(ElabError::Memory);
    };
    let close = leaf(close)?;
    while_turns(
        alloc, scope, used, body, test, close, slots, returns, in_loop,
    )
}

/// A loop that asks its condition behind each turn (6.8.5.2).
#[cycle(statements)]
fn do_turns(
    alloc: Global,
    scope: &mut Scope,
    used: &mut Used,
    body: &Tree,
    test: &Tree,
    close: &Token,
    slots: &mut Vec<CType>,
    returns: &CType,
    in_loop: bool,
) -> Result<Box<Statement>, ElabError>
    ensures judged { Judges (do_of (around_of (plain_scope scope.old) (plain_type returns.now) in_loop) (map plain_type slots.old.items) (plain_tree test.now) (plain_token close.now) (plain_tree body.now)) (λ s. plain_judged slots.new.items s) used.old used.new result }
    ensures same { OnOk result (plain_scope scope.new ≡ plain_scope scope.old) }
{
    let s = statement(alloc, scope, used, body, slots, returns, true)?;
    asked_behind(alloc, condition(alloc, scope, used, test, close), s)
}

#[cycle(statements)]
fn do_loop(
    alloc: Global,
    scope: &mut Scope,
    used: &mut Used,
    parts: &[Tree],
    slots: &mut Vec<CType>,
    returns: &CType,
    in_loop: bool,
) -> Result<Box<Statement>, ElabError>
    ensures judged { Judges (spec.judged_statement (around_of (plain_scope scope.old) (plain_type returns.now) in_loop) (map plain_type slots.old.items) (node Kind.Do (plain_trees parts.now))) (λ s. plain_judged slots.new.items s) used.old used.new result }
    ensures same { OnOk result (plain_scope scope.new ≡ plain_scope scope.old) }
{
    let [_, body, _, _, test, close, _] = parts else {
        return Err(ElabError::Memory);
    };
    let close = leaf(close)?;
    do_turns(
        alloc, scope, used, body, test, close, slots, returns, in_loop,
    )
}

/// The turns of a `for` (6.8.5.3).
#[cycle(statements)]
fn for_turns(
    alloc: Global,
    scope: &mut Scope,
    used: &mut Used,
    body: &Tree,
    test: &Tree,
    end: &Token,
    step: &Tree,
    slots: &mut Vec<CType>,
    returns: &CType,
    in_loop: bool,
) -> Result<Box<Statement>, ElabError>
    ensures judged { Judges (for_of (around_of (plain_scope scope.old) (plain_type returns.now) in_loop) (map plain_type slots.old.items) (plain_tree test.now) (plain_token end.now) (plain_tree step.now) (plain_tree body.now)) (λ s. plain_judged slots.new.items s) used.old used.new result }
    ensures same { OnOk result (plain_scope scope.new ≡ plain_scope scope.old) }
{
    let c = condition_or_true(alloc, scope, used, test, end)?;
    let step = discarded(alloc, scope, used, step)?;
    looped(
        alloc,
        c,
        step,
        statement(alloc, scope, used, body, slots, returns, true),
    )
}

/// What a `for` begins with, and its turns; what it declares is visible in it alone (6.8.5).
#[cycle(statements)]
fn begun_turns(
    alloc: Global,
    scope: &mut Scope,
    used: &mut Used,
    body: &Tree,
    start: &Tree,
    test: &Tree,
    end: &Token,
    step: &Tree,
    slots: &mut Vec<CType>,
    returns: &CType,
    in_loop: bool,
) -> Result<Box<Statement>, ElabError>
    ensures judged { Judges (for_by (around_of (plain_scope scope.old) (plain_type returns.now) in_loop) (map plain_type slots.old.items) (plain_tree start.now) (plain_tree test.now) (plain_token end.now) (plain_tree step.now) (plain_tree body.now)) (λ s. plain_judged slots.new.items s) used.old used.new result }
    ensures same { OnOk result (plain_scope scope.new ≡ plain_scope scope.old) }
{
    let items = begun_for(alloc, scope, used, start, slots)?;
    let turns = for_turns(
        alloc, scope, used, body, test, end, step, slots, returns, in_loop,
    );
    end_for(scope, start);
    behind_items(alloc, items, turns)
}

#[cycle(statements)]
fn for_loop(
    alloc: Global,
    scope: &mut Scope,
    used: &mut Used,
    parts: &[Tree],
    slots: &mut Vec<CType>,
    returns: &CType,
    in_loop: bool,
) -> Result<Box<Statement>, ElabError>
    ensures judged { Judges (spec.judged_statement (around_of (plain_scope scope.old) (plain_type returns.now) in_loop) (map plain_type slots.old.items) (node Kind.For (plain_trees parts.now))) (λ s. plain_judged slots.new.items s) used.old used.new result }
    ensures same { OnOk result (plain_scope scope.new ≡ plain_scope scope.old) }
{
    let [_, _, start, test, end, step, _, body] = parts else {
        return Err(ElabError::Memory);
    };
    let end = leaf(end)?;
    begun_turns(
        alloc, scope, used, body, start, test, end, step, slots, returns, in_loop,
    )
}

// ---- selections

#[cycle(statements)]
fn begun_if(
    alloc: Global,
    scope: &mut Scope,
    used: &mut Used,
    first: &Tree,
    test: &Tree,
    close: &Token,
    slots: &mut Vec<CType>,
    returns: &CType,
    in_loop: bool,
) -> Result<Begun, ElabError>
    ensures judged { Judges (begun_if (around_of (plain_scope scope.old) (plain_type returns.now) in_loop) (map plain_type slots.old.items) (plain_tree test.now) (plain_token close.now) (plain_tree first.now)) (λ begun. plain_begun slots.new.items begun) used.old used.new result }
    ensures same { OnOk result (plain_scope scope.new ≡ plain_scope scope.old) }
{
    let condition = condition(alloc, scope, used, test, close)?;
    begun_with(
        condition,
        statement(alloc, scope, used, first, slots, returns, in_loop),
    )
}

#[cycle(statements)]
fn else_in(
    alloc: Global,
    scope: &mut Scope,
    used: &mut Used,
    parts: &[Tree],
    slots: &mut Vec<CType>,
    returns: &CType,
    in_loop: bool,
) -> Result<Box<Statement>, ElabError>
    ensures judged { Judges (spec.judged_else (around_of (plain_scope scope.old) (plain_type returns.now) in_loop) (map plain_type slots.old.items) (node Kind.Else (plain_trees parts.now))) (λ s. plain_judged slots.new.items s) used.old used.new result }
    ensures same { OnOk result (plain_scope scope.new ≡ plain_scope scope.old) }
{
    let [_, tree] = parts else {
        return Err(ElabError::Memory);
    };
    statement(alloc, scope, used, tree, slots, returns, in_loop)
}

/// The second statement of a selection; without `else` it does nothing.
#[cycle(statements)]
#[tactic(auto, using(c_tree::specs::TreeLaws::tree_kinds))]
fn otherwise(
    alloc: Global,
    scope: &mut Scope,
    used: &mut Used,
    tree: &Tree,
    slots: &mut Vec<CType>,
    returns: &CType,
    in_loop: bool,
) -> Result<Box<Statement>, ElabError>
    ensures judged { Judges (spec.judged_else (around_of (plain_scope scope.old) (plain_type returns.now) in_loop) (map plain_type slots.old.items) (plain_tree tree.now)) (λ s. plain_judged slots.new.items s) used.old used.new result }
    ensures same { OnOk result (plain_scope scope.new ≡ plain_scope scope.old) }
{
    let Tree::Node(kind, parts) = tree else {
        return Err(ElabError::Memory);
    };
    match kind {
        Kind::Else => else_in(alloc, scope, used, parts, slots, returns, in_loop),
        Kind::Absent => Ok(nothing(alloc)?),
        _ => Err(ElabError::Memory),
    }
}

/// A selection (6.8.4.1).
#[cycle(statements)]
fn selection(
    alloc: Global,
    scope: &mut Scope,
    used: &mut Used,
    parts: &[Tree],
    slots: &mut Vec<CType>,
    returns: &CType,
    in_loop: bool,
) -> Result<Box<Statement>, ElabError>
    ensures judged { Judges (spec.judged_statement (around_of (plain_scope scope.old) (plain_type returns.now) in_loop) (map plain_type slots.old.items) (node Kind.If (plain_trees parts.now))) (λ s. plain_judged slots.new.items s) used.old used.new result }
    ensures same { OnOk result (plain_scope scope.new ≡ plain_scope scope.old) }
{
    let [_, _, test, close, first, second] = parts else {
        return Err(ElabError::Memory);
    };
    let close = leaf(close)?;
    let begun = begun_if(
        alloc, scope, used, first, test, close, slots, returns, in_loop,
    )?;
    selected(
        alloc,
        begun,
        otherwise(alloc, scope, used, second, slots, returns, in_loop),
    )
}

// ---- blocks

/// A block, behind which its locals are no longer visible (6.2.1).
#[cycle(statements)]
fn block_items(
    alloc: Global,
    scope: &mut Scope,
    used: &mut Used,
    parts: &[Tree],
    slots: &mut Vec<CType>,
    returns: &CType,
    in_loop: bool,
) -> Result<Box<Statement>, ElabError>
    ensures judged { Judges (block_of (around_of (plain_scope scope.old) (plain_type returns.now) in_loop) (map plain_type slots.old.items) (node Kind.Items (plain_trees parts.now))) (λ s. plain_judged slots.new.items s) used.old used.new result }
    ensures same { OnOk result (plain_scope scope.new ≡ plain_scope scope.old) }
{
    scope.begin_block(alloc)?;
    let inner = statement_items(alloc, scope, used, parts, slots, returns, in_loop)?;
    scope.end_block();
    Ok(as_block(alloc, inner)?)
}

#[cycle(statements)]
#[tactic(auto, using(c_tree::specs::TreeLaws::tree_kinds))]
fn block_by(
    alloc: Global,
    scope: &mut Scope,
    used: &mut Used,
    list: &Tree,
    slots: &mut Vec<CType>,
    returns: &CType,
    in_loop: bool,
) -> Result<Box<Statement>, ElabError>
    ensures judged { Judges (block_of (around_of (plain_scope scope.old) (plain_type returns.now) in_loop) (map plain_type slots.old.items) (plain_tree list.now)) (λ s. plain_judged slots.new.items s) used.old used.new result }
    ensures same { OnOk result (plain_scope scope.new ≡ plain_scope scope.old) }
{
    let Tree::Node(kind, parts) = list else {
        return Err(ElabError::Memory);
    };
    match kind {
        Kind::Items => block_items(alloc, scope, used, parts, slots, returns, in_loop),
        Kind::Absent => Ok(nothing(alloc)?),
        _ => Err(ElabError::Memory),
    }
}

#[cycle(statements)]
fn block(
    alloc: Global,
    scope: &mut Scope,
    used: &mut Used,
    parts: &[Tree],
    slots: &mut Vec<CType>,
    returns: &CType,
    in_loop: bool,
) -> Result<Box<Statement>, ElabError>
    ensures judged { Judges (spec.judged_statement (around_of (plain_scope scope.old) (plain_type returns.now) in_loop) (map plain_type slots.old.items) (node Kind.Block (plain_trees parts.now))) (λ s. plain_judged slots.new.items s) used.old used.new result }
    ensures same { OnOk result (plain_scope scope.new ≡ plain_scope scope.old) }
{
    let [_, list, _] = parts else {
        return Err(ElabError::Memory);
    };
    block_by(alloc, scope, used, list, slots, returns, in_loop)
}

// ---- statements

#[cycle(statements)]
fn node_of(
    alloc: Global,
    scope: &mut Scope,
    used: &mut Used,
    parts: &[Tree],
    kind: Kind,
    slots: &mut Vec<CType>,
    returns: &CType,
    in_loop: bool,
) -> Result<Box<Statement>, ElabError>
    ensures judged { Judges (spec.judged_statement (around_of (plain_scope scope.old) (plain_type returns.now) in_loop) (map plain_type slots.old.items) (node kind (plain_trees parts.now))) (λ s. plain_judged slots.new.items s) used.old used.new result }
    ensures same { OnOk result (plain_scope scope.new ≡ plain_scope scope.old) }
{
    match kind {
        Kind::Block => block(alloc, scope, used, parts, slots, returns, in_loop),
        Kind::If => selection(alloc, scope, used, parts, slots, returns, in_loop),
        Kind::While => while_loop(alloc, scope, used, parts, slots, returns, in_loop),
        Kind::Do => do_loop(alloc, scope, used, parts, slots, returns, in_loop),
        Kind::For => for_loop(alloc, scope, used, parts, slots, returns, in_loop),
        _ => simple(alloc, scope, used, parts, kind, returns, in_loop),
    }
}

/// A statement, behind which the same is visible as before it.
#[cycle(statements)]
#[tactic(auto, using(c_tree::specs::TreeLaws::tree_kinds))]
fn statement(
    alloc: Global,
    scope: &mut Scope,
    used: &mut Used,
    tree: &Tree,
    slots: &mut Vec<CType>,
    returns: &CType,
    in_loop: bool,
) -> Result<Box<Statement>, ElabError>
    ensures judged { Judges (spec.judged_statement (around_of (plain_scope scope.old) (plain_type returns.now) in_loop) (map plain_type slots.old.items) (plain_tree tree.now)) (λ s. plain_judged slots.new.items s) used.old used.new result }
    ensures same { OnOk result (plain_scope scope.new ≡ plain_scope scope.old) }
{
    match tree {
        Tree::Leaf(_) => Err(ElabError::Memory),
        Tree::Node(kind, parts) => node_of(
            alloc, scope, used, parts, *kind, slots, returns, in_loop,
        ),
    }
}

// ---- items

#[cycle(statements)]
fn single_item(
    alloc: Global,
    scope: &mut Scope,
    used: &mut Used,
    tree: &Tree,
    slots: &mut Vec<CType>,
    returns: &CType,
    in_loop: bool,
) -> Result<Vec<Item>, ElabError>
    ensures judged { Judges (single_item (around_of (plain_scope scope.old) (plain_type returns.now) in_loop) (map plain_type slots.old.items) (plain_tree tree.now)) (λ items. plain_item_of scope.new slots.new.items items.items) used.old used.new result }
    ensures outside { OnOk result (without_block (plain_scope scope.new) ≡ without_block (plain_scope scope.old)) }
{
    let core = statement(alloc, scope, used, tree, slots, returns, in_loop)?;
    Ok(single(alloc, core)?)
}

/// The items of a declaration, or that of a statement.
#[cycle(statements)]
fn item(
    alloc: Global,
    scope: &mut Scope,
    used: &mut Used,
    tree: &Tree,
    slots: &mut Vec<CType>,
    returns: &CType,
    in_loop: bool,
) -> Result<Vec<Item>, ElabError>
    ensures judged { Judges (item_of (around_of (plain_scope scope.old) (plain_type returns.now) in_loop) (map plain_type slots.old.items) (plain_tree tree.now)) (λ items. plain_item_of scope.new slots.new.items items.items) used.old used.new result }
    ensures outside { OnOk result (without_block (plain_scope scope.new) ≡ without_block (plain_scope scope.old)) }
{
    match declaration_in(tree) {
        Some(parts) => locals_item(alloc, scope, used, parts, slots),
        None => single_item(alloc, scope, used, tree, slots, returns, in_loop),
    }
}

/// The items of a block or of a function's body, one after the other: each declaration is visible behind it. `returns` is the
/// type of the function's result, and `slots` has the types of its slots so far.
#[cycle(statements)]
pub fn statement_items(
    alloc: Global,
    scope: &mut Scope,
    used: &mut Used,
    list: &[Tree],
    slots: &mut Vec<CType>,
    returns: &CType,
    in_loop: bool,
) -> Result<Vec<Item>, ElabError>
    ensures judged { Judges (spec.judged_items (around_of (plain_scope scope.old) (plain_type returns.now) in_loop) (map plain_type slots.old.items) (plain_trees list.now)) (λ items. plain_judged_items slots.new.items items.items) used.old used.new result }
    ensures outside { OnOk result (without_block (plain_scope scope.new) ≡ without_block (plain_scope scope.old)) }
{
    let mut items = Vec::new(alloc);
    for tree in list {
        items = joined(
            items,
            item(alloc, scope, used, tree, slots, returns, in_loop),
        )?;
    }
    Ok(items)
}
