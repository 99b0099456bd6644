//! Core statements from their parts.
ghost use Rattle.std.specs.Prelude.{true, false, ◌≡◌, ◌∷◌, ◌++◌, [], map, IfOk, OnOk};
ghost use Rattle.core_meaning.specs.declared.statements.Item.TheVariants as item_kind;
ghost use Rattle.core_meaning.specs.Plain.{plain_expression, plain_item, plain_items, plain_statement};
ghost use Rattle.core_meaning.specs.Program.{block, loop, selection, statement_item};
ghost use Rattle.core_meaning.specs.Statements as spec;
ghost use Rattle.plain_simple_statements.specs.Blocks.{put};
ghost use Rattle.plain_simple_statements.specs.Handing.{HandsOn};

use cond_formula::NoMemory;
use core_meaning::{Expression, Item, Statement};
use plain_scope::ElabError;
use std::alloc::Global;

/// A statement in a box of its own.
pub fn boxed(alloc: Global, core: Statement) -> Result<Box<Statement>, NoMemory>
    ensures { IfOk result (λ s. plain_statement s.value ≡ plain_statement core) }
{
    Ok(Box::new(alloc, core)?)
}

/// A selection up to its `else`.
#[derive(Drop)]
pub struct Begun {
    pub condition: Box<Expression>,
    pub core: Box<Statement>,
}

/// A condition with the answer of the statement that it chooses.
pub fn begun_with(
    condition: Box<Expression>,
    core: Result<Box<Statement>, ElabError>,
) -> Result<Begun, ElabError>
    ensures { HandsOn core (λ core begun. (plain_expression begun.condition.value ≡ plain_expression condition.value) × (plain_statement begun.core.value ≡ plain_statement core.value)) result }
{
    match core {
        Ok(core) => Ok(Begun { condition, core }),
        Err(error) => Err(error),
    }
}

#[tactic(auto, using(core_meaning::specs::PlainLaws::statement_kinds))]
fn select(alloc: Global, begun: Begun, second: Box<Statement>) -> Result<Box<Statement>, NoMemory>
    ensures { IfOk result (λ s. plain_statement s.value ≡ selection (plain_expression begun.condition.value) (plain_statement begun.core.value) (plain_statement second.value)) }
{
    let Begun { condition, core } = begun;
    let condition = Box::into_inner(condition);
    boxed(alloc, Statement::If(condition, core, second))
}

/// A selection by what it begins with and the answer of its second statement, which does nothing where there is no `else`.
pub fn selected(
    alloc: Global,
    begun: Begun,
    second: Result<Box<Statement>, ElabError>,
) -> Result<Box<Statement>, ElabError>
    ensures { HandsOn second (λ second s. plain_statement s.value ≡ selection (plain_expression begun.condition.value) (plain_statement begun.core.value) (plain_statement second.value)) result }
{
    match second {
        Ok(second) => Ok(select(alloc, begun, second)?),
        Err(error) => Err(error),
    }
}

#[tactic(auto, using(core_meaning::specs::PlainLaws::statement_kinds))]
fn turn(
    alloc: Global,
    condition: Box<Expression>,
    step: Box<Expression>,
    body: Box<Statement>,
) -> Result<Box<Statement>, NoMemory>
    ensures { IfOk result (λ s. plain_statement s.value ≡ loop true (plain_expression condition.value) (plain_expression step.value) (plain_statement body.value)) }
{
    let turns = Statement::Loop {
        asks_first: true,
        condition: Box::into_inner(condition),
        step: Box::into_inner(step),
        body,
    };
    boxed(alloc, turns)
}

/// A loop with a step behind each turn, by the answer of its body.
pub fn looped(
    alloc: Global,
    condition: Box<Expression>,
    step: Box<Expression>,
    body: Result<Box<Statement>, ElabError>,
) -> Result<Box<Statement>, ElabError>
    ensures { HandsOn body (λ body s. plain_statement s.value ≡ loop true (plain_expression condition.value) (plain_expression step.value) (plain_statement body.value)) result }
{
    match body {
        Ok(body) => Ok(turn(alloc, condition, step, body)?),
        Err(error) => Err(error),
    }
}

#[tactic(auto, using(core_meaning::specs::PlainLaws::statement_kinds, core_meaning::specs::PlainLaws::expression_kinds))]
fn turn_plainly(
    alloc: Global,
    asks_first: bool,
    condition: Box<Expression>,
    body: Box<Statement>,
) -> Result<Box<Statement>, NoMemory>
    ensures { IfOk result (λ s. plain_statement s.value ≡ loop asks_first (plain_expression condition.value) spec.nothing_to_do (plain_statement body.value)) }
{
    let turns = Statement::Loop {
        asks_first,
        condition: Box::into_inner(condition),
        step: Expression::Number(0),
        body,
    };
    boxed(alloc, turns)
}

/// A loop that asks its condition first and whose turns end with nothing to do, by the answer of its body.
pub fn asked_first(
    alloc: Global,
    condition: Box<Expression>,
    body: Result<Box<Statement>, ElabError>,
) -> Result<Box<Statement>, ElabError>
    ensures { HandsOn body (λ body s. plain_statement s.value ≡ loop true (plain_expression condition.value) spec.nothing_to_do (plain_statement body.value)) result }
{
    match body {
        Ok(body) => Ok(turn_plainly(alloc, true, condition, body)?),
        Err(error) => Err(error),
    }
}

/// A loop that asks its condition behind each turn, by the answer of the condition.
pub fn asked_behind(
    alloc: Global,
    condition: Result<Box<Expression>, ElabError>,
    body: Box<Statement>,
) -> Result<Box<Statement>, ElabError>
    ensures { HandsOn condition (λ condition s. plain_statement s.value ≡ loop false (plain_expression condition.value) spec.nothing_to_do (plain_statement body.value)) result }
{
    match condition {
        Ok(condition) => Ok(turn_plainly(alloc, false, condition, body)?),
        Err(error) => Err(error),
    }
}

/// Items as the block that they fill.
#[tactic(auto, using(core_meaning::specs::PlainLaws::statement_kinds))]
pub fn as_block(alloc: Global, items: Vec<Item>) -> Result<Box<Statement>, NoMemory>
    ensures { IfOk result (λ s. plain_statement s.value ≡ block (plain_items items.items)) }
{
    boxed(alloc, Statement::Block(items))
}

// ---- items

fn push_statement(items: &mut Vec<Item>, core: Box<Statement>) -> Result<(), NoMemory>
    ensures { OnOk result (items.new.items ≡ items.old.items ++ item_kind.Statement core.value ∷ []) }
{
    items.push(Item::Statement(Box::into_inner(core)))?;
    Ok(())
}

/// A statement as the only item of a list.
#[tactic(auto, using(core_meaning::specs::PlainLaws::statement_kinds))]
pub fn single(alloc: Global, core: Box<Statement>) -> Result<Vec<Item>, NoMemory>
    ensures { IfOk result (λ items. put (map plain_item items.items) ≡ statement_item (plain_statement core.value)) }
{
    let mut items = Vec::new(alloc);
    push_statement(&mut items, core)?;
    Ok(items)
}

/// Some items, and one behind them.
pub fn pushed(items: Vec<Item>, item: Item) -> Result<Vec<Item>, NoMemory>
    ensures { IfOk result (λ all. all.items ≡ items.items ++ item ∷ []) }
{
    let mut items = items;
    items.push(item)?;
    Ok(items)
}

fn join(items: Vec<Item>, behind: Vec<Item>) -> Result<Vec<Item>, NoMemory>
    ensures { IfOk result (λ all. map plain_item all.items ≡ map plain_item items.items ++ map plain_item behind.items) }
{
    let mut all = items;
    let mut behind = behind;
    all.append(&mut behind)?;
    Ok(all)
}

/// Some items, and those behind them, by the answer of these.
pub fn joined(
    items: Vec<Item>,
    behind: Result<Vec<Item>, ElabError>,
) -> Result<Vec<Item>, ElabError>
    ensures { HandsOn behind (λ behind all. map plain_item all.items ≡ map plain_item items.items ++ map plain_item behind.items) result }
{
    match behind {
        Ok(behind) => Ok(join(items, behind)?),
        Err(error) => Err(error),
    }
}

#[tactic(auto, using(core_meaning::specs::PlainLaws::statement_kinds, crate::specs::Blocks::block_behind))]
fn put_behind(
    alloc: Global,
    items: Vec<Item>,
    turns: Box<Statement>,
) -> Result<Box<Statement>, NoMemory>
    ensures { IfOk result (λ s. plain_statement s.value ≡ block (put (map plain_item items.items) (spec.one_item (plain_statement turns.value)))) }
{
    let mut items = items;
    push_statement(&mut items, turns)?;
    boxed(alloc, Statement::Block(items))
}

/// A `for` as the block of what it begins with and its turns, by the answer of these.
pub fn behind_items(
    alloc: Global,
    items: Vec<Item>,
    turns: Result<Box<Statement>, ElabError>,
) -> Result<Box<Statement>, ElabError>
    ensures { HandsOn turns (λ turns s. plain_statement s.value ≡ block (put (map plain_item items.items) (spec.one_item (plain_statement turns.value)))) result }
{
    match turns {
        Ok(turns) => Ok(put_behind(alloc, items, turns)?),
        Err(error) => Err(error),
    }
}
