//! Statements without statements in them, and the expressions of others (6.8.3, 6.8.6).
ghost use Rattle.std.specs.Prelude.{◌≡◌, IfOk, pos};
ghost use Rattle.c_text.specs.Token.{plain_token};
ghost use Rattle.c_types.specs.Types.{plain_type};
ghost use Rattle.c_tree.specs.Trees.{plain_tree, plain_trees};
ghost use Rattle.core_meaning.specs.Plain.{plain_expression, plain_statement};
ghost use Rattle.core_meaning.specs.Program.{constant, block, evaluate, no_item, return_nothing, return_value};
ghost use Rattle.core_meaning.specs.Checking.{give};
ghost use Rattle.core_meaning.specs.Expressions as expressions;
ghost use Rattle.core_meaning.specs.Statements as spec;
ghost use Rattle.plain_scope.specs.PlainScope.{plain_scope};
ghost use Rattle.plain_scope.specs.Judgements.{Answers, Judges};
ghost use Rattle.plain_operands.specs.PlainOperands.{boxed_expression};
ghost use Rattle.plain_simple_statements.specs.PlainStatements.{boxed_statement};
ghost use Rattle.plain_simple_statements.specs.Simple.{around_of, simple_of, unused_value, evaluated, returned_value, returned_as, nothing_returned, expression_in, jump_by, jump_if, jump_in, return_in};

use crate::cores::boxed;
use c_text::Token;
use c_tree::{Kind, Tree};
use c_types::CType;
use cond_formula::NoMemory;
use core_meaning::{Expression, Statement, TypeKind};
use plain_declarators::{is_gone, three_parts, two_parts};
use plain_expressions::{condition, valued};
use plain_operands::{fitted, unused};
use plain_scope::{ElabError, Scope, Used, is_void, leaf, refused, unless};
use std::alloc::Global;

// ---- expressions

fn unused_value(
    alloc: Global,
    scope: &Scope,
    used: &mut Used,
    tree: &Tree,
) -> Result<Box<Expression>, ElabError>
    ensures { Judges (unused_value (plain_scope scope.now) (plain_tree tree.now)) boxed_expression used.old used.new result }
{
    let x = valued(alloc, scope, used, tree)?;
    Ok(unused(alloc, x.core)?)
}

#[tactic(auto, using(core_meaning::specs::PlainLaws::expression_kinds))]
fn number(alloc: Global, z: i128) -> Result<Box<Expression>, NoMemory>
    ensures { IfOk result (λ e. plain_expression e.value ≡ constant z) }
{
    Ok(Box::new(alloc, Expression::Number(z))?)
}

/// What stands for the expression of a step, or for one that isn't there.
fn nothing_to_do(alloc: Global) -> Result<Box<Expression>, NoMemory>
    ensures { IfOk result (λ e. plain_expression e.value ≡ spec.nothing_to_do) }
{
    Ok(number(alloc, 0)?)
}

/// What stands for an expression that isn't there.
fn nothing_done(alloc: Global) -> Result<Box<Expression>, ElabError>
    ensures { Answers (give spec.nothing_to_do) boxed_expression result }
{
    Ok(nothing_to_do(alloc)?)
}

/// An expression whose value isn't used; where it is left out, one stands for it.
pub fn discarded(
    alloc: Global,
    scope: &Scope,
    used: &mut Used,
    tree: &Tree,
) -> Result<Box<Expression>, ElabError>
    ensures { Judges (spec.discarded (plain_scope scope.now) (plain_tree tree.now) spec.nothing_to_do) boxed_expression used.old used.new result }
{
    if is_gone(tree) {
        nothing_done(alloc)
    } else {
        unused_value(alloc, scope, used, tree)
    }
}

/// What stands for a condition that isn't there.
fn always(alloc: Global) -> Result<Box<Expression>, ElabError>
    ensures { Answers (give (constant (pos 1))) boxed_expression result }
{
    Ok(number(alloc, 1)?)
}

/// A condition, which holds where it is left out (6.8.5.3).
pub fn condition_or_true(
    alloc: Global,
    scope: &Scope,
    used: &mut Used,
    tree: &Tree,
    behind: &Token,
) -> Result<Box<Expression>, ElabError>
    ensures { Judges (spec.condition_or_true (plain_scope scope.now) (plain_tree tree.now) (plain_token behind.now)) boxed_expression used.old used.new result }
{
    if is_gone(tree) {
        always(alloc)
    } else {
        condition(alloc, scope, used, tree, behind)
    }
}

// ---- statements

/// A statement that does nothing, as the null statement and a missing `else` (6.8.3).
#[tactic(auto, using(core_meaning::specs::PlainLaws::statement_kinds))]
pub fn nothing(alloc: Global) -> Result<Box<Statement>, NoMemory>
    ensures { IfOk result (λ s. plain_statement s.value ≡ block no_item) }
{
    boxed(alloc, Statement::Block(Vec::new(alloc)))
}

#[tactic(auto, using(core_meaning::specs::PlainLaws::statement_kinds))]
fn evaluation(alloc: Global, core: Box<Expression>) -> Result<Box<Statement>, NoMemory>
    ensures { IfOk result (λ s. plain_statement s.value ≡ evaluate (expressions.unused (plain_expression core.value))) }
{
    let e = unused(alloc, core)?;
    boxed(alloc, Statement::Expression(Box::into_inner(e)))
}

fn evaluated(
    alloc: Global,
    scope: &Scope,
    used: &mut Used,
    tree: &Tree,
) -> Result<Box<Statement>, ElabError>
    ensures { Judges (evaluated (plain_scope scope.now) (plain_tree tree.now)) boxed_statement used.old used.new result }
{
    let x = valued(alloc, scope, used, tree)?;
    Ok(evaluation(alloc, x.core)?)
}

fn null_statement(alloc: Global) -> Result<Box<Statement>, ElabError>
    ensures { Answers (give (block no_item)) boxed_statement result }
{
    Ok(nothing(alloc)?)
}

/// A statement of an expression; without one the null statement (6.8.3).
pub fn expression_statement(
    alloc: Global,
    scope: &Scope,
    used: &mut Used,
    tree: &Tree,
) -> Result<Box<Statement>, ElabError>
    ensures { Judges (spec.expression_statement (plain_scope scope.now) (plain_tree tree.now)) boxed_statement used.old used.new result }
{
    if is_gone(tree) {
        null_statement(alloc)
    } else {
        evaluated(alloc, scope, used, tree)
    }
}

fn expression_in(
    alloc: Global,
    scope: &Scope,
    used: &mut Used,
    parts: &[Tree],
) -> Result<Box<Statement>, ElabError>
    ensures { Judges (expression_in (plain_scope scope.now) (plain_trees parts.now)) boxed_statement used.old used.new result }
{
    let (tree, _) = two_parts(parts)?;
    expression_statement(alloc, scope, used, tree)
}

#[tactic(auto, using(core_meaning::specs::PlainLaws::statement_kinds))]
fn jump_by(word: &[u8]) -> Statement
    ensures { plain_statement result ≡ jump_by word.now }
{
    if word == b"break".as_slice() {
        Statement::Break
    } else {
        Statement::Continue
    }
}

fn jump_of(alloc: Global, word: &[u8]) -> Result<Box<Statement>, NoMemory>
    ensures { IfOk result (λ s. plain_statement s.value ≡ jump_by word.now) }
{
    boxed(alloc, jump_by(word))
}

/// A `break` or `continue`, which stands in a loop (6.8.6.2, 6.8.6.3).
fn jump(alloc: Global, word: &Token, in_loop: bool) -> Result<Box<Statement>, ElabError>
    ensures { Answers (jump_if in_loop (plain_token word.now)) boxed_statement result }
{
    unless(in_loop, TypeKind::Misplaced, word)?;
    Ok(jump_of(alloc, word.text.as_slice())?)
}

fn jump_in(alloc: Global, parts: &[Tree], in_loop: bool) -> Result<Box<Statement>, ElabError>
    ensures { Answers (jump_in in_loop (plain_trees parts.now)) boxed_statement result }
{
    let (word, _) = two_parts(parts)?;
    let word = leaf(word)?;
    jump(alloc, word, in_loop)
}

// ---- `return`

#[tactic(auto, using(core_meaning::specs::PlainLaws::statement_kinds))]
fn return_without(alloc: Global) -> Result<Box<Statement>, NoMemory>
    ensures { IfOk result (λ s. plain_statement s.value ≡ return_nothing) }
{
    boxed(alloc, Statement::Return)
}

fn nothing_returned(
    alloc: Global,
    word: &Token,
    returns: &CType,
) -> Result<Box<Statement>, ElabError>
    ensures { Answers (nothing_returned (plain_type returns.now) (plain_token word.now)) boxed_statement result }
{
    unless(is_void(returns), TypeKind::Misplaced, word)?;
    Ok(return_without(alloc)?)
}

#[tactic(auto, using(core_meaning::specs::PlainLaws::statement_kinds))]
fn value_returned(alloc: Global, core: Box<Expression>) -> Result<Box<Statement>, NoMemory>
    ensures { IfOk result (λ s. plain_statement s.value ≡ return_value (plain_expression core.value)) }
{
    boxed(alloc, Statement::ReturnValue(Box::into_inner(core)))
}

fn returned_value(
    alloc: Global,
    scope: &Scope,
    used: &mut Used,
    tree: &Tree,
    word: &Token,
    returns: &CType,
) -> Result<Box<Statement>, ElabError>
    ensures { Judges (returned_value (plain_scope scope.now) (plain_type returns.now) (plain_token word.now) (plain_tree tree.now)) boxed_statement used.old used.new result }
{
    let x = valued(alloc, scope, used, tree)?;
    let core = fitted(alloc, returns, x, TypeKind::Misplaced, word)?;
    Ok(value_returned(alloc, core)?)
}

/// A `return` (6.8.6.4).
fn returned(
    alloc: Global,
    scope: &Scope,
    used: &mut Used,
    tree: &Tree,
    word: &Token,
    returns: &CType,
) -> Result<Box<Statement>, ElabError>
    ensures { Judges (returned_as (plain_scope scope.now) (plain_type returns.now) (plain_token word.now) (plain_tree tree.now)) boxed_statement used.old used.new result }
{
    if is_gone(tree) {
        nothing_returned(alloc, word, returns)
    } else if is_void(returns) {
        Err(refused(TypeKind::Misplaced, word))
    } else {
        returned_value(alloc, scope, used, tree, word, returns)
    }
}

fn return_in(
    alloc: Global,
    scope: &Scope,
    used: &mut Used,
    parts: &[Tree],
    returns: &CType,
) -> Result<Box<Statement>, ElabError>
    ensures { Judges (return_in (plain_scope scope.now) (plain_type returns.now) (plain_trees parts.now)) boxed_statement used.old used.new result }
{
    let (word, tree, _) = three_parts(parts)?;
    let word = leaf(word)?;
    returned(alloc, scope, used, tree, word, returns)
}

// ---- kinds

/// A statement without statements in it.
pub fn simple(
    alloc: Global,
    scope: &Scope,
    used: &mut Used,
    parts: &[Tree],
    kind: Kind,
    returns: &CType,
    in_loop: bool,
) -> Result<Box<Statement>, ElabError>
    ensures { Judges (simple_of (around_of (plain_scope scope.now) (plain_type returns.now) in_loop) kind (plain_trees parts.now)) boxed_statement used.old used.new result }
{
    match kind {
        Kind::ExpressionStatement => expression_in(alloc, scope, used, parts),
        Kind::Jump => jump_in(alloc, parts, in_loop),
        Kind::Return => return_in(alloc, scope, used, parts, returns),
        _ => Err(ElabError::Memory),
    }
}
