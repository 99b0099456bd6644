//! Expressions (6.5).
ghost use Rattle.std.specs.Prelude.{◌≡◌, true, length, map, Some, IfOk, MatchResult};
ghost use Rattle.c_text.specs.Token.{plain_token};
ghost use Rattle.c_types.specs.Types.{plain_type};
ghost use Rattle.c_tree.specs.Trees.{node, plain_tree, plain_trees, more, leaf, none};
ghost use Rattle.core_meaning.specs.Plain.{plain_expression, plain_arguments};
ghost use Rattle.core_meaning.specs.Checking.{uses, file_entity};
ghost use Rattle.core_meaning.specs.Entities.{entity_number};
ghost use Rattle.core_meaning.specs.Program as program;
ghost use Rattle.core_meaning.specs.Expressions as spec;
ghost use Rattle.plain_scope.specs.PlainScope.{plain_scope, plain_signature};
ghost use Rattle.plain_scope.specs.Parts.{parts_in};
ghost use Rattle.plain_scope.specs.Judgements.{Answers, Judges};
ghost use Rattle.plain_operands.specs.PlainOperands.{plain_operand, plain_typed, boxed_expression};
ghost use Rattle.plain_expressions.specs.Steps.{operated, on_operand, written_object, passed_argument, cast_value, two_in, on_two, joined_values, assigned_in, called_with, called_by, not_called, is_list, is_between};
ghost use Rattle.plain_expressions.specs.PlainSteps.{plain_two, plain_callee, plain_left};

use crate::callees::{Callee, called_function};
use crate::names::{single_operand, text_operand};
use c_text::Token;
use c_tree::{Kind, Tree};
use c_types::CType;
use cond_formula::NoMemory;
use core_meaning::{Expression, TypeKind};
use plain_operands::{
    Left, Operand, Typed, assignment, cast_to, chosen, combined, condition_value, fitted, indexed,
    loaded, logical, of_value, prefixed, selected, stepped, written_place,
};
use plain_scope::{
    ElabError, Scope, Signature, Used, arithmetic_words, copied, first_token, is_void, leaf,
    parts_of, refused, unless,
};
use std::alloc::Global;

// ---- values

/// The value of an expression.
#[cycle(judge)]
pub fn valued(
    alloc: Global,
    scope: &Scope,
    used: &mut Used,
    tree: &Tree,
) -> Result<Typed, ElabError>
    ensures { Judges (spec.valued (plain_scope scope.now) (plain_tree tree.now)) plain_typed used.old used.new result }
{
    let operand = judged(alloc, scope, used, tree)?;
    loaded(alloc, scope, operand)
}

/// A condition, which is a scalar.
#[cycle(judge)]
pub fn condition(
    alloc: Global,
    scope: &Scope,
    used: &mut Used,
    tree: &Tree,
    behind: &Token,
) -> Result<Box<Expression>, ElabError>
    ensures { Judges (spec.judged_condition (plain_scope scope.now) (plain_tree tree.now) (plain_token behind.now)) boxed_expression used.old used.new result }
{
    let operand = judged(alloc, scope, used, tree)?;
    condition_value(alloc, scope, operand, first_token(tree, behind))
}

/// The object that an assignment writes to.
#[cycle(judge)]
fn written(
    alloc: Global,
    scope: &Scope,
    used: &mut Used,
    tree: &Tree,
    sign: &Token,
) -> Result<Left, ElabError>
    ensures { Judges (written_object (plain_scope scope.now) (plain_tree tree.now) (plain_token sign.now)) plain_left used.old used.new result }
{
    let operand = judged(alloc, scope, used, tree)?;
    let left = written_place(scope, sign, operand)?;
    Ok(left)
}

/// An argument as a value of its parameter's type.
#[cycle(judge)]
fn passed(
    alloc: Global,
    scope: &Scope,
    used: &mut Used,
    tree: &Tree,
    ty: &CType,
    bracket: &Token,
) -> Result<Box<Expression>, ElabError>
    ensures { Judges (passed_argument (plain_scope scope.now) (plain_type ty.now) (plain_tree tree.now) (plain_token bracket.now)) boxed_expression used.old used.new result }
{
    let x = valued(alloc, scope, used, tree)?;
    fitted(
        alloc,
        ty,
        x,
        TypeKind::BadOperand,
        first_token(tree, bracket),
    )
}

// ---- operators with one operand

/// What an operator behind or before an operand makes of it.
fn operated<'t>(
    alloc: Global,
    scope: &Scope,
    kind: Kind,
    sign: &'t Token,
    operand: Operand,
) -> Result<Operand<'t>, ElabError>
    ensures { Answers (operated (plain_scope scope.now) kind (plain_token sign.now) (plain_operand operand.entry)) plain_operand result }
{
    match kind {
        Kind::PostfixStep => stepped(alloc, scope, true, sign, operand),
        Kind::PrefixStep => stepped(alloc, scope, false, sign, operand),
        _ => prefixed(alloc, scope, sign, operand),
    }
}

#[cycle(judge)]
fn on_operand<'t>(
    alloc: Global,
    scope: &Scope,
    used: &mut Used,
    kind: Kind,
    sign: &'t Token,
    inner: &Tree,
) -> Result<Operand<'t>, ElabError>
    ensures { Judges (on_operand (plain_scope scope.now) kind (plain_token sign.now) (plain_tree inner.now)) plain_operand used.old used.new result }
{
    let operand = judged(alloc, scope, used, inner)?;
    operated(alloc, scope, kind, sign, operand)
}

#[cycle(judge)]
fn selection<'t>(
    alloc: Global,
    scope: &Scope,
    used: &mut Used,
    inner: &Tree,
    sign: &'t Token,
    name: &'t Token,
) -> Result<Operand<'t>, ElabError>
    ensures { Judges (spec.judged (plain_scope scope.now) (node Kind.Selection (more (plain_tree inner.now) (more (leaf (plain_token sign.now)) (more (leaf (plain_token name.now)) none))))) plain_operand used.old used.new result }
{
    let operand = judged(alloc, scope, used, inner)?;
    let x = selected(alloc, scope, sign, name, operand)?;
    Ok(x)
}

/// The words of a type's name.
fn words_of(tree: &Tree) -> Result<&[Tree], ElabError>
    ensures { MatchResult result (λ words. parts_in (plain_tree tree.now) ≡ Some (plain_trees words.now)) (λ error. error ≡ ElabError.Memory) }
{
    match parts_of(tree) {
        Some(words) => Ok(words),
        None => Err(ElabError::Memory),
    }
}

#[cycle(judge)]
fn cast<'t>(
    alloc: Global,
    scope: &Scope,
    used: &mut Used,
    bracket: &'t Token,
    inner: &Tree,
    words: &Tree,
) -> Result<Operand<'t>, ElabError>
    ensures { Judges (cast_value (plain_scope scope.now) (plain_token bracket.now) (plain_tree words.now) (plain_tree inner.now)) plain_operand used.old used.new result }
{
    let words = words_of(words)?;
    let x = valued(alloc, scope, used, inner)?;
    cast_to(alloc, bracket, x, arithmetic_words(words))
}

// ---- operators with more operands

/// Two values, one after the other.
#[derive(Drop)]
struct TwoValues {
    a: Typed,
    b: Typed,
}

/// The values of the first and the third part.
#[cycle(judge)]
fn two_values(
    alloc: Global,
    scope: &Scope,
    used: &mut Used,
    parts: &[Tree],
) -> Result<TwoValues, ElabError>
    ensures { Judges (two_in (plain_scope scope.now) (plain_trees parts.now)) plain_two used.old used.new result }
{
    let [first, _, second, ..] = parts else {
        return Err(ElabError::Memory);
    };
    let a = valued(alloc, scope, used, first)?;
    let b = valued(alloc, scope, used, second)?;
    Ok(TwoValues { a, b })
}

/// An element of an array, or what an operator gives of two values.
fn joined<'t>(
    alloc: Global,
    scope: &Scope,
    kind: Kind,
    sign: &'t Token,
    two: TwoValues,
) -> Result<Operand<'t>, ElabError>
    ensures { Answers (joined_values (plain_scope scope.now) kind (plain_token sign.now) (plain_typed two.a) (plain_typed two.b)) plain_operand result }
{
    match kind {
        Kind::Index => indexed(alloc, scope, sign, two.a, two.b),
        Kind::LogicalAnd => logical(alloc, true, sign, two.a, two.b),
        Kind::LogicalOr => logical(alloc, false, sign, two.a, two.b),
        _ => combined(alloc, scope, sign, two.a, two.b),
    }
}

#[cycle(judge)]
fn on_two<'t>(
    alloc: Global,
    scope: &Scope,
    used: &mut Used,
    kind: Kind,
    sign: &'t Token,
    parts: &[Tree],
) -> Result<Operand<'t>, ElabError>
    ensures { Judges (on_two (plain_scope scope.now) kind (plain_token sign.now) (plain_trees parts.now)) plain_operand used.old used.new result }
{
    let two = two_values(alloc, scope, used, parts)?;
    joined(alloc, scope, kind, sign, two)
}

#[cycle(judge)]
fn assigned<'t>(
    alloc: Global,
    scope: &Scope,
    used: &mut Used,
    sign: &'t Token,
    parts: &[Tree],
) -> Result<Operand<'t>, ElabError>
    ensures { Judges (assigned_in (plain_scope scope.now) (plain_token sign.now) (plain_trees parts.now)) plain_operand used.old used.new result }
{
    let [first, _, second] = parts else {
        return Err(ElabError::Memory);
    };
    let left = written(alloc, scope, used, first, sign)?;
    let right = valued(alloc, scope, used, second)?;
    assignment(alloc, scope, sign, left, right)
}

#[cycle(judge)]
fn conditional<'t>(
    alloc: Global,
    scope: &Scope,
    used: &mut Used,
    parts: &'t [Tree],
) -> Result<Operand<'t>, ElabError>
    ensures { Judges (spec.judged (plain_scope scope.now) (node Kind.Conditional (plain_trees parts.now))) plain_operand used.old used.new result }
{
    let [first, question, second, _, third] = parts else {
        return Err(ElabError::Memory);
    };
    let question = leaf(question)?;
    let tested = condition(alloc, scope, used, first, question)?;
    let a = valued(alloc, scope, used, second)?;
    let b = valued(alloc, scope, used, third)?;
    chosen(alloc, question, tested, a, b)
}

// ---- calls

/// How many entries a list with commas has.
#[tactic(auto, using(crate::proofs::Shapes::half_of_parts))]
pub fn entry_count(parts: &[Tree]) -> usize
    ensures { result ≡ spec.count_entries (plain_trees parts.now) }
{
    parts.len().div_ceil(2)
}

/// A call's arguments, each behind the first with a comma before it.
#[cycle(judge)]
fn arguments(
    alloc: Global,
    scope: &Scope,
    used: &mut Used,
    parts: &[Tree],
    types: &[CType],
    bracket: &Token,
) -> Result<Vec<Expression>, ElabError>
    requires { spec.count_entries (plain_trees parts.now) ≡ length types.now }
    ensures { Judges (spec.judged_arguments (plain_scope scope.now) (map plain_type types.now) (plain_trees parts.now) (plain_token bracket.now)) (λ given. plain_arguments given.items) used.old used.new result }
{
    let mut given = Vec::with_capacity(alloc, types.len())?;
    for (i, ty) in types.iter().enumerate() {
        let Some(tree) = parts.get(2 * i) else {
            return Err(ElabError::Memory);
        };
        let core = passed(alloc, scope, used, tree, ty, bracket)?;
        given.push(Box::into_inner(core))?;
    }
    Ok(given)
}

/// What a call gives has a complete type or none, and there are as many arguments as parameters.
fn may_be_called(
    scope: &Scope,
    signature: &Signature,
    count: usize,
    bracket: &Token,
) -> Result<(), ElabError>
    ensures { Answers (spec.may_be_called (plain_scope scope.now) (plain_signature signature.now) count (plain_token bracket.now)) (λ _. tt) result }
{
    let result = &signature.result;
    let complete = is_void(result) || scope.is_complete(result);
    unless(complete, TypeKind::Incomplete, bracket)?;
    unless(
        count == signature.parameters.len(),
        TypeKind::ArgumentCount,
        bracket,
    )
}

#[tactic(auto, using(core_meaning::specs::PlainLaws::expression_kinds))]
fn call_core(
    alloc: Global,
    scope: &Scope,
    name: &Token,
    given: Vec<Expression>,
) -> Result<Box<Expression>, NoMemory>
    ensures { IfOk result (λ e. plain_expression e.value ≡ program.call (entity_number (plain_scope scope.now).numbers.functions name.now.text.items) (plain_arguments given.items)) }
{
    let number = scope
        .numbers
        .functions
        .get(name.text.as_slice())
        .copied()
        .unwrap_or(0);
    Ok(Box::new(alloc, Expression::Call(number, given))?)
}

/// What a call gives, of the arguments' values.
fn result_of_call<'t>(
    alloc: Global,
    scope: &Scope,
    f: &Callee,
    bracket: &'t Token,
    given: Vec<Expression>,
) -> Result<Operand<'t>, NoMemory>
    ensures { IfOk result (λ x. plain_operand x ≡ spec.result_of_call (plain_scope scope.now) (plain_callee f.now) (plain_token bracket.now) (plain_arguments given.items)) }
{
    let core = call_core(alloc, scope, f.name, given)?;
    let result = Box::new(alloc, copied(alloc, &f.signature.result)?)?;
    Ok(of_value(bracket, result, core))
}

/// Notes the called function's name.
fn noted(alloc: Global, used: &mut Used, name: &Token) -> Result<(), ElabError>
    ensures { Judges (uses (file_entity (plain_token name.now).text)) (λ _. tt) used.old used.new result }
{
    used.note(alloc, name)?;
    Ok(())
}

#[cycle(judge)]
fn called<'t>(
    alloc: Global,
    scope: &Scope,
    used: &mut Used,
    parts: &[Tree],
    f: &Callee,
    bracket: &'t Token,
) -> Result<Operand<'t>, ElabError>
    ensures { Judges (called_with (plain_scope scope.now) (plain_callee f.now) (plain_trees parts.now) (plain_token bracket.now)) plain_operand used.old used.new result }
{
    noted(alloc, used, f.name)?;
    may_be_called(scope, f.signature, entry_count(parts), bracket)?;
    let types = f.signature.parameters.as_slice();
    let given = arguments(alloc, scope, used, parts, types, bracket)?;
    let x = result_of_call(alloc, scope, f, bracket, given)?;
    Ok(x)
}

/// Whether a tree is a list of arguments, or stands for one that is left out.
#[tactic(auto, using(c_tree::specs::TreeLaws::tree_kinds))]
fn is_list(tree: &Tree) -> bool
    ensures { result ≡ is_list (plain_tree tree.now) }
{
    match tree {
        Tree::Leaf(_) => false,
        Tree::Node(kind, parts) => is_list_of(*kind, parts),
    }
}

#[tactic(auto, using(crate::proofs::NodeLaws::absent_list))]
fn is_list_of(kind: Kind, parts: &[Tree]) -> bool
    ensures { result ≡ is_list (node kind (plain_trees parts.now)) }
{
    match kind {
        Kind::Arguments => true,
        Kind::Absent => parts.is_empty(),
        _ => false,
    }
}

/// A call with a list of arguments, or one that is left out.
#[cycle(judge)]
#[tactic(auto, using(c_tree::specs::TreeLaws::tree_kinds))]
fn called_by<'t>(
    alloc: Global,
    scope: &Scope,
    used: &mut Used,
    list: &Tree,
    f: &Callee,
    bracket: &'t Token,
) -> Result<Operand<'t>, ElabError>
    requires { is_list (plain_tree list.now) ≡ true }
    ensures { Judges (called_by (plain_scope scope.now) (plain_callee f.now) (plain_token bracket.now) (plain_tree list.now)) plain_operand used.old used.new result }
{
    match list {
        Tree::Leaf(_) => Err(ElabError::Memory),
        Tree::Node(_, parts) => called(alloc, scope, used, parts, f, bracket),
    }
}

/// A call of what is no function's name.
#[cycle(judge)]
fn not_called<'t>(
    alloc: Global,
    scope: &Scope,
    used: &mut Used,
    first: &Tree,
    bracket: &'t Token,
) -> Result<Operand<'t>, ElabError>
    ensures { Judges (not_called (plain_scope scope.now) (plain_token bracket.now) (plain_tree first.now)) plain_operand used.old used.new result }
{
    valued(alloc, scope, used, first)?;
    Err(refused(TypeKind::BadOperand, bracket))
}

#[cycle(judge)]
fn call<'t>(
    alloc: Global,
    scope: &Scope,
    used: &mut Used,
    parts: &'t [Tree],
) -> Result<Operand<'t>, ElabError>
    ensures { Judges (spec.judged (plain_scope scope.now) (node Kind.Call (plain_trees parts.now))) plain_operand used.old used.new result }
{
    let [first, bracket, list, _] = parts else {
        return Err(ElabError::Memory);
    };
    let bracket = leaf(bracket)?;
    if !is_list(list) {
        return Err(ElabError::Memory);
    }
    match called_function(scope, first) {
        Some(f) => called_by(alloc, scope, used, list, &f, bracket),
        None => not_called(alloc, scope, used, first, bracket),
    }
}

// ---- expressions

/// Operators behind or before their operand.
#[cycle(judge)]
fn node_of_two<'t>(
    alloc: Global,
    scope: &Scope,
    used: &mut Used,
    kind: Kind,
    parts: &'t [Tree],
) -> Result<Operand<'t>, ElabError>
    ensures { Judges (spec.judged (plain_scope scope.now) (node kind (plain_trees parts.now))) plain_operand used.old used.new result }
{
    let [first, second] = parts else {
        return Err(ElabError::Memory);
    };
    match kind {
        Kind::PostfixStep => on_operand(alloc, scope, used, kind, leaf(second)?, first),
        Kind::PrefixStep => on_operand(alloc, scope, used, kind, leaf(first)?, second),
        Kind::Prefix => on_operand(alloc, scope, used, kind, leaf(first)?, second),
        _ => Err(ElabError::Memory),
    }
}

/// Operators between two values.
#[cycle(judge)]
fn between<'t>(
    alloc: Global,
    scope: &Scope,
    used: &mut Used,
    kind: Kind,
    parts: &'t [Tree],
) -> Result<Operand<'t>, ElabError>
    requires { is_between kind ≡ true }
    ensures { Judges (spec.judged (plain_scope scope.now) (node kind (plain_trees parts.now))) plain_operand used.old used.new result }
{
    let [_, sign, _] = parts else {
        return Err(ElabError::Memory);
    };
    on_two(alloc, scope, used, kind, leaf(sign)?, parts)
}

/// Parentheses, members and assignments.
#[cycle(judge)]
fn node_of_three<'t>(
    alloc: Global,
    scope: &Scope,
    used: &mut Used,
    kind: Kind,
    parts: &'t [Tree],
) -> Result<Operand<'t>, ElabError>
    ensures { Judges (spec.judged (plain_scope scope.now) (node kind (plain_trees parts.now))) plain_operand used.old used.new result }
{
    let [first, second, third] = parts else {
        return Err(ElabError::Memory);
    };
    match kind {
        Kind::Parenthesized => judged(alloc, scope, used, second),
        Kind::Selection => selection(alloc, scope, used, first, leaf(second)?, leaf(third)?),
        Kind::Assignment => assigned(alloc, scope, used, leaf(second)?, parts),
        _ => Err(ElabError::Memory),
    }
}

/// Casts, and elements of arrays.
#[cycle(judge)]
fn node_of_four<'t>(
    alloc: Global,
    scope: &Scope,
    used: &mut Used,
    kind: Kind,
    parts: &'t [Tree],
) -> Result<Operand<'t>, ElabError>
    ensures { Judges (spec.judged (plain_scope scope.now) (node kind (plain_trees parts.now))) plain_operand used.old used.new result }
{
    let [first, second, _, fourth] = parts else {
        return Err(ElabError::Memory);
    };
    match kind {
        Kind::Cast => cast(alloc, scope, used, leaf(first)?, fourth, second),
        Kind::Index => on_two(alloc, scope, used, kind, leaf(second)?, parts),
        _ => Err(ElabError::Memory),
    }
}

/// What an expression designates.
#[cycle(judge)]
#[tactic(auto, using(c_tree::specs::TreeLaws::tree_kinds))]
pub fn judged<'t>(
    alloc: Global,
    scope: &Scope,
    used: &mut Used,
    tree: &'t Tree,
) -> Result<Operand<'t>, ElabError>
    ensures { Judges (spec.judged (plain_scope scope.now) (plain_tree tree.now)) plain_operand used.old used.new result }
{
    match tree {
        Tree::Leaf(token) => single_operand(alloc, scope, used, token),
        Tree::Node(kind, parts) => match kind {
            Kind::Texts => text_operand(alloc, scope, parts),
            Kind::PostfixStep | Kind::PrefixStep | Kind::Prefix => node_of_two(
                alloc, scope, used, *kind, parts,
            ),
            Kind::Parenthesized | Kind::Selection | Kind::Assignment => node_of_three(
                alloc, scope, used, *kind, parts,
            ),
            Kind::Call => call(alloc, scope, used, parts),
            Kind::Cast | Kind::Index => node_of_four(alloc, scope, used, *kind, parts),
            Kind::Conditional => conditional(alloc, scope, used, parts),
            Kind::LogicalOr
            | Kind::LogicalAnd
            | Kind::Or
            | Kind::Xor
            | Kind::And
            | Kind::Equality
            | Kind::Relation
            | Kind::Shift
            | Kind::Sum
            | Kind::Product => between(alloc, scope, used, *kind, parts),
            _ => Err(ElabError::Memory),
        },
    }
}
