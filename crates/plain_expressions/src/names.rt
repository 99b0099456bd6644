//! Operands of one token, and texts (6.4.4, 6.4.5, 6.5.1).
ghost use Rattle.std.specs.Prelude.{◌≡◌, ◌+◌, true, IfOk, length};
ghost use Rattle.c_text.specs.Token.{plain_token};
ghost use Rattle.c_types.specs.Types.{plain_type, array_of, char};
ghost use Rattle.c_tree.specs.Terminals as terminals;
ghost use Rattle.c_tree.specs.Trees.{plain_trees};
ghost use Rattle.core_meaning.specs.Program as program;
ghost use Rattle.core_meaning.specs.Entities.{local_in, entity_number};
ghost use Rattle.core_meaning.specs.Typing as typing;
ghost use Rattle.core_meaning.specs.Expressions as spec;
ghost use Rattle.plain_scope.specs.PlainScope.{plain_scope};
ghost use Rattle.plain_scope.specs.Judgements.{Answers, Judges};
ghost use Rattle.plain_operands.specs.PlainOperands.{plain_operand};
ghost use Rattle.plain_expressions.specs.Steps.{number_answer, text_operand};

use crate::constants::{character, text_bytes, type_of_number};
use c_constants::number_value;
use c_text::Token;
use c_tree::{Terminal, Tree, terminal};
use c_types::CType;
use cond_formula::NoMemory;
use core_meaning::{Expression, Place, TypeKind};
use plain_operands::{Operand, of_object, of_value};
use plain_scope::{ElabError, Local, Scope, Sort, Used, copied, leaf, refused};
use std::alloc::Global;

#[tactic(auto, using(core_meaning::specs::PlainLaws::expression_kinds))]
fn number_operand(alloc: Global, token: &Token) -> Result<Operand<'_>, ElabError>
    ensures { Answers (number_answer (plain_token token.now)) plain_operand result }
{
    let Some(value) = number_value(token.text.as_slice()) else {
        return Err(ElabError::Memory);
    };
    let ty = Box::new(alloc, type_of_number(token.text.as_slice(), value))?;
    let core = Box::new(alloc, Expression::Number(i128::from(value)))?;
    let mut operand = of_value(token, ty, core);
    operand.is_null = value == 0;
    Ok(operand)
}

#[tactic(auto, using(core_meaning::specs::PlainLaws::expression_kinds, c_types::specs::TypeLaws::type_kinds))]
fn character_operand(alloc: Global, token: &Token) -> Result<Operand<'_>, ElabError>
    ensures { Answers (spec.character_operand (plain_token token.now)) plain_operand result }
{
    let value = character(alloc, token.text.as_slice())?;
    let core = Box::new(alloc, Expression::Number(value))?;
    let ty = Box::new(alloc, CType::Int)?;
    Ok(of_value(token, ty, core))
}

#[tactic(auto, using(core_meaning::specs::PlainLaws::expression_kinds))]
fn local_operand<'t>(
    alloc: Global,
    token: &'t Token,
    found: &Local,
) -> Result<Operand<'t>, NoMemory>
    ensures { IfOk result (λ x. plain_operand x ≡ typing.of_object (plain_token token.now) (plain_type found.now.ty) (program.slot found.now.slot) true) }
{
    let ty = Box::new(alloc, copied(alloc, &found.ty)?)?;
    let place = Box::new(alloc, Place::Slot(found.slot))?;
    Ok(of_object(token, ty, place, true))
}

#[tactic(auto, using(core_meaning::specs::PlainLaws::expression_kinds))]
fn global_operand<'t>(
    alloc: Global,
    scope: &Scope,
    token: &'t Token,
    ty: &CType,
) -> Result<Operand<'t>, NoMemory>
    ensures { IfOk result (λ x. plain_operand x ≡ typing.of_object (plain_token token.now) (plain_type ty.now) (program.global (entity_number (plain_scope scope.now).numbers.globals token.now.text.items)) true) }
{
    let number = scope
        .numbers
        .globals
        .get(token.text.as_slice())
        .copied()
        .unwrap_or(0);
    let ty = Box::new(alloc, copied(alloc, ty)?)?;
    let place = Box::new(alloc, Place::Global(number))?;
    Ok(of_object(token, ty, place, true))
}

fn file_operand<'t>(
    alloc: Global,
    scope: &Scope,
    used: &mut Used,
    token: &'t Token,
) -> Result<Operand<'t>, ElabError>
    ensures { Judges (spec.file_name_operand (plain_scope scope.now) (plain_token token.now) ((plain_scope scope.now).file_names token.now.text.items)) plain_operand used.old used.new result }
{
    let Some(found) = scope.file_names.get(token.text.as_slice()) else {
        return Err(refused(TypeKind::Undeclared, token));
    };
    match &found.sort {
        Sort::Variable(ty) => {
            used.note(alloc, token)?;
            let x = global_operand(alloc, scope, token, ty)?;
            Ok(x)
        }
        Sort::Function(_) => Err(refused(TypeKind::Misplaced, token)),
    }
}

fn name_operand<'t>(
    alloc: Global,
    scope: &Scope,
    used: &mut Used,
    token: &'t Token,
) -> Result<Operand<'t>, ElabError>
    ensures { Judges (spec.name_operand (plain_scope scope.now) (plain_token token.now) (local_in (plain_scope scope.now).blocks token.now.text.items)) plain_operand used.old used.new result }
{
    match scope.local(token.text.as_slice()) {
        Some(found) => {
            let x = local_operand(alloc, token, found)?;
            Ok(x)
        }
        None => file_operand(alloc, scope, used, token),
    }
}

pub fn single_operand<'t>(
    alloc: Global,
    scope: &Scope,
    used: &mut Used,
    token: &'t Token,
) -> Result<Operand<'t>, ElabError>
    ensures { Judges (spec.single_operand (plain_scope scope.now) (plain_token token.now) (terminals.terminal (plain_token token.now))) plain_operand used.old used.new result }
{
    match terminal(token) {
        Terminal::Name => name_operand(alloc, scope, used, token),
        Terminal::Number => number_operand(alloc, token),
        Terminal::Character => character_operand(alloc, token),
        _ => Err(ElabError::Memory),
    }
}

#[tactic(auto, using(core_meaning::specs::PlainLaws::expression_kinds, c_types::specs::TypeLaws::type_kinds))]
fn literal_operand<'t>(
    alloc: Global,
    scope: &Scope,
    token: &'t Token,
    bytes: &[u8],
    count: u32,
) -> Result<Operand<'t>, NoMemory>
    requires { count ≡ length bytes.now + 1 }
    ensures { IfOk result (λ x. plain_operand x ≡ typing.of_object (plain_token token.now) (array_of char (length bytes.now + 1)) (program.literal (entity_number (plain_scope scope.now).numbers.literals bytes.now)) true) }
{
    let number = scope.literals.get(bytes).copied().unwrap_or(0);
    let ty = CType::Array(Box::new(alloc, CType::Char)?, count);
    let ty = Box::new(alloc, ty)?;
    let place = Box::new(alloc, Place::Literal(number))?;
    Ok(of_object(token, ty, place, true))
}

/// A text that is too long for a count of 32 bits is refused as want of memory.
#[tactic(auto, using(c_tree::specs::TreeLaws::tree_kinds))]
pub fn text_operand<'t>(
    alloc: Global,
    scope: &Scope,
    parts: &'t [Tree],
) -> Result<Operand<'t>, ElabError>
    ensures { Answers (text_operand (plain_scope scope.now) (plain_trees parts.now)) plain_operand result }
{
    let bytes = text_bytes(alloc, parts)?;
    let [first, ..] = parts else {
        return Err(ElabError::Memory);
    };
    let token = leaf(first)?;
    let Ok(length) = u32::try_from(bytes.len()) else {
        return Err(ElabError::Memory);
    };
    let Some(count) = length.checked_add(1) else {
        return Err(ElabError::Memory);
    };
    let x = literal_operand(alloc, scope, token, bytes.as_slice(), count)?;
    Ok(x)
}
