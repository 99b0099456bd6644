//! Names, constants and other tokens.
ghost use Rattle.std.specs.Prelude.{◌≡◌, ℕ, Bool, List, ◌&&◌, [], IsTrue, IfOk};
ghost use Rattle.cond_formula.specs.Features.{has};
ghost use Rattle.cond_formula.specs.Conditions.{value};
ghost use Rattle.c_text.specs.Token.{plain_token};
ghost use Rattle.c_tree.specs.Terminals as terminals;
ghost use Rattle.c_tree.specs.declared.terminals.Terminal.TheVariants.{Name};
ghost use Rattle.conditional.specs.Judgements.{fine};
ghost use Rattle.core_meaning.specs.Expressions.{number_operand, character_operand};
ghost use Rattle.operand_types.specs.OperandTypes.{type_of_operand, outcome_as};
ghost use Rattle.operand_types.specs.Operators.{same_number};
ghost use Rattle.cond_operands.specs.Operands.{ShowsOperand};
ghost use Rattle.expression_types.specs.Reading as spec;
ghost use Rattle.cond_nodes.specs.Reads.{ShowsRead};
ghost use Rattle.std.specs.Prelude.{map};
ghost use Rattle.c_text.specs.Constants.{quoted_values};
ghost use Rattle.cond_typing.specs.PartsProgress.{is_byte};

use c_constants::{number_value, quoted_values};
use c_text::Token;
use c_tree::{Kind, Terminal, terminal};
use c_types::CType;
use cond_formula::NoMemory;
use cond_nodes::{CondRead, Knowledge, refused_everywhere};
use cond_operands::Operands;
use conditional::{CondValue, Outcomes};
use operand_rules::{Category, OperandType};
use plain_expressions::type_of_number;
use std::alloc::{AllocError, Global};

/// The type of a number, which the lexer has found to be below 2^64.
fn number(alloc: Global, token: &Token) -> Result<Operands, NoMemory>
    ensures { IfOk result (λ z. (on : ℕ → Bool) → ShowsOperand on (fine (type_of_operand same_number [] (number_operand (plain_token token.now)))) z) }
{
    let text = token.text.as_slice();
    let Some(value) = number_value(text) else {
        return Err(AllocError);
    };
    let one = Outcomes::one(
        alloc,
        OperandType {
            ty: type_of_number(text, value),
            category: Category::Value,
            is_null: value == 0,
            has_complete_struct: true,
        },
    )?;
    Ok(one)
}

/// Whether a character stands for one byte.
fn is_one_byte(alloc: Global, token: &Token) -> Result<bool, NoMemory>
    ensures { IfOk result (λ b. b ≡ is_byte (quoted_values (plain_token token.now).text)) }
{
    match quoted_values(alloc, &token.text)? {
        Some(bytes) => Ok(bytes.len() == 1),
        None => Ok(false),
    }
}

/// The type of a character.
fn character(alloc: Global, token: &Token) -> Result<Operands, NoMemory>
    ensures { IfOk result (λ z. (on : ℕ → Bool) → ShowsOperand on (outcome_as (type_of_operand same_number []) (character_operand (plain_token token.now))) z) }
{
    if !is_one_byte(alloc, token)? {
        return refused_everywhere(alloc);
    }
    let one = Outcomes::one(
        alloc,
        OperandType {
            ty: CType::Int,
            category: Category::Value,
            is_null: false,
            has_complete_struct: true,
        },
    )?;
    Ok(one)
}

/// The type of a token.
fn outcomes<K: Knowledge>(alloc: Global, known: &K, token: &Token) -> Result<Operands, NoMemory>
    ensures { IfOk result (λ z. (c : List Bool) → IsTrue (value (has c) (K.admits known.now))
        → ShowsOperand (has c) (spec.single (K.known known.now c) (plain_token token.now)).outcome z) }
{
    match terminal(token) {
        Terminal::Name => known.object(alloc, &token.text),
        Terminal::Number => number(alloc, token),
        Terminal::Character => character(alloc, token),
        _ => refused_everywhere(alloc),
    }
}

/// Whether the token is a name that stands for an object in all configurations.
fn is_object(token: &Token, outcomes: &Operands) -> bool
    ensures name { IsTrue result → terminals.terminal (plain_token token.now) ≡ Name }
    ensures fine { IsTrue result → outcomes.now.refused.entries.items ≡ [] }
{
    Terminal::Name.is(terminal(token)) && outcomes.refused.entries.is_empty()
}

/// What a token is.
pub fn single<K: Knowledge>(alloc: Global, known: &K, token: &Token) -> Result<CondRead, NoMemory>
    ensures { IfOk result (λ z. (c : List Bool) → IsTrue (value (has c) (K.admits known.now))
        → ShowsRead (has c) (K.callable known.now c) (spec.single (K.known known.now c) (plain_token token.now)) z) }
{
    let outcomes = outcomes(alloc, known, token)?;
    if is_object(token, &outcomes) {
        let callee = CondValue::nothing(alloc);
        return Ok(CondRead { outcomes, callee });
    }
    let callee = known.callee(alloc, &token.text)?;
    Ok(CondRead { outcomes, callee })
}

/// Whether a token is an operand.
pub(crate) fn is_operand(token: &Token) -> bool
    ensures { result ≡ spec.is_operand (plain_token token.now) }
{
    let terminal = terminal(token);
    Terminal::Name.is(terminal) || Terminal::Number.is(terminal) || Terminal::Character.is(terminal)
}

/// Whether a name behind these signs is no operand.
pub(crate) fn is_selected(kind: Kind, signs: &[&Token]) -> bool
    ensures { result ≡ spec.is_selected kind (map (λ t. plain_token t.now) signs.now) }
{
    match kind {
        Kind::Selection => !signs.is_empty(),
        _ => false,
    }
}
