//! The expressions of `#if` and `#elif` (6.10.1, 6.5), once macros are replaced.
ghost use Rattle.std.specs.Prelude.{◌≡◌, ◌↔◌, ℤ, [], map, Some, IfOk, option_map};
ghost use Rattle.c_text.specs.Token.{plain_token};
ghost use Rattle.c_text.specs.Expressions.{HasValue};
ghost use Rattle.pp_lines.specs.ExpressionReading.{answer};
ghost use Rattle.pp_lines.specs.ExpressionView.{outcome_view, reader_view, read_on, told};

mod arithmetic;
mod operands;
mod operators;
mod outcomes;
mod reader;
mod signs;

use crate::expressions::outcomes::{HIGHEST, Outcome};
pub use crate::expressions::reader::ExpressionReader;
use crate::expressions::reader::outcome_of;
use c_text::Token;
use cond_formula::NoMemory;
use std::alloc::Global;

/// What the expression of an `#if` or `#elif` line is worth.
#[derive(Clone, Copy, Debug, PartialEq, Eq)]
pub enum Value {
    /// Its value, a signed number of 64 bits. The line's branch is taken where it isn't 0.
    Number(i64),
    /// The tokens are no expression of the engine, or one that is too high or has no value: a sum that overflows, a zero
    /// divisor, a wrong shift.
    Refused,
}

fn value_of(outcome: Option<Outcome>) -> Option<i64>
    ensures { result ≡ answer (option_map outcome_view outcome) }
{
    let outcome = outcome?;
    if outcome.height <= HIGHEST {
        outcome.value
    } else {
        None
    }
}

fn value_or_refusal(value: Option<i64>) -> Value
    ensures { result ≡ told value }
{
    match value {
        Some(number) => Value::Number(number),
        None => Value::Refused,
    }
}

impl ExpressionReader {
    /// The value of the expression that ends here, or its refusal.
    pub fn value(self) -> Value
        ensures { result ≡ read_on (Some (reader_view self)) [] }
    {
        value_or_refusal(value_of(self.end()))
    }
}

/// The value of an expression, in time linear in its tokens. What is skipped, as the right side of `0 && 1 / 0`, need have no
/// value, but must be an expression. A name or keyword that is left is 0, and a text is refused. Numbers and characters are
/// taken to be lawful ones; the contract says what others are worth.
pub fn evaluate(alloc: Global, tokens: &[Token]) -> Result<Value, NoMemory>
    ensures number { IfOk result (λ v. (z : ℤ) → (v ≡ Value.Number z) ↔ HasValue (map plain_token tokens.now) z) }
    ensures refused { IfOk result (λ v. (v ≡ Value.Refused) ↔ ((z : ℤ) → HasValue (map plain_token tokens.now) z → ⊥)) }
{
    let outcome = outcome_of(alloc, tokens)?;
    Ok(value_or_refusal(value_of(outcome)))
}
