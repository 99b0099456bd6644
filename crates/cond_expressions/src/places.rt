//! Places in an expression, as values that stand under conditions.
ghost use Rattle.std.specs.Prelude.{◌≡◌, Option};
ghost use Rattle.c_text.specs.Token.{plain_token};
ghost use Rattle.c_text.specs.Expressions.{word_of};
ghost use Rattle.pp_lines.specs.ExpressionReading.{Place, Outcome};
ghost use Rattle.cond_expressions.specs.Places.{place_view, next_place, value_at};

use c_text::Token;
use cond_formula::NoMemory;
use conditional::{Function, Plain};
use pp_lines::{ExpressionReader, Value};
use std::alloc::Global;

/// A place in an expression, or none where no expression goes on like this.
#[derive(Drop)]
pub struct ExpressionPlace {
    pub reader: Option<ExpressionReader>,
}

impl Plain for ExpressionPlace {
    ghost Form = { Option (Place Outcome) };

    ghost form = { place_view };

    fn is_same(&self, other: &ExpressionPlace) -> bool {
        match &self.reader {
            Some(reader) => match &other.reader {
                Some(another) => reader.is_same(another),
                None => false,
            },
            None => other.reader.is_none(),
        }
    }

    fn try_clone(&self, alloc: Global) -> Result<ExpressionPlace, NoMemory> {
        match &self.reader {
            Some(reader) => Ok(ExpressionPlace {
                reader: Some(reader.try_clone(alloc)?),
            }),
            None => Ok(ExpressionPlace { reader: None }),
        }
    }
}

/// Reads a token.
#[derive(Clone, Copy)]
pub struct Taking<'a> {
    pub token: &'a Token,
}

impl Function<ExpressionPlace, ExpressionPlace> for Taking<'_> {
    ghost answers = { λ f p q. place_view q ≡ next_place (place_view p) (word_of (plain_token f.token.now)) };

    fn apply(&self, alloc: Global, place: &ExpressionPlace) -> Result<ExpressionPlace, NoMemory> {
        match &place.reader {
            Some(reader) => {
                let before = reader.try_clone(alloc)?;
                let reader = before.take(alloc, self.token)?;
                Ok(ExpressionPlace { reader })
            }
            None => Ok(ExpressionPlace { reader: None }),
        }
    }
}

/// What an expression is worth, as a value that stands under conditions.
#[derive(Clone, Copy)]
pub struct ExpressionValue {
    pub value: Value,
}

impl Plain for ExpressionValue {
    ghost use Rattle.pp_lines.specs.declared.expressions.Value.{Value};

    ghost Form = { Value };

    ghost form = { λ v. v.value };

    fn is_same(&self, other: &ExpressionValue) -> bool {
        self.value == other.value
    }

    fn try_clone(&self, _alloc: Global) -> Result<ExpressionValue, NoMemory> {
        Ok(*self)
    }
}

/// Ends an expression.
#[derive(Clone, Copy)]
pub struct Ending;

impl Function<ExpressionPlace, ExpressionValue> for Ending {
    ghost answers = { λ _ p v. v.value ≡ value_at (place_view p) };

    fn apply(&self, alloc: Global, place: &ExpressionPlace) -> Result<ExpressionValue, NoMemory> {
        match &place.reader {
            Some(reader) => {
                let last = reader.try_clone(alloc)?;
                Ok(ExpressionValue {
                    value: last.value(),
                })
            }
            None => Ok(ExpressionValue {
                value: Value::Refused,
            }),
        }
    }
}
