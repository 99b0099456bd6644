//! What is known of an expression that is read: how high it is, and its value.
ghost use Rattle.std.specs.Prelude.{◌≡◌, ◌+◌, min, max};
ghost use Rattle.pp_lines.specs.ExpressionReading as reading;
ghost use Rattle.pp_lines.specs.ExpressionReading.{outcomes};
ghost use Rattle.pp_lines.specs.ExpressionView.{unary_view, binary_view, outcome_view};

use crate::expressions::arithmetic::{chosen, connected, unary_value};
use crate::expressions::operators::{Binary, Unary};

/// The most that an expression may be high.
pub const HIGHEST: u32 = 128;

/// How high an expression is, and its value if it has one. Above [`HIGHEST`] a height counts as one more.
#[derive(Clone, Copy, Debug, PartialEq, Eq)]
pub struct Outcome {
    pub height: u32,
    pub value: Option<i64>,
}

fn raised(height: u32) -> u32
    ensures { result ≡ reading.raised height }
{
    height.min(HIGHEST) + 1
}

impl Outcome {
    /// That of an operand.
    pub fn of_operand(value: i64) -> Outcome
        ensures { outcome_view result ≡ record { height = 1; value = Some value } }
    {
        Outcome {
            height: 1,
            value: Some(value),
        }
    }

    pub fn in_group(self) -> Outcome
        ensures { outcome_view result ≡ outcomes.in_group (outcome_view self) }
    {
        Outcome {
            height: raised(self.height),
            value: self.value,
        }
    }

    pub fn behind_unary(self, operator: Unary) -> Outcome
        ensures { outcome_view result ≡ outcomes.of_unary (unary_view operator) (outcome_view self) }
    {
        Outcome {
            height: raised(self.height),
            value: self.value.and_then(|value| unary_value(operator, value)),
        }
    }

    pub fn connected(self, operator: Binary, right: Outcome) -> Outcome
        ensures { outcome_view result ≡ outcomes.of_binary (binary_view operator) (outcome_view self) (outcome_view right) }
    {
        Outcome {
            height: raised(self.height.max(right.height)),
            value: connected(operator, self.value, right.value),
        }
    }

    pub fn choosing(self, first: Outcome, second: Outcome) -> Outcome
        ensures { outcome_view result ≡ outcomes.of_choice (outcome_view self) (outcome_view first) (outcome_view second) }
    {
        Outcome {
            height: raised(self.height.max(first.height.max(second.height))),
            value: chosen(self.value, first.value, second.value),
        }
    }
}
