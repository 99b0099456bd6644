//! What operators make of their operands' values, signed numbers of 64 bits.
ghost use Rattle.std.specs.Prelude.{◌≡◌, ◌<◌, ℕ, ℤ, pos, ◌+ℤ◌, ◌-ℤ◌, ◌*ℤ◌, neg_ℤ, int_div, int_rem, not, ◌&&◌, Option, if◌then◌else◌, option_and_then, IfSome};
ghost use Rattle.std.specs.Int.{int_shr};
ghost use Rattle.std.specs.Int.RustNames.{int_le};
ghost use Rattle.c_text.specs.Expressions as spec;
ghost use Rattle.pp_lines.specs.ExpressionView.{unary_view, binary_view};

use crate::expressions::operators::{Binary, Unary};

/// The largest value.
const LARGEST: u64 = 9_223_372_036_854_775_807;

fn is_zero(value: i64) -> bool
    ensures { result ≡ spec.is_zero value }
{
    value == 0
}

fn truth(holds: bool) -> Option<i64>
    ensures { result ≡ spec.truth holds }
{
    if holds { Some(1) } else { Some(0) }
}

fn negated(value: i64) -> Option<i64>
    ensures { result ≡ spec.within (neg_ℤ value) }
{
    value.checked_neg()
}

/// The value that an operator makes of that of its operand; `None` where it overflows.
pub fn unary_value(operator: Unary, value: i64) -> Option<i64>
    ensures { result ≡ spec.unary_value (unary_view operator) value }
{
    match operator {
        Unary::Plus => Some(value),
        Unary::Minus => negated(value),
        Unary::Negation => truth(is_zero(value)),
        Unary::Complement => Some(!value),
    }
}

fn product(left: i64, right: i64) -> Option<i64>
    ensures { result ≡ spec.within (left *ℤ right) }
{
    left.checked_mul(right)
}

fn sum(left: i64, right: i64) -> Option<i64>
    ensures { result ≡ spec.within (left +ℤ right) }
{
    left.checked_add(right)
}

fn difference(left: i64, right: i64) -> Option<i64>
    ensures { result ≡ spec.within (left -ℤ right) }
{
    left.checked_sub(right)
}

fn quotient(left: i64, right: i64) -> Option<i64>
    ensures { result ≡ (if spec.is_zero right then None else spec.within (int_div left right)) }
{
    left.checked_div(right)
}

fn remainder(left: i64, right: i64) -> Option<i64>
    ensures { result ≡ (if spec.is_zero right then None else spec.after_quotient (int_rem left right) (spec.within (int_div left right))) }
{
    left.checked_rem(right)
}

/// By how many bits a right operand shifts, if it may.
fn shift_of(value: i64) -> Option<u32>
    ensures count { (by : ℕ → Option ℤ) → spec.shifted by value ≡ option_and_then by result }
    ensures within { IfSome result (λ count. count < 64) }
{
    if 0 <= value && value < 64 {
        Some(value as u32)
    } else {
        None
    }
}

fn as_signed(value: u64) -> Option<i64>
    ensures { result ≡ spec.within (pos value) }
{
    if value <= LARGEST {
        Some(value as i64)
    } else {
        None
    }
}

fn shifted_left(value: i64, count: u32) -> Option<i64>
    requires { count < 64 }
    ensures { result ≡ spec.shifted_left value count }
{
    if value < 0 {
        return None;
    }
    let shifted = (value as u64).checked_mul(1 << count)?;
    as_signed(shifted)
}

fn shifted_right(value: i64, count: u32) -> i64
    requires { count < 64 }
    ensures { result ≡ int_shr value count }
{
    value >> count
}

fn left_shift(left: i64, right: i64) -> Option<i64>
    ensures { result ≡ spec.shifted (spec.shifted_left left) right }
{
    match shift_of(right) {
        Some(count) => shifted_left(left, count),
        None => None,
    }
}

fn right_shift(left: i64, right: i64) -> Option<i64>
    ensures { result ≡ spec.shifted (λ count. Some (int_shr left count)) right }
{
    match shift_of(right) {
        Some(count) => Some(shifted_right(left, count)),
        None => None,
    }
}

fn is_equal(left: i64, right: i64) -> bool
    ensures { result ≡ (int_le left right && int_le right left) }
{
    left <= right && right <= left
}

fn are_both_true(left: i64, right: i64) -> bool
    ensures { result ≡ (not (spec.is_zero left) && not (spec.is_zero right)) }
{
    !is_zero(left) && !is_zero(right)
}

fn are_both_false(left: i64, right: i64) -> bool
    ensures { result ≡ (spec.is_zero left && spec.is_zero right) }
{
    is_zero(left) && is_zero(right)
}

/// The value that an operator makes of those of its operands; `None` where it overflows, divides by zero or shifts wrongly:
/// by less than 0 or more than 63 bits, or a negative value to the left.
pub fn binary_value(operator: Binary, left: i64, right: i64) -> Option<i64>
    ensures { result ≡ spec.binary_value (binary_view operator) left right }
{
    match operator {
        Binary::Times => product(left, right),
        Binary::Over => quotient(left, right),
        Binary::Remainder => remainder(left, right),
        Binary::Plus => sum(left, right),
        Binary::Minus => difference(left, right),
        Binary::LeftShift => left_shift(left, right),
        Binary::RightShift => right_shift(left, right),
        Binary::Less => truth(left < right),
        Binary::Greater => truth(right < left),
        Binary::AtMost => truth(left <= right),
        Binary::AtLeast => truth(right <= left),
        Binary::Equal => truth(is_equal(left, right)),
        Binary::Unequal => truth(!is_equal(left, right)),
        Binary::BitsAnd => Some(left & right),
        Binary::BitsXor => Some(left ^ right),
        Binary::BitsOr => Some(left | right),
        Binary::Both => truth(are_both_true(left, right)),
        Binary::Either => truth(!are_both_false(left, right)),
    }
}

/// The value of two operands that an operator connects. One that is skipped need have none.
pub fn connected(operator: Binary, left: Option<i64>, right: Option<i64>) -> Option<i64>
    ensures { result ≡ spec.connected (binary_view operator) left right }
{
    let left = left?;
    match operator {
        Binary::Both if is_zero(left) => Some(0),
        Binary::Either if !is_zero(left) => Some(1),
        _ => binary_value(operator, left, right?),
    }
}

/// The value of the operands of `?` and `:`. The one that isn't chosen need have none.
pub fn chosen(test: Option<i64>, first: Option<i64>, second: Option<i64>) -> Option<i64>
    ensures { result ≡ spec.chosen test first second }
{
    if is_zero(test?) { second } else { first }
}
