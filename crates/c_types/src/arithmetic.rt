//! Arithmetic on values of integer types (6.5.5 to 6.5.12).
ghost use Rattle.std.specs.Prelude.{◌≡◌, ◌<◌, ◌^◌, ◌+ℤ◌, ◌-ℤ◌, ◌*ℤ◌, ◌≤ℤ◌, ◌<ℤ◌, pos, IsTrue, int_div, int_rem, unsigned_abs, ◌&&◌, false};
ghost use Rattle.std.specs.Int.{CanDivide, w128};
ghost use Rattle.std.specs.Int.RustNames.{FitsSigned};
ghost use Rattle.c_types.specs.Types.{plain_type};
ghost use Rattle.c_types.specs.Integers as integer;
ghost use Rattle.c_types.specs.Integers.{IsValue};
ghost use Rattle.c_types.specs.Arithmetic as spec;

use crate::integers::{convert, is_in_range, is_signed, modulus, remainder, width};
use crate::types::CType;

/// An operator with two operands that are both evaluated.
#[derive(Clone, Copy, Debug, PartialEq)]
pub enum BinaryOp {
    Mul,
    Div,
    Rem,
    Add,
    Sub,
    Shl,
    Shr,
    Lt,
    Gt,
    Le,
    Ge,
    Eq,
    Ne,
    BitAnd,
    BitXor,
    BitOr,
}

/// What arithmetic gives.
#[derive(Clone, Copy, Debug, PartialEq)]
pub enum Arith {
    Value(i128),
    /// The behaviour is undefined (3.4.3).
    Undefined,
}

/// What an operator gives whose mathematical result is this number.
fn reduced(ty: &CType, value: i128) -> Arith
    requires { IsTrue (integer.is_integer (plain_type ty.now)) }
    ensures { result ≡ spec.reduced (plain_type ty.now) value }
{
    if !is_signed(ty) {
        Arith::Value(convert(ty, value))
    } else if is_in_range(ty, value) {
        Arith::Value(value)
    } else {
        Arith::Undefined
    }
}

/// A product of `unsigned long` values may have 128 bits.
fn unsigned_product(ty: &CType, a: i128, b: i128) -> i128
    requires unsigned { integer.is_signed (plain_type ty.now) ≡ false }
    requires left { IsValue (plain_type ty.now) a }
    requires right { IsValue (plain_type ty.now) b }
    ensures { result ≡ integer.converted (plain_type ty.now) (a *ℤ b) }
{
    let product = (a as u128) * (b as u128);
    (product % (modulus(ty) as u128)) as i128
}

fn exact_product(a: i128, b: i128) -> i128
    requires { FitsSigned w128 (a *ℤ b) }
    ensures { result ≡ a *ℤ b }
{
    a * b
}

fn product(ty: &CType, a: i128, b: i128) -> Arith
    requires left { IsValue (plain_type ty.now) a }
    requires right { IsValue (plain_type ty.now) b }
    ensures { result ≡ spec.reduced (plain_type ty.now) (a *ℤ b) }
{
    if is_signed(ty) {
        reduced(ty, exact_product(a, b))
    } else {
        Arith::Value(unsigned_product(ty, a, b))
    }
}

fn sum(ty: &CType, a: i128, b: i128) -> Arith
    requires left { IsValue (plain_type ty.now) a }
    requires right { IsValue (plain_type ty.now) b }
    ensures { result ≡ spec.reduced (plain_type ty.now) (a +ℤ b) }
{
    reduced(ty, a + b)
}

fn difference(ty: &CType, a: i128, b: i128) -> Arith
    requires left { IsValue (plain_type ty.now) a }
    requires right { IsValue (plain_type ty.now) b }
    ensures { result ≡ spec.reduced (plain_type ty.now) (a -ℤ b) }
{
    reduced(ty, a - b)
}

fn quotient(ty: &CType, a: i128, b: i128) -> Arith
    requires left { IsValue (plain_type ty.now) a }
    requires right { IsValue (plain_type ty.now) b }
    ensures { result ≡ spec.divided (plain_type ty.now) a b (int_div a b) }
{
    match a.checked_div(b) {
        Some(quotient) if is_in_range(ty, quotient) => Arith::Value(quotient),
        _ => Arith::Undefined,
    }
}

fn remainder_of(a: i128, b: i128) -> i128
    requires { CanDivide w128 a b }
    ensures { result ≡ int_rem a b }
{
    a % b
}

fn division_remainder(ty: &CType, a: i128, b: i128) -> Arith
    requires left { IsValue (plain_type ty.now) a }
    requires right { IsValue (plain_type ty.now) b }
    ensures { result ≡ spec.divided (plain_type ty.now) a b (int_rem a b) }
{
    match a.checked_div(b) {
        Some(quotient) if is_in_range(ty, quotient) => Arith::Value(remainder_of(a, b)),
        _ => Arith::Undefined,
    }
}

fn is_shift(ty: &CType, count: i128) -> bool
    ensures { result ≡ spec.is_shift (plain_type ty.now) count }
{
    0 <= count && count < i128::from(width(ty))
}

fn power_of_two(exponent: i128) -> i128
    requires not_negative { pos 0 ≤ℤ exponent }
    requires small { exponent <ℤ pos 64 }
    ensures exact { result ≡ pos (2 ^ unsigned_abs exponent) }
    ensures bound { result ≤ℤ pos (2 ^ 63) }
{
    1 << exponent
}

fn left_shift(ty: &CType, a: i128, b: i128) -> Arith
    requires left { IsValue (plain_type ty.now) a }
    ensures { result ≡ spec.shifted_left (plain_type ty.now) a b }
{
    if is_shift(ty, b) && a >= 0 {
        reduced(ty, exact_product(a, power_of_two(b)))
    } else {
        Arith::Undefined
    }
}

fn right_shift(ty: &CType, a: i128, b: i128) -> Arith
    requires left { IsValue (plain_type ty.now) a }
    ensures { result ≡ spec.shifted_right (plain_type ty.now) a b }
{
    if is_shift(ty, b) {
        Arith::Value(a >> b)
    } else {
        Arith::Undefined
    }
}

fn truth(holds: bool) -> Arith
    ensures { result ≡ spec.truth holds }
{
    Arith::Value(i128::from(holds))
}

fn is_equal(a: i128, b: i128) -> bool
    ensures { result ≡ spec.equal a b }
{
    a <= b && b <= a
}

/// The bits of a value in two's complement.
fn bits_of(ty: &CType, value: i128) -> u64
    ensures { result ≡ spec.bits_of (plain_type ty.now) value }
{
    remainder(ty, value) as u64
}

fn value_of_bits(ty: &CType, bits: u64) -> Arith
    requires { IsTrue (integer.is_integer (plain_type ty.now)) }
    ensures { result ≡ Arith.Value (integer.converted (plain_type ty.now) (pos bits)) }
{
    Arith::Value(convert(ty, i128::from(bits)))
}

/// The value of an operator at two values of a type; the right operand of a shift may be of any integer type.
pub fn binary(op: BinaryOp, ty: &CType, a: i128, b: i128) -> Arith
    requires left { IsValue (plain_type ty.now) a }
    requires right { spec.IsRightOperand op (plain_type ty.now) b }
    ensures { result ≡ spec.binary_value op (plain_type ty.now) a b }
{
    match op {
        BinaryOp::Mul => product(ty, a, b),
        BinaryOp::Div => quotient(ty, a, b),
        BinaryOp::Rem => division_remainder(ty, a, b),
        BinaryOp::Add => sum(ty, a, b),
        BinaryOp::Sub => difference(ty, a, b),
        BinaryOp::Shl => left_shift(ty, a, b),
        BinaryOp::Shr => right_shift(ty, a, b),
        BinaryOp::Lt => truth(a < b),
        BinaryOp::Gt => truth(a > b),
        BinaryOp::Le => truth(a <= b),
        BinaryOp::Ge => truth(a >= b),
        BinaryOp::Eq => truth(is_equal(a, b)),
        BinaryOp::Ne => truth(!is_equal(a, b)),
        BinaryOp::BitAnd => value_of_bits(ty, bits_of(ty, a) & bits_of(ty, b)),
        BinaryOp::BitXor => value_of_bits(ty, bits_of(ty, a) ^ bits_of(ty, b)),
        BinaryOp::BitOr => value_of_bits(ty, bits_of(ty, a) | bits_of(ty, b)),
    }
}
