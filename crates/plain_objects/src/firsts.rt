//! The first values of scalars of file scope (6.6, 6.7.9).
ghost use Rattle.std.specs.Prelude.{◌≡◌, ℕ, Some, option_map};
ghost use Rattle.core_meaning.specs.Plain.{plain_constant, plain_expression, plain_place};
ghost use Rattle.core_meaning.specs.Program.{address, first_element};
ghost use Rattle.core_meaning.specs.Values.{number};
ghost use Rattle.core_meaning.specs.Constancy as constancy;

use core_meaning::{Constant, ConstantPart, Expression, Place};
use plain_declarations::Initial;
use plain_expressions::{constant_value, is_constant};
use plain_scope::ElabError;
use std::alloc::Global;

#[tactic(auto, using(core_meaning::specs::PlainLaws::expression_kinds))]
fn object_address(place: &Place) -> Option<Constant>
    ensures { (globals : ℕ) → option_map (plain_constant globals) result ≡ constancy.address_scalar globals (address (plain_place place.now)) }
{
    match place {
        Place::Global(n) => Some(Constant::Global(*n)),
        Place::Slot(_)
        | Place::Literal(_)
        | Place::Target(_)
        | Place::Member(..)
        | Place::Temporary(..) => None,
    }
}

#[tactic(auto, using(core_meaning::specs::PlainLaws::expression_kinds))]
fn element_address(place: &Place) -> Option<Constant>
    ensures { (globals : ℕ) → option_map (plain_constant globals) result ≡ constancy.address_scalar globals (first_element (plain_place place.now)) }
{
    match place {
        Place::Global(n) => Some(Constant::GlobalElement(*n)),
        Place::Literal(n) => Some(Constant::Literal(*n)),
        Place::Slot(_) | Place::Target(_) | Place::Member(..) | Place::Temporary(..) => None,
    }
}

#[tactic(auto, using(core_meaning::specs::PlainLaws::expression_kinds, crate::specs::FirstScalars::address_there))]
fn first_address(e: &Expression) -> Option<Constant>
    ensures { (globals : ℕ) → option_map (plain_constant globals) result ≡ constancy.address_scalar globals (plain_expression e.now) }
{
    match e {
        Expression::Null => Some(Constant::Null),
        Expression::Address(place) => object_address(place),
        Expression::FirstElement(place) => element_address(place),
        Expression::Number(_)
        | Expression::Read(_)
        | Expression::Convert(..)
        | Expression::Binary(..)
        | Expression::Not(_)
        | Expression::And(..)
        | Expression::Or(..)
        | Expression::Choose(..)
        | Expression::Assign(..)
        | Expression::Update(..)
        | Expression::UpdateAfter(..)
        | Expression::Call(..)
        | Expression::Discard(_) => None,
    }
}

fn first_number(e: &Expression) -> Option<Constant>
    ensures { (globals : ℕ) → option_map (plain_constant globals) result ≡ option_map number (constancy.constant_value (plain_expression e.now)) }
{
    match constant_value(e) {
        Some(value) => Some(Constant::Number(value)),
        None => None,
    }
}

/// The first value that an expression gives a scalar.
#[tactic(auto, using(crate::specs::FirstScalars::number_there))]
pub fn first_scalar(e: &Expression) -> Option<Constant>
    ensures { (globals : ℕ) → option_map (plain_constant globals) result ≡ constancy.first_scalar globals (plain_expression e.now) }
{
    if is_constant(e) {
        first_number(e)
    } else {
        first_address(e)
    }
}
