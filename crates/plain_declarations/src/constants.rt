//! Which first values the scalars of globals may have (6.6, 6.7.9).
ghost use Rattle.std.specs.Prelude.{◌≡◌, is_some};
ghost use Rattle.core_meaning.specs.Plain.{plain_expression, plain_place};
ghost use Rattle.core_meaning.specs.Constancy as spec;
ghost use Rattle.plain_scope.specs.PlainScope.{plain_scope};
ghost use Rattle.plain_declarations.specs.Entries.{globals_if};
ghost use Rattle.plain_declarations.specs.FirstValues.{has_address, has_element};

use core_meaning::{Expression, Place};
use plain_expressions::{constant_value, is_constant};
use plain_scope::Scope;

#[tactic(auto, using(core_meaning::specs::PlainLaws::expression_kinds))]
fn has_address(place: &Place) -> bool
    ensures { result ≡ has_address (plain_place place.now) }
{
    match place {
        Place::Global(_) => true,
        Place::Slot(_)
        | Place::Literal(_)
        | Place::Target(_)
        | Place::Member(..)
        | Place::Temporary(..) => false,
    }
}

#[tactic(auto, using(core_meaning::specs::PlainLaws::expression_kinds))]
fn has_element(place: &Place) -> bool
    ensures { result ≡ has_element (plain_place place.now) }
{
    match place {
        Place::Global(_) | Place::Literal(_) => true,
        Place::Slot(_) | Place::Target(_) | Place::Member(..) | Place::Temporary(..) => false,
    }
}

/// Whether an expression is the null constant, the address of a global or of its first element, or a text.
#[tactic(auto, using(core_meaning::specs::PlainLaws::expression_kinds, crate::specs::FirstValues::addresses))]
fn is_address(e: &Expression) -> bool
    ensures { result ≡ is_some (spec.address_scalar 0 (plain_expression e.now)) }
{
    match e {
        Expression::Null => true,
        Expression::Address(place) => has_address(place),
        Expression::FirstElement(place) => has_element(place),
        Expression::Number(_)
        | Expression::Read(_)
        | Expression::Convert(..)
        | Expression::Binary(..)
        | Expression::Not(_)
        | Expression::And(..)
        | Expression::Or(..)
        | Expression::Choose(..)
        | Expression::Assign(..)
        | Expression::Update(..)
        | Expression::UpdateAfter(..)
        | Expression::Call(..)
        | Expression::Discard(_) => false,
    }
}

/// Whether a scalar of a global may have this first value.
#[tactic(auto, using(crate::specs::FirstValues::first_constant, crate::specs::FirstValues::first_address))]
fn has_first_value(e: &Expression) -> bool
    ensures { result ≡ is_some (spec.first_scalar 0 (plain_expression e.now)) }
{
    if is_constant(e) {
        constant_value(e).is_some()
    } else {
        is_address(e)
    }
}

/// Whether an initialiser may have this value: one of a global must be constant.
pub fn is_allowed(scope: &Scope, constant: bool, e: &Expression) -> bool
    ensures { result ≡ spec.is_allowed (plain_scope scope.now) (globals_if constant) (plain_expression e.now) }
{
    if constant { has_first_value(e) } else { true }
}
