//! Laws of conversions. Each function is its contract alone.
ghost use Rattle.std.specs.Prelude.{◌≡◌, ℤ, IsTrue};
ghost use Rattle.c_types.specs.Types.{PlainType};
ghost use Rattle.c_types.specs.Integers.{is_integer, IsValue, converted, OneConversion};

/// What a number is converted to is the one value of the type that differs from it by a multiple of 2 to the type's width.
pub fn a_conversion_is_the_one_value()
    ensures { (t : PlainType) (z : ℤ) → IsTrue (is_integer t) → OneConversion t z }
{}

/// A value of the type is converted to itself, so converting again changes nothing.
pub fn converting_again_changes_nothing()
    ensures { (t : PlainType) (z : ℤ) → IsValue t z → converted t z ≡ z }
{}
