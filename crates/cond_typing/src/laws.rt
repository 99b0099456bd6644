//! What is the null constant.
ghost use Rattle.cond_typing.specs.Readings.{NullConstantsAreNumbers};

/// What is the null constant among expressions is a number, if it is so of what is known.
pub fn null_constants_are_numbers()
    ensures { NullConstantsAreNumbers }
{}
