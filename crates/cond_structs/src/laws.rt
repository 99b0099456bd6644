//! The law on how members are declared.
ghost use Rattle.cond_structs.specs.Laws.{DeclarationsAreRead};

/// The declarations of a struct's members, one after the other, declare the members that the struct has, and one is refused exactly where they are.
pub fn declarations_are_read()
    ensures { DeclarationsAreRead }
{}
